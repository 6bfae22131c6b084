ghost use Rattle.std.specs.Prelude.{◌≡◌, ◌<◌, ◌≤◌, ◌+◌, ◌*◌, ◌%◌, ◌^◌};
ghost use Rattle.linear_algebra.specs.Prime.{IsPrime};

// n or n - p, the one below p. There is no branch: below p the difference wraps to a number past n.
#[inline(always)]
pub fn reduced_once(n: u32, p: u32) -> u32
    requires range { n < p + p }
    requires small { p ≤ 2 ^ 31 }
    ensures { result ≡ n % p }
{
    n.min(n.wrapping_sub(p))
}

// The inverse of a modulo the prime p: `x` keeps a * x congruent to `n`, while n falls to p % n.
pub fn inverse_modulo(p: u32, a: u32) -> u32
    requires prime { IsPrime p }
    requires nonzero { 0 < a }
    requires below { a < p }
    ensures value { (a * result) % p ≡ 1 }
    ensures below { result < p }
{
    let mut x = 1;
    let mut n = a;
    while n > 1 {
        x = (u64::from(p - p / n) * u64::from(x) % u64::from(p)) as u32;
        n = p % n;
    }
    x
}
