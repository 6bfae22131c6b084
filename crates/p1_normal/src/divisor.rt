ghost use Rattle.std.specs.Prelude.{◌≡◌};
ghost use Rattle.p1_normal.specs.Units.{gcd as gcd_of};

/// The greatest common divisor, and 0 for 0 and 0, by Euclid's steps.
pub fn gcd(a: u32, b: u32) -> u32
    ensures { result ≡ gcd_of a b }
{
    let (mut x, mut y) = (a, b);
    while y > 0 {
        let rest = x % y;
        x = y;
        y = rest;
    }
    x
}
