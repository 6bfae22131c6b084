// Whether q is a prime.
fn is_prime(q: u32) -> bool {
    for k in 2..q {
        if q % k == 0 {
            return false;
        }
    }
    q > 1
}

/// The index of the group of level n: n times the product of 1 + 1/q over the primes q that divide n.
pub fn index(n: u32) -> u32 {
    let mut m = n;
    for q in 2..=n {
        if n % q == 0 && is_prime(q) {
            m = m.saturating_add(m / q);
        }
    }
    m
}

// The number of units modulo n: n times the product of 1 - 1/q over the primes q that divide n.
fn units(n: u32) -> u32 {
    let mut count = n;
    for q in 2..=n {
        if n % q == 0 && is_prime(q) {
            count -= count / q;
        }
    }
    count
}

// The greatest number that divides both.
fn common_divisor(a: u32, b: u32) -> u32 {
    let mut greatest = 1;
    for g in 1..=a {
        if a % g == 0 && b % g == 0 {
            greatest = g;
        }
    }
    greatest
}

// The number of cusps: for each divisor d of n, as many as there are units modulo gcd(d, n/d).
fn cusps(n: u32) -> u32 {
    let mut sum = 0u32;
    for d in 1..=n {
        if n % d == 0 {
            sum = sum.saturating_add(units(common_divisor(d, n / d)));
        }
    }
    sum
}

// The number of elliptic points of order 2: the solutions of x^2 + 1 = 0 modulo n.
fn elliptic_of_order_two(n: u32) -> u32 {
    let mut count = 0u32;
    for x in 0..n {
        let x = u64::from(x);
        if (x * x + 1) % u64::from(n) == 0 {
            count = count.saturating_add(1);
        }
    }
    count
}

// The number of elliptic points of order 3: the solutions of x^2 + x + 1 = 0 modulo n.
fn elliptic_of_order_three(n: u32) -> u32 {
    let mut count = 0u32;
    for x in 0..n {
        let x = u64::from(x);
        if (x * x + x + 1) % u64::from(n) == 0 {
            count = count.saturating_add(1);
        }
    }
    count
}

// The genus g of the modular curve: g - 1 = m/12 - e2/4 - e3/3 - cusps/2.
fn genus(n: u32) -> u32 {
    let e2 = u64::from(elliptic_of_order_two(n));
    let e3 = u64::from(elliptic_of_order_three(n));
    let whole = 12 + u64::from(index(n));
    let less = 3 * e2 + 4 * e3 + 6 * u64::from(cusps(n));
    (whole.saturating_sub(less) / 12) as u32
}

/// The dimension of the symbols of level n modulo the relations, over a field of characteristic p: it is
/// 2 g + cusps - 1, greater by e2 - 1 for p = 2 where there are elliptic points of order 2, and by e3 - 1
/// for p = 3 where there are those of order 3.
pub fn dimension(n: u32, p: u32) -> u64 {
    let more = if p == 2 {
        elliptic_of_order_two(n).saturating_sub(1)
    } else if p == 3 {
        elliptic_of_order_three(n).saturating_sub(1)
    } else {
        0
    };
    let sum = 2 * u64::from(genus(n)) + u64::from(cusps(n)) + u64::from(more);
    sum.saturating_sub(1)
}
