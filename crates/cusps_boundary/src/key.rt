ghost use Rattle.std.specs.Prelude.{◌≡◌, ◌≢◌, ◌<◌, length};
ghost use Rattle.p1_normal.specs.Points.{symbol_at, symbols};
ghost use Rattle.cusps_boundary.specs.Keys.{IsCuspKey};

use p1_normal::{Level, gcd};

// The first part of a symbol, and the level for 0: its common divisor with the level.
fn divisor_of(n: u32, u: u32) -> u32
    ensures zero { u ≡ 0 → result ≡ n }
    ensures other { u ≢ 0 → result ≡ u }
{
    if u == 0 { n } else { u }
}

/// The key (g, r) of the cusp of symbol k: with the symbol scaled to (g:v), where g is the greatest
/// common divisor of its first part and N, r is v modulo the greatest common divisor of g and N/g.
/// Two symbols have one key exactly where they lie in one cusp, which `cusp_key_laws` states. Costs
/// one common divisor; takes no memory. A symbol begins with its g, or with 0 for N, so nothing is
/// scaled here.
pub fn cusp_key(level: &Level, k: u32) -> (u32, u32)
    requires place { k < length (symbols level.now) }
    ensures key { IsCuspKey level.now (symbol_at level.now k) result }
{
    let n = level.modulus();
    let p = level.symbol(k);
    let g = divisor_of(n, p.u);
    (g, p.v % gcd(g, n / g))
}
