ghost use Rattle.std.specs.Prelude.{◌≡◌, ◌<◌, ◌≤◌, ◌+ℤ◌, ◌*◌, ◌*ℤ◌, pos, ℕ, unsigned_abs};
ghost use Rattle.p1_normal.specs.Actions.{image, IsSmall};
ghost use Rattle.linear_algebra.specs.Integers.{residue_of};
ghost use Rattle.p1_normal.specs.Points.{IsBelow};

use crate::level::MAX_LEVEL;
use crate::matrix::{MAX_ENTRY, Matrix};
use crate::point::Point;

// The product.
fn times(u: u32, x: i32) -> i32
    requires first { u ≤ MAX_LEVEL }
    requires second { unsigned_abs x ≤ MAX_ENTRY }
    ensures product { result ≡ pos u *ℤ x }
    ensures bound { unsigned_abs result ≤ MAX_LEVEL * MAX_ENTRY }
{
    u as i32 * x
}

// The residue of u x + v y.
fn part(n: u32, u: u32, x: i32, v: u32, y: i32) -> u32
    requires level { (0 < n) × (n ≤ MAX_LEVEL) }
    requires numbers { (u ≤ MAX_LEVEL) × (v ≤ MAX_LEVEL) }
    requires entries { (unsigned_abs x ≤ MAX_ENTRY) × (unsigned_abs y ≤ MAX_ENTRY) }
    ensures residue { result ≡ residue_of n (pos u *ℤ x +ℤ pos v *ℤ y) }
    ensures below { result < n }
{
    let sum = times(u, x) + times(v, y);
    sum.rem_euclid(n as i32) as u32
}

// The pair times the matrix, modulo n.
pub fn image_of(n: u32, p: Point, matrix: &Matrix) -> Point
    requires level { (0 < n) × (n ≤ MAX_LEVEL) }
    requires below { IsBelow n p }
    requires entries { IsSmall matrix.now }
    ensures image { result ≡ image n p matrix.now }
    ensures below { IsBelow n result }
{
    Point {
        u: part(n, p.u, matrix.a, p.v, matrix.c),
        v: part(n, p.u, matrix.b, p.v, matrix.d),
    }
}
