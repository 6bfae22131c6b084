ghost use Rattle.std.specs.Prelude.{◌<◌, IfSome};

use std::alloc::{AllocError, Global};

/// The number of entries of a row; a narrower one is 0 past its width.
pub const WIDTH: usize = 6;

/// Numbers below a prime p.
pub type Row = [u32; WIDTH];

pub const ZEROS: Row = [0; WIDTH];

fn product(p: u32, a: u32, b: u32) -> u32
    requires { 0 < p }
{
    (u64::from(a) * u64::from(b) % u64::from(p)) as u32
}

// The number that has the product 1 with a.
fn inverse(p: u32, a: u32) -> u32
    requires { 0 < p }
{
    for b in 1..p {
        if product(p, a, b) == 1 {
            return b;
        }
    }
    0
}

/// The row times the factor.
pub fn multiple(p: u32, factor: u32, row: &Row) -> Row
    requires { 0 < p }
{
    let mut result = *row;
    for entry in result.iter_mut() {
        *entry = product(p, factor, *entry);
    }
    result
}

/// The sum of two rows.
pub fn sum(p: u32, row: &Row, other: &Row) -> Row
    requires { 0 < p }
{
    let mut result = *row;
    for (entry, more) in result.iter_mut().zip(other.iter()) {
        *entry = ((u64::from(*entry) + u64::from(*more)) % u64::from(p)) as u32;
    }
    result
}

/// The row less a multiple of another.
pub fn difference(p: u32, row: &Row, factor: u32, other: &Row) -> Row
    requires { 0 < p }
{
    sum(p, row, &multiple(p, p - 1, &multiple(p, factor, other)))
}

/// The greatest place where the row is not 0.
pub fn greatest_place(row: &Row) -> Option<usize>
    ensures { IfSome result (λ k. k < WIDTH) }
{
    for k in (0..WIDTH).rev() {
        if row[k] != 0 {
            return Some(k);
        }
    }
    None
}

/// Rows that were eliminated one after the other.
#[derive(Drop)]
pub struct Plain {
    // At each pivot the row that is 1 there and 0 past it; at each other place a row of zeros.
    pub basis: [Row; WIDTH],
    pub kept: Vec<u32>,
}

/// What the rows of the basis leave of the row: it is cleared at each pivot, from the greatest one down.
pub fn remainder(p: u32, basis: &[Row; WIDTH], row: &Row) -> Row
    requires { 0 < p }
{
    let mut left = *row;
    for k in (0..WIDTH).rev() {
        left = difference(p, &left, left[k], &basis[k]);
    }
    left
}

/// Keeps each row of which the rows kept before leave something; the greatest place of that is its pivot.
pub fn eliminated(alloc: Global, p: u32, rows: &[Row]) -> Result<Plain, AllocError>
    requires { 0 < p }
{
    let mut basis = [ZEROS; WIDTH];
    let mut kept = Vec::new(alloc);
    for (number, row) in (0..).zip(rows.iter()) {
        let left = remainder(p, &basis, row);
        if let Some(k) = greatest_place(&left) {
            basis[k] = multiple(p, inverse(p, left[k]), &left);
            kept.push(number)?;
        }
    }
    Ok(Plain { basis, kept })
}
