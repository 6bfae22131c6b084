ghost use Rattle.std.specs.Prelude.{◌<◌};

use crate::plain_elimination::{Row, WIDTH, ZEROS, multiple, sum};
use std::alloc::{AllocError, Global};

// The next number of a linear congruential generator, as a number below the bound.
fn draw(state: &mut u32, bound: u32) -> u32
    requires { 0 < bound }
    ensures { result < bound }
{
    *state = (16807 * u64::from(*state) % 2147483647) as u32;
    *state % bound
}

/// A row of the width with any entries.
pub fn dense_row(p: u32, width: u32, state: &mut u32) -> Row
    requires { 0 < p }
{
    let mut row = ZEROS;
    for entry in row.iter_mut().take(width as usize) {
        *entry = draw(state, p);
    }
    row
}

/// A row of the width with few entries that are not 0.
pub fn sparse_row(p: u32, width: u32, state: &mut u32) -> Row
    requires { 0 < p }
{
    let mut row = ZEROS;
    for entry in row.iter_mut().take(width as usize) {
        if draw(state, 3) == 0 {
            *entry = draw(state, p);
        }
    }
    row
}

// One of the rows, or one of zeros where there is none.
fn row_among(rows: &[Row], state: &mut u32) -> Row {
    let number = draw(state, WIDTH as u32) as usize;
    rows.get(number).copied().unwrap_or(ZEROS)
}

// A combination of two of the rows.
fn dependent_row(p: u32, rows: &[Row], state: &mut u32) -> Row
    requires { 0 < p }
{
    let first = multiple(p, draw(state, p), &row_among(rows, state));
    let second = multiple(p, draw(state, p), &row_among(rows, state));
    sum(p, &first, &second)
}

// A row that is dense, sparse, one of the rows before it or a combination of them.
fn next_row(p: u32, width: u32, rows: &[Row], state: &mut u32) -> Row
    requires { 0 < p }
{
    match draw(state, 4) {
        0 => dense_row(p, width, state),
        1 => sparse_row(p, width, state),
        2 => row_among(rows, state),
        _ => dependent_row(p, rows, state),
    }
}

/// Three to six rows.
pub fn drawn_rows(
    alloc: Global,
    p: u32,
    width: u32,
    state: &mut u32,
) -> Result<Vec<Row>, AllocError>
    requires { 0 < p }
{
    let mut rows = Vec::new(alloc);
    for _ in 0..3 + draw(state, 4) {
        let row = next_row(p, width, &rows, state);
        rows.push(row)?;
    }
    Ok(rows)
}
