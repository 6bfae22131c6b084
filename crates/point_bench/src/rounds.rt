ghost use Rattle.std.specs.Prelude.{◌<◌, ◌≤◌};
ghost use Rattle.p1_normal.specs.Actions.{IsInvertible, IsSmall};

use p1_normal::{Level, LevelFault, Matrix};
use std::alloc::Global;

/// Opens the level so many times.
pub fn open_rounds(alloc: Global, n: u32, rounds: u32) -> Result<u64, LevelFault> {
    let mut sum = 0_u64;
    for _round in 0..rounds {
        sum = sum.wrapping_add(u64::from(Level::open(alloc, n)?.count()));
    }
    Ok(sum)
}

// S at even numbers, and T at odd ones.
fn matrix_of(_level: &Level, number: u32) -> Matrix
    ensures coprime { IsInvertible _level.now result }
    ensures entries { IsSmall result }
{
    if number % 2 == 0 {
        Matrix::new(0, -1, 1, 0)
    } else {
        Matrix::new(0, -1, 1, -1)
    }
}

/// Acts on each symbol so many times.
pub fn act_rounds(level: &Level, rounds: u32) -> u64 {
    let mut sum = 0_u64;
    for round in 0..rounds {
        let matrix = matrix_of(level, round);
        for k in 0..level.count() {
            sum = sum.wrapping_add(u64::from(level.act(k, &matrix)));
        }
    }
    sum
}

/// Looks up as many pairs as there are symbols, so many times; a pair that names no point counts its
/// common divisor with the level.
pub fn index_rounds(level: &Level, rounds: u32) -> u64 {
    let mut sum = 0_u64;
    for round in 0..rounds {
        for k in 0..level.count() {
            match level.index(i64::from(k) - 7, i64::from(round) - 11) {
                Ok(number) => {
                    sum = sum.wrapping_add(u64::from(number));
                }
                Err(fault) => {
                    sum = sum.wrapping_add(u64::from(fault.g));
                }
            }
        }
    }
    sum
}
