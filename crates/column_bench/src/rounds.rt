ghost use Rattle.std.specs.Prelude.{◌≡◌, ◌<◌, ◌≤◌};
ghost use Rattle.p1_normal.specs.declared.matrix.TheConstants.{MAX_DET};
ghost use Rattle.p1_normal.specs.Units.{gcd};

use anyhow::{Result, bail};
use field_table::Field;
use hecke_columns::{Column, Steps, Turns};
use heilbronn_sets::merel_set;
use p1_normal::{Level, MAX_DET, gcd};
use quotient_coords::Space;
use std::alloc::Global;

const CHARACTERISTIC: u32 = 65521;

// The greatest quotient whose turn is looked up.
const LIMIT: u32 = 8;

// The sum of the coordinates.
fn sum_of(column: &Column) -> u64 {
    let mut sum = 0_u64;
    for number in column.coords() {
        sum = sum.wrapping_add(u64::from(*number));
    }
    sum
}

// All columns over Merel's set, so many times, with the set made each time.
fn set_rounds(alloc: Global, space: &Space, n: u32, rounds: u32) -> Result<u64>
    requires coprime { gcd n space.now.level ≡ 1 }
{
    let mut sum = 0_u64;
    for _round in 0..rounds {
        let set = merel_set(alloc, n)?;
        for k in 0..space.level().count() {
            let column = Column::compute(alloc, space, &set, k)?;
            sum = sum.wrapping_add(sum_of(&column));
        }
    }
    Ok(sum)
}

// All columns by chains, so many times.
fn chains_rounds(alloc: Global, space: &Space, n: u32, rounds: u32) -> Result<u64>
    requires limits { (0 < n) × (n ≤ MAX_DET) }
    requires coprime { gcd n space.now.level ≡ 1 }
{
    let mut sum = 0_u64;
    for _round in 0..rounds {
        for k in 0..space.level().count() {
            let column = Column::by_chains(alloc, space, n, k)?;
            sum = sum.wrapping_add(sum_of(&column));
        }
    }
    Ok(sum)
}

// All columns by turns, so many times, with the steps and the table made each time.
fn turns_rounds(alloc: Global, space: &Space, n: u32, rounds: u32) -> Result<u64>
    requires limits { (0 < n) × (n ≤ MAX_DET) }
    requires coprime { gcd n space.now.level ≡ 1 }
{
    let mut sum = 0_u64;
    for _round in 0..rounds {
        let steps = Steps::of(alloc, n)?;
        let turns = Turns::of(alloc, space.level(), LIMIT)?;
        for k in 0..space.level().count() {
            let column = Column::by_turns(alloc, space, &turns, &steps, k)?;
            sum = sum.wrapping_add(sum_of(&column));
        }
    }
    Ok(sum)
}

// The space of a level.
fn opened(alloc: Global, modulus: u32) -> Result<Space> {
    let level = Level::open(alloc, modulus)?;
    let field = Field::open(CHARACTERISTIC)?;
    Ok(Space::open(alloc, level, field)?)
}

/// All columns of T_n at a level, so many times, by the call of this name.
pub fn all_columns(alloc: Global, call: &str, modulus: u32, n: u32, rounds: u32) -> Result<u64> {
    let space = opened(alloc, modulus)?;
    if n == 0 || n > MAX_DET || gcd(n, space.level().modulus()) != 1 {
        bail!("no operator of that number");
    }
    match call {
        "set" => set_rounds(alloc, &space, n, rounds),
        "chains" => chains_rounds(alloc, &space, n, rounds),
        "turns" => turns_rounds(alloc, &space, n, rounds),
        _ => bail!("no call of that name"),
    }
}
