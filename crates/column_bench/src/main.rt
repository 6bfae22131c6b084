//! Measures Hecke columns. Each line `CALL N n ROUNDS` of the input makes all columns of T_n at level N and
//! characteristic 65521 so many times, over the set, by chains or by turns, and prints the sum of all coordinates.
#![tactic(auto)]

mod rounds;

use anyhow::{Context, Result};
use rounds::all_columns;
use std::alloc::Global;

fn measured(alloc: Global, line: &str) -> Result<u64> {
    let mut words = line.split(' ');
    let call = words.next().context("a call")?;
    let modulus = words.next().context("a level")?.parse::<u32>()?;
    let n = words.next().context("a determinant")?.parse::<u32>()?;
    let rounds = words.next().context("a number of rounds")?.parse::<u32>()?;
    all_columns(alloc, call, modulus, n, rounds)
}

fn main(rt: HostRuntime) -> Result<()> {
    for line in rt.lines(rt.alloc()) {
        let sum = measured(rt.alloc(), line?.as_str())?;
        println!(rt; "{sum}")?;
    }
    Ok(())
}
