//! Measures the loops over residues. Each line `CALL P ROUNDS` of the input runs axpy, scale or dot
//! over lists of 4096 residues so many times, and prints the sum of what the rounds leave.
#![tactic(auto)]

mod rounds;

use anyhow::{Context, Result, bail};
use field_table::Field;
use rounds::{axpy_rounds, dot_rounds, residues, scale_rounds, total};
use std::alloc::Global;

fn measured(alloc: Global, line: &str) -> Result<u64> {
    let mut words = line.split(' ');
    let call = words.next().context("a call")?;
    let characteristic = words.next().context("a characteristic")?.parse::<u32>()?;
    let rounds = words.next().context("a number of rounds")?.parse::<u32>()?;
    let field = Field::open(characteristic)?;
    let row = residues(alloc, field, 1)?;
    let mut sum = residues(alloc, field, 2)?;
    match call {
        "axpy" => axpy_rounds(field, &mut sum, &row, rounds),
        "scale" => scale_rounds(field, &mut sum, rounds),
        "dot" => dot_rounds(field, &mut sum, &row, rounds),
        _ => bail!("no call of that name"),
    }
    Ok(total(&sum))
}

fn main(rt: HostRuntime) -> Result<()> {
    for line in rt.lines(rt.alloc()) {
        let sum = measured(rt.alloc(), line?.as_str())?;
        println!(rt; "{sum}")?;
    }
    Ok(())
}
