//! Measures the calls of a level. Each line `CALL N ROUNDS` of the input runs open, act or index at level N:
//! open so many times, the others so many times over all symbols, and prints the sum of the answers.
#![tactic(auto)]

mod rounds;

use anyhow::{Context, Result, bail};
use p1_normal::Level;
use rounds::{act_rounds, index_rounds, open_rounds};
use std::alloc::Global;

fn measured(alloc: Global, line: &str) -> Result<u64> {
    let mut words = line.split(' ');
    let call = words.next().context("a call")?;
    let n = words.next().context("a level")?.parse::<u32>()?;
    let rounds = words.next().context("a number of rounds")?.parse::<u32>()?;
    let level = Level::open(alloc, n)?;
    match call {
        "open" => Ok(open_rounds(alloc, n, rounds)?),
        "act" => Ok(act_rounds(&level, rounds)),
        "index" => Ok(index_rounds(&level, rounds)),
        _ => bail!("no call of that name"),
    }
}

fn main(rt: HostRuntime) -> Result<()> {
    for line in rt.lines(rt.alloc()) {
        let sum = measured(rt.alloc(), line?.as_str())?;
        println!(rt; "{sum}")?;
    }
    Ok(())
}
