//! Measures turns of a board. Each line `CALL THREADS ROUNDS` of the input opens a board, and lets so many threads each
//! take and give back so many turns: `look` leaves the state as it is, `add` makes an entry at each turn. Prints the
//! number of entries.
#![tactic(auto)]

mod state;
mod turns;

use anyhow::{Context, Result, bail};
use state::Makers;
use std::alloc::Global;
use std::sync::Wait;
use std::thread::Threads;
use turn_board::Board;
use turns::{Turn, entries_after};

fn measured<R: Threads + Wait + Sync>(rt: &R, alloc: Global, line: &str) -> Result<u64> {
    let mut words = line.split(' ');
    let turn = match words.next().context("a call")? {
        "look" => Turn::Look,
        "add" => Turn::Add,
        _ => bail!("no call of that name"),
    };
    let threads = words.next().context("a number of threads")?.parse::<u32>()?;
    let rounds = words.next().context("a number of rounds")?.parse::<u32>()?;
    let passes = threads.checked_add(1).context("fewer threads")?;
    let room = threads.checked_mul(rounds).context("fewer rounds")?;
    let list = Vec::with_capacity(alloc, room as usize)?;
    let Ok((board, passes)) = Board::open(alloc, Makers { list }, passes) else {
        bail!("out of memory");
    };
    Ok(entries_after(rt, &board, passes, turn, rounds))
}

fn main(rt: HostRuntime) -> Result<()> {
    for line in rt.lines(rt.alloc()) {
        let entries = measured(&rt, rt.alloc(), line?.as_str())?;
        println!(rt; "{entries}")?;
    }
    Ok(())
}
