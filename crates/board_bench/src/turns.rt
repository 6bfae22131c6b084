ghost use Rattle.std.specs.Prelude.{◌≡◌, All, false};
ghost use Rattle.turn_board.specs.Passes.{Continues, IsOf, view};
ghost use Rattle.board_bench.specs.Ready.{IsReady};

use crate::state::Makers;
use std::sync::Wait;
use std::thread;
use std::thread::Threads;
use turn_board::{Board, Pass};

/// What is done at each turn.
#[derive(Clone, Copy)]
pub enum Turn {
    Look,
    Add,
}

fn look<R: Wait>(rt: &R, board: &Board<Makers>, pass: &mut Pass<Makers>)
    requires { IsReady board.now pass.old }
    ensures { IsReady board.now pass.new }
{
    let held = board.take(rt, pass);
    board.give(pass, held);
}

fn add<R: Wait>(rt: &R, board: &Board<Makers>, pass: &mut Pass<Makers>)
    requires { IsReady board.now pass.old }
    ensures { IsReady board.now pass.new }
{
    let maker = pass.number() + 1;
    let mut held = board.take(rt, pass);
    held.state().add(maker);
    board.give(pass, held);
}

fn look_often<R: Wait>(rt: &R, board: &Board<Makers>, pass: &mut Pass<Makers>, rounds: u32)
    requires { IsReady board.now pass.old }
{
    for _ in 0..rounds {
        look(rt, board, pass);
    }
}

fn add_often<R: Wait>(rt: &R, board: &Board<Makers>, pass: &mut Pass<Makers>, rounds: u32)
    requires { IsReady board.now pass.old }
{
    for _ in 0..rounds {
        add(rt, board, pass);
    }
}

fn take_turns<R: Wait>(
    rt: &R,
    board: &Board<Makers>,
    pass: &mut Pass<Makers>,
    turn: Turn,
    rounds: u32,
)
    requires { IsReady board.now pass.old }
{
    match turn {
        Turn::Look => look_often(rt, board, pass, rounds),
        Turn::Add => add_often(rt, board, pass, rounds),
    }
}

// Each pass takes so many turns, on a thread of its own.
fn take_turns_at_once<R: Threads + Wait + Sync>(
    rt: &R,
    board: &Board<Makers>,
    passes: &mut [Pass<Makers>],
    turn: Turn,
    rounds: u32,
)
    requires { All (IsReady board.now) passes.old }
{
    let threads = passes.len().max(1);
    thread::for_each_mut(
        rt,
        passes,
        threads,
        &|_, pass| take_turns(rt, board, pass, turn, rounds),
    );
}

/// The number of entries after each pass but the last one took so many turns; that one counts them.
pub fn entries_after<R: Threads + Wait + Sync>(
    rt: &R,
    board: &Board<Makers>,
    mut passes: Vec<Pass<Makers>>,
    turn: Turn,
    rounds: u32,
) -> u64
    requires { All (IsReady board.now) passes.items }
{
    match passes.pop() {
        Some(mut counting) => {
            take_turns_at_once(rt, board, &mut passes, turn, rounds);
            board.count(&mut counting)
        }
        None => 0,
    }
}
