ghost use Rattle.std.specs.Prelude.{All};
ghost use Rattle.std.specs.List.{AllZip};
ghost use Rattle.std.specs.Thread.{IsSync};
ghost use Rattle.host_workers.specs.Works.{HasWorked, MayWork};

use crate::session::run_session;
use crate::work::{SessionWork, SpaceBoards};
use column_flight::Gate;
use script_text::Script;
use std::alloc::Global;
use std::sync::Wait;
use std::thread::{self, Threads};

/// Runs the sessions of these works all at once, each with the command lines of the script's session of its number and
/// with the boards at its place. It refuses nothing. The first work and the rest of the list run at the same time; where
/// no thread can be made they run one after another, and then sessions that wait for one another may wait for ever.
pub fn run_sessions<R: Threads + Wait + Sync, G: Gate>(
    rt: &R,
    alloc: Global,
    script: &Script,
    boards: &[SpaceBoards],
    works: &mut [SessionWork],
    gate: &G,
)
    requires { All (MayWork script.now boards.now) works.old }
    ensures { AllZip (HasWorked script.now boards.now) works.old works.new }
{
    if let Some((first, rest)) = works.split_first_mut() {
        thread::join_mut(
            rt,
            &mut || -> ()
                requires shared { IsSync R.row }
                requires work { MayWork script.now boards.now first.now }
                ensures { HasWorked script.entry.now boards.entry.now first.entry.now first.exit.now }
            { run_work(rt, alloc, script, boards, gate, first) },
            &mut || -> ()
                requires shared { IsSync R.row }
                requires works { All (MayWork script.now boards.now) rest.now }
                ensures { AllZip (HasWorked script.entry.now boards.entry.now) rest.entry.now rest.exit.now }
            { run_sessions(rt, alloc, script, boards, rest, gate) },
        );
    }
}

// The session of one work.
fn run_work<R: Threads + Wait + Sync, G: Gate>(
    rt: &R,
    alloc: Global,
    script: &Script,
    boards: &[SpaceBoards],
    gate: &G,
    work: &mut SessionWork,
)
    requires { MayWork script.now boards.now work.old }
    ensures { HasWorked script.now boards.now work.old work.new }
{
    let session = &script.sessions()[work.columns.number() as usize];
    let board = &boards[work.place as usize];
    run_session(
        rt,
        alloc,
        &board.space,
        &board.flights,
        &board.versions,
        &mut work.columns,
        &mut work.splits,
        session.commands(),
        gate,
        &mut work.replies,
    );
}
