ghost use Rattle.std.specs.Prelude.{◌≡◌, ◌≤◌, ◌<◌, IfOk, All, length, map, max, vec_len};
ghost use Rattle.std.specs.List.{AllZip, enumerate_from, range_with_len};
ghost use mathlib.Core.List.{IsPrefix};
ghost use Rattle.column_flight.specs.Flights.{IsLegalFlights, publications};
ghost use Rattle.column_flight.specs.Shared.{board_of as flights_board, setting_of as flights_setting};
ghost use Rattle.host_workers.specs.Works.{HasRoom, IsDone, IsSharedRun};
ghost use Rattle.script_text.specs.Valid.{command_count};
ghost use Rattle.session_core.specs.Histories.{VersionsAreSplittings};
ghost use Rattle.session_core.specs.Transcripts.{IsLegalRun, script_ground};
ghost use Rattle.split_versions.specs.Shared.{board_of as versions_board, setting_of as versions_setting};
ghost use Rattle.turn_board.specs.Passes.{IsAccounted, IsIdle, IsNew, pass_count, view};

use crate::sessions::run_sessions;
use crate::transcript::space_of;
use crate::work::{SessionWork, SharedRun, SpaceBoards};
use column_flight::{FlightState, Flights, Gate};
use field_table::OutOfMemory;
use quotient_coords::Space;
use reply_text::{History, ReplyLine, SessionReplies, Sessions, Transcript};
use script_text::{MAX_SESSIONS, Script, SessionText};
use split_versions::{VersionState, Versions};
use std::alloc::Global;
use std::slice;
use std::sync::Wait;
use std::thread::Threads;
use turn_board::Pass;

/// The transcript of a script whose sessions run all at once, each on its own pass of the boards of the space: it is made
/// of their replies and of the closed boards. The memory of the reply lists is taken before a session begins. Costs the
/// opening of the space once, and the replies.
pub fn run_host<R: Threads + Wait + Sync, G: Gate>(
    rt: &R,
    alloc: Global,
    script: &Script,
    gate: &G,
) -> Result<Transcript, OutOfMemory>
    ensures run { IfOk result (IsLegalRun script.now) }
    ensures versions { IfOk result (λ t. VersionsAreSplittings (script_ground script.now) t.history) }
{
    let space = space_of(alloc, script)?;
    let symbols = space.level().count();
    let shared = shared_run(rt, alloc, script, space, gate)?;
    let history = Vec::from_slice(alloc, shared.versions.entries())?;
    let columns = publication_count(&shared.flights);
    let line = script.space();
    Ok(Transcript {
        modulus: line.modulus,
        characteristic: line.characteristic,
        symbols,
        sessions: shared.replies,
        history: History::of(history),
        columns,
    })
}

// How many columns were published among events that are legal.
fn publication_count(flights: &FlightState) -> u64
    ensures count { result ≡ publications flights.now.events }
    ensures legal { IsLegalFlights flights.now.events }
{
    let _ = flights.events();
    flights.published()
}

// The sessions of a script over one space, all at once: their replies and the closed boards.
fn shared_run<R: Threads + Wait + Sync, G: Gate>(
    rt: &R,
    alloc: Global,
    script: &Script,
    space: Space,
    gate: &G,
) -> Result<SharedRun, OutOfMemory>
    requires { space ≡ script_ground script.now }
    ensures { IfOk result (IsSharedRun script.now) }
{
    let sessions = script.sessions();
    let passes = pass_number(sessions);
    let (flights, columns) = Flights::open(alloc, &space, passes)?;
    let (versions, splits) = Versions::open(alloc, &space, passes)?;
    let board = SpaceBoards {
        space,
        flights,
        versions,
    };
    if sessions.is_empty() {
        return Ok(closed_run(board, columns, splits, Sessions::of(Vec::new(alloc))));
    }
    works_run(rt, alloc, script, board, columns, splits, gate)
}

// The same, over the boards and the passes of a script that has sessions.
fn works_run<R: Threads + Wait + Sync, G: Gate>(
    rt: &R,
    alloc: Global,
    script: &Script,
    board: SpaceBoards,
    columns: Vec<Pass<FlightState>>,
    splits: Vec<Pass<VersionState>>,
    gate: &G,
) -> Result<SharedRun, OutOfMemory>
    requires ground { board.space ≡ script_ground script.now }
    requires flights { board.space ≡ flights_setting board.flights }
    requires versions { board.space ≡ versions_setting board.versions }
    requires columns { AllZip (IsNew (flights_board board.flights))
        (range_with_len 0 (length script.now.sessions)) columns.items }
    requires splits { AllZip (IsNew (versions_board board.versions))
        (range_with_len 0 (length script.now.sessions)) splits.items }
    requires count { (pass_count (flights_board board.flights) ≡ length script.now.sessions)
        × (pass_count (versions_board board.versions) ≡ length script.now.sessions) }
    ensures { IfOk result (IsSharedRun script.now) }
{
    let works = done_works(rt, alloc, script, &board, columns, splits, gate)?;
    let (columns, splits, replies) = parts_of(alloc, works)?;
    Ok(closed_run(board, columns, splits, replies))
}

// The works of the sessions over the boards, in the order of the sessions, once they were done.
fn done_works<R: Threads + Wait + Sync, G: Gate>(
    rt: &R,
    alloc: Global,
    script: &Script,
    board: &SpaceBoards,
    columns: Vec<Pass<FlightState>>,
    splits: Vec<Pass<VersionState>>,
    gate: &G,
) -> Result<Vec<SessionWork>, OutOfMemory>
    requires flights { board.now.space ≡ flights_setting board.now.flights }
    requires versions { board.now.space ≡ versions_setting board.now.versions }
    requires columns { AllZip (IsNew (flights_board board.now.flights))
        (range_with_len 0 (length script.now.sessions)) columns.items }
    requires splits { AllZip (IsNew (versions_board board.now.versions))
        (range_with_len 0 (length script.now.sessions)) splits.items }
    ensures done { IfOk result (λ works.
        AllZip (IsDone board.now.space) (enumerate_from 1 script.now.sessions) works.items) }
    ensures columns { IfOk result (λ works. AllZip (IsIdle (flights_board board.now.flights))
        (range_with_len 0 (length script.now.sessions)) (map (λ w. w.columns) works.items)) }
    ensures splits { IfOk result (λ works. AllZip (IsIdle (versions_board board.now.versions))
        (range_with_len 0 (length script.now.sessions)) (map (λ w. w.splits) works.items)) }
{
    let mut works = opened_works(alloc, script.sessions(), columns, splits)?;
    run_sessions(rt, alloc, script, slice::from_ref(board), &mut works, gate);
    Ok(works)
}

// How many passes a board has for these sessions: one for each, and one where there is none.
fn pass_number(sessions: &[SessionText]) -> u32
    requires { length sessions.now ≤ MAX_SESSIONS }
    ensures { result ≡ max (length sessions.now) 1 }
{
    (sessions.len() as u32).max(1)
}

// The works of the sessions at the one place, each with its passes and an empty list that has room for its replies.
fn opened_works(
    alloc: Global,
    sessions: &[SessionText],
    columns: Vec<Pass<FlightState>>,
    splits: Vec<Pass<VersionState>>,
) -> Result<Vec<SessionWork>, OutOfMemory>
    requires columns { vec_len columns ≡ length sessions.now }
    requires splits { vec_len splits ≡ length sessions.now }
    ensures columns { IfOk result (λ works. map (λ w. w.columns) works.items ≡ columns.items) }
    ensures splits { IfOk result (λ works. map (λ w. w.splits) works.items ≡ splits.items) }
    ensures room { IfOk result (λ works. AllZip HasRoom sessions.now works.items) }
{
    let mut works = Vec::with_capacity(alloc, sessions.len())?;
    let mut columns = columns.into_iter();
    let mut splits = splits.into_iter();
    for session in sessions {
        let Some(column_pass) = columns.next() else {
            unreachable!()
        };
        let Some(split_pass) = splits.next() else {
            unreachable!()
        };
        works.push(opened_work(alloc, session, column_pass, split_pass)?)?;
    }
    Ok(works)
}

// The work of a session as it begins.
fn opened_work(
    alloc: Global,
    session: &SessionText,
    columns: Pass<FlightState>,
    splits: Pass<VersionState>,
) -> Result<SessionWork, OutOfMemory>
    ensures columns { IfOk result (λ w. w.columns ≡ columns) }
    ensures splits { IfOk result (λ w. w.splits ≡ splits) }
    ensures room { IfOk result (HasRoom session.now) }
{
    let replies = Vec::with_capacity(alloc, session.commands().len())?;
    Ok(SessionWork {
        place: 0,
        columns,
        splits,
        replies,
    })
}

// The passes of the works and their replies, in the order of the works.
fn parts_of(
    alloc: Global,
    works: Vec<SessionWork>,
) -> Result<(Vec<Pass<FlightState>>, Vec<Pass<VersionState>>, Sessions), OutOfMemory>
    ensures columns { IfOk result (λ parts. parts.0.items ≡ map (λ w. w.columns) works.items) }
    ensures splits { IfOk result (λ parts. parts.1.items ≡ map (λ w. w.splits) works.items) }
    ensures replies { IfOk result (λ parts. parts.2 ≡ map (λ w. w.replies.items) works.items) }
{
    let mut columns = Vec::with_capacity(alloc, works.len())?;
    let mut splits = Vec::with_capacity(alloc, works.len())?;
    let mut all = Vec::with_capacity(alloc, works.len())?;
    for work in works {
        let SessionWork {
            place: _,
            columns: column_pass,
            splits: split_pass,
            replies,
        } = work;
        columns.push(column_pass)?;
        splits.push(split_pass)?;
        all.push(SessionReplies::of(replies))?;
    }
    Ok((columns, splits, Sessions::of(all)))
}

// The boards of the space, closed by all their passes, with the replies.
fn closed_run(
    board: SpaceBoards,
    columns: Vec<Pass<FlightState>>,
    splits: Vec<Pass<VersionState>>,
    replies: Sessions,
) -> SharedRun
    requires columns { AllZip (IsIdle (flights_board board.flights))
        (range_with_len 0 (pass_count (flights_board board.flights))) columns.items }
    requires splits { AllZip (IsIdle (versions_board board.versions))
        (range_with_len 0 (pass_count (versions_board board.versions))) splits.items }
    ensures replies { result.replies ≡ replies }
    ensures events { All (λ pass. IsPrefix (view pass).seen result.flights.events) columns.items }
    ensures fliers { IsAccounted columns.items result.flights }
    ensures entries { All (λ pass. IsPrefix (view pass).seen result.versions.entries) splits.items }
    ensures makers { IsAccounted splits.items result.versions }
{
    let SpaceBoards {
        space: _,
        flights,
        versions,
    } = board;
    SharedRun {
        flights: flights.close(columns),
        versions: versions.close(splits),
        replies,
    }
}
