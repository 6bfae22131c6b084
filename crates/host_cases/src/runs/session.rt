ghost use Rattle.std.specs.Prelude.{◌≡◌, [], IfOk};
ghost use Rattle.turn_board.specs.Passes.{IsIdle, pass_count, view};
ghost use Rattle.column_flight.specs.Shared.{board_of as flight_board, setting_of as flight_setting};
ghost use Rattle.split_versions.specs.Shared.{board_of, setting_of};

use column_flight::{FlightState, Flights};
use field_table::{Field, OutOfMemory};
use host_workers::{NoGate, run_session};
use p1_normal::Level;
use quotient_coords::Space;
use reply_text::{History, SessionReplies, Sessions, Transcript, write_transcript};
use script_text::{MAX_COMMANDS, Script, ScriptFault, SessionText, parse_script};
use split_versions::{VersionState, Versions};
use std::alloc::{AllocError, Global};
use std::sync::Wait;
use std::test::Fail;
use sym_io::MemSink;
use turn_board::Pass;

// Flights with one pass.
fn open_flights(alloc: Global, space: &Space) -> Result<(Flights, Pass<FlightState>), OutOfMemory>
    ensures count { IfOk result (λ o. pass_count (flight_board o.0) ≡ 1) }
    ensures setting { IfOk result (λ o. flight_setting o.0 ≡ space.now) }
    ensures pass { IfOk result (λ o. IsIdle (flight_board o.0) 0 o.1) }
    ensures unseen { IfOk result (λ o. (view o.1).seen ≡ []) }
{
    let (flights, mut passes) = Flights::open(alloc, space, 1)?;
    let Some(pass) = passes.pop() else {
        unreachable!()
    };
    Ok((flights, pass))
}

// Versions with one pass.
fn open_versions(
    alloc: Global,
    space: &Space,
) -> Result<(Versions, Pass<VersionState>), OutOfMemory>
    ensures count { IfOk result (λ o. pass_count (board_of o.0) ≡ 1) }
    ensures setting { IfOk result (λ o. setting_of o.0 ≡ space.now) }
    ensures pass { IfOk result (λ o. IsIdle (board_of o.0) 0 o.1) }
    ensures unseen { IfOk result (λ o. (view o.1).seen ≡ []) }
{
    let (versions, mut passes) = Versions::open(alloc, space, 1)?;
    let Some(pass) = passes.pop() else {
        unreachable!()
    };
    Ok((versions, pass))
}

// How many columns were published.
fn published(alloc: Global, flights: Flights, pass: Pass<FlightState>) -> Result<u64, AllocError>
    requires count { pass_count (flight_board flights) ≡ 1 }
    requires pass { IsIdle (flight_board flights) 0 pass }
{
    let mut passes = Vec::with_capacity(alloc, 1)?;
    passes.push_reserved(pass);
    Ok(flights.close(passes).published())
}

// The accepted splits.
fn history(
    alloc: Global,
    versions: Versions,
    pass: Pass<VersionState>,
) -> Result<History, AllocError>
    requires count { pass_count (board_of versions) ≡ 1 }
    requires pass { IsIdle (board_of versions) 0 pass }
{
    let mut passes = Vec::with_capacity(alloc, 1)?;
    passes.push_reserved(pass);
    let state = versions.close(passes);
    Ok(History::of(Vec::from_slice(alloc, state.entries())?))
}

// The transcript of a session, which its worker answers alone.
fn answered_alone<R: Wait>(
    rt: &R,
    alloc: Global,
    space: &Space,
    session: &SessionText,
) -> Result<Transcript, Fail> {
    let lines = session.commands();
    if lines.len() > MAX_COMMANDS as usize {
        return Err("too many lines".into());
    }
    let (flights, mut columns) = open_flights(alloc, space)?;
    let (versions, mut splits) = open_versions(alloc, space)?;
    let mut replies = Vec::with_capacity(alloc, lines.len())?;
    run_session(
        rt,
        alloc,
        space,
        &flights,
        &versions,
        &mut columns,
        &mut splits,
        lines,
        &NoGate,
        &mut replies,
    );
    let mut sessions = Vec::with_capacity(alloc, 1)?;
    sessions.push(SessionReplies::of(replies))?;
    Ok(Transcript {
        modulus: 11,
        characteristic: 101,
        symbols: space.level().count(),
        sessions: Sessions::of(sessions),
        history: history(alloc, versions, splits)?,
        columns: published(alloc, flights, columns)?,
    })
}

// The script that the bytes are.
fn read(alloc: Global, script: &[u8]) -> Result<Script, Fail> {
    if script.len() > 1000 {
        return Err("too long".into());
    }
    match parse_script(alloc, script) {
        Ok(script) => Ok(script),
        Err(ScriptFault::OutOfMemory) => Err("there was no memory".into()),
        Err(ScriptFault::BadScript { .. }) => Err("it is no script".into()),
    }
}

fn space_at_11(alloc: Global) -> Result<Space, Fail> {
    Ok(Space::open(alloc, Level::open(alloc, 11)?, Field::open(101)?)?)
}

// Whether the transcript is written as this text.
fn is_text(alloc: Global, transcript: &Transcript, text: &[u8]) -> Result<bool, Fail> {
    let mut output = MemSink::new(alloc, 1000, 64, Vec::new(alloc))?;
    write_transcript(transcript, &mut output)?;
    Ok(output.bytes() == text)
}

// Whether the worker of the one session of a script at level 11 and characteristic 101 gives this text.
fn gives<R: Wait>(rt: &R, alloc: Global, script: &[u8], text: &[u8]) -> Result<bool, Fail> {
    let script = read(alloc, script)?;
    let [session] = script.sessions() else {
        return Err("it has not one session".into());
    };
    let space = space_at_11(alloc)?;
    let transcript = answered_alone(rt, alloc, &space, session)?;
    is_text(alloc, &transcript, text)
}

const POINTS: &[u8] = b"space 11 101\nsession\nnormal 22 7\nnormal 3 1\nnormal 0 0\n";

const POINT_ANSWERS: &[u8] =
    b"transcript 1\nspace 11 101 symbols 12\nsession 1\n1 @0 ok point (0:1)\n2 @0 ok point (1:4)\n3 @0 err not_symbol 1\nhistory 0\ncolumns 0\nend\n";

const IMAGES: &[u8] = b"space 11 101\nsession\nimage 2 1:0:1\nimage 2 1:1:2\nimage 2 1:1:3\n";

const IMAGE_ANSWERS: &[u8] =
    b"transcript 1\nspace 11 101 symbols 12\nsession 1\n1 @0 ok coords 3 1 0\n2 @0 ok coords 0 99 0\n3 @0 ok coords 0 0 99\nhistory 0\ncolumns 3\nend\n";

const SPLITS: &[u8] =
    b"space 11 101\nsession\nsplit T2 -3,1\nshow\npart 1\npart 2\noperator T2\napply T2 1 0 0\npoly T2 -3,1 1 81 0\nsplit star -1,1\n";

const SPLIT_ANSWERS: &[u8] =
    b"transcript 1\nspace 11 101 symbols 12\nsession 1\n1 @0 ok version 1 dims 1 2\n2 @1 ok splitting 1 dims 1 2 ops T2\n3 @1 ok rows 1 81 0\n4 @1 ok rows 0 1 0 ; 0 0 1\n5 @1 ok operator 3 trace 100\n6 @1 ok coords 3 1 0\n7 @1 ok coords 0 0 0\n8 @1 ok version 2 dims 1 1 1\nhistory 2\n1 s1 c1 T2 98,1\n2 s1 c8 star 100,1\ncolumns 12\nend\n";

#[test]
fn points_by_a_worker(rt: HostRuntime) -> Result<(), Fail> {
    assert!(rt; gives(&rt, rt.alloc(), POINTS, POINT_ANSWERS)?);
    Ok(())
}

#[test]
fn images_by_a_worker(rt: HostRuntime) -> Result<(), Fail> {
    assert!(rt; gives(&rt, rt.alloc(), IMAGES, IMAGE_ANSWERS)?);
    Ok(())
}

#[test]
fn splits_by_a_worker(rt: HostRuntime) -> Result<(), Fail> {
    assert!(rt; gives(&rt, rt.alloc(), SPLITS, SPLIT_ANSWERS)?);
    Ok(())
}
