ghost use Rattle.std.specs.Prelude.{◌≡◌, ◌<◌, ◌≤◌, ◌+◌, ◌∷◌, ◌++◌, [], false, IfOk, OnErr, length, vec_capacity};
ghost use Rattle.op_polynomials.specs.declared.entry.SplitEntry.{SplitEntry};
ghost use Rattle.script_text.specs.declared.limits.TheConstants.{MAX_COMMANDS};
ghost use Rattle.reply_text.specs.declared.limits.TheConstants.{MAX_VERSIONS};
ghost use Rattle.turn_board.specs.Passes.{Continues, IsOf, view};
ghost use Rattle.split_state.specs.Versions.{IsVersion};
ghost use Rattle.session_core.specs.Demands.{demand, line_demand};
ghost use Rattle.session_core.specs.Replies.{Finishes, FinishesLine, IsVersionAt};
ghost use Rattle.column_flight.specs.Shared.{board_of as flight_board, setting_of as flight_setting};
ghost use Rattle.split_versions.specs.Shared.{board_of, setting_of};
ghost use Rattle.host_workers.specs.Workers.{AnswersSession, FliesSession};
ghost use Rattle.host_workers.specs.Sessions.{AnswersLine, FliesLine, FliesTry, HasFlown, MayCommit, MayFly, TriesLine, TriesSplit};

use crate::gathering::gathered;
use column_flight::{FlightState, Flights, Gate, GatePoint};
use field_table::OutOfMemory;
use hecke_columns::Walks;
use op_polynomials::SplitEntry;
use quotient_coords::Space;
use reply_text::{Reply, ReplyLine};
use script_text::CommandLine;
use session_core::{Finish, Prepared, finish, prepare};
use split_state::Splitting;
use split_versions::{CommitFault, VersionState, Versions};
use std::alloc::Global;
use std::sync::{Arc, Wait};
use turn_board::Pass;

/// The worker of a session, whose number is that of its passes plus 1: it answers the command lines one after another,
/// each at the newest version at a turn of that command; what it says of the other sessions is what its passes have seen.
/// A line for which no version was learnt for want of memory has the greatest one that the session knows, 0 at first. A
/// split whose version is no longer the newest at its commit is tried again, at most `MAX_VERSIONS` times. Costs a turn of
/// the versions for a line, another one for a split, and a turn of the flights for each column that is demanded, and for
/// one that it computes two; no turn is held while it computes.
pub fn run_session<R: Wait, G: Gate>(
    rt: &R,
    alloc: Global,
    space: &Space,
    flights: &Flights,
    versions: &Versions,
    columns: &mut Pass<FlightState>,
    splits: &mut Pass<VersionState>,
    lines: &[CommandLine],
    gate: &G,
    replies: &mut Vec<ReplyLine>,
)
    requires columns { IsOf (flight_board flights.now) columns.old }
    requires splits { IsOf (board_of versions.now) splits.old }
    requires ground { (space.now ≡ flight_setting flights.now)
        × (space.now ≡ setting_of versions.now) }
    requires number { (view columns.old).number ≡ (view splits.old).number }
    requires unseen { ((view columns.old).seen ≡ []) × ((view splits.old).seen ≡ []) }
    requires idle { ((view columns.old).has_turn ≡ false) × ((view splits.old).has_turn ≡ false) }
    requires few { length lines.now ≤ MAX_COMMANDS }
    requires empty { replies.old.items ≡ [] }
    requires room { length lines.now ≤ vec_capacity replies.old }
    ensures columns { Continues columns.old columns.new }
    ensures splits { Continues splits.old splits.new }
    ensures idle { ((view columns.new).has_turn ≡ false) × ((view splits.new).has_turn ≡ false) }
    ensures answers { AnswersSession space.now ((view splits.old).number + 1) lines.now
        replies.new.items (view splits.new).seen }
    ensures flies { FliesSession space.now ((view splits.old).number + 1) lines.now
        replies.new.items (view columns.new).seen }
{
    let session = splits.number() + 1;
    let mut walks = Walks::new(alloc, space.level());
    let mut known = 0;
    let mut number = 0;
    for line in lines {
        number += 1;
        let told = answer_line(
            rt, alloc, space, flights, versions, columns, splits, &mut walks, &mut known, line,
            number, gate,
        );
        replies.push_reserved(told);
        gate.pass(
            rt,
            GatePoint::AfterReply {
                session,
                command: number,
            },
        );
    }
}

// The reply line of a command line, which is command `number`: it is tried at the newest version until its split, if it
// is one, is not stale. `known` is the greatest version that the session has learnt or committed.
fn answer_line<R: Wait, G: Gate>(
    rt: &R,
    alloc: Global,
    space: &Space,
    flights: &Flights,
    versions: &Versions,
    columns: &mut Pass<FlightState>,
    splits: &mut Pass<VersionState>,
    walks: &mut Walks,
    known: &mut u32,
    line: &CommandLine,
    number: u32,
    gate: &G,
) -> ReplyLine
    requires columns { MayFly flights.now space.now columns.old }
    requires splits { MayCommit versions.now space.now splits.old }
    requires number { (view columns.old).number ≡ (view splits.old).number }
    requires walks { walks.old ≡ space.now.level }
    requires known { known.old ≤ length (view splits.old).seen }
    ensures columns { Continues columns.old columns.new }
    ensures splits { Continues splits.old splits.new }
    ensures idle { ((view columns.new).has_turn ≡ false) × ((view splits.new).has_turn ≡ false) }
    ensures walks { walks.new ≡ walks.old }
    ensures answers { AnswersLine space.now ((view splits.old).number + 1) (number, line.now)
        known.old (view splits.old).seen result known.new (view splits.new).seen }
    ensures flies { FliesLine space.now ((view splits.old).number + 1) line.now
        (view columns.old).seen result (view columns.new).seen }
{
    // Each repeat saw the history grow, and no split is tried at a full one.
    loop {
        if let Some(told) = tried_line(
            rt, alloc, space, flights, versions, columns, splits, walks, known, line, number, gate,
        ) {
            return told;
        }
    }
}

// The reply line of a command line at the newest version, or none where its split was stale.
fn tried_line<R: Wait, G: Gate>(
    rt: &R,
    alloc: Global,
    space: &Space,
    flights: &Flights,
    versions: &Versions,
    columns: &mut Pass<FlightState>,
    splits: &mut Pass<VersionState>,
    walks: &mut Walks,
    known: &mut u32,
    line: &CommandLine,
    number: u32,
    gate: &G,
) -> Option<ReplyLine>
    requires columns { MayFly flights.now space.now columns.old }
    requires splits { MayCommit versions.now space.now splits.old }
    requires number { (view columns.old).number ≡ (view splits.old).number }
    requires walks { walks.old ≡ space.now.level }
    requires known { known.old ≤ length (view splits.old).seen }
    ensures columns { Continues columns.old columns.new }
    ensures splits { Continues splits.old splits.new }
    ensures idle { ((view columns.new).has_turn ≡ false) × ((view splits.new).has_turn ≡ false) }
    ensures walks { walks.new ≡ walks.old }
    ensures answers { TriesLine space.now ((view splits.old).number + 1) (number, line.now)
        known.old (view splits.old).seen result known.new (view splits.new).seen }
    ensures flies { FliesTry space.now ((view splits.old).number + 1) line.now
        (view columns.old).seen result (view columns.new).seen }
{
    let Ok((version, splitting)) = versions.current(rt, splits) else {
        return Some(ReplyLine {
            number,
            version: *known,
            reply: Reply::Memory,
        });
    };
    *known = version;
    match line_finish(
        rt, alloc, space, flights, columns, walks, line, &splitting, version, gate,
    ) {
        Finish::Reply(reply) => Some(ReplyLine {
            number,
            version,
            reply,
        }),
        Finish::Split {
            op,
            poly,
            next,
            dims,
        } => {
            let entry = SplitEntry {
                session: splits.number() + 1,
                command: number,
                op,
                poly,
            };
            match commit_split(rt, alloc, versions, splits, version, entry, next, gate) {
                Ok(true) => {
                    *known = version + 1;
                    Some(ReplyLine {
                        number,
                        version,
                        reply: Reply::Version {
                            number: version + 1,
                            dims,
                        },
                    })
                }
                Ok(false) => None,
                Err(OutOfMemory) => Some(ReplyLine {
                    number,
                    version,
                    reply: Reply::Memory,
                }),
            }
        }
    }
}

// Commits the entry of an accepted split, which was computed from the version that the pass has seen, and tells whether
// it joined the history: it does not where the history has grown since.
fn commit_split<R: Wait, G: Gate>(
    rt: &R,
    alloc: Global,
    versions: &Versions,
    splits: &mut Pass<VersionState>,
    version: u32,
    entry: SplitEntry,
    next: Splitting,
    gate: &G,
) -> Result<bool, OutOfMemory>
    requires splits { MayCommit versions.now (setting_of versions.now) splits.old }
    requires version { version ≡ length (view splits.old).seen }
    requires room { version < MAX_VERSIONS }
    requires maker { entry.session ≡ (view splits.old).number + 1 }
    requires next { IsVersion (setting_of versions.now) ((view splits.old).seen ++ entry ∷ []) next }
    ensures splits { Continues splits.old splits.new }
    ensures idle { (view splits.new).has_turn ≡ false }
    ensures answer { IfOk result (λ joined. TriesSplit ((view splits.old).number + 1) entry
        (view splits.old).seen joined (view splits.new).seen) }
    ensures refused { OnErr result ((view splits.new).seen ≡ (view splits.old).seen) }
{
    gate.pass(
        rt,
        GatePoint::BeforeCommit {
            session: entry.session,
            command: entry.command,
        },
    );
    let next = Arc::new(alloc, next)?;
    match versions.commit(rt, splits, version, entry, next) {
        Ok(_) => Ok(true),
        Err(CommitFault::Stale { .. }) => Ok(false),
        Err(CommitFault::Full) => unreachable!(),
    }
}

// What a command line comes to at a version, with the columns that it demands from the flights.
fn line_finish<R: Wait, G: Gate>(
    rt: &R,
    alloc: Global,
    space: &Space,
    flights: &Flights,
    columns: &mut Pass<FlightState>,
    walks: &mut Walks,
    line: &CommandLine,
    splitting: &Splitting,
    version: u32,
    gate: &G,
) -> Finish
    requires columns { MayFly flights.now space.now columns.old }
    requires walks { walks.old ≡ space.now.level }
    requires version { IsVersionAt space.now version splitting.now }
    ensures columns { Continues columns.old columns.new }
    ensures idle { (view columns.new).has_turn ≡ false }
    ensures walks { walks.new ≡ walks.old }
    ensures finishes { FinishesLine space.now version splitting.now line.now.text result }
    ensures flown { HasFlown (line_demand space.now version line.now.text)
        ((view columns.old).number + 1) result (view columns.old).seen (view columns.new).seen }
{
    match prepare(alloc, space, line, splitting, version) {
        Ok(prepared) => prepared_finish(
            rt, alloc, space, flights, columns, walks, &prepared, splitting, gate,
        ),
        Err(reply) => Finish::Reply(reply),
    }
}

// What a prepared command comes to.
fn prepared_finish<R: Wait, G: Gate>(
    rt: &R,
    alloc: Global,
    space: &Space,
    flights: &Flights,
    columns: &mut Pass<FlightState>,
    walks: &mut Walks,
    prepared: &Prepared,
    splitting: &Splitting,
    gate: &G,
) -> Finish
    requires columns { MayFly flights.now space.now columns.old }
    requires walks { walks.old ≡ space.now.level }
    requires version { IsVersionAt space.now prepared.now.version splitting.now }
    requires parts { prepared.now.parts ≡ length splitting.now.parts }
    requires ground { prepared.now.ground ≡ space.now }
    ensures columns { Continues columns.old columns.new }
    ensures idle { (view columns.new).has_turn ≡ false }
    ensures walks { walks.new ≡ walks.old }
    ensures finishes { Finishes space.now prepared.now.version splitting.now prepared.now.command
        result }
    ensures flown { HasFlown (demand space.now prepared.now.command)
        ((view columns.old).number + 1) result (view columns.old).seen (view columns.new).seen }
{
    match gathered(
        rt,
        alloc,
        space,
        flights,
        columns,
        walks,
        prepared.demand(),
        gate,
    ) {
        Ok(mut source) => finish(alloc, space, prepared, splitting, &mut source),
        Err(OutOfMemory) => Finish::Reply(Reply::Memory),
    }
}
