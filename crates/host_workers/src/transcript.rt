ghost use Rattle.std.specs.Prelude.{◌≡◌, ◌≤◌, IfOk, length};
ghost use Rattle.std.specs.List.{AllZip, enumerate_from};
ghost use Rattle.script_text.specs.Valid.{command_count};
ghost use Rattle.session_core.specs.Demands.{Adds, told_demand, told_demands};
ghost use Rattle.session_core.specs.Histories.{VersionsAreSplittings};
ghost use Rattle.session_core.specs.SoloRuns.{AnswersLines, AnswersSessions, IsSoloRun};
ghost use Rattle.session_core.specs.Transcripts.{HoldsDemand, script_ground};

use field_table::{Field, OutOfMemory};
use p1_normal::{Level, LevelFault};
use quotient_coords::Space;
use reply_text::{History, SessionReplies, Sessions, Transcript};
use script_text::{CommandLine, MAX_COMMANDS, MAX_SESSIONS, Script, SessionText};
use session_core::Host;
use std::alloc::Global;

// The reply lines of a session.
fn session_replies(
    alloc: Global,
    host: &mut Host,
    session: u32,
    lines: &[CommandLine],
) -> Result<SessionReplies, OutOfMemory>
    requires few { length lines.now ≤ MAX_COMMANDS }
    requires session { (1 ≤ session) × (session ≤ host.old.sessions) }
    ensures answers { IfOk result (λ told. AnswersLines host.old.ground session host.old.history
        (enumerate_from 1 lines.now) told host.new.history) }
    ensures ground { host.new.ground ≡ host.old.ground }
    ensures sessions { host.new.sessions ≡ host.old.sessions }
    ensures adds { IfOk result (λ told. Adds
        (told_demand host.old.ground lines.now told) host.old.pairs host.new.pairs) }
    ensures held { IfOk result (AllZip (HoldsDemand host.old.ground host.new.pairs) lines.now) }
{
    let mut replies = Vec::with_capacity(alloc, lines.len())?;
    let mut number = 1;
    for line in lines {
        replies.push(host.step(session, number, line))?;
        number += 1;
    }
    Ok(SessionReplies::of(replies))
}

// The reply lines of the sessions, one session after another.
fn script_replies(
    alloc: Global,
    host: &mut Host,
    sessions: &[SessionText],
) -> Result<Sessions, OutOfMemory>
    requires sessions { length sessions.now ≤ MAX_SESSIONS }
    requires commands { command_count sessions.now ≤ MAX_COMMANDS }
    requires host { host.old.sessions ≡ length sessions.now }
    ensures answers { IfOk result (λ all. AnswersSessions host.old.ground 1 host.old.history sessions.now all
        host.new.history) }
    ensures adds { IfOk result (λ all. Adds
        (told_demands host.old.ground sessions.now all) host.old.pairs host.new.pairs) }
    ensures held { IfOk result (AllZip (AllZip
        (HoldsDemand host.old.ground host.new.pairs)) sessions.now) }
{
    let mut all = Vec::with_capacity(alloc, sessions.len())?;
    let mut number = 1;
    for session in sessions {
        all.push(session_replies(alloc, host, number, session.commands())?)?;
        number += 1;
    }
    Ok(Sessions::of(all))
}

// The space of a script, whose header names a level within the limit and a listed characteristic.
pub(crate) fn space_of(alloc: Global, script: &Script) -> Result<Space, OutOfMemory>
    ensures { IfOk result (λ s. s ≡ script_ground script.now) }
{
    let line = script.space();
    let level = match Level::open(alloc, line.modulus) {
        Ok(level) => level,
        Err(LevelFault::OutOfMemory) => return Err(OutOfMemory),
        Err(LevelFault::Limit { .. }) => unreachable!(),
    };
    let Ok(field) = Field::open(line.characteristic) else {
        unreachable!()
    };
    Space::open(alloc, level, field)
}

/// The transcript of a script, its sessions run one after another.
pub fn transcript_of(alloc: Global, script: &Script) -> Result<Transcript, OutOfMemory>
    ensures run { IfOk result (IsSoloRun script.now) }
    ensures versions { IfOk result (λ t. VersionsAreSplittings (script_ground script.now) t.history) }
{
    let space = space_of(alloc, script)?;
    let symbols = space.level().count();
    let mut host = Host::new(alloc, space, script.sessions().len() as u32)?;
    let sessions = script_replies(alloc, &mut host, script.sessions())?;
    let history = Vec::from_slice(alloc, host.history())?;
    let line = script.space();
    Ok(Transcript {
        modulus: line.modulus,
        characteristic: line.characteristic,
        symbols,
        sessions,
        history: History::of(history),
        columns: host.columns(),
    })
}
