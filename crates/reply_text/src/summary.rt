//! The summary of the run of a script that is made from a number.

ghost use Rattle.std.specs.Prelude.{◌≡◌, ◌≤◌, ◌*◌, ◌^◌, ◌∷◌, [], OnOk, flat_map, drop, slice_index_or, sum, sum_by, count_by};
ghost use Rattle.std.specs.Io.KnownBytes.{Appends};
ghost use Rattle.std.specs.List.{zip};
ghost use Rattle.sym_io.specs.Causes.{HasCause};
ghost use Rattle.sym_io.specs.Writing.{AppendsPart};
ghost use Rattle.script_text.specs.Draws.{drawn_command, times};
ghost use Rattle.reply_text.specs.Rules.{replies_of};
ghost use Rattle.reply_text.specs.Summaries.{
  is_ok,
  is_memory,
  count_replies,
  coordinate_sum,
  image_coordinates,
  answer_sum,
  session_sum,
  image_sum,
  summary_text,
};

use crate::put::{Piece, Put, put_all};
use crate::{Reply, ReplyLine, SessionReplies, Transcript};
use itoa::Buffer;
use script_text::{DrawnCommand, Draws};
use sym_io::{Failed, OutputBuffer, Sink};

// The sessions of a drawn script, and the commands of each.
const SESSIONS: usize = 4;

const COMMANDS: usize = 40;

// Whether the reply begins with ok.
fn is_ok(reply: &Reply) -> bool
    ensures { result ≡ is_ok reply.now }
{
    match reply {
        Reply::Refused(_) | Reply::Memory => false,
        _ => true,
    }
}

// Whether it is want of memory.
fn is_memory(reply: &Reply) -> bool
    ensures { result ≡ is_memory reply.now }
{
    match reply {
        Reply::Memory => true,
        _ => false,
    }
}

// How many replies there are.
fn reply_count(sessions: &[SessionReplies]) -> u128
    ensures { result ≡ replies_of sessions.now }
{
    let mut count = 0;
    for told in sessions {
        count += told.as_slice().len() as u128;
    }
    count
}

// How many of them begin with ok.
fn ok_count(sessions: &[SessionReplies]) -> u128
    ensures { result ≡ count_replies is_ok sessions.now }
{
    let mut count = 0;
    for told in sessions {
        count += session_oks(told.as_slice()) as u128;
    }
    count
}

fn session_oks(told: &[ReplyLine]) -> usize
    ensures { result ≡ count_by (λ r. is_ok r.reply) told.now }
{
    told.iter().filter(|r| is_ok(&r.reply)).count()
}

// How many of them are want of memory.
fn memory_count(sessions: &[SessionReplies]) -> u128
    ensures { result ≡ count_replies is_memory sessions.now }
{
    let mut count = 0;
    for told in sessions {
        count += session_memories(told.as_slice()) as u128;
    }
    count
}

fn session_memories(told: &[ReplyLine]) -> usize
    ensures { result ≡ count_by (λ r. is_memory r.reply) told.now }
{
    told.iter().filter(|r| is_memory(&r.reply)).count()
}

// The sum of values.
fn sum_of(values: &[u32]) -> u128
    ensures sum { result ≡ sum values.now }
    ensures bound { result ≤ 2 ^ 96 }
{
    let mut sum = 0;
    for value in values {
        sum += u128::from(*value);
    }
    sum
}

// The sum of the coordinates that a reply gives.
fn coordinate_sum(reply: &Reply) -> u128
    ensures sum { result ≡ coordinate_sum reply.now }
    ensures bound { result ≤ 2 ^ 96 }
{
    match reply {
        Reply::Coords { values } => sum_of(values.as_slice()),
        _ => 0,
    }
}

// The sum of the coordinates of the reply to an image.
fn image_coordinates(command: DrawnCommand, reply: &Reply) -> u128
    ensures sum { result ≡ image_coordinates command reply.now }
    ensures bound { result ≤ 2 ^ 96 }
{
    match command {
        DrawnCommand::Image { .. } => coordinate_sum(reply),
        _ => 0,
    }
}

// The same of the reply line at a place, where there is one.
fn answer_sum(command: DrawnCommand, told: &[ReplyLine], place: usize) -> u128
    ensures sum { result ≡ sum_by answer_sum (zip (command ∷ []) (drop place told.now)) }
    ensures bound { result ≤ 2 ^ 96 }
{
    match told.get(place) {
        Some(line) => image_coordinates(command, &line.reply),
        None => 0,
    }
}

// The sum over a session, whose commands are the next draws.
fn session_sum(draws: &mut Draws, told: &[ReplyLine]) -> u128
    ensures sum { result ≡
        session_sum ((times 40 (drawn_command draws.old.level) draws.old.state).0, told.now) }
    ensures state { draws.new.state ≡
        (times 40 (drawn_command draws.old.level) draws.old.state).1 }
    ensures level { draws.new.level ≡ draws.old.level }
    ensures bound { result ≤ 40 * 2 ^ 96 }
{
    let mut sum = 0;
    for place in 0..COMMANDS {
        sum += answer_sum(draws.next_command(), told, place);
    }
    sum
}

// The reply lines of the session at a place, or none.
fn session_at(sessions: &[SessionReplies], place: usize) -> &[ReplyLine]
    ensures { result.now ≡ slice_index_or sessions.now place [] }
{
    match sessions.get(place) {
        Some(told) => told.as_slice(),
        None => &[],
    }
}

// The sum over all sessions.
fn image_sum(number: u64, sessions: &[SessionReplies]) -> u128
    ensures { result ≡ image_sum number sessions.now }
{
    let (_, mut draws) = Draws::of(number);
    let mut sum = 0;
    for place in 0..SESSIONS {
        sum += session_sum(&mut draws, session_at(sessions, place));
    }
    sum
}

// Appends the parts to a sink, one after the other.
fn write_parts<P: Put, O: Sink>(parts: &[P], output: &mut O) -> Result<(), Failed>
    ensures whole { OnOk result
        (Appends (O.written output.old) (O.written output.new) (flat_map P.text parts.now)) }
    ensures part { AppendsPart (O.written output.old) (O.written output.new)
        (flat_map P.text parts.now) }
    ensures cause { HasCause (O.faults output.old) (O.faults output.new) result }
{
    let mut buffer = OutputBuffer::new();
    put_all(&mut buffer, output, parts)?;
    buffer.flush(output)
}

/// Appends to a sink the summary of a transcript of the script that is made from a number: how many replies there are
/// of which kind, and the sum of all coordinates in the replies to `image`. After a failure, which the sink counts, the
/// first bytes of the text have been appended. Takes no memory: the commands are drawn again.
pub fn write_summary<O: Sink>(number: u64, t: &Transcript, output: &mut O) -> Result<(), Failed>
    ensures whole { OnOk result
        (Appends (O.written output.old) (O.written output.new) (summary_text number t.now)) }
    ensures part { AppendsPart (O.written output.old) (O.written output.new)
        (summary_text number t.now) }
    ensures cause { HasCause (O.faults output.old) (O.faults output.new) result }
{
    let sessions = t.sessions.as_slice();
    let mut reply_digits = Buffer::new();
    let mut ok_digits = Buffer::new();
    let mut memory_digits = Buffer::new();
    let mut sum_digits = Buffer::new();
    write_parts(
        &[
            Piece::Word(b"generated "),
            Piece::Number(number),
            Piece::Word(b"\nspace "),
            Piece::Number(u64::from(t.modulus)),
            Piece::Word(b" "),
            Piece::Number(u64::from(t.characteristic)),
            Piece::Word(b" symbols "),
            Piece::Number(u64::from(t.symbols)),
            Piece::Word(b" sessions "),
            Piece::Number(sessions.len() as u64),
            Piece::Word(b" commands "),
            Piece::Word(reply_digits.format(reply_count(sessions)).as_bytes()),
            Piece::Word(b"\nok "),
            Piece::Word(ok_digits.format(ok_count(sessions)).as_bytes()),
            Piece::Word(b" memory "),
            Piece::Word(memory_digits.format(memory_count(sessions)).as_bytes()),
            Piece::Word(b" versions "),
            Piece::Number(t.history.as_slice().len() as u64),
            Piece::Word(b" columns "),
            Piece::Number(t.columns),
            Piece::Word(b"\nsum "),
            Piece::Word(sum_digits.format(image_sum(number, sessions)).as_bytes()),
            Piece::Word(b"\nend\n"),
        ],
        output,
    )
}
