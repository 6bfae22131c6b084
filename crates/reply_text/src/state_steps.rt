//! The lines of a transcript, one after the other.

ghost use Rattle.std.specs.Prelude.{◌≡◌, ◌∷◌, ◌≤◌, ◌<◌, ◌^◌, ◌==◌, ◌&&◌, true, false, Some, None, MatchOption, IfOk, length, map, pos, nat_lt};
ghost use Rattle.field_table.specs.Table.{IsListed};
ghost use Rattle.reply_text.specs.LineForms.{is_line};
ghost use Rattle.reply_text.specs.Rules.{is_space, is_polynomial, is_entry, is_written, replies_of};
ghost use Rattle.reply_text.specs.Steps.{HasField, step};
ghost use Rattle.reply_text.specs.declared.state.State.TheVariants as states;
ghost use Rattle.reply_text.specs.declared.line.Line.TheVariants as lines;

use crate::limits::MAX_VERSIONS;
use crate::line::Line;
use crate::lists::{History, SessionReplies, Sessions};
use crate::state::State;
use crate::transcript::{ReplyLine, Transcript};
use field_table::{Field, OutOfMemory};
use op_polynomials::{MAX_COEFFICIENTS, OpName, Poly, SplitEntry};
use p1_normal::{Level, LevelFault, MAX_LEVEL};
use script_text::{MAX_COMMANDS, MAX_SESSIONS};
use std::alloc::Global;

// Whether this is a level, a characteristic of the table and the level's number of symbols.
fn is_space(alloc: Global, n: u32, p: u32, m: u32) -> Result<bool, OutOfMemory>
    ensures { IfOk result (λ r. r ≡ is_space n p m) }
{
    if n == 0 || MAX_LEVEL < n {
        return Ok(false);
    }
    match Field::open(p) {
        Err(_) => Ok(false),
        Ok(_) => match Level::open(alloc, n) {
            Ok(level) => Ok(m == level.count()),
            Err(LevelFault::OutOfMemory) => Err(OutOfMemory),
            Err(_) => unreachable!(),
        },
    }
}

// Whether one reply more is no more than there may be.
fn has_room(sessions: &[SessionReplies]) -> bool
    ensures { result ≡ nat_lt (replies_of sessions.now) MAX_COMMANDS }
{
    let mut left = MAX_COMMANDS as usize;
    for session in sessions {
        let count = session.as_slice().len();
        if left <= count {
            return false;
        }
        left -= count;
    }
    true
}

// Whether these are the coefficients of a polynomial in this characteristic.
fn is_polynomial(p: u32, coefficients: &[u32]) -> bool
    ensures { result ≡ is_polynomial p coefficients.now }
{
    if coefficients.is_empty() || MAX_COEFFICIENTS < coefficients.len() {
        return false;
    }
    for x in coefficients {
        if p <= *x {
            return false;
        }
    }
    true
}

fn integers(alloc: Global, values: &[u32]) -> Result<Vec<i64>, OutOfMemory>
    ensures { IfOk result (λ v. v.items ≡ map (λ x. pos x) values.now) }
{
    let mut list = Vec::new(alloc);
    for x in values {
        list.push(i64::from(*x))?;
    }
    Ok(list)
}

// The polynomial with these coefficients.
fn polynomial(alloc: Global, field: Field, coefficients: &[u32]) -> Result<Poly, OutOfMemory>
    requires { is_polynomial field coefficients.now ≡ true }
    ensures { IfOk result (λ poly. poly ≡ coefficients.now) }
{
    let numbers = integers(alloc, coefficients)?;
    match Poly::of(field, &numbers) {
        Ok(poly) => Ok(poly),
        Err(_) => unreachable!(),
    }
}

fn begin_session(alloc: Global, t: Transcript, k: u32) -> Result<Option<State>, OutOfMemory>
    ensures { IfOk result (λ r. r ≡ step (states.InSessions t) (lines.Session k)) }
{
    let Transcript {
        modulus,
        characteristic,
        symbols,
        sessions,
        history,
        columns,
    } = t;
    let mut list = sessions.into_vec();
    if list.len() < MAX_SESSIONS && k as usize == list.len() + 1 {
        list.push(SessionReplies::of(Vec::new(alloc)))?;
        Ok(Some(State::InSessions(Transcript {
            modulus,
            characteristic,
            symbols,
            sessions: Sessions::of(list),
            history,
            columns,
        })))
    } else {
        Ok(None)
    }
}

fn add_reply(t: Transcript, reply: ReplyLine) -> Result<Option<State>, OutOfMemory>
    requires written { is_written reply.reply ≡ true }
    ensures { IfOk result (λ r. r ≡ step (states.InSessions t) (lines.Reply reply)) }
{
    let Transcript {
        modulus,
        characteristic,
        symbols,
        sessions,
        history,
        columns,
    } = t;
    if MAX_VERSIONS < reply.version || !has_room(sessions.as_slice()) {
        return Ok(None);
    }
    let mut list = sessions.into_vec();
    match list.pop() {
        None => Ok(None),
        Some(last) => {
            let mut replies = last.into_vec();
            if reply.number as usize != replies.len() + 1 {
                return Ok(None);
            }
            replies.push(reply)?;
            list.push(SessionReplies::of(replies))?;
            Ok(Some(State::InSessions(Transcript {
                modulus,
                characteristic,
                symbols,
                sessions: Sessions::of(list),
                history,
                columns,
            })))
        }
    }
}

fn add_entry(
    alloc: Global,
    t: Transcript,
    h: u32,
    number: u32,
    session: u32,
    command: u32,
    op: OpName,
    coefficients: &[u32],
) -> Result<Option<State>, OutOfMemory>
    requires field { IsListed t.characteristic }
    requires line { is_line (lines.Entry number session command op coefficients.now) ≡ true }
    ensures { IfOk result (λ r. r ≡ step (states.InHistory t h)
        (lines.Entry number session command op coefficients.now)) }
{
    let Transcript {
        modulus,
        characteristic,
        symbols,
        sessions,
        history,
        columns,
    } = t;
    let mut list = history.into_vec();
    if (h as usize) <= list.len()
        || number as usize != list.len() + 1
        || !is_polynomial(characteristic, coefficients)
    {
        return Ok(None);
    }
    match Field::open(characteristic) {
        Err(_) => unreachable!(),
        Ok(field) => {
            let poly = polynomial(alloc, field, coefficients)?;
            list.push(SplitEntry {
                session,
                command,
                op,
                poly,
            })?;
            Ok(Some(State::InHistory(
                Transcript {
                    modulus,
                    characteristic,
                    symbols,
                    sessions,
                    history: History::of(list),
                    columns,
                },
                h,
            )))
        }
    }
}

fn count_columns(t: Transcript, h: u32, k: u64) -> Option<State>
    ensures { result ≡ step (states.InHistory t h) (lines.Columns k) }
{
    let Transcript {
        modulus,
        characteristic,
        symbols,
        sessions,
        history,
        columns: _,
    } = t;
    if history.as_slice().len() == h as usize {
        Some(State::Counted(Transcript {
            modulus,
            characteristic,
            symbols,
            sessions,
            history,
            columns: k,
        }))
    } else {
        None
    }
}

/// What is read after this line.
pub fn step(alloc: Global, state: State, line: Line) -> Result<Option<State>, OutOfMemory>
    requires field { HasField state }
    requires line { is_line line ≡ true }
    ensures { IfOk result (λ r. r ≡ step state line) }
{
    match state {
        State::Start => match line {
            Line::Heading => Ok(Some(State::Opened)),
            _ => Ok(None),
        },
        State::Opened => match line {
            Line::Space {
                modulus,
                characteristic,
                symbols,
            } => if is_space(alloc, modulus, characteristic, symbols)? {
                Ok(Some(State::InSessions(Transcript {
                    modulus,
                    characteristic,
                    symbols,
                    sessions: Sessions::of(Vec::new(alloc)),
                    history: History::of(Vec::new(alloc)),
                    columns: 0,
                })))
            } else {
                Ok(None)
            },
            _ => Ok(None),
        },
        State::InSessions(t) => match line {
            Line::Session(k) => begin_session(alloc, t, k),
            Line::Reply(reply) => add_reply(t, reply),
            Line::History(h) => if h <= MAX_VERSIONS {
                Ok(Some(State::InHistory(t, h)))
            } else {
                Ok(None)
            },
            _ => Ok(None),
        },
        State::InHistory(t, h) => match line {
            Line::Entry {
                number,
                session,
                command,
                op,
                coefficients,
            } => add_entry(
                alloc,
                t,
                h,
                number,
                session,
                command,
                op,
                coefficients.as_slice(),
            ),
            Line::Columns(k) => Ok(count_columns(t, h, k)),
            _ => Ok(None),
        },
        State::Counted(t) => match line {
            Line::End => Ok(Some(State::Done(t))),
            _ => Ok(None),
        },
        State::Done(_) => Ok(None),
    }
}
