//! The script of a number, line by line.

ghost use Rattle.std.specs.Prelude.{◌≡◌, ◌+◌, ◌≤◌, ◌++◌, map, length, codes, decimal, IfOk, OnOk};
ghost use Rattle.script_text.specs.Numbered.{IsShort};
ghost use Rattle.script_text.specs.Draws.{
  times,
  drawn_command,
  term_text,
  operator_text,
  drawn_text,
  numbered_from,
  generated,
};

use crate::drawn::{DrawnCommand, DrawnTerm};
use crate::draws::Draws;
use crate::line::CommandLine;
use crate::script::Script;
use crate::session::SessionText;
use field_table::OutOfMemory;
use itoa::Buffer;
use op_polynomials::OpName;
use std::alloc::Global;

/// The sessions of a drawn script.
const SESSIONS: u32 = 4;

/// The commands of each of its sessions.
const COMMANDS: u32 = 40;

/// The room that a line of it takes, so that its text is never moved.
const LINE_ROOM: usize = 32;

impl Script {
    /// The script of a number: what its draws choose, four sessions of forty commands,
    /// with the numbers that its lines have in the text without a skipped line.
    pub fn generate(alloc: Global, seed: u64) -> Result<Script, OutOfMemory>
        ensures { IfOk result (λ s. s ≡ generated seed) }
    {
        let (space, mut draws) = Draws::of(seed);
        let mut sessions = Vec::with_capacity(alloc, SESSIONS as usize)?;
        for place in 0..SESSIONS {
            let line = 2 + place * (1 + COMMANDS);
            sessions.push(session_at(alloc, &mut draws, line + 1)?)?;
        }
        Ok(Script { space, sessions })
    }
}

/// The commands of the next session, with the numbers of their lines from the first on.
fn session_at(alloc: Global, draws: &mut Draws, first: u32) -> Result<SessionText, OutOfMemory>
    requires { first ≤ 1000 }
    ensures session { IfOk result (λ s. s ≡ numbered_from first (map drawn_text
        (times 40 (drawn_command draws.old.level) draws.old.state).0)) }
    ensures state { OnOk result
        (draws.new.state ≡ (times 40 (drawn_command draws.old.level) draws.old.state).1) }
    ensures level { draws.new.level ≡ draws.old.level }
{
    let mut session = SessionText::new(alloc);
    for place in 0..COMMANDS {
        let text = text_of(alloc, draws.next_command())?;
        session.push(CommandLine {
            line: first + place,
            text,
        })?;
    }
    Ok(session)
}

/// The line of a command.
fn text_of(alloc: Global, command: DrawnCommand) -> Result<Vec<u8>, OutOfMemory>
    ensures text { IfOk result (λ t. t.items ≡ drawn_text command) }
    ensures short { IfOk result (λ t. IsShort t.items) }
{
    let mut text = Vec::with_capacity(alloc, LINE_ROOM)?;
    add_command(&mut text, command)?;
    Ok(text)
}

/// Adds a command.
fn add_command(text: &mut Vec<u8>, command: DrawnCommand) -> Result<(), OutOfMemory>
    ensures text { OnOk result (text.new.items ≡ text.old.items ++ drawn_text command) }
    ensures short { OnOk result (length (drawn_text command) ≤ 80) }
{
    match command {
        DrawnCommand::Normal { v } => {
            add(text, b"normal 1 ")?;
            add_number(text, v)
        }
        DrawnCommand::Reduce { first, second } => {
            add(text, b"reduce ")?;
            add_terms(text, first, second)
        }
        DrawnCommand::Image {
            n,
            first,
            second: Some(second),
        } => {
            add(text, b"image ")?;
            add_number(text, n)?;
            add(text, b" ")?;
            add_terms(text, first, second)
        }
        DrawnCommand::Image {
            n,
            first,
            second: None,
        } => {
            add(text, b"image ")?;
            add_number(text, n)?;
            add(text, b" ")?;
            add_term(text, first)
        }
        DrawnCommand::Star { term } => {
            add(text, b"star ")?;
            add_term(text, term)
        }
        DrawnCommand::Boundary { first, second } => {
            add(text, b"boundary ")?;
            add_terms(text, first, second)
        }
        DrawnCommand::Show => add(text, b"show"),
        DrawnCommand::Split { op, constant } => {
            add(text, b"split ")?;
            add_operator(text, op)?;
            add(text, b" -")?;
            add_number(text, constant)?;
            add(text, b",1")
        }
    }
}

/// Adds bytes.
fn add(text: &mut Vec<u8>, bytes: &[u8]) -> Result<(), OutOfMemory>
    ensures { OnOk result (text.new.items ≡ text.old.items ++ bytes.now) }
{
    text.extend_from_slice(bytes)?;
    Ok(())
}

/// Adds a number.
fn add_number(text: &mut Vec<u8>, number: u32) -> Result<(), OutOfMemory>
    ensures text { OnOk result (text.new.items ≡ text.old.items ++ decimal number) }
    ensures short { length (decimal number) ≤ 10 }
{
    let mut buffer = Buffer::new();
    text.extend_from_slice(buffer.format(number).as_bytes())?;
    Ok(())
}

/// Adds a term.
fn add_term(text: &mut Vec<u8>, term: DrawnTerm) -> Result<(), OutOfMemory>
    ensures text { OnOk result (text.new.items ≡ text.old.items ++ term_text term) }
    ensures short { OnOk result (length (term_text term) ≤ 23) }
{
    add_number(text, term.coefficient)?;
    add(text, b":1:")?;
    add_number(text, term.v)?;
    Ok(())
}

/// Adds two terms.
fn add_terms(text: &mut Vec<u8>, first: DrawnTerm, second: DrawnTerm) -> Result<(), OutOfMemory>
    ensures text { OnOk result
        (text.new.items ≡ text.old.items ++ term_text first ++ codes " " ++ term_text second) }
    ensures first { OnOk result (length (term_text first) ≤ 23) }
    ensures second { OnOk result (length (term_text second) ≤ 23) }
{
    add_term(text, first)?;
    add(text, b" ")?;
    add_term(text, second)?;
    Ok(())
}

/// Adds an operator's name.
fn add_operator(text: &mut Vec<u8>, op: OpName) -> Result<(), OutOfMemory>
    ensures text { OnOk result (text.new.items ≡ text.old.items ++ operator_text op) }
    ensures short { OnOk result (length (operator_text op) ≤ 11) }
{
    match op {
        OpName::T { n } => {
            add(text, b"T")?;
            add_number(text, n)
        }
        OpName::Star => add(text, b"star"),
    }
}
