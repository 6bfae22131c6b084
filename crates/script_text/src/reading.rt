//! Reading a script, line by line.

ghost use Rattle.std.specs.Prelude.{◌≡◌, ◌<◌, ◌^◌, ◌-◌, ◌∷◌, List, true, length, OnOk};
ghost use Rattle.std.specs.List.{list_all};
ghost use Rattle.text_lines.specs.Lines.{tokens};
ghost use Rattle.script_text.specs.Numbered.{NumberedLine};
ghost use Rattle.script_text.specs.Scripts.{is_skipped_text, is_plain, script_of, AnswersScript};
ghost use Rattle.script_text.specs.Reading.{IsBegun, Follows, Reads, Takes, with_line};

use crate::line::CommandLine;
use crate::script::Script;
use crate::script_fault::{ScriptCause, ScriptFault};
use crate::script_line::{header_of, is_comment_word, is_plain_line, later_line};
use crate::session::SessionText;
use crate::space::SpaceLine;
use std::alloc::{AllocError, Global};
use text_lines::{next_line, next_token, without_return};

/// What the header and the lines after it have given.
#[derive(Drop)]
pub(crate) struct Begun {
    pub space: SpaceLine,
    pub sessions: Vec<SessionText>,
    pub commands: u32,
}

/// What the lines read so far have given.
#[derive(Drop)]
pub(crate) enum Reading {
    /// None of them was significant.
    Start,
    /// The first significant one was the header.
    Begun(Begun),
}

/// The script that a text is, or the fault of its first line that breaks a rule.
/// The rules on one line are tried in the order of `ScriptCause`. One pass over the
/// bytes; memory is taken for the kept lines alone.
pub fn parse_script(alloc: Global, bytes: &[u8]) -> Result<Script, ScriptFault>
    requires { length bytes.now < u32.MAX }
    ensures read { AnswersScript result (script_of bytes.now) }
{
    let mut reading = Reading::Start;
    let mut rest = bytes;
    let mut number: u32 = 1;
    while let Some((line, after)) = next_line(rest) {
        reading = take_line(alloc, reading, number, without_return(line))?;
        rest = after;
        number += 1;
    }
    match reading {
        Reading::Start => Err(ScriptFault::BadScript {
            line: number,
            cause: ScriptCause::Header,
        }),
        Reading::Begun(
            Begun {
                space,
                sessions,
                ..
            },
        ) => Ok(Script { space, sessions }),
    }
}

/// The reading with one line more, or why that line is refused. A blank line or a
/// comment leaves the reading as it is.
fn take_line(
    alloc: Global,
    reading: Reading,
    line: u32,
    text: &[u8],
) -> Result<Reading, ScriptFault>
    requires { length text.now < u32.MAX }
    ensures { (before : List NumberedLine) → Follows reading before
        → Takes (is_skipped_text (tokens text.now)) before
        (record { line = line; text = text.now }) result }
{
    let Some((word, rest)) = next_token(text) else {
        return Ok(reading);
    };
    if is_comment_word(word) {
        return Ok(reading);
    }
    read_line(alloc, reading, line, text, word, rest)
}

/// The reading with one significant line more, which is its first token and the rest, or why that line is
/// refused.
fn read_line(
    alloc: Global,
    reading: Reading,
    line: u32,
    text: &[u8],
    word: &[u8],
    rest: &[u8],
) -> Result<Reading, ScriptFault>
    requires short { length text.now < u32.MAX }
    requires split { tokens text.now ≡ word.now ∷ tokens rest.now }
    ensures { (before : List NumberedLine) → Follows reading before
        → Reads before (record { line = line; text = text.now }) result }
{
    if !is_plain_line(text) {
        return Err(ScriptFault::BadScript {
            line,
            cause: ScriptCause::Byte,
        });
    }
    match reading {
        Reading::Start => match header_of(word, rest) {
            Ok(space) => Ok(Reading::Begun(Begun {
                space,
                sessions: Vec::new(alloc),
                commands: 0,
            })),
            Err(cause) => Err(ScriptFault::BadScript { line, cause }),
        },
        Reading::Begun(begun) => read_later(alloc, begun, line, text, word, rest),
    }
}

/// The reading with one line more after the header, or why that line is refused.
fn read_later(
    alloc: Global,
    mut begun: Begun,
    line: u32,
    text: &[u8],
    word: &[u8],
    rest: &[u8],
) -> Result<Reading, ScriptFault>
    requires short { length text.now < u32.MAX }
    requires split { tokens text.now ≡ word.now ∷ tokens rest.now }
    requires plain { list_all is_plain text.now ≡ true }
    ensures { (before : List NumberedLine) → IsBegun begun before
        → Reads before (record { line = line; text = text.now }) result }
{
    match later_line(begun.sessions.len(), begun.commands, word, rest) {
        Ok(true) => {
            begun.sessions.push(SessionText::new(alloc))?;
            Ok(Reading::Begun(begun))
        }
        Ok(false) => {
            let text = Vec::from_slice(alloc, text)?;
            add_command(&mut begun.sessions, CommandLine { line, text })?;
            begun.commands += 1;
            Ok(Reading::Begun(begun))
        }
        Err(cause) => Err(ScriptFault::BadScript { line, cause }),
    }
}

/// Adds a command line to the session begun last.
fn add_command(sessions: &mut Vec<SessionText>, line: CommandLine) -> Result<(), AllocError>
    ensures { OnOk result (sessions.new.items ≡ with_line sessions.old.items line) }
{
    if let Some(session) = sessions.last_mut() {
        session.push(line)?;
    }
    Ok(())
}
