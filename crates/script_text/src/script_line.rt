//! What a line of a script is.

ghost use Rattle.std.specs.Prelude.{◌≡◌, ◌<◌, ◌∷◌, true, false, Some, None, Ok, length, nat_lt, MatchResult};
ghost use Rattle.std.specs.List.{list_all};
ghost use Rattle.text_lines.specs.Lines.{tokens};
ghost use Rattle.script_text.specs.Scripts.{is_comment, is_plain, header, begins_session, later_cause};

use crate::limits::{MAX_COMMANDS, MAX_SESSIONS};
use crate::script_fault::ScriptCause;
use crate::space::SpaceLine;
use field_table::Field;
use p1_normal::MAX_LEVEL;
use text_lines::{natural, next_token};

/// Whether a line with this first token is a comment.
pub(crate) fn is_comment_word(word: &[u8]) -> bool
    ensures { result ≡ is_comment word.now }
{
    match word {
        [b'#', ..] => true,
        _ => false,
    }
}

fn is_plain_byte(b: u8) -> bool
    ensures { result ≡ is_plain b }
{
    b == b'\t' || (b' ' <= b && b <= b'~')
}

pub(crate) fn is_plain_line(line: &[u8]) -> bool
    ensures { result ≡ list_all is_plain line.now }
{
    line.iter().all(|b| is_plain_byte(*b))
}

/// The space that a header names; its first token, and what follows it.
pub(crate) fn header_of(word: &[u8], rest: &[u8]) -> Result<SpaceLine, ScriptCause>
    ensures { result ≡ header (word.now ∷ tokens rest.now) }
{
    let Some((n, rest)) = next_token(rest) else {
        return Err(ScriptCause::Header)
    };
    let Some((p, rest)) = next_token(rest) else {
        return Err(ScriptCause::Header)
    };
    if let Some(_) = next_token(rest) {
        return Err(ScriptCause::Header);
    }
    let (Some(modulus), Some(characteristic)) = (natural(n, u32::MAX), natural(p, u32::MAX)) else {
        return Err(ScriptCause::Header);
    };
    match word {
        b"space" => {}
        _ => return Err(ScriptCause::Header),
    }
    if modulus < 1 || MAX_LEVEL < modulus {
        return Err(ScriptCause::Level);
    }
    if Field::open(characteristic).is_err() {
        return Err(ScriptCause::Characteristic);
    }
    Ok(SpaceLine {
        modulus,
        characteristic,
    })
}

/// Whether a line begins a session, and whether more tokens follow its first.
fn session_line(word: &[u8], rest: &[u8]) -> (bool, bool)
    ensures begins { result.0 ≡ begins_session (word.now ∷ tokens rest.now) }
    ensures more { result.0 ≡ true → result.1 ≡ nat_lt 1 (length (word.now ∷ tokens rest.now)) }
{
    let begins = word == b"session".as_slice();
    (begins, begins && next_token(rest).is_some())
}

/// Whether a line after the header begins a session, or why it is refused after this many sessions and
/// commands; its first token, and what follows it.
pub(crate) fn later_line(
    sessions: usize,
    commands: u32,
    word: &[u8],
    rest: &[u8],
) -> Result<bool, ScriptCause>
    ensures read { MatchResult result
        (λ begins. (later_cause sessions commands (word.now ∷ tokens rest.now) ≡ None)
        × (begins ≡ begins_session (word.now ∷ tokens rest.now)))
        (λ cause. later_cause sessions commands (word.now ∷ tokens rest.now) ≡ Some cause) }
    ensures begins { result ≡ Ok true → sessions < MAX_SESSIONS }
    ensures command { result ≡ Ok false → (0 < sessions) × (commands < MAX_COMMANDS) }
{
    let (begins, more) = session_line(word, rest);
    if begins {
        if more {
            return Err(ScriptCause::Session);
        }
        if MAX_SESSIONS <= sessions {
            return Err(ScriptCause::Sessions);
        }
        return Ok(true);
    }
    if sessions == 0 {
        return Err(ScriptCause::NoSession);
    }
    if MAX_COMMANDS <= commands {
        return Err(ScriptCause::Commands);
    }
    Ok(false)
}
