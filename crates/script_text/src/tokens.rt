//! Reading the tokens of a command after its word.

ghost use Rattle.std.specs.Prelude.{◌≡◌, ◌^◌, ◌-◌, ◌+◌, ◌≤◌, ◌<◌, IfOk, length};
ghost use Rattle.text_lines.specs.Lines.{tokens};
ghost use Rattle.script_text.specs.Tokens.{nothing};
ghost use Rattle.script_text.specs.Rows.{row};
ghost use Rattle.script_text.specs.Grammar.{next_kind, rest};
ghost use Rattle.script_text.specs.Walk.{given, walk, Carries};

use crate::command_fault::CommandFault;
use crate::fields::{Fields, add_token, no_fields};
use crate::kind::Kind;
use crate::word::{Word, kinds, repeated};
use std::alloc::Global;
use text_lines::next_token;

/// The kind of the next token, and the kinds that come after it.
fn next_item(kinds: &[Kind], repeated: Option<Kind>) -> (Option<Kind>, &[Kind])
    ensures kind { result.0 ≡ next_kind kinds.now repeated }
    ensures more { result.1.now ≡ rest kinds.now }
{
    match kinds {
        [first, more @ ..] => (Some(*first), more),
        [] => (repeated, kinds),
    }
}

/// What the tokens after the word give.
pub(crate) fn fields_of(alloc: Global, word: Word, line: &[u8]) -> Result<Fields, CommandFault>
    requires { length line.now < 2 ^ 32 - 2 }
    ensures read { Carries given result
        (walk (row word).kinds (row word).repeated 2 nothing (tokens line.now)) }
    ensures few { IfOk result (λ f. length f.integers.items < 2 ^ 32) }
{
    let mut fields = no_fields(alloc);
    let mut to_come = kinds(word);
    let mut rest = line;
    let mut place: u32 = 2;
    while let Some((token, after)) = next_token(rest) {
        let (kind, more) = next_item(to_come, repeated(word));
        if !add_token(&mut fields, kind, token)? {
            return Err(CommandFault::Grammar { token: place });
        }
        to_come = more;
        rest = after;
        place += 1;
    }
    if !to_come.is_empty() {
        return Err(CommandFault::Grammar { token: place });
    }
    Ok(fields)
}
