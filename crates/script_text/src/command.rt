//! Commands.

ghost use Rattle.std.specs.Prelude.{◌≡◌, IfOk};
ghost use Rattle.std.specs.List.{list_any};
ghost use Rattle.script_text.specs.Limits.{is_past, is_term_past, limit_of};
ghost use Rattle.script_text.specs.Commands.{command, command_of, AnswersCommand, IsWithin};
ghost use Rattle.script_text.specs.Walk.{given};

use crate::command_fault::{CommandFault, LimitWord};
use crate::fields::Fields;
use crate::items::{Integers, Terms};
use crate::limits::{MAX_MAGNITUDE, MAX_TERMS};
use crate::line::CommandLine;
use crate::term::Term;
use crate::tokens::fields_of;
use crate::word::{Word, word_of};
use op_polynomials::{MAX_COEFFICIENTS, OpName};
use p1_normal::MAX_DET;
use std::alloc::Global;
use text_lines::next_token;

/// A command, with the numbers of its line, not reduced.
#[derive(Debug, Drop)]
pub enum Command {
    /// The normal form of (u:v).
    Normal {
        u: i64,
        v: i64,
    },
    /// The free symbols.
    Basis,
    /// The coordinates of a combination.
    Reduce {
        terms: Terms,
    },
    /// The coordinates, and the coefficients over the kept relations.
    Certify {
        terms: Terms,
    },
    /// The coordinates of Merel's sum.
    Image {
        n: u32,
        terms: Terms,
    },
    /// The coordinates of star of a combination.
    Star {
        terms: Terms,
    },
    /// The boundary of a combination.
    Boundary {
        terms: Terms,
    },
    /// The cusps.
    Cusps,
    /// The trace of an operator.
    Operator {
        op: OpName,
    },
    /// The operator's image of given coordinates.
    Apply {
        op: OpName,
        coords: Integers,
    },
    /// A polynomial in the operator, of given coordinates.
    Poly {
        op: OpName,
        coefficients: Integers,
        coords: Integers,
    },
    /// A split of the space by a polynomial in the operator.
    Split {
        op: OpName,
        coefficients: Integers,
    },
    /// The newest splitting.
    Show,
    /// The basis of a part, numbered from 1.
    Part {
        number: u32,
    },
    /// The numbers of chains and of matrices of Merel's set.
    Chains {
        n: u32,
    },
}

/// The command of a word and of what its tokens give.
fn command_from(word: Word, fields: Fields) -> Command
    ensures { result ≡ command word (given fields) }
{
    match word {
        Word::Normal => Command::Normal {
            u: fields.integers.first().copied().unwrap_or(0),
            v: fields.integers.get(1).copied().unwrap_or(0),
        },
        Word::Basis => Command::Basis,
        Word::Reduce => Command::Reduce {
            terms: Terms::of(fields.terms),
        },
        Word::Certify => Command::Certify {
            terms: Terms::of(fields.terms),
        },
        Word::Image => Command::Image {
            n: fields.n,
            terms: Terms::of(fields.terms),
        },
        Word::Star => Command::Star {
            terms: Terms::of(fields.terms),
        },
        Word::Boundary => Command::Boundary {
            terms: Terms::of(fields.terms),
        },
        Word::Cusps => Command::Cusps,
        Word::Operator => Command::Operator { op: fields.op },
        Word::Apply => Command::Apply {
            op: fields.op,
            coords: Integers::of(fields.integers),
        },
        Word::Poly => Command::Poly {
            op: fields.op,
            coefficients: Integers::of(fields.coefficients),
            coords: Integers::of(fields.integers),
        },
        Word::Split => Command::Split {
            op: fields.op,
            coefficients: Integers::of(fields.coefficients),
        },
        Word::Show => Command::Show,
        Word::Part => Command::Part {
            number: fields.number,
        },
        Word::Chains => Command::Chains { n: fields.n },
    }
}

fn is_past_number(number: i64) -> bool
    ensures { result ≡ is_past number }
{
    u64::from(MAX_MAGNITUDE) < number.unsigned_abs()
}

fn is_past_term(term: &Term) -> bool
    ensures { result ≡ is_term_past term.now }
{
    is_past_number(term.coefficient) || is_past_number(term.u) || is_past_number(term.v)
}

fn any_past(numbers: &[i64]) -> bool
    ensures { result ≡ list_any is_past numbers.now }
{
    numbers.iter().any(|number| is_past_number(*number))
}

fn any_term_past(terms: &[Term]) -> bool
    ensures { result ≡ list_any is_term_past terms.now }
{
    terms.iter().any(|term| is_past_term(term))
}

/// The first limit that is broken.
fn broken_limit(fields: &Fields) -> Option<LimitWord>
    ensures { result ≡ limit_of (given fields.now) }
{
    if fields.n < 1 || MAX_DET < fields.n {
        return Some(LimitWord::N);
    }
    if MAX_COEFFICIENTS < fields.coefficients.len() {
        return Some(LimitWord::Degree);
    }
    if MAX_TERMS < fields.terms.len() {
        return Some(LimitWord::Terms);
    }
    if MAX_MAGNITUDE < fields.number
        || any_past(&fields.integers)
        || any_past(&fields.coefficients)
        || any_term_past(&fields.terms)
    {
        return Some(LimitWord::Number);
    }
    None
}

/// The command that a line is, or the first refusal that applies. Its cost is the
/// line's length, and its memory that of the numbers that the command keeps.
pub fn parse_command(alloc: Global, line: &CommandLine) -> Result<Command, CommandFault>
    ensures read { AnswersCommand result (command_of line.now.text) }
    ensures within { IfOk result IsWithin }
{
    let text = line.text.as_slice();
    let Some((first, rest)) = next_token(text) else {
        return Err(CommandFault::Grammar { token: 1 });
    };
    let Some(word) = word_of(first) else {
        return Err(CommandFault::Grammar { token: 1 });
    };
    let fields = fields_of(alloc, word, rest)?;
    if let Some(what) = broken_limit(&fields) {
        return Err(CommandFault::Limit { what });
    }
    Ok(command_from(word, fields))
}
