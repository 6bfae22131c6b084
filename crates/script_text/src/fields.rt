//! What the tokens of a command give.

ghost use Rattle.std.specs.Prelude.{◌≡◌, ◌++◌, true, false, map, IfOk, MatchOption};
ghost use Rattle.std.specs.List.{list_all};
ghost use Rattle.text_lines.specs.Lines.{parts};
ghost use Rattle.text_lines.specs.Numbers.{is_natural, is_integer};
ghost use Rattle.script_text.specs.Tokens.{nothing, is_operator, add_operator, is_term, term, natural as natural_of, integer as integer_of};
ghost use Rattle.script_text.specs.Grammar.{fits, add_kind};
ghost use Rattle.script_text.specs.Walk.{given};

use crate::kind::Kind;
use crate::limits::PAST_MAGNITUDE;
use crate::term::Term;
use op_polynomials::OpName;
use std::alloc::{AllocError, Global};
use text_lines::{integer, natural, next_part};

/// What the tokens of a command give.
#[derive(Drop)]
pub(crate) struct Fields {
    pub integers: Vec<i64>,
    pub number: u32,
    pub n: u32,
    pub op: OpName,
    pub coefficients: Vec<i64>,
    pub terms: Vec<Term>,
}

/// What no token gives.
pub(crate) fn no_fields(alloc: Global) -> Fields
    ensures { given result ≡ nothing }
{
    Fields {
        integers: Vec::new(alloc),
        number: 0,
        n: 1,
        op: OpName::Star,
        coefficients: Vec::new(alloc),
        terms: Vec::new(alloc),
    }
}

/// The number of digits, which counts as `PAST_MAGNITUDE` where it is greater.
fn natural_token(token: &[u8]) -> Option<u32>
    ensures { MatchOption result (is_natural token.now ≡ false)
        (λ n. (is_natural token.now ≡ true) × (n ≡ natural_of token.now)) }
{
    natural(token, PAST_MAGNITUDE)
}

/// The number of digits that may follow a minus, of which the magnitude counts as
/// `PAST_MAGNITUDE` where it is greater.
fn integer_token(token: &[u8]) -> Option<i64>
    ensures { MatchOption result (is_integer token.now ≡ false)
        (λ z. (is_integer token.now ≡ true) × (z ≡ integer_of token.now)) }
{
    integer(token, PAST_MAGNITUDE)
}

/// Adds what a token of this kind gives; false where it isn't of the kind.
pub(crate) fn add_token(
    fields: &mut Fields,
    kind: Option<Kind>,
    token: &[u8],
) -> Result<bool, AllocError>
    ensures fits { IfOk result (λ it. it ≡ fits kind token.now) }
    ensures added { IfOk result
        (λ it. it ≡ true → given fields.new ≡ add_kind kind token.now (given fields.old)) }
{
    match kind {
        None => Ok(false),
        Some(Kind::Integer) => match integer_token(token) {
            Some(integer) => {
                fields.integers.push(integer)?;
                Ok(true)
            }
            None => Ok(false),
        },
        Some(Kind::Natural) => match natural_token(token) {
            Some(number) => {
                fields.number = number;
                Ok(true)
            }
            None => Ok(false),
        },
        Some(Kind::Index) => match natural_token(token) {
            Some(n) => {
                fields.n = n;
                Ok(true)
            }
            None => Ok(false),
        },
        Some(Kind::Operator) => Ok(add_operator_token(fields, token)),
        Some(Kind::Coefficients) => add_coefficients(&mut fields.coefficients, token),
        Some(Kind::Term) => match term_token(token) {
            Some(term) => {
                fields.terms.push(term)?;
                Ok(true)
            }
            None => Ok(false),
        },
    }
}

/// Takes the operator that a token names; false where it names none.
fn add_operator_token(fields: &mut Fields, token: &[u8]) -> bool
    ensures fits { result ≡ is_operator token.now }
    ensures added { result ≡ true → given fields.new ≡ add_operator token.now (given fields.old) }
{
    match token {
        [b'T', digits @ ..] => match natural_token(digits) {
            Some(n) => {
                fields.n = n;
                fields.op = OpName::T { n };
                true
            }
            None => false,
        },
        b"star" => {
            fields.op = OpName::Star;
            true
        }
        _ => false,
    }
}

/// Adds the integers between commas; false where a part is no integer.
fn add_coefficients(integers: &mut Vec<i64>, token: &[u8]) -> Result<bool, AllocError>
    ensures fits { IfOk result (λ it. it ≡ list_all is_integer (parts 44 token.now)) }
    ensures added { IfOk result (λ it. it ≡ true
        → integers.new.items ≡ integers.old.items ++ map integer_of (parts 44 token.now)) }
{
    let mut rest = token;
    loop {
        let (part, after) = next_part(b',', rest);
        match integer_token(part) {
            Some(integer) => integers.push(integer)?,
            None => return Ok(false),
        }
        match after {
            Some(more) => rest = more,
            None => return Ok(true),
        }
    }
}

/// The three integers between colons.
#[tactic(auto, using(crate::proofs::TermLemmas::four_parts))]
fn term_token(token: &[u8]) -> Option<Term>
    ensures { MatchOption result (is_term (parts 58 token.now) ≡ false)
        (λ t. (is_term (parts 58 token.now) ≡ true) × (t ≡ term (parts 58 token.now))) }
{
    let (first, after) = next_part(b':', token);
    let (second, after) = next_part(b':', after?);
    let (third, after) = next_part(b':', after?);
    if let Some(_) = after {
        return None;
    }
    Some(Term {
        coefficient: integer_token(first)?,
        u: integer_token(second)?,
        v: integer_token(third)?,
    })
}
