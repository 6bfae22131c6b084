//! Replies read from the lexemes of a line.

ghost use Rattle.std.specs.Prelude.{◌≡◌, ◌++◌, ◌==◌, [], Some, None, MatchOption, IfOk, length};
ghost use Rattle.reply_text.specs.Lexemes.{lexemes_left};
ghost use Rattle.reply_text.specs.Wordings.{number_item, symbol_item, until, all_of, counted_symbols, numbers_by, number_by, rows_of, ok_of, refusal_of, err_of, commutator_of, reply_of};

use crate::item::{after, all_of, first, is_nothing, items, only};
use crate::lexeme::{Lexeme, Rest, next_lexeme};
use crate::word::Word;
use crate::{Operators, Pairs, Points, Refusal, Reply, Rows};
use field_table::{OutOfMemory, Residues};
use op_polynomials::OpName;
use p1_normal::Point;
use script_text::LimitWord;
use std::alloc::Global;

// The numbers before a word, and what is left after it.
fn numbers_until<'a>(
    alloc: Global,
    word: Word,
    rest: Rest<'a>,
) -> Result<Option<(Residues, Rest<'a>)>, OutOfMemory>
    ensures { IfOk result (λ r. MatchOption r
        (until number_item word (lexemes_left rest.entry) ≡ None)
        (λ t. until number_item word (lexemes_left rest.entry) ≡ Some (t.0, lexemes_left t.1))) }
{
    let (found, left) = items::<u32>(alloc, rest)?;
    match after(word, left) {
        None => Ok(None),
        Some(later) => Ok(Some((Residues::of(found), later))),
    }
}

// A number of symbols, and the symbols.
fn counted_symbols(alloc: Global, rest: Rest<'_>) -> Result<Option<Points>, OutOfMemory>
    ensures { IfOk result (λ r. MatchOption r (counted_symbols (lexemes_left rest.entry) ≡ None)
        (λ ps. counted_symbols (lexemes_left rest.entry) ≡ Some ps)) }
{
    match first::<u32>(rest) {
        None => Ok(None),
        Some((count, left)) => match all_of::<Point>(alloc, left)? {
            None => Ok(None),
            Some(points) => if count as usize == points.len() {
                Ok(Some(Points::of(points)))
            } else {
                Ok(None)
            },
        },
    }
}

// Two numbers with a word between them.
fn numbers_by(word: Word, rest: Rest<'_>) -> Option<(u32, u32)>
    ensures { result ≡ numbers_by word (lexemes_left rest.entry) }
{
    match first::<u32>(rest) {
        None => None,
        Some((a, left)) => match after(word, left) {
            None => None,
            Some(later) => match only::<u32>(later) {
                None => None,
                Some(b) => Some((a, b)),
            },
        },
    }
}

// A number with a word after it, and what is left.
fn number_by<'a>(word: Word, rest: Rest<'a>) -> Option<(u32, Rest<'a>)>
    ensures { MatchOption result (number_by word (lexemes_left rest.entry) ≡ None)
        (λ t. number_by word (lexemes_left rest.entry) ≡ Some (t.0, lexemes_left t.1)) }
{
    match first::<u32>(rest) {
        None => None,
        Some((a, left)) => match after(word, left) {
            None => None,
            Some(later) => Some((a, later)),
        },
    }
}

// Rows with a break between each two.
fn rows(alloc: Global, rest: Rest<'_>) -> Result<Option<Rows>, OutOfMemory>
    ensures { IfOk result (λ r. MatchOption r (rows_of [] [] (lexemes_left rest.entry) ≡ None)
        (λ rows. rows_of [] [] (lexemes_left rest.entry) ≡ Some rows)) }
{
    let mut rows = Vec::new(alloc);
    let mut row = Vec::new(alloc);
    let mut left = rest;
    while let Some((lexeme, later)) = next_lexeme(left) {
        match lexeme {
            Lexeme::Number(n) => row.push(n)?,
            Lexeme::Word(Word::Break) => {
                if row.is_empty() {
                    return Ok(None);
                }
                rows.push(Residues::of(row))?;
                row = Vec::new(alloc);
            }
            _ => return Ok(None),
        }
        left = later;
    }
    if row.is_empty() {
        return Ok(None);
    }
    rows.push(Residues::of(row))?;
    Ok(Some(Rows::of(rows)))
}

fn numbers(alloc: Global, rest: Rest<'_>) -> Result<Option<Residues>, OutOfMemory>
    ensures { IfOk result (λ r. MatchOption r
        (all_of number_item (lexemes_left rest.entry) ≡ None)
        (λ xs. all_of number_item (lexemes_left rest.entry) ≡ Some xs)) }
{
    match all_of::<u32>(alloc, rest)? {
        None => Ok(None),
        Some(found) => Ok(Some(Residues::of(found))),
    }
}

fn certified(alloc: Global, rest: Rest<'_>) -> Result<Option<Reply>, OutOfMemory>
    ensures { IfOk result (λ r. r ≡ ok_of Word.Certified (lexemes_left rest.entry)) }
{
    match numbers_until(alloc, Word::By, rest)? {
        None => Ok(None),
        Some((coords, left)) => match all_of::<(u32, u32)>(alloc, left)? {
            None => Ok(None),
            Some(trace) => Ok(Some(Reply::Certified {
                coords,
                trace: Pairs::of(trace),
            })),
        },
    }
}

fn splitting(alloc: Global, rest: Rest<'_>) -> Result<Option<Reply>, OutOfMemory>
    ensures { IfOk result (λ r. r ≡ ok_of Word.Splitting (lexemes_left rest.entry)) }
{
    match number_by(Word::Dims, rest) {
        None => Ok(None),
        Some((number, left)) => match numbers_until(alloc, Word::Ops, left)? {
            None => Ok(None),
            Some((dims, later)) => match all_of::<OpName>(alloc, later)? {
                None => Ok(None),
                Some(ops) => Ok(Some(Reply::Splitting {
                    number,
                    dims,
                    ops: Operators::of(ops),
                })),
            },
        },
    }
}

fn version(alloc: Global, rest: Rest<'_>) -> Result<Option<Reply>, OutOfMemory>
    ensures { IfOk result (λ r. r ≡ ok_of Word.Version (lexemes_left rest.entry)) }
{
    match number_by(Word::Dims, rest) {
        None => Ok(None),
        Some((number, left)) => match numbers(alloc, left)? {
            None => Ok(None),
            Some(dims) => Ok(Some(Reply::Version { number, dims })),
        },
    }
}

// What follows `ok` and this word.
fn ok_of(alloc: Global, word: Word, rest: Rest<'_>) -> Result<Option<Reply>, OutOfMemory>
    ensures { IfOk result (λ r. r ≡ ok_of word (lexemes_left rest.entry)) }
{
    match word {
        Word::Point => Ok(match only::<Point>(rest) {
            None => None,
            Some(p) => Some(Reply::Point(p)),
        }),
        Word::Basis => Ok(match counted_symbols(alloc, rest)? {
            None => None,
            Some(points) => Some(Reply::Basis { points }),
        }),
        Word::Coords => Ok(match numbers(alloc, rest)? {
            None => None,
            Some(values) => Some(Reply::Coords { values }),
        }),
        Word::Certified => certified(alloc, rest),
        Word::Boundary => Ok(match numbers(alloc, rest)? {
            None => None,
            Some(values) => Some(Reply::Boundary { values }),
        }),
        Word::Cusps => Ok(match counted_symbols(alloc, rest)? {
            None => None,
            Some(points) => Some(Reply::Cusps { points }),
        }),
        Word::Operator => Ok(match numbers_by(Word::Trace, rest) {
            None => None,
            Some((dim, trace)) => Some(Reply::Operator { dim, trace }),
        }),
        Word::Version => version(alloc, rest),
        Word::Splitting => splitting(alloc, rest),
        Word::Rows => Ok(match rows(alloc, rest)? {
            None => None,
            Some(rows) => Some(Reply::Rows { rows }),
        }),
        Word::Chains => Ok(match numbers_by(Word::Matrices, rest) {
            None => None,
            Some((chains, matrices)) => Some(Reply::Chains { chains, matrices }),
        }),
        _ => Ok(None),
    }
}

// What follows the word `commutator`.
fn commutator(rest: Rest<'_>) -> Option<Refusal>
    ensures { result ≡ commutator_of (lexemes_left rest.entry) }
{
    match first::<OpName>(rest) {
        None => None,
        Some((other, after_other)) => match first::<u32>(after_other) {
            None => None,
            Some((row, after_row)) => match first::<u32>(after_row) {
                None => None,
                Some((column, after_column)) => match first::<u32>(after_column) {
                    None => None,
                    Some((left, after_left)) => match only::<u32>(after_left) {
                        None => None,
                        Some(right) => Some(Refusal::Commutator {
                            other,
                            row,
                            column,
                            left,
                            right,
                        }),
                    },
                },
            },
        },
    }
}

fn lengths(rest: Rest<'_>) -> Option<Refusal>
    ensures { result ≡ refusal_of Word.Length (lexemes_left rest.entry) }
{
    match first::<u32>(rest) {
        None => None,
        Some((need, left)) => match only::<u32>(left) {
            None => None,
            Some(got) => Some(Refusal::Length { need, got }),
        },
    }
}

fn relation(alloc: Global, rest: Rest<'_>) -> Result<Option<Refusal>, OutOfMemory>
    ensures { IfOk result (λ r. r ≡ refusal_of Word.Relation (lexemes_left rest.entry)) }
{
    match first::<u32>(rest) {
        None => Ok(None),
        Some((number, left)) => match numbers(alloc, left)? {
            None => Ok(None),
            Some(coords) => Ok(Some(Refusal::Relation { number, coords })),
        },
    }
}

// What follows `err` and this word, where it is a refusal.
fn refusal_of(alloc: Global, word: Word, rest: Rest<'_>) -> Result<Option<Refusal>, OutOfMemory>
    ensures { IfOk result (λ r. r ≡ refusal_of word (lexemes_left rest.entry)) }
{
    match word {
        Word::Grammar => Ok(match only::<u32>(rest) {
            None => None,
            Some(token) => Some(Refusal::Grammar { token }),
        }),
        Word::Limit => Ok(match only::<LimitWord>(rest) {
            None => None,
            Some(what) => Some(Refusal::Limit { what }),
        }),
        Word::NotSymbol => Ok(match only::<u32>(rest) {
            None => None,
            Some(term) => Some(Refusal::NotSymbol { term }),
        }),
        Word::NotCoprime => Ok(match only::<u32>(rest) {
            None => None,
            Some(gcd) => Some(Refusal::NotCoprime { gcd }),
        }),
        Word::Length => Ok(lengths(rest)),
        Word::NoPart => Ok(match only::<u32>(rest) {
            None => None,
            Some(count) => Some(Refusal::NoPart { count }),
        }),
        Word::VersionsFull => Ok(if is_nothing(rest) {
            Some(Refusal::VersionsFull)
        } else {
            None
        }),
        Word::Relation => relation(alloc, rest),
        Word::Commutator => Ok(commutator(rest)),
        _ => Ok(None),
    }
}

// What follows `err` and this word.
fn err_of(alloc: Global, word: Word, rest: Rest<'_>) -> Result<Option<Reply>, OutOfMemory>
    ensures { IfOk result (λ r. r ≡ err_of word (lexemes_left rest.entry)) }
{
    match word {
        Word::Memory => Ok(if is_nothing(rest) {
            Some(Reply::Memory)
        } else {
            None
        }),
        _ => match refusal_of(alloc, word, rest)? {
            None => Ok(None),
            Some(refusal) => Ok(Some(Reply::Refused(refusal))),
        },
    }
}

/// The reply that has these lexemes.
pub fn reply_of(alloc: Global, rest: Rest<'_>) -> Result<Option<Reply>, OutOfMemory>
    ensures { IfOk result (λ r. r ≡ reply_of (lexemes_left rest.entry)) }
{
    match first::<Word>(rest) {
        None => Ok(None),
        Some((verdict, left)) => match first::<Word>(left) {
            None => Ok(None),
            Some((word, later)) => match verdict {
                Word::Ok => ok_of(alloc, word, later),
                Word::Err => err_of(alloc, word, later),
                _ => Ok(None),
            },
        },
    }
}
