//! Items taken from the lexemes of a line.

ghost use Rattle.std.specs.Prelude.{◌≡◌, ◌++◌, ℕ, List, Option, Some, None, MatchOption, IfOk};
ghost use Rattle.reply_text.specs.declared.lexeme.Lexeme.{Lexeme};
ghost use Rattle.reply_text.specs.Lexemes.{lexemes_left};
ghost use Rattle.reply_text.specs.Wordings.{word_item, number_item, symbol_item, pair_item, operator_item, limit_item, items_in, all_of, first, only, after, is_end};
ghost use Rattle.reply_text.specs.LineForms.{large_item};

use crate::lexeme::{Lexeme, Rest, next_lexeme};
use crate::word::{Word, is_same, word_bytes};
use field_table::OutOfMemory;
use op_polynomials::OpName;
use p1_normal::Point;
use script_text::LimitWord;
use std::alloc::Global;

/// What a lexeme can give.
pub trait Item: Drop {
    /// The item that a lexeme gives.
    ghost item: { Lexeme → Option Self };

    /// The item that a lexeme gives.
    fn of(lexeme: Lexeme) -> Option<Self>
        ensures { result ≡ item lexeme };
}

impl Item for Word {
    ghost item = { word_item };

    fn of(lexeme: Lexeme) -> Option<Word> {
        match lexeme {
            Lexeme::Word(w) => Some(w),
            _ => None,
        }
    }
}

impl Item for u32 {
    ghost item = { number_item };

    fn of(lexeme: Lexeme) -> Option<u32> {
        match lexeme {
            Lexeme::Number(n) => Some(n),
            _ => None,
        }
    }
}

impl Item for u64 {
    ghost item = { large_item };

    fn of(lexeme: Lexeme) -> Option<u64> {
        match lexeme {
            Lexeme::Number(n) => Some(u64::from(n)),
            Lexeme::Large(n) => Some(n),
            _ => None,
        }
    }
}

impl Item for Point {
    ghost item = { symbol_item };

    fn of(lexeme: Lexeme) -> Option<Point> {
        match lexeme {
            Lexeme::Symbol(p) => Some(p),
            _ => None,
        }
    }
}

impl Item for (u32, u32) {
    ghost item = { pair_item };

    fn of(lexeme: Lexeme) -> Option<(u32, u32)> {
        match lexeme {
            Lexeme::Pair(t) => Some(t),
            _ => None,
        }
    }
}

impl Item for OpName {
    ghost item = { operator_item };

    fn of(lexeme: Lexeme) -> Option<OpName> {
        match lexeme {
            Lexeme::Hecke(n) => Some(OpName::T { n }),
            Lexeme::Word(w) => match w {
                Word::Star => Some(OpName::Star),
                _ => None,
            },
            _ => None,
        }
    }
}

impl Item for LimitWord {
    ghost item = { limit_item };

    fn of(lexeme: Lexeme) -> Option<LimitWord> {
        match lexeme {
            Lexeme::Word(w) => match w {
                Word::N => Some(LimitWord::N),
                Word::Degree => Some(LimitWord::Degree),
                Word::Terms => Some(LimitWord::Terms),
                Word::Number => Some(LimitWord::Number),
                _ => None,
            },
            _ => None,
        }
    }
}

/// The first lexeme's item, and what is left after it.
pub fn first<'a, T: Item>(rest: Rest<'a>) -> Option<(T, Rest<'a>)>
    ensures { MatchOption result (first T.item (lexemes_left rest.entry) ≡ None)
        (λ t. first T.item (lexemes_left rest.entry) ≡ Some (t.0, lexemes_left t.1)) }
{
    match next_lexeme(rest) {
        None => None,
        Some((lexeme, after)) => match T::of(lexeme) {
            None => None,
            Some(item) => Some((item, after)),
        },
    }
}

/// The item of the one lexeme.
pub fn only<'a, T: Item>(rest: Rest<'a>) -> Option<T>
    ensures { result ≡ only T.item (lexemes_left rest.entry) }
{
    match first::<T>(rest) {
        None => None,
        Some((item, after)) => if after.more { None } else { Some(item) },
    }
}

/// What is left after this word.
pub fn after<'a>(word: Word, rest: Rest<'a>) -> Option<Rest<'a>>
    ensures { MatchOption result (after word (lexemes_left rest.entry) ≡ None)
        (λ t. after word (lexemes_left rest.entry) ≡ Some (lexemes_left t)) }
{
    match first::<Word>(rest) {
        None => None,
        Some((w, left)) => if is_same(word_bytes(w), word_bytes(word)) {
            Some(left)
        } else {
            None
        },
    }
}

/// The items that the lexemes begin with, and what is left after them.
pub fn items<'a, T: Item>(alloc: Global, rest: Rest<'a>) -> Result<(Vec<T>, Rest<'a>), OutOfMemory>
    ensures items { IfOk result
        (λ t. t.0.items ≡ (items_in T.item (lexemes_left rest.entry)).0) }
    ensures left { IfOk result
        (λ t. lexemes_left t.1 ≡ (items_in T.item (lexemes_left rest.entry)).1) }
{
    let mut found = Vec::new(alloc);
    let mut left = rest;
    while let Some((item, after)) = first::<T>(left) {
        found.push(item)?;
        left = after;
    }
    Ok((found, left))
}

/// The items of all lexemes, where each gives one.
pub fn all_of<'a, T: Item>(alloc: Global, rest: Rest<'a>) -> Result<Option<Vec<T>>, OutOfMemory>
    ensures { IfOk result (λ r. MatchOption r (all_of T.item (lexemes_left rest.entry) ≡ None)
        (λ v. all_of T.item (lexemes_left rest.entry) ≡ Some v.items)) }
{
    let (found, left) = items::<T>(alloc, rest)?;
    if left.more { Ok(None) } else { Ok(Some(found)) }
}

/// Whether nothing is left.
#[tactic(auto, using(crate::proofs::ItemLemmas::end_is))]
pub fn is_nothing(rest: Rest<'_>) -> bool
    ensures { result ≡ is_end (lexemes_left rest.entry) }
{
    !rest.more
}
