//! Lexemes: what stands between the spaces of a line.

ghost use Rattle.std.specs.Prelude.{◌≡◌, ◌∷◌, [], Some, None, MatchOption};
ghost use Rattle.text_lines.specs.Lines.{parts};
ghost use Rattle.text_lines.specs.Numbers.{is_digit};
ghost use Rattle.reply_text.specs.Lexemes.{two, value_of, small_of, both_small, pair_of, before_bracket, symbol_of, number_lexeme, or_pair, or_other, word_of, lexeme_by_mark, lexeme_of, pieces_left, lexemes_left};
ghost use Rattle.reply_text.specs.declared.lexeme.Lexeme.TheVariants as lexs;

use crate::word::{Word, word_of};
use p1_normal::Point;
use text_lines::{decimal_of, next_part};

/// A piece of a line, between spaces.
#[derive(Clone, Copy, Debug, PartialEq, Eq)]
pub enum Lexeme {
    /// A word.
    Word(Word),
    /// A number below 2 to the 32.
    Number(u32),
    /// A number from 2 to the 32 on, below 2 to the 64.
    Large(u64),
    /// A version, as @v.
    At(u32),
    /// A Hecke operator, as Tn.
    Hecke(u32),
    /// A session, as sS.
    InSession(u32),
    /// A command's number, as cC.
    AtCommand(u32),
    /// A symbol, as (u:v).
    Symbol(Point),
    /// A pair of numbers, as k:c.
    Pair((u32, u32)),
    /// None of these.
    Other,
}

// The number below 2 to the 64 whose decimal the token is.
fn value_of(token: &[u8]) -> Option<u64>
    ensures { result ≡ value_of token.now }
{
    match decimal_of(token) {
        Some(value) => Some(value),
        None => None,
    }
}

/// The number below 2 to the 32 whose decimal the token is.
pub fn small_of(token: &[u8]) -> Option<u32>
    ensures { result ≡ small_of token.now }
{
    match value_of(token) {
        Some(value) => if value < 0x1_0000_0000 {
            Some(value as u32)
        } else {
            None
        },
        None => None,
    }
}

// The two parts of a text that has two.
#[tactic(auto, using(crate::proofs::TwoParts::two_more))]
fn two_parts(separator: u8, text: &[u8]) -> Option<(&[u8], &[u8])>
    ensures { MatchOption result (two (parts separator text.now) ≡ None)
        (λ r. two (parts separator text.now) ≡ Some (r.0.now, r.1.now)) }
{
    match next_part(separator, text) {
        (_, None) => None,
        (first, Some(more)) => match next_part(separator, more) {
            (second, None) => Some((first, second)),
            (_, Some(_)) => None,
        },
    }
}

fn both_small(first: &[u8], second: &[u8]) -> Option<(u32, u32)>
    ensures { result ≡ both_small first.now second.now }
{
    match small_of(first) {
        None => None,
        Some(m) => match small_of(second) {
            None => None,
            Some(n) => Some((m, n)),
        },
    }
}

fn pair_of(token: &[u8]) -> Option<(u32, u32)>
    ensures { result ≡ pair_of token.now }
{
    match two_parts(b':', token) {
        None => None,
        Some((first, second)) => both_small(first, second),
    }
}

// What stands before the one bracket that ends the token.
fn before_bracket(token: &[u8]) -> Option<&[u8]>
    ensures { MatchOption result (before_bracket token.now ≡ None)
        (λ v. before_bracket token.now ≡ Some v.now) }
{
    match two_parts(b')', token) {
        None => None,
        Some((before, after)) => if after.is_empty() { Some(before) } else { None },
    }
}

// A symbol, after its first bracket.
fn symbol_of(token: &[u8]) -> Option<Point>
    ensures { result ≡ symbol_of token.now }
{
    match two_parts(b':', token) {
        None => None,
        Some((first, second)) => match before_bracket(second) {
            None => None,
            Some(closed) => match both_small(first, closed) {
                None => None,
                Some((u, v)) => Some(Point { u, v }),
            },
        },
    }
}

fn is_digit_byte(b: u8) -> bool
    ensures { result ≡ is_digit b }
{
    b'0' <= b && b <= b'9'
}

fn numeral(piece: &[u8]) -> Lexeme
    ensures { result ≡ or_pair (value_of piece.now) piece.now }
{
    match value_of(piece) {
        Some(n) => if n < 0x1_0000_0000 {
            Lexeme::Number(n as u32)
        } else {
            Lexeme::Large(n)
        },
        None => match pair_of(piece) {
            Some(pair) => Lexeme::Pair(pair),
            None => Lexeme::Other,
        },
    }
}

fn word(piece: &[u8]) -> Lexeme
    ensures { result ≡ or_other (word_of piece.now) (λ w. lexs.Word w) }
{
    match word_of(piece) {
        Some(w) => Lexeme::Word(w),
        None => Lexeme::Other,
    }
}

// The lexeme of a piece with this first byte, which is no digit.
fn lexeme_by_mark(mark: u8, rest: &[u8], piece: &[u8]) -> Lexeme
    requires { piece.now ≡ mark ∷ rest.now }
    ensures { result ≡ lexeme_by_mark mark rest.now }
{
    match mark {
        b'@' => match small_of(rest) {
            Some(n) => Lexeme::At(n),
            None => Lexeme::Other,
        },
        b'T' => match small_of(rest) {
            Some(n) => Lexeme::Hecke(n),
            None => Lexeme::Other,
        },
        b'(' => match symbol_of(rest) {
            Some(p) => Lexeme::Symbol(p),
            None => Lexeme::Other,
        },
        b's' => match small_of(rest) {
            Some(n) => Lexeme::InSession(n),
            None => word(piece),
        },
        b'c' => match small_of(rest) {
            Some(n) => Lexeme::AtCommand(n),
            None => word(piece),
        },
        _ => word(piece),
    }
}

/// The lexeme that a piece spells.
#[tactic(auto, unfolding(crate::specs::Lexemes::lexeme_of))]
pub fn lexeme_of(piece: &[u8]) -> Lexeme
    ensures { result ≡ lexeme_of piece.now }
{
    match piece {
        [] => Lexeme::Other,
        [first, rest @ ..] => if is_digit_byte(*first) {
            numeral(piece)
        } else {
            lexeme_by_mark(*first, rest, piece)
        },
    }
}

/// The pieces that are left of a line: those of the text, or none where there are no more.
#[derive(Clone, Copy)]
pub struct Rest<'a> {
    pub more: bool,
    pub text: &'a [u8],
}

/// The next piece, and what is left after it.
pub fn next_piece<'a>(rest: Rest<'a>) -> Option<(&'a [u8], Rest<'a>)>
    ensures { MatchOption result (pieces_left rest.entry ≡ [])
        (λ next. pieces_left rest.entry ≡ next.0.now ∷ pieces_left next.1) }
{
    if !rest.more {
        return None;
    }
    match next_part(b' ', rest.text) {
        (piece, None) => Some((
            piece,
            Rest {
                more: false,
                text: b"",
            },
        )),
        (piece, Some(text)) => Some((piece, Rest { more: true, text })),
    }
}

/// The next lexeme, and what is left after it.
pub fn next_lexeme<'a>(rest: Rest<'a>) -> Option<(Lexeme, Rest<'a>)>
    ensures { MatchOption result (lexemes_left rest.entry ≡ [])
        (λ next. lexemes_left rest.entry ≡ next.0 ∷ lexemes_left next.1) }
{
    match next_piece(rest) {
        None => None,
        Some((piece, after)) => Some((lexeme_of(piece), after)),
    }
}
