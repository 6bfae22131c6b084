//! Lines read from their texts.

ghost use Rattle.std.specs.Prelude.{◌≡◌, ◌∷◌, [], Some, None, MatchOption, IfOk};
ghost use Rattle.reply_text.specs.Lexemes.{pieces_left, lexemes_left};
ghost use Rattle.reply_text.specs.LineForms.{commas_left, coefficients_of, space_of, word_line, entry_of, numbered_line, line_of};

use crate::item::{Item, after, first, is_nothing, only};
use crate::lexeme::{Lexeme, Rest, lexeme_of, next_piece, small_of};
use crate::line::Line;
use crate::reply_reader::reply_of;
use crate::transcript::ReplyLine;
use crate::word::Word;
use field_table::{OutOfMemory, Residues};
use op_polynomials::OpName;
use std::alloc::Global;
use text_lines::next_part;

fn space(rest: Rest<'_>) -> Option<Line>
    ensures { result ≡ space_of (lexemes_left rest.entry) }
{
    match first::<u32>(rest) {
        None => None,
        Some((modulus, after_modulus)) => match first::<u32>(after_modulus) {
            None => None,
            Some((characteristic, after_characteristic)) => match after(
                Word::Symbols,
                after_characteristic,
            ) {
                None => None,
                Some(left) => match only::<u32>(left) {
                    None => None,
                    Some(symbols) => Some(Line::Space {
                        modulus,
                        characteristic,
                        symbols,
                    }),
                },
            },
        },
    }
}

// The line that begins with this word.
fn word_line(word: Word, rest: Rest<'_>) -> Option<Line>
    ensures { result ≡ word_line word (lexemes_left rest.entry) }
{
    match word {
        Word::Transcript => match only::<u32>(rest) {
            None => None,
            Some(version) => if version == 1 {
                Some(Line::Heading)
            } else {
                None
            },
        },
        Word::Space => space(rest),
        Word::Session => match only::<u32>(rest) {
            None => None,
            Some(k) => Some(Line::Session(k)),
        },
        Word::History => match only::<u32>(rest) {
            None => None,
            Some(h) => Some(Line::History(h)),
        },
        Word::Columns => match only::<u64>(rest) {
            None => None,
            Some(k) => Some(Line::Columns(k)),
        },
        Word::End => if is_nothing(rest) {
            Some(Line::End)
        } else {
            None
        },
        _ => None,
    }
}

// The next part between commas.
fn next_coefficient<'a>(rest: Rest<'a>) -> Option<(&'a [u8], Rest<'a>)>
    ensures { MatchOption result (commas_left rest.entry ≡ [])
        (λ next. commas_left rest.entry ≡ next.0.now ∷ commas_left next.1) }
{
    if !rest.more {
        return None;
    }
    match next_part(b',', rest.text) {
        (piece, None) => Some((
            piece,
            Rest {
                more: false,
                text: b"",
            },
        )),
        (piece, Some(text)) => Some((piece, Rest { more: true, text })),
    }
}

// The coefficients of a polynomial.
fn coefficients(alloc: Global, text: &[u8]) -> Result<Option<Residues>, OutOfMemory>
    ensures { IfOk result (λ r. MatchOption r (coefficients_of text.now ≡ None)
        (λ fs. coefficients_of text.now ≡ Some fs)) }
{
    let mut found = Vec::new(alloc);
    let mut left = Rest { more: true, text };
    while let Some((token, later)) = next_coefficient(left) {
        match small_of(token) {
            None => return Ok(None),
            Some(n) => found.push(n)?,
        }
        left = later;
    }
    Ok(Some(Residues::of(found)))
}

fn entry_parts(
    alloc: Global,
    number: u32,
    session: u32,
    command: &[u8],
    op: &[u8],
    poly: &[u8],
) -> Result<Option<Line>, OutOfMemory>
    ensures { IfOk result
        (λ r. r ≡ entry_of number session (command.now ∷ op.now ∷ poly.now ∷ [])) }
{
    match lexeme_of(command) {
        Lexeme::AtCommand(command) => match OpName::of(lexeme_of(op)) {
            None => Ok(None),
            Some(op) => match coefficients(alloc, poly)? {
                None => Ok(None),
                Some(coefficients) => Ok(Some(Line::Entry {
                    number,
                    session,
                    command,
                    op,
                    coefficients,
                })),
            },
        },
        _ => Ok(None),
    }
}

// The line of an entry, after its number and its session.
fn entry(
    alloc: Global,
    number: u32,
    session: u32,
    rest: Rest<'_>,
) -> Result<Option<Line>, OutOfMemory>
    ensures { IfOk result (λ r. r ≡ entry_of number session (pieces_left rest.entry)) }
{
    match next_piece(rest) {
        None => Ok(None),
        Some((command, after_command)) => match next_piece(after_command) {
            None => Ok(None),
            Some((op, after_op)) => match next_piece(after_op) {
                None => Ok(None),
                Some((poly, after_poly)) => match next_piece(after_poly) {
                    None => entry_parts(alloc, number, session, command, op, poly),
                    Some(_) => Ok(None),
                },
            },
        },
    }
}

// The line that begins with this number.
fn numbered_line(alloc: Global, number: u32, rest: Rest<'_>) -> Result<Option<Line>, OutOfMemory>
    ensures { IfOk result (λ r. r ≡ numbered_line number (pieces_left rest.entry)) }
{
    match next_piece(rest) {
        None => Ok(None),
        Some((piece, left)) => match lexeme_of(piece) {
            Lexeme::At(version) => match reply_of(alloc, left)? {
                None => Ok(None),
                Some(reply) => Ok(Some(Line::Reply(ReplyLine {
                    number,
                    version,
                    reply,
                }))),
            },
            Lexeme::InSession(session) => entry(alloc, number, session, left),
            _ => Ok(None),
        },
    }
}

/// The line that has this text.
pub fn line_of(alloc: Global, text: &[u8]) -> Result<Option<Line>, OutOfMemory>
    ensures { IfOk result (λ r. r ≡ line_of text.now) }
{
    match next_piece(Rest { more: true, text }) {
        None => Ok(None),
        Some((piece, left)) => match lexeme_of(piece) {
            Lexeme::Word(word) => Ok(word_line(word, left)),
            Lexeme::Number(number) => numbered_line(alloc, number, left),
            _ => Ok(None),
        },
    }
}
