//! The table of commands.

ghost use Rattle.std.specs.Prelude.{◌≡◌, MatchOption};
ghost use Rattle.script_text.specs.declared.word.Word.{Word};
ghost use Rattle.script_text.specs.Rows.{row};

use crate::kind::Kind;

/// The first word of a command.
#[derive(Clone, Copy, Debug, PartialEq, Eq)]
pub enum Word {
    Normal,
    Basis,
    Reduce,
    Certify,
    Image,
    Star,
    Boundary,
    Cusps,
    Operator,
    Apply,
    Poly,
    Split,
    Show,
    Part,
    Chains,
}

/// The kinds of the tokens that stand after the word.
pub(crate) fn kinds(word: Word) -> &'static [Kind]
    ensures { result.now ≡ (row word).kinds }
{
    match word {
        Word::Normal => &[Kind::Integer, Kind::Integer],
        Word::Image | Word::Chains => &[Kind::Index],
        Word::Operator | Word::Apply => &[Kind::Operator],
        Word::Poly | Word::Split => &[Kind::Operator, Kind::Coefficients],
        Word::Part => &[Kind::Natural],
        _ => &[],
    }
}

/// The kind that may stand after these any number of times.
pub(crate) fn repeated(word: Word) -> Option<Kind>
    ensures { result ≡ (row word).repeated }
{
    match word {
        Word::Reduce | Word::Certify | Word::Image | Word::Star | Word::Boundary => Some(
            Kind::Term,
        ),
        Word::Apply | Word::Poly => Some(Kind::Integer),
        _ => None,
    }
}

/// The command that begins with this token.
pub(crate) fn word_of(token: &[u8]) -> Option<Word>
    ensures { MatchOption result ((w : Word) → token.now ≡ (row w).word → ⊥)
        (λ w. token.now ≡ (row w).word) }
{
    match token {
        b"normal" => Some(Word::Normal),
        b"basis" => Some(Word::Basis),
        b"reduce" => Some(Word::Reduce),
        b"certify" => Some(Word::Certify),
        b"image" => Some(Word::Image),
        b"star" => Some(Word::Star),
        b"boundary" => Some(Word::Boundary),
        b"cusps" => Some(Word::Cusps),
        b"operator" => Some(Word::Operator),
        b"apply" => Some(Word::Apply),
        b"poly" => Some(Word::Poly),
        b"split" => Some(Word::Split),
        b"show" => Some(Word::Show),
        b"part" => Some(Word::Part),
        b"chains" => Some(Word::Chains),
        _ => None,
    }
}
