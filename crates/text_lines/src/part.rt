//! Parts between separators.

ghost use Rattle.std.specs.Prelude.{◌≡◌, ◌<◌, [], ◌∷◌, length, MatchOption, IfSome};
ghost use Rattle.text_lines.specs.Lines.{parts, PartsOfJoined, JoinedParts};

use memchr::memchr;

/// The bytes before the first separator, and those after it, if there is one.
/// Its cost is the part's length.
pub fn next_part(separator: u8, text: &[u8]) -> (&[u8], Option<&[u8]>)
    ensures part { MatchOption result.1 (parts separator text.now ≡ result.0.now ∷ [])
        (λ more. parts separator text.now ≡ result.0.now ∷ parts separator more.now) }
    ensures shorter { IfSome result.1 (λ more. length more.now < length text.now) }
{
    match memchr(separator, text) {
        Some(end) => (&text[..end], Some(&text[end + 1..])),
        None => (text, None),
    }
}

/// Parts that hold no separator, one at least, are the parts of their text.
pub fn parts_of_joined()
    ensures law { PartsOfJoined }
{}

/// No byte of a text is lost in its parts.
pub fn joined_parts()
    ensures law { JoinedParts }
{}
