//! Lines.

ghost use Rattle.std.specs.Prelude.{◌≡◌, ◌+◌, ◌<◌, ◌≤◌, [], ◌∷◌, length, MatchOption, IfSome};
ghost use Rattle.text_lines.specs.Lines.{lines, without_return, LinesOfEnded};

use memchr::memchr;

/// The first line of a text, without its line feed, and what follows it; `None`
/// where the text has no line, as an empty one. Its cost is the line's length.
pub fn next_line(text: &[u8]) -> Option<(&[u8], &[u8])>
    ensures line { MatchOption result (lines text.now ≡ [])
        (λ next. lines text.now ≡ next.0.now ∷ lines next.1.now) }
    ensures within { IfSome result
        (λ next. length next.0.now + length next.1.now ≤ length text.now) }
    ensures shorter { IfSome result (λ next. length next.1.now < length text.now) }
{
    if text.is_empty() {
        return None;
    }
    match memchr(b'\n', text) {
        Some(end) => Some((&text[..end], &text[end + 1..])),
        None => Some(text.split_at(text.len())),
    }
}

/// The line without the one carriage return that may stand at its end.
pub fn without_return(line: &[u8]) -> &[u8]
    ensures line { result.now ≡ without_return line.now }
    ensures within { length result.now ≤ length line.now }
{
    if !line.is_empty() && line[line.len() - 1] == b'\r' {
        &line[..line.len() - 1]
    } else {
        line
    }
}

/// Lines that hold no line feed are the lines of their text.
pub fn lines_of_ended()
    ensures law { LinesOfEnded }
{}
