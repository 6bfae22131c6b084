//! Tokens.

ghost use Rattle.std.specs.Prelude.{◌≡◌, ℕ, true, false, ◌<◌, ◌≤◌, [], ◌∷◌, length, slice_index, MatchOption, IfSome};
ghost use Rattle.text_lines.specs.Lines.{tokens, is_blank};

/// Whether a byte parts tokens.
fn is_blank_byte(b: u8) -> bool
    ensures { result ≡ is_blank b }
{
    b == b' ' || b == b'\t'
}

/// How many blanks the line begins with.
fn blanks(line: &[u8]) -> usize
    ensures within { result ≤ length line.now }
    ensures skipped { (k : ℕ) → k < result → is_blank (slice_index line.now k) ≡ true }
    ensures stops { result < length line.now → is_blank (slice_index line.now result) ≡ false }
{
    for (i, b) in line.iter().enumerate() {
        if !is_blank_byte(*b) {
            return i;
        }
    }
    line.len()
}

/// How many bytes stand before the first blank.
fn word(line: &[u8]) -> usize
    ensures within { result ≤ length line.now }
    ensures taken { (k : ℕ) → k < result → is_blank (slice_index line.now k) ≡ false }
    ensures stops { result < length line.now → is_blank (slice_index line.now result) ≡ true }
{
    for (i, b) in line.iter().enumerate() {
        if is_blank_byte(*b) {
            return i;
        }
    }
    line.len()
}

/// The line without the blanks at its front.
fn unindented(line: &[u8]) -> &[u8]
    ensures same { tokens line.now ≡ tokens result.now }
    ensures within { length result.now ≤ length line.now }
    ensures begins { 0 < length result.now → is_blank (slice_index result.now 0) ≡ false }
{
    &line[blanks(line)..]
}

/// The first token of a line, and what follows it; `None` where the line has no
/// token. Spaces and tabs part tokens. Its cost is that of the bytes up to the
/// token's end.
pub fn next_token(line: &[u8]) -> Option<(&[u8], &[u8])>
    ensures token { MatchOption result (tokens line.now ≡ [])
        (λ next. tokens line.now ≡ next.0.now ∷ tokens next.1.now) }
    ensures shorter { IfSome result (λ next. length next.1.now < length line.now) }
{
    let rest = unindented(line);
    if rest.is_empty() {
        return None;
    }
    Some(rest.split_at(word(rest)))
}
