//! The words of the command line.

ghost use Rattle.std.specs.Prelude.{◌≡◌, Some, None, if◌then◌else◌};
ghost use Rattle.text_lines.specs.Numbers.{natural_of};
ghost use Rattle.host_workers.specs.Runs.{are_word, is_seed, seed_of};

use text_lines::exact_natural;

// How many digits the number of a script has at most.
const MAX_DIGITS: usize = 20;

// Whether the words are this one word.
pub(crate) fn are_word(words: &[String], only: &[u8]) -> bool
    ensures { result ≡ are_word words.now only.now }
{
    match words {
        [word] => word.as_bytes() == only,
        _ => false,
    }
}

// The number that follows the word `gen`, where the words are these two.
pub(crate) fn generation_seed(words: &[String]) -> Option<u64>
    ensures { result ≡ seed_of words.now }
{
    match words {
        [word, number] => if word.as_bytes() == b"gen".as_slice() {
            seed(number.as_bytes())
        } else {
            None
        },
        _ => None,
    }
}

// The number that the digits stand for, below 2 to the 64.
fn seed(digits: &[u8]) -> Option<u64>
    ensures { result ≡ (if is_seed digits.now then Some (natural_of digits.now) else None) }
{
    if MAX_DIGITS < digits.len() {
        return None;
    }
    exact_natural(digits)
}
