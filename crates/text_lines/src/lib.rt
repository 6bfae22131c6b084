//! The lines of a text, the tokens of a line, the parts between separators, and
//! decimal numbers, exact on every list of bytes. Scripts and transcripts are
//! read by them. Nothing here takes memory.
#![tactic(auto)]

mod line;
mod number;
mod part;
mod token;

pub use line::{lines_of_ended, next_line, without_return};
pub use number::{caps_lose_nothing, decimal_of, exact_natural, integer, natural, numerals_read};
pub use part::{joined_parts, next_part, parts_of_joined};
pub use token::next_token;
