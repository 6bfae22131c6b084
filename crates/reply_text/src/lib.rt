//! Transcripts as users read them: the types of all replies, the writer of a transcript's text, which is stated
//! as the list of its lines, and the reader, which accepts these texts and no others. Writing takes no memory
//! and goes out in few large writes.
#![tactic(auto)]

mod item;
mod lexeme;
mod limits;
mod line;
mod line_reader;
mod lists;
mod part;
mod put;
mod put_items;
mod put_reply;
mod put_transcript;
mod refusal;
mod reply;
mod reply_reader;
mod state;
mod state_steps;
mod summary;
mod transcript;
mod transcript_fault;
mod transcript_reader;
mod word;

pub use limits::{MAX_VERSIONS, limit_values};
pub use lists::{History, Operators, Pairs, Points, Rows, SessionReplies, Sessions};
pub use put::{Piece, Put, put_all, put_each, put_separated, write_text};
pub use put_transcript::write_transcript;
pub use refusal::Refusal;
pub use reply::Reply;
pub use summary::write_summary;
pub use transcript::{ReplyLine, Transcript};
pub use transcript_fault::TranscriptFault;
pub use transcript_reader::{one_transcript_has_a_text, read_transcript};
