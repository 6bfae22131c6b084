//! The reader of transcripts.

ghost use Rattle.std.specs.Prelude.{◌≡◌, ◌<◌, ◌∷◌, [], length, Ok, Err, IfOk, IfErr, IfSome, MatchOption};
ghost use Rattle.text_lines.specs.Lines.{parts};
ghost use Rattle.reply_text.specs.Faults.{IsFaultOf, OneTranscript};
ghost use Rattle.reply_text.specs.Lexemes.{then_option};
ghost use Rattle.reply_text.specs.LineForms.{line_of};
ghost use Rattle.reply_text.specs.Rules.{IsTranscript};
ghost use Rattle.reply_text.specs.Steps.{HasField, step, finish};
ghost use Rattle.reply_text.specs.Transcripts.{transcript_text};

use crate::line_reader::line_of;
use crate::state::State;
use crate::state_steps::step;
use crate::transcript::Transcript;
use crate::transcript_fault::TranscriptFault;
use field_table::OutOfMemory;
use std::alloc::Global;
use text_lines::next_part;

// What is read after the line with this text.
#[tactic(auto, using(crate::proofs::TranscriptReads::good_line))]
fn next_state(alloc: Global, state: State, text: &[u8]) -> Result<Option<State>, OutOfMemory>
    requires field { HasField state }
    ensures { IfOk result (λ r. r ≡ then_option (line_of text.now) (step state)) }
{
    match line_of(alloc, text)? {
        None => Ok(None),
        Some(line) => step(alloc, state, line),
    }
}

// The first line that a line feed ends, without it, and what follows.
#[tactic(auto, using(crate::proofs::TranscriptReads::only_part))]
fn next_whole_line(text: &[u8]) -> Option<(&[u8], &[u8])>
    ensures line { MatchOption result (parts 10 text.now ≡ text.now ∷ [])
        (λ r. parts 10 text.now ≡ r.0.now ∷ parts 10 r.1.now) }
    ensures shorter { IfSome result (λ r. length r.1.now < length text.now) }
{
    match next_part(b'\n', text) {
        (_, None) => None,
        (line, Some(after)) => Some((line, after)),
    }
}

// The transcript, where all lines are read.
fn finish(state: State) -> Option<Transcript>
    ensures { result ≡ finish state }
{
    match state {
        State::Done(t) => Some(t),
        _ => None,
    }
}

/// The transcript that has this text, or the first line that no transcript has after the lines before it, from 1:
/// where the text ends too early, one past its last line. What stands after the last line feed is such a line.
/// Whether a reply is right isn't tested. One pass over the bytes, and for each reply one over the sessions;
/// memory is taken for the transcript, and once for the level's symbols, which are counted.
pub fn read_transcript(alloc: Global, bytes: &[u8]) -> Result<Transcript, TranscriptFault>
    requires { length bytes.now < u32.MAX }
    ensures rules { IfOk result IsTranscript }
    ensures text { IfOk result (λ t. transcript_text t ≡ bytes.now) }
    ensures fault { IfErr result (IsFaultOf bytes.now) }
{
    let mut state = State::Start;
    let mut number = 1;
    let mut rest = bytes;
    while let Some((line, after)) = next_whole_line(rest) {
        let Some(next) = next_state(alloc, state, line)? else {
            return Err(TranscriptFault::BadTranscript { line: number });
        };
        state = next;
        number += 1;
        rest = after;
    }
    match finish(state) {
        None => Err(TranscriptFault::BadTranscript { line: number }),
        Some(t) => if rest.is_empty() {
            Ok(t)
        } else {
            Err(TranscriptFault::BadTranscript { line: number })
        },
    }
}

/// A text is that of one transcript at most.
pub fn one_transcript_has_a_text()
    ensures law { OneTranscript }
{}
