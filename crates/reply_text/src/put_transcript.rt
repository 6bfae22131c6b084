ghost use Rattle.std.specs.Prelude.{◌++◌, ◌∷◌, [], OnOk, map, codes, decimal};
ghost use Rattle.std.specs.Io.KnownBytes.{Appends};
ghost use Rattle.text_lines.specs.Lines.{ended};
ghost use Rattle.sym_io.specs.Causes.{HasCause};
ghost use Rattle.sym_io.specs.Writing.{AppendsPart};
ghost use Rattle.reply_text.specs.Transcripts.{reply_line, session_lines, entry_line, entry_lines, transcript_text};
ghost use Rattle.reply_text.specs.Sections.{section_text};

use crate::part::Part;
use crate::put::{Piece, Put, put_all, write_text};
use crate::{History, ReplyLine, SessionReplies, Sessions, Transcript};
use op_polynomials::SplitEntry;
use sym_io::{Failed, OutputBuffer, Sink};

impl Put for ReplyLine {
    ghost text = { λ r. reply_line r ++ 10 ∷ [] };

    fn put<O: Sink>(&self, buffer: &mut OutputBuffer, output: &mut O) -> Result<(), Failed> {
        put_all(
            buffer,
            output,
            &[
                Piece::Number(u64::from(self.number)),
                Piece::Word(b" @"),
                Piece::Number(u64::from(self.version)),
                Piece::Word(b" "),
            ],
        )?;
        self.reply.put(buffer, output)?;
        buffer.put(output, b"\n")
    }
}

// The block of a session, with its number.
#[derive(Drop)]
struct Block<'a> {
    number: u64,
    replies: &'a [ReplyLine],
}

impl<'a> Put for Block<'a> {
    ghost text = { λ b.
        ended ((codes "session " ++ decimal b.number) ∷ map reply_line b.replies.now) };

    fn put<O: Sink>(&self, buffer: &mut OutputBuffer, output: &mut O) -> Result<(), Failed> {
        put_all(
            buffer,
            output,
            &[
                Piece::Word(b"session "),
                Piece::Number(self.number),
                Piece::Word(b"\n"),
            ],
        )?;
        put_all(buffer, output, self.replies)
    }
}

impl Put for Sessions {
    ghost text = { λ sessions. ended (session_lines 1 sessions) };

    fn put<O: Sink>(&self, buffer: &mut OutputBuffer, output: &mut O) -> Result<(), Failed> {
        let mut number = 1;
        for session in self.as_slice() {
            let replies = session.as_slice();
            Block { number, replies }.put(buffer, output)?;
            number += 1;
        }
        Ok(())
    }
}

// The line of an accepted split, with its number.
#[derive(Drop)]
struct Entry<'a> {
    number: u64,
    split: &'a SplitEntry,
}

impl<'a> Put for Entry<'a> {
    ghost text = { λ e. entry_line e.number e.split.now ++ 10 ∷ [] };

    fn put<O: Sink>(&self, buffer: &mut OutputBuffer, output: &mut O) -> Result<(), Failed> {
        put_all(
            buffer,
            output,
            &[
                Part::Number(self.number),
                Part::Word(b" s"),
                Part::Number(u64::from(self.split.session)),
                Part::Word(b" c"),
                Part::Number(u64::from(self.split.command)),
                Part::Word(b" "),
                Part::Operator(self.split.op),
                Part::Word(b" "),
                Part::Coefficients(self.split.poly.coefficients()),
                Part::Word(b"\n"),
            ],
        )
    }
}

impl Put for History {
    ghost text = { λ entries. ended (entry_lines 1 entries) };

    fn put<O: Sink>(&self, buffer: &mut OutputBuffer, output: &mut O) -> Result<(), Failed> {
        let mut number = 1;
        for split in self.as_slice() {
            Entry { number, split }.put(buffer, output)?;
            number += 1;
        }
        Ok(())
    }
}

/// A section of a transcript.
#[derive(Clone, Copy)]
pub enum Section<'a> {
    /// The first two lines: the level, the characteristic and the number of symbols.
    Heading(&'a Transcript),
    /// The blocks of the sessions.
    Sessions(&'a Sessions),
    /// The number of the entries of the history.
    Count(u64),
    /// The entries of the history.
    Entries(&'a History),
    /// The last two lines: the number of columns.
    Closing(u64),
}

impl<'a> Put for Section<'a> {
    ghost text = { section_text };

    fn put<O: Sink>(&self, buffer: &mut OutputBuffer, output: &mut O) -> Result<(), Failed> {
        match self {
            Section::Heading(t) => put_all(
                buffer,
                output,
                &[
                    Piece::Word(b"transcript 1\nspace "),
                    Piece::Number(u64::from(t.modulus)),
                    Piece::Word(b" "),
                    Piece::Number(u64::from(t.characteristic)),
                    Piece::Word(b" symbols "),
                    Piece::Number(u64::from(t.symbols)),
                    Piece::Word(b"\n"),
                ],
            ),
            Section::Sessions(sessions) => sessions.put(buffer, output),
            Section::Count(count) => put_all(
                buffer,
                output,
                &[
                    Piece::Word(b"history "),
                    Piece::Number(*count),
                    Piece::Word(b"\n"),
                ],
            ),
            Section::Entries(entries) => entries.put(buffer, output),
            Section::Closing(columns) => put_all(
                buffer,
                output,
                &[
                    Piece::Word(b"columns "),
                    Piece::Number(*columns),
                    Piece::Word(b"\nend\n"),
                ],
            ),
        }
    }
}

impl Put for Transcript {
    ghost text = { transcript_text };

    fn put<O: Sink>(&self, buffer: &mut OutputBuffer, output: &mut O) -> Result<(), Failed> {
        put_all(
            buffer,
            output,
            &[
                Section::Heading(self),
                Section::Sessions(&self.sessions),
                Section::Count(self.history.as_slice().len() as u64),
                Section::Entries(&self.history),
                Section::Closing(self.columns),
            ],
        )
    }
}

/// Appends the text of a transcript to a sink. After a failure, which the sink counts, the first bytes of the
/// text have been appended. Takes no memory, and calls the sink once for some thousands of bytes.
pub fn write_transcript<O: Sink>(t: &Transcript, output: &mut O) -> Result<(), Failed>
    ensures whole { OnOk result
        (Appends (O.written output.old) (O.written output.new) (transcript_text t.now)) }
    ensures part { AppendsPart (O.written output.old) (O.written output.new)
        (transcript_text t.now) }
    ensures cause { HasCause (O.faults output.old) (O.faults output.new) result }
{
    write_text(t, output)
}
