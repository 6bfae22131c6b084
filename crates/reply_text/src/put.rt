ghost use Rattle.std.specs.Prelude.{◌≡◌, ◌++◌, ℕ, List, flat_map, OnOk};
ghost use Rattle.std.specs.Io.KnownBytes.{Appends};
ghost use Rattle.sym_io.specs.Causes.{HasCause};
ghost use Rattle.sym_io.specs.Writing.{AppendsPart, BuffersText};
ghost use Rattle.reply_text.specs.Pieces.{piece_text, separated};

use itoa::Buffer;
use sym_io::{Failed, OutputBuffer, Sink};

/// What has a text.
pub trait Put {
    /// Its text.
    ghost text: { Self → List ℕ };

    /// Puts its text into a buffer before a sink. Takes no memory.
    fn put<O: Sink>(&self, buffer: &mut OutputBuffer, output: &mut O) -> Result<(), Failed>
        ensures puts { BuffersText (O.written output.old) (O.written output.new)
            buffer.old buffer.new (text self.now) result }
        ensures cause { HasCause (O.faults output.old) (O.faults output.new) result };
}

/// A piece of a text.
#[derive(Clone, Copy)]
pub enum Piece<'a> {
    /// Bytes as they stand.
    Word(&'a [u8]),
    /// A number in decimal.
    Number(u64),
}

impl<'a> Put for Piece<'a> {
    ghost text = { piece_text };

    fn put<O: Sink>(&self, buffer: &mut OutputBuffer, output: &mut O) -> Result<(), Failed> {
        match self {
            Piece::Word(bytes) => buffer.put(output, bytes),
            Piece::Number(number) => {
                let mut digits = Buffer::new();
                buffer.put(output, digits.format(*number).as_bytes())
            }
        }
    }
}

/// Puts the items one after the other, each after the same word.
pub fn put_each<P: Put, O: Sink>(
    buffer: &mut OutputBuffer,
    output: &mut O,
    before: &[u8],
    items: &[P],
) -> Result<(), Failed>
    ensures puts { BuffersText (O.written output.old) (O.written output.new)
        buffer.old buffer.new (flat_map (λ item. before.now ++ P.text item) items.now) result }
    ensures cause { HasCause (O.faults output.old) (O.faults output.new) result }
{
    for item in items {
        buffer.put(output, before)?;
        item.put(buffer, output)?;
    }
    Ok(())
}

/// Puts the items with a word between each two.
pub fn put_separated<P: Put, O: Sink>(
    buffer: &mut OutputBuffer,
    output: &mut O,
    between: &[u8],
    items: &[P],
) -> Result<(), Failed>
    ensures puts { BuffersText (O.written output.old) (O.written output.new)
        buffer.old buffer.new (separated between.now P.text items.now) result }
    ensures cause { HasCause (O.faults output.old) (O.faults output.new) result }
{
    match items.split_first() {
        None => Ok(()),
        Some((first, rest)) => {
            first.put(buffer, output)?;
            put_each(buffer, output, between, rest)
        }
    }
}

/// Puts the parts one after the other.
pub fn put_all<P: Put, O: Sink>(
    buffer: &mut OutputBuffer,
    output: &mut O,
    parts: &[P],
) -> Result<(), Failed>
    ensures puts { BuffersText (O.written output.old) (O.written output.new)
        buffer.old buffer.new (flat_map P.text parts.now) result }
    ensures cause { HasCause (O.faults output.old) (O.faults output.new) result }
{
    put_each(buffer, output, b"", parts)
}

/// Appends the text of an item to a sink. After a failure, which the sink counts, the first bytes of the text
/// have been appended. Takes no memory, and calls the sink once for some thousands of bytes.
pub fn write_text<P: Put, O: Sink>(item: &P, output: &mut O) -> Result<(), Failed>
    ensures whole { OnOk result
        (Appends (O.written output.old) (O.written output.new) (P.text item.now)) }
    ensures part { AppendsPart (O.written output.old) (O.written output.new) (P.text item.now) }
    ensures cause { HasCause (O.faults output.old) (O.faults output.new) result }
{
    let mut buffer = OutputBuffer::new();
    item.put(&mut buffer, output)?;
    buffer.flush(output)
}
