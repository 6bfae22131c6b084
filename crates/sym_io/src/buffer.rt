ghost use Rattle.std.specs.Prelude.{◌≡◌, ◌≤◌, ◌+◌, ◌++◌, [], length, take, drop, OnOk};
ghost use Rattle.sym_io.specs.Causes.{HasCause};
ghost use Rattle.sym_io.specs.Writing.{BuffersText};

use crate::{Failed, Sink, write_all};
use std::marker::Model;

/// How many bytes wait at most.
pub const BUFFER_SIZE: usize = 8192;

/// Bytes that wait for a sink, so that a text of many pieces goes out in few large writes and takes no memory.
/// Contracts see the bytes that wait. After a call that failed, the buffer is to be left alone.
#[derive(Debug, Drop)]
pub struct OutputBuffer {
    bytes: [u8; BUFFER_SIZE],
    count: usize,
}

impl Model for OutputBuffer {
    ghost use Rattle.std.specs.Prelude.{List, ℕ, ◌≤◌, take};
    ghost use Rattle.sym_io.specs.declared.buffer.TheConstants.{BUFFER_SIZE};

    ghost Value = { List ℕ };

    ghost view = { λ b. take b.count b.bytes };

    ghost invariant = { λ b. b.count ≤ BUFFER_SIZE };
}

impl OutputBuffer {
    /// A buffer in which nothing waits.
    pub fn new() -> Self
        ensures { result ≡ [] }
    {
        OutputBuffer {
            bytes: [0; BUFFER_SIZE],
            count: 0,
        }
    }

    /// Adds a piece of the text. What doesn't fit goes to the sink.
    pub fn put<O: Sink>(&mut self, output: &mut O, piece: &[u8]) -> Result<(), Failed>
        ensures text { BuffersText (O.written output.old) (O.written output.new)
            self.old self.new piece.now result }
        ensures cause { HasCause (O.faults output.old) (O.faults output.new) result }
    {
        if piece.len() > BUFFER_SIZE {
            self.flush(output)?;
            return write_all(output, piece);
        }
        self.make_room(output, piece.len())?;
        self.hold(piece);
        Ok(())
    }

    /// Gives the sink all that waits.
    pub fn flush<O: Sink>(&mut self, output: &mut O) -> Result<(), Failed>
        ensures text { BuffersText (O.written output.old) (O.written output.new)
            self.old self.new [] result }
        ensures empty { OnOk result (self.new ≡ []) }
        ensures cause { HasCause (O.faults output.old) (O.faults output.new) result }
    {
        write_all(output, &self.bytes[..self.count])?;
        self.count = 0;
        Ok(())
    }
}

impl OutputBuffer {
    // Gives the sink all that waits where as many bytes more don't fit.
    fn make_room<O: Sink>(&mut self, output: &mut O, size: usize) -> Result<(), Failed>
        requires { size ≤ BUFFER_SIZE }
        ensures text { BuffersText (O.written output.old) (O.written output.new)
            self.old self.new [] result }
        ensures room { OnOk result (length self.new + size ≤ BUFFER_SIZE) }
        ensures cause { HasCause (O.faults output.old) (O.faults output.new) result }
    {
        if size > BUFFER_SIZE - self.count {
            return self.flush(output);
        }
        Ok(())
    }

    // Adds a piece that fits.
    fn hold(&mut self, piece: &[u8])
        requires { length self.old + length piece.now ≤ BUFFER_SIZE }
        ensures { self.new ≡ self.old ++ piece.now }
    {
        place(&mut self.bytes, self.count, piece);
        self.count += piece.len();
    }
}

// Writes the piece into the bytes from a place on.
fn place(bytes: &mut [u8], at: usize, piece: &[u8])
    requires { at + length piece.now ≤ length bytes.old }
    ensures { take (at + length piece.now) bytes.new ≡ take at bytes.old ++ piece.now }
{
    bytes[at..at + piece.len()].copy_from_slice(piece);
}
