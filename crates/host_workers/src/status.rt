ghost use Rattle.std.specs.Prelude.{◌≡◌, OnOk};
ghost use Rattle.std.specs.Io.KnownBytes.{Appends};
ghost use Rattle.host_workers.specs.Statuses.{IsPlain, cause_word, exit_number, status_line};
ghost use Rattle.sym_io.specs.Causes.{HasCause};
ghost use Rattle.sym_io.specs.Writing.{AppendsPart};

use reply_text::{Piece, Put, put_all, write_text};
use script_text::ScriptCause;
use sym_io::{Failed, OutputBuffer, Sink};

/// The most bytes that an input may have.
pub const MAX_INPUT: u32 = 1_048_576;

/// How a run ended.
#[derive(Clone, Copy, Debug, PartialEq, Eq)]
pub enum Status {
    /// The whole text was written.
    Done,
    /// The words of the command line are no line of the table of words.
    Usage,
    /// The input counted a fault.
    ReadFault,
    /// The output counted a fault.
    WriteFault,
    /// The input is no script: the first line that breaks a rule, from 1, and the rule.
    BadScript { line: u32, cause: ScriptCause },
    /// The input has more than `MAX_INPUT` bytes.
    TooLong,
    /// Memory was refused.
    OutOfMemory,
}

impl Status {
    /// The exit status of the program.
    pub fn number(self) -> u8
        ensures { result ≡ exit_number self }
    {
        match self {
            Status::Done => 0,
            Status::Usage => 2,
            Status::ReadFault => 3,
            Status::WriteFault => 4,
            Status::BadScript { .. } => 5,
            Status::TooLong => 6,
            Status::OutOfMemory => 7,
        }
    }

    /// Writes the line that tells the user of the status, with its line end: nothing for `Done`. Takes no memory.
    pub fn write_line<O: Sink>(self, output: &mut O) -> Result<(), Failed>
        ensures line { OnOk result (Appends (O.written output.old) (O.written output.new)
            (status_line self)) }
        ensures part { AppendsPart (O.written output.old) (O.written output.new)
            (status_line self) }
        ensures cause { HasCause (O.faults output.old) (O.faults output.new) result }
    {
        write_text(&self, output)
    }
}

impl Put for Status {
    ghost text = { status_line };

    fn put<O: Sink>(&self, buffer: &mut OutputBuffer, output: &mut O) -> Result<(), Failed> {
        match self {
            Status::BadScript { line, cause } => put_all(
                buffer,
                output,
                &[
                    Piece::Word(b"bad script at line "),
                    Piece::Number(u64::from(*line)),
                    Piece::Word(b": "),
                    Piece::Word(cause_word(*cause)),
                    Piece::Word(b"\n"),
                ],
            ),
            _ => buffer.put(output, plain_line(*self)),
        }
    }
}

fn cause_word(cause: ScriptCause) -> &'static [u8]
    ensures { result.now ≡ cause_word cause }
{
    match cause {
        ScriptCause::Byte => b"Byte",
        ScriptCause::Header => b"Header",
        ScriptCause::Level => b"Level",
        ScriptCause::Characteristic => b"Characteristic",
        ScriptCause::Session => b"Session",
        ScriptCause::Sessions => b"Sessions",
        ScriptCause::NoSession => b"NoSession",
        ScriptCause::Commands => b"Commands",
    }
}

fn plain_line(status: Status) -> &'static [u8]
    requires { IsPlain status }
    ensures { result.now ≡ status_line status }
{
    match status {
        Status::Usage => b"usage: symbol_cli solo, serve, or gen and a number\n",
        Status::ReadFault => b"read fault\n",
        Status::WriteFault => b"write fault\n",
        Status::TooLong => b"input too long\n",
        Status::OutOfMemory => b"out of memory\n",
        _ => b"",
    }
}
