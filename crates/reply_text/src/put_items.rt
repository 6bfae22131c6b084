ghost use Rattle.std.specs.Prelude.{decimal};
ghost use Rattle.script_text.specs.Draws.{operator_text};
ghost use Rattle.reply_text.specs.Texts.{numbers, symbol_text, pair_text};

use crate::put::{Piece, Put, put_all, put_each};
use field_table::Residues;
use op_polynomials::OpName;
use p1_normal::Point;
use sym_io::{Failed, OutputBuffer, Sink};

impl Put for u32 {
    ghost text = { decimal };

    fn put<O: Sink>(&self, buffer: &mut OutputBuffer, output: &mut O) -> Result<(), Failed> {
        Piece::Number(u64::from(*self)).put(buffer, output)
    }
}

impl Put for Point {
    ghost text = { symbol_text };

    fn put<O: Sink>(&self, buffer: &mut OutputBuffer, output: &mut O) -> Result<(), Failed> {
        put_all(
            buffer,
            output,
            &[
                Piece::Word(b"("),
                Piece::Number(u64::from(self.u)),
                Piece::Word(b":"),
                Piece::Number(u64::from(self.v)),
                Piece::Word(b")"),
            ],
        )
    }
}

impl Put for (u32, u32) {
    ghost text = { pair_text };

    fn put<O: Sink>(&self, buffer: &mut OutputBuffer, output: &mut O) -> Result<(), Failed> {
        put_all(
            buffer,
            output,
            &[
                Piece::Number(u64::from(self.0)),
                Piece::Word(b":"),
                Piece::Number(u64::from(self.1)),
            ],
        )
    }
}

impl Put for OpName {
    ghost text = { operator_text };

    fn put<O: Sink>(&self, buffer: &mut OutputBuffer, output: &mut O) -> Result<(), Failed> {
        match self {
            OpName::T { n } => put_all(
                buffer,
                output,
                &[Piece::Word(b"T"), Piece::Number(u64::from(*n))],
            ),
            OpName::Star => buffer.put(output, b"star"),
        }
    }
}

impl Put for Residues {
    ghost text = { numbers };

    fn put<O: Sink>(&self, buffer: &mut OutputBuffer, output: &mut O) -> Result<(), Failed> {
        put_each(buffer, output, b" ", self.as_slice())
    }
}
