ghost use Rattle.reply_text.specs.Parts.{part_text};

use crate::put::{Piece, Put, put_each, put_separated};
use field_table::Residues;
use op_polynomials::OpName;
use p1_normal::Point;
use sym_io::{Failed, OutputBuffer, Sink};

/// A part of a line: a piece, or a list of items.
#[derive(Clone, Copy)]
pub enum Part<'a> {
    /// Bytes as they stand.
    Word(&'a [u8]),
    /// A number in decimal.
    Number(u64),
    /// A symbol.
    Symbol(Point),
    /// An operator's name.
    Operator(OpName),
    /// Numbers, with a space before each.
    Numbers(&'a [u32]),
    /// Symbols, with a space before each.
    Symbols(&'a [Point]),
    /// Pairs of numbers, with a space before each.
    Pairs(&'a [(u32, u32)]),
    /// Operators, with a space before each.
    Operators(&'a [OpName]),
    /// Rows, with a semicolon between each two.
    Rows(&'a [Residues]),
    /// The coefficients of a polynomial, with a comma between each two.
    Coefficients(&'a [u32]),
}

impl<'a> Put for Part<'a> {
    ghost text = { part_text };

    fn put<O: Sink>(&self, buffer: &mut OutputBuffer, output: &mut O) -> Result<(), Failed> {
        match self {
            Part::Word(bytes) => Piece::Word(bytes).put(buffer, output),
            Part::Number(number) => Piece::Number(*number).put(buffer, output),
            Part::Symbol(symbol) => symbol.put(buffer, output),
            Part::Operator(op) => op.put(buffer, output),
            Part::Numbers(values) => put_each(buffer, output, b" ", values),
            Part::Symbols(points) => put_each(buffer, output, b" ", points),
            Part::Pairs(pairs) => put_each(buffer, output, b" ", pairs),
            Part::Operators(ops) => put_each(buffer, output, b" ", ops),
            Part::Rows(rows) => put_separated(buffer, output, b" ;", rows),
            Part::Coefficients(values) => put_separated(buffer, output, b",", values),
        }
    }
}
