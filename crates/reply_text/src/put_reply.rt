ghost use Rattle.std.specs.Prelude.{◌≡◌};
ghost use Rattle.reply_text.specs.Texts.{limit_text, refusal_text, reply_text};

use crate::part::Part;
use crate::put::{Put, put_all};
use crate::{Refusal, Reply};
use script_text::LimitWord;
use sym_io::{Failed, OutputBuffer, Sink};

// The word of a limit.
fn limit_word(what: LimitWord) -> &'static [u8]
    ensures { result.now ≡ limit_text what }
{
    match what {
        LimitWord::N => b"n",
        LimitWord::Degree => b"degree",
        LimitWord::Terms => b"terms",
        LimitWord::Number => b"number",
    }
}

impl Put for Refusal {
    ghost text = { refusal_text };

    fn put<O: Sink>(&self, buffer: &mut OutputBuffer, output: &mut O) -> Result<(), Failed> {
        match self {
            Refusal::Grammar { token } => put_all(
                buffer,
                output,
                &[Part::Word(b"err grammar "), Part::Number(u64::from(*token))],
            ),
            Refusal::Limit { what } => put_all(
                buffer,
                output,
                &[Part::Word(b"err limit "), Part::Word(limit_word(*what))],
            ),
            Refusal::NotSymbol { term } => put_all(
                buffer,
                output,
                &[
                    Part::Word(b"err not_symbol "),
                    Part::Number(u64::from(*term)),
                ],
            ),
            Refusal::NotCoprime { gcd } => put_all(
                buffer,
                output,
                &[
                    Part::Word(b"err not_coprime "),
                    Part::Number(u64::from(*gcd)),
                ],
            ),
            Refusal::Length { need, got } => put_all(
                buffer,
                output,
                &[Part::Word(b"err length"), Part::Numbers(&[*need, *got])],
            ),
            Refusal::NoPart { count } => put_all(
                buffer,
                output,
                &[Part::Word(b"err no_part "), Part::Number(u64::from(*count))],
            ),
            Refusal::VersionsFull => buffer.put(output, b"err versions_full"),
            Refusal::Relation { number, coords } => put_all(
                buffer,
                output,
                &[
                    Part::Word(b"err relation "),
                    Part::Number(u64::from(*number)),
                    Part::Numbers(coords.as_slice()),
                ],
            ),
            Refusal::Commutator {
                other,
                row,
                column,
                left,
                right,
            } => put_all(
                buffer,
                output,
                &[
                    Part::Word(b"err commutator "),
                    Part::Operator(*other),
                    Part::Numbers(&[*row, *column, *left, *right]),
                ],
            ),
        }
    }
}

impl Put for Reply {
    ghost text = { reply_text };

    fn put<O: Sink>(&self, buffer: &mut OutputBuffer, output: &mut O) -> Result<(), Failed> {
        match self {
            Reply::Point(point) => put_all(
                buffer,
                output,
                &[Part::Word(b"ok point "), Part::Symbol(*point)],
            ),
            Reply::Basis { points } => put_all(
                buffer,
                output,
                &[
                    Part::Word(b"ok basis "),
                    Part::Number(points.as_slice().len() as u64),
                    Part::Symbols(points.as_slice()),
                ],
            ),
            Reply::Coords { values } => put_all(
                buffer,
                output,
                &[Part::Word(b"ok coords"), Part::Numbers(values.as_slice())],
            ),
            Reply::Certified { coords, trace } => put_all(
                buffer,
                output,
                &[
                    Part::Word(b"ok certified"),
                    Part::Numbers(coords.as_slice()),
                    Part::Word(b" by"),
                    Part::Pairs(trace.as_slice()),
                ],
            ),
            Reply::Boundary { values } => put_all(
                buffer,
                output,
                &[Part::Word(b"ok boundary"), Part::Numbers(values.as_slice())],
            ),
            Reply::Cusps { points } => put_all(
                buffer,
                output,
                &[
                    Part::Word(b"ok cusps "),
                    Part::Number(points.as_slice().len() as u64),
                    Part::Symbols(points.as_slice()),
                ],
            ),
            Reply::Operator { dim, trace } => put_all(
                buffer,
                output,
                &[
                    Part::Word(b"ok operator "),
                    Part::Number(u64::from(*dim)),
                    Part::Word(b" trace "),
                    Part::Number(u64::from(*trace)),
                ],
            ),
            Reply::Version { number, dims } => put_all(
                buffer,
                output,
                &[
                    Part::Word(b"ok version "),
                    Part::Number(u64::from(*number)),
                    Part::Word(b" dims"),
                    Part::Numbers(dims.as_slice()),
                ],
            ),
            Reply::Splitting { number, dims, ops } => put_all(
                buffer,
                output,
                &[
                    Part::Word(b"ok splitting "),
                    Part::Number(u64::from(*number)),
                    Part::Word(b" dims"),
                    Part::Numbers(dims.as_slice()),
                    Part::Word(b" ops"),
                    Part::Operators(ops.as_slice()),
                ],
            ),
            Reply::Rows { rows } => put_all(
                buffer,
                output,
                &[Part::Word(b"ok rows"), Part::Rows(rows.as_slice())],
            ),
            Reply::Chains { chains, matrices } => put_all(
                buffer,
                output,
                &[
                    Part::Word(b"ok chains "),
                    Part::Number(u64::from(*chains)),
                    Part::Word(b" matrices "),
                    Part::Number(u64::from(*matrices)),
                ],
            ),
            Reply::Refused(refusal) => refusal.put(buffer, output),
            Reply::Memory => buffer.put(output, b"err memory"),
        }
    }
}
