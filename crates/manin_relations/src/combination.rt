ghost use Rattle.std.specs.Prelude.{◌≡◌, ◌<◌, length};
ghost use Rattle.linear_algebra.specs.Residue.{residue};
ghost use Rattle.linear_algebra.specs.Vector.{combination};
ghost use Rattle.linear_algebra.specs.Sparse.{sparse};
ghost use Rattle.p1_normal.specs.Points.{symbols};
ghost use Rattle.manin_relations.specs.Relations.{relations};

use field_table::{Combo, Field};
use p1_normal::Level;

/// The value at a symbol of the sum of the relations, relation k times the number that the trace has
/// at place k. The numbers may be any, and places from 2 m on count nothing. A symbol x occurs only in
/// the relations that begin with x and xS, and with x, xT and xTT; so this costs five searches in the
/// trace. Takes no memory.
pub fn combination_at(level: &Level, field: Field, trace: &Combo, symbol: u32) -> u32
    requires symbol { symbol < length (symbols level.now) }
    ensures value { residue field result ≡ combination (sparse field trace.now) (relations level.now) symbol }
    ensures below { result < field }
{
    let m = level.count();
    let t = level.t_of(symbol);
    let pairs = u64::from(trace.at(symbol)) + u64::from(trace.at(level.s_of(symbol)));
    let triples = u64::from(trace.at(m + symbol))
        + u64::from(trace.at(m + t))
        + u64::from(trace.at(m + level.t_of(t)));
    ((pairs + triples) % u64::from(field.characteristic())) as u32
}
