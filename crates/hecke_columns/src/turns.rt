ghost use Rattle.std.specs.Prelude.{◌≡◌, ◌<◌, ◌≤◌, ◌+◌, ◌*◌, IfOk, length, pos};
ghost use Rattle.heilbronn_chains.specs.Turns.{turn};
ghost use Rattle.p1_normal.specs.declared.level.TheConstants.{MAX_LEVEL};
ghost use Rattle.p1_normal.specs.declared.matrix.TheConstants.{MAX_DET};
ghost use Rattle.p1_normal.specs.Actions.{image_number};
ghost use Rattle.p1_normal.specs.Points.{symbols};
ghost use Rattle.hecke_columns.specs.Turns.{turned_list};

use field_table::OutOfMemory;
use p1_normal::{Level, Matrix};
use std::alloc::Global;
use std::marker::Model;

/// The numbers of the symbols of a level times [[q, 1], [-1, 0]], for each q up to a limit: (u:v)
/// becomes (q u - v:u). Each is a permutation of the m symbols: the matrix has determinant 1. Takes the
/// limit and 1 times m numbers of four bytes.
#[derive(Debug, Drop)]
pub struct Turns {
    modulus: u32,
    limit: u32,
    count: u32,
    numbers: Vec<u32>,
}

impl Model for Turns {
    ghost use Rattle.std.specs.Prelude.{◌≡◌, ◌≤◌, ◌+◌, ◌*◌, length};
    ghost use Rattle.p1_normal.specs.declared.level.TheConstants.{MAX_LEVEL};
    ghost use Rattle.p1_normal.specs.declared.matrix.TheConstants.{MAX_DET};
    ghost use Rattle.p1_normal.specs.Points.{symbols};
    ghost use Rattle.hecke_columns.specs.Turns.{TurnTable, turned_list};

    ghost Value = { TurnTable };

    ghost view = { λ t. record { level = t.modulus; limit = t.limit } };

    ghost invariant = { λ t. (t.limit ≤ MAX_DET) × (t.count ≡ length (symbols t.modulus)) × (t.count ≤ MAX_LEVEL * MAX_LEVEL)
        × (t.numbers.items ≡ turned_list t.modulus ((t.limit + 1) * length (symbols t.modulus))) };
}

impl Turns {
    /// The table of a level. Costs an image of a symbol for each number.
    pub fn of(alloc: Global, level: &Level, limit: u32) -> Result<Turns, OutOfMemory>
        requires { limit ≤ MAX_DET }
        ensures table { IfOk result (λ t. t ≡ record { level = level.now; limit = limit }) }
    {
        let count = level.count();
        let numbers = turned_numbers(alloc, level, count, limit)?;
        Ok(Turns {
            modulus: level.modulus(),
            limit,
            count,
            numbers,
        })
    }

    /// The number of symbol k times [[q, 1], [-1, 0]]: a look-up up to the limit, and an image past it.
    pub fn turned(&self, level: &Level, k: u32, q: u32) -> u32
        requires level { level.now ≡ self.now.level }
        requires place { k < length (symbols level.now) }
        requires limit { q ≤ MAX_DET }
        ensures number { result ≡ image_number level.now k (turn (pos q)) }
        ensures below { result < length (symbols level.now) }
    {
        if q <= self.limit {
            self.looked_up(k, q)
        } else {
            turned_by_image(level, k, q)
        }
    }

    // The same up to the limit.
    fn looked_up(&self, k: u32, q: u32) -> u32
        requires place { k < length (symbols self.now.level) }
        requires limit { q ≤ self.now.limit }
        ensures number { result ≡ image_number self.now.level k (turn (pos q)) }
        ensures below { result < length (symbols self.now.level) }
    {
        self.numbers[(q * self.count + k) as usize]
    }
}

// The number of symbol k times [[q, 1], [-1, 0]].
fn turned_by_image(level: &Level, k: u32, q: u32) -> u32
    requires place { k < length (symbols level.now) }
    requires limit { q ≤ MAX_DET }
    ensures number { result ≡ image_number level.now k (turn (pos q)) }
    ensures below { result < length (symbols level.now) }
{
    level.act(k, &Matrix::new(q as i32, 1, -1, 0))
}

// The numbers of the table.
fn turned_numbers(
    alloc: Global,
    level: &Level,
    count: u32,
    limit: u32,
) -> Result<Vec<u32>, OutOfMemory>
    requires limit { limit ≤ MAX_DET }
    requires count { count ≡ length (symbols level.now) }
    requires few { count ≤ MAX_LEVEL * MAX_LEVEL }
    ensures numbers { IfOk result (λ list.
        list.items ≡ turned_list level.now ((limit + 1) * length (symbols level.now))) }
{
    let size = (limit + 1) * count;
    let mut numbers = Vec::with_capacity(alloc, size as usize)?;
    for place in 0..size {
        numbers.push(turned_by_image(level, place % count, place / count))?;
    }
    Ok(numbers)
}
