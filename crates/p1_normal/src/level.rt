ghost use Rattle.std.specs.Prelude.{◌≡◌, ◌<◌};
ghost use Rattle.linear_algebra.specs.Integers.{residue_of};

use crate::image::image_of;
use crate::matrix::Matrix;
use crate::point::{NotASymbol, Point};
use crate::tables::{Turn, find, number_of, numbered, turns_below, units_below};
use std::alloc::{AllocError, Global};
use std::marker::Model;
use thiserror::Error;

/// The greatest level.
pub const MAX_LEVEL: u32 = 1000;

/// Why a level can't be opened.
#[derive(Clone, Copy, Debug, PartialEq, Eq, Error)]
pub enum LevelFault {
    #[error("out of memory")]
    OutOfMemory,
    #[error("the level {n} is not within the limit")]
    Limit { n: u32 },
}

impl From<AllocError> for LevelFault {
    ghost use Rattle.std.specs.Prelude.{◌≡◌};
    ghost use Rattle.p1_normal.specs.declared.level.LevelFault.TheVariants.{OutOfMemory as Memory};

    ghost from_gives = { λ _ e. e ≡ Memory };

    fn from(_: AllocError) -> Self {
        LevelFault::OutOfMemory
    }
}

/// A level N with its symbols, and the tables that find their numbers: a row of N numbers of four bytes
/// for each number up to the greatest divisor below N, 2 N more, and 2 m. Contracts see N. Symbols are
/// numbered from 0 to m - 1 in lexicographic order.
#[derive(Debug, Drop)]
pub struct Level {
    n: u32,
    points: Vec<Point>,
    turns: Vec<Turn>,
    numbers: Vec<u32>,
}

impl Model for Level {
    ghost use Rattle.std.specs.Prelude.{ℕ};
    ghost use Rattle.p1_normal.specs.Tables.{IsLevel};

    ghost Value = { ℕ };

    ghost view = { λ l. l.n };

    ghost invariant = { λ l. IsLevel l.n l.points.items l.turns.items l.numbers.items };
}

impl Level {
    ghost use Rattle.p1_normal.specs.declared.level.LevelFault.TheVariants.{OutOfMemory as Memory};
    ghost use Rattle.std.specs.Prelude.{◌≡◌, ◌<◌, ◌≤◌, ◌*◌, ◌⊎◌, ◌↔◌, IsErrOf, IfOk, IfErr, IsOk, length};
    ghost use Rattle.p1_normal.specs.Points.{
      reduced,
      common_divisor,
      normal_form,
      symbols,
      symbol_at,
      number,
    };
    ghost use Rattle.p1_normal.specs.Actions.{
      IsInvertible,
      IsSmall,
      image_number,
      matrix_s,
      matrix_t,
      matrix_u,
      matrix_star,
    };

    /// The level n, in n steps for each divisor of n, and n times those of Euclid's algorithm.
    pub fn open(alloc: Global, n: u32) -> Result<Level, LevelFault>
        ensures limit { IsErrOf result (LevelFault.Limit n) ↔ ((n ≡ 0) ⊎ (MAX_LEVEL < n)) }
        ensures level { IfOk result (λ l. l ≡ n) }
        ensures faults { IfErr result (λ e. (e ≡ Memory) ⊎ (e ≡ LevelFault.Limit n)) }
    {
        if n == 0 || n > MAX_LEVEL {
            return Err(LevelFault::Limit { n });
        }
        let units = units_below(alloc, n)?;
        let turns = turns_below(alloc, n)?;
        let (points, numbers) = numbered(alloc, n, &units, &turns)?;
        Ok(Level {
            n,
            points,
            turns,
            numbers,
        })
    }

    /// The level N, from 1 to `MAX_LEVEL`.
    pub fn modulus(&self) -> u32
        ensures modulus { result ≡ self.now }
        ensures positive { 0 < result }
        ensures limited { result ≤ MAX_LEVEL }
    {
        self.n
    }

    /// The number m of symbols: N times the product of 1 + 1/q over the primes q that divide N.
    pub fn count(&self) -> u32
        ensures count { result ≡ length (symbols self.now) }
        ensures limited { result ≤ MAX_LEVEL * MAX_LEVEL }
    {
        self.points.len() as u32
    }

    /// The normal form of the point (u:v): the lexicographically least pair below N that names it.
    /// Refuses a pair that has a common divisor with N.
    pub fn normal(&self, u: i64, v: i64) -> Result<Point, NotASymbol>
        ensures form { IfOk result (λ p. p ≡ normal_form self.now (reduced self.now u v)) }
        ensures point { IsOk result ↔ (common_divisor self.now (reduced self.now u v) ≡ 1) }
        ensures no_point { IfErr result (λ e. e.g ≡ common_divisor self.now (reduced self.now u v)) }
    {
        match self.index(u, v) {
            Ok(k) => Ok(self.symbol(k)),
            Err(e) => Err(e),
        }
    }

    /// The number of the symbol that names the point (u:v), with the refusal of `normal`.
    pub fn index(&self, u: i64, v: i64) -> Result<u32, NotASymbol>
        ensures number { IfOk result (λ k. k ≡ number self.now (normal_form self.now (reduced self.now u v))) }
        ensures below { IfOk result (λ k. k < length (symbols self.now)) }
        ensures point { IsOk result ↔ (common_divisor self.now (reduced self.now u v) ≡ 1) }
        ensures no_point { IfErr result (λ e. e.g ≡ common_divisor self.now (reduced self.now u v)) }
    {
        let p = Point {
            u: residue_of(u, self.n),
            v: residue_of(v, self.n),
        };
        find(self.n, &self.turns, &self.numbers, p)
    }

    /// The symbol with number k.
    pub fn symbol(&self, k: u32) -> Point
        requires place { k < length (symbols self.now) }
        ensures { result ≡ symbol_at self.now k }
    {
        self.points[k as usize]
    }

    /// The number of symbol k times the matrix.
    pub fn act(&self, k: u32, matrix: &Matrix) -> u32
        requires place { k < length (symbols self.now) }
        requires coprime { IsInvertible self.now matrix.now }
        requires entries { IsSmall matrix.now }
        ensures number { result ≡ image_number self.now k matrix.now }
        ensures below { result < length (symbols self.now) }
    {
        let image = image_of(self.n, self.symbol(k), matrix);
        number_of(self.n, &self.turns, &self.numbers, image)
    }

    /// The number of symbol k times S = [[0, -1], [1, 0]]: (u:v) becomes (v:-u).
    pub fn s_of(&self, k: u32) -> u32
        requires place { k < length (symbols self.now) }
        ensures number { result ≡ image_number self.now k matrix_s }
        ensures below { result < length (symbols self.now) }
    {
        self.act(k, &Matrix::new(0, -1, 1, 0))
    }

    /// The number of symbol k times T = [[0, -1], [1, -1]]: (u:v) becomes (v:-u-v).
    pub fn t_of(&self, k: u32) -> u32
        requires place { k < length (symbols self.now) }
        ensures number { result ≡ image_number self.now k matrix_t }
        ensures below { result < length (symbols self.now) }
    {
        self.act(k, &Matrix::new(0, -1, 1, -1))
    }

    /// The number of symbol k times U = [[1, 1], [0, 1]]: (u:v) becomes (u:u+v).
    pub fn u_of(&self, k: u32) -> u32
        requires place { k < length (symbols self.now) }
        ensures number { result ≡ image_number self.now k matrix_u }
        ensures below { result < length (symbols self.now) }
    {
        self.act(k, &Matrix::new(1, 1, 0, 1))
    }

    /// The number of symbol k times [[-1, 0], [0, 1]], the star involution: (u:v) becomes (-u:v).
    pub fn star_of(&self, k: u32) -> u32
        requires place { k < length (symbols self.now) }
        ensures number { result ≡ image_number self.now k matrix_star }
        ensures below { result < length (symbols self.now) }
    {
        self.act(k, &Matrix::new(-1, 0, 0, 1))
    }
}

// The residue of an integer.
fn residue_of(x: i64, n: u32) -> u32
    requires { 0 < n }
    ensures residue { result ≡ residue_of n x }
    ensures below { result < n }
{
    x.rem_euclid(i64::from(n)) as u32
}
