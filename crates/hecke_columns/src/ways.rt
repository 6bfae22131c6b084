ghost use Rattle.std.specs.Prelude.{◌≡◌, ◌<◌, IfOk, length};
ghost use Rattle.p1_normal.specs.Points.{symbols};
ghost use Rattle.p1_normal.specs.Units.{gcd};
ghost use Rattle.hecke_columns.specs.Hecke.{IsHeckeColumn};
ghost use Rattle.hecke_columns.specs.Walks.{IsWalk, walk_number};

use crate::column::Column;
use crate::steps::Steps;
use crate::turns::Turns;
use field_table::OutOfMemory;
use heilbronn_sets::MatrixSet;
use quotient_coords::Space;
use std::alloc::Global;

/// A way to make the columns of one determinant n at one level.
#[derive(Clone, Copy)]
pub enum Walk<'a> {
    /// Over Merel's set of determinant n, which is stored: `Column::compute`.
    Set(&'a MatrixSet),
    /// Along the chains of the set, of which nothing is stored: `Column::by_chains`.
    Chains { n: u32 },
    /// Along the chains of the set by stored steps, with a table of turns of the level: `Column::by_turns`.
    Turns { turns: &'a Turns, steps: &'a Steps },
}

impl<'a> Walk<'a> {
    /// The determinant n.
    pub fn n(&self) -> u32
        ensures { result ≡ walk_number self.now }
    {
        match self {
            Walk::Set(set) => set.det(),
            Walk::Chains { n } => *n,
            Walk::Turns { steps, .. } => steps.n(),
        }
    }

    /// Computes the column of symbol k. Costs and takes what the call of `Column` does that the way names.
    pub fn column(&self, alloc: Global, space: &Space, k: u32) -> Result<Column, OutOfMemory>
        requires walk { IsWalk space.now.level self.now }
        requires place { k < length (symbols space.now.level) }
        requires coprime { gcd (walk_number self.now) space.now.level ≡ 1 }
        ensures space { IfOk result (λ c. (c.modulus ≡ space.now.level) × (c.characteristic ≡ space.now.characteristic)) }
        ensures n { IfOk result (λ c. c.n ≡ walk_number self.now) }
        ensures symbol { IfOk result (λ c. c.symbol ≡ k) }
        ensures column { IfOk result IsHeckeColumn }
    {
        match self {
            Walk::Set(set) => Column::compute(alloc, space, set, k),
            Walk::Chains { n } => Column::by_chains(alloc, space, *n, k),
            Walk::Turns { turns, steps } => Column::by_turns(alloc, space, turns, steps, k),
        }
    }
}
