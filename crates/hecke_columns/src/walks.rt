ghost use Rattle.std.specs.Prelude.{◌≡◌, ◌<◌, ◌≤◌, OnOk};
ghost use Rattle.p1_normal.specs.declared.matrix.TheConstants.{MAX_DET};
ghost use Rattle.hecke_columns.specs.Held.{AreHeldSteps};
ghost use Rattle.hecke_columns.specs.Walks.{IsWalk, walk_number};

use crate::steps::Steps;
use crate::turns::Turns;
use crate::ways::Walk;
use field_table::OutOfMemory;
use indexmap::IndexMap;
use p1_normal::{Level, MAX_DET};
use std::alloc::Global;
use std::marker::Model;

// From so many columns of a level on, steps and a table of turns pay.
const MIN_STEPPED_COLUMNS: u32 = 16;

// The greatest quotient in the table of turns.
const TURN_LIMIT: u32 = 8;

type StepsByNumber = IndexMap<u32, Steps>;

/// What the columns of one level are made by: a table of turns, and the steps of each n for which they pay.
/// Contracts see the level N.
#[derive(Drop)]
pub struct Walks {
    modulus: u32,
    columns: u32,
    turns: Option<Turns>,
    steps: StepsByNumber,
}

impl Model for Walks {
    ghost use Rattle.std.specs.Prelude.{◌≡◌, ℕ, IfSome};
    ghost use Rattle.hecke_columns.specs.Held.{AreHeldSteps};

    ghost Value = { ℕ };

    ghost view = { λ w. w.modulus };

    ghost invariant = { λ w. IfSome w.turns (λ t. t.level ≡ w.modulus) × AreHeldSteps w.steps.entries };
}

impl Walks {
    /// The walks of a level, of which nothing is stored yet. It takes no memory.
    pub fn new(alloc: Global, level: &Level) -> Walks
        ensures { result ≡ level.now }
    {
        Walks {
            modulus: level.modulus(),
            columns: 0,
            turns: None,
            steps: IndexMap::new(alloc),
        }
    }

    /// Readies the way for so many columns more, of determinant n, if it pays: where 16 columns or more were asked
    /// for by now it keeps the table of turns of the level, up to the quotient 8, and the steps of n, which cost about
    /// one column of n. What is there is not made again. A refused call leaves walks that serve as before.
    pub fn hold(
        &mut self,
        alloc: Global,
        level: &Level,
        n: u32,
        columns: u32,
    ) -> Result<(), OutOfMemory>
        requires level { level.now ≡ self.old }
        requires limits { (0 < n) × (n ≤ MAX_DET) }
        ensures { self.new ≡ self.old }
    {
        self.columns = self.columns.saturating_add(columns);
        if self.columns < MIN_STEPPED_COLUMNS {
            return Ok(());
        }
        if self.turns.is_none() {
            self.turns = Some(Turns::of(alloc, level, TURN_LIMIT)?);
        }
        hold_steps(alloc, &mut self.steps, n)
    }

    /// The way to make columns of determinant n: by turns where they are kept for n, else by chains.
    pub fn walk(&self, n: u32) -> Walk<'_>
        requires limits { (0 < n) × (n ≤ MAX_DET) }
        ensures number { walk_number result ≡ n }
        ensures walk { IsWalk self.now result }
    {
        match (&self.turns, self.steps.get(&n)) {
            (Some(turns), Some(steps)) => Walk::Turns { turns, steps },
            _ => Walk::Chains { n },
        }
    }
}

// Takes the steps of determinant n into the table, if they are not there.
fn hold_steps(alloc: Global, steps: &mut StepsByNumber, n: u32) -> Result<(), OutOfMemory>
    requires limits { (0 < n) × (n ≤ MAX_DET) }
    requires held { AreHeldSteps steps.old.entries }
    ensures held { AreHeldSteps steps.new.entries }
{
    if !steps.contains_key(&n) {
        let walked = Steps::of(alloc, n)?;
        steps.insert(n, walked)?;
    }
    Ok(())
}
