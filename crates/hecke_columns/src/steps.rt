ghost use Rattle.std.specs.Prelude.{◌≡◌, ◌<◌, ◌≤◌, ◌+◌, ◌*◌, IfOk, OnOk, pos, unsigned_abs};
ghost use Rattle.heilbronn_chains.specs.Chains.{degree};
ghost use Rattle.heilbronn_sets.specs.Merel.{IsMerel};
ghost use Rattle.p1_normal.specs.declared.matrix.TheConstants.{MAX_DET};
ghost use Rattle.hecke_columns.specs.Steps.{AddsSteps, AreSteps};

use crate::chains::all_starts;
use field_table::OutOfMemory;
use heilbronn_chains::next;
use p1_normal::Matrix;
use std::alloc::{AllocError, Global};
use std::marker::Model;

/// A step of a walk along chains of matrices.
#[derive(Clone, Copy, Debug)]
pub enum Step {
    /// A chain begins with this matrix.
    Begin(Matrix),
    /// The matrix before, times [[q, 1], [-1, 0]] by this q.
    Turn(u32),
}

/// The steps along all chains of Merel's matrices of determinant n, one chain behind the other: one for
/// each matrix of the set. They hang on n alone. Contracts see n.
#[derive(Debug, Drop)]
pub struct Steps {
    n: u32,
    steps: Vec<Step>,
}

impl Model for Steps {
    ghost use Rattle.std.specs.Prelude.{ℕ};
    ghost use Rattle.hecke_columns.specs.Steps.{AreSteps};

    ghost Value = { ℕ };

    ghost view = { λ s. s.n };

    ghost invariant = { λ s. AreSteps s.n s.steps.items };
}

impl Steps {
    /// The steps of determinant n. Costs two divisions for each matrix, and takes a step for each.
    pub fn of(alloc: Global, n: u32) -> Result<Steps, OutOfMemory>
        requires some { 0 < n }
        requires limit { n ≤ MAX_DET }
        ensures determinant { IfOk result (λ s. s ≡ n) }
    {
        let steps = all_steps(alloc, n)?;
        Ok(Steps { n, steps })
    }

    /// The determinant n.
    pub fn n(&self) -> u32
        ensures { result ≡ self.now }
    {
        self.n
    }

    /// The steps in their order.
    pub(crate) fn as_slice(&self) -> &[Step]
        ensures steps { AreSteps self.now result.now }
    {
        self.steps.as_slice()
    }
}

// The least q for which q c is at least d.
fn least_quotient(matrix: &Matrix) -> u32
    requires some { 0 < unsigned_abs matrix.now.c }
    requires lower { unsigned_abs matrix.now.c ≤ MAX_DET }
    requires right { unsigned_abs matrix.now.d ≤ MAX_DET }
    ensures covers { unsigned_abs matrix.now.d ≤ result * unsigned_abs matrix.now.c }
    ensures least { result * unsigned_abs matrix.now.c < unsigned_abs matrix.now.d + unsigned_abs matrix.now.c }
{
    let c = matrix.c.unsigned_abs();
    let d = matrix.d.unsigned_abs();
    (d + c - 1) / c
}

// Puts the steps along the chain that begins with a matrix behind the list.
fn push_chain(steps: &mut Vec<Step>, start: Matrix) -> Result<(), AllocError>
    requires some { 0 < degree start }
    requires limit { degree start ≤ MAX_DET }
    requires member { IsMerel (degree start) start }
    requires begins { start.b ≡ pos 0 }
    ensures chain { IfOk result (λ _. AddsSteps (degree start) start steps.old.items steps.new.items) }
{
    steps.push(Step::Begin(start))?;
    let mut last = start;
    while let Some(matrix) = next(&last) {
        steps.push(Step::Turn(least_quotient(&last)))?;
        last = matrix;
    }
    Ok(())
}

// The steps along all chains of determinant n.
fn all_steps(alloc: Global, n: u32) -> Result<Vec<Step>, OutOfMemory>
    requires some { 0 < n }
    requires limit { n ≤ MAX_DET }
    ensures steps { IfOk result (λ list. AreSteps n list.items) }
{
    let starts = all_starts(alloc, n)?;
    let mut steps = Vec::new(alloc);
    for start in &starts {
        push_chain(&mut steps, *start)?;
    }
    Ok(steps)
}
