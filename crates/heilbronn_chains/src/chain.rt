ghost use Rattle.std.specs.Prelude.{◌≡◌, ◌≤◌, IfOk, [], pos};
ghost use Rattle.p1_normal.specs.declared.matrix.TheConstants.{MAX_DET};
ghost use Rattle.heilbronn_sets.specs.Merel.{IsMerel};
ghost use Rattle.heilbronn_chains.specs.Chains.{AddsChain, IsChain, degree, member};

use crate::step::next;
use p1_normal::Matrix;
use std::alloc::{AllocError, Global};
use std::marker::Model;

/// A chain of Merel's matrices. Contracts see it as the list of its matrices.
#[derive(Debug, Drop)]
pub struct Chain {
    matrices: Vec<Matrix>,
}

impl Model for Chain {
    ghost use Rattle.std.specs.Prelude.{List};
    ghost use Rattle.p1_normal.specs.declared.matrix.Matrix.{Matrix as TheMatrix};

    ghost Value = { List TheMatrix };

    ghost view = { λ c. c.matrices.items };
}

impl Chain {
    /// The matrices in their order.
    pub fn as_slice(&self) -> &[Matrix]
        ensures { result.now ≡ self.now }
    {
        self.matrices.as_slice()
    }

    // The chain that begins with a matrix.
    pub(crate) fn from(alloc: Global, start: Matrix) -> Result<Chain, AllocError>
        requires limit { degree start ≤ MAX_DET }
        requires member { IsMerel (degree start) start }
        requires begins { start.b ≡ pos 0 }
        ensures chain { IfOk result (IsChain (degree start)) }
        ensures first { IfOk result (λ ms. member ms 0 ≡ start) }
    {
        let mut matrices = Vec::new(alloc);
        push_chain(&mut matrices, start)?;
        Ok(Chain { matrices })
    }
}

// Puts the chain that begins with a matrix behind the list.
pub(crate) fn push_chain(list: &mut Vec<Matrix>, start: Matrix) -> Result<(), AllocError>
    requires limit { degree start ≤ MAX_DET }
    requires member { IsMerel (degree start) start }
    requires begins { start.b ≡ pos 0 }
    ensures chain { IfOk result (λ _.
        AddsChain (degree start) start list.old.items list.new.items) }
{
    list.push(start)?;
    let mut last = start;
    while let Some(matrix) = next(&last) {
        list.push(matrix)?;
        last = matrix;
    }
    Ok(())
}
