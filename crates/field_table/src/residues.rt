ghost use Rattle.std.specs.Prelude.{◌≡◌, ◌<◌, IfOk, length};
ghost use Rattle.field_table.specs.Residues.{AreResidues};
ghost use Rattle.linear_algebra.specs.Dense.{dense};
ghost use Rattle.linear_algebra.specs.Residue.{residue};
ghost use Rattle.linear_algebra.specs.Vector.{◌⊞◌, ◌⊡◌};

use crate::dispatch::axpy;
use crate::field::Field;
use crate::memory::OutOfMemory;
use std::alloc::Global;
use std::marker::Model;

/// A list of residues. It keeps no characteristic: that its numbers are below one is a condition of
/// the calls that compute with them. Contracts see it as the list.
#[derive(Debug, Drop)]
pub struct Residues {
    values: Vec<u32>,
}

impl Model for Residues {
    ghost use Rattle.std.specs.Prelude.{ℕ, List};

    ghost Value = { List ℕ };

    ghost view = { λ r. r.values.items };
}

impl Residues {
    /// The list that stands in the vector, which is moved and not copied.
    pub fn of(values: Vec<u32>) -> Residues
        ensures { result ≡ values.items }
    {
        Residues { values }
    }

    /// The residues in their order.
    pub fn as_slice(&self) -> &[u32]
        ensures { result.now ≡ self.now }
    {
        self.values.as_slice()
    }

    /// Gives the vector back, which is moved and not copied.
    pub fn into_vec(self) -> Vec<u32>
        ensures { result.items ≡ self }
    {
        let Residues { values } = self;
        values
    }

    /// A list with the same numbers.
    pub fn copy(&self, alloc: Global) -> Result<Residues, OutOfMemory>
        ensures { IfOk result (λ r. r ≡ self.now) }
    {
        Ok(Residues {
            values: Vec::from_slice(alloc, &self.values)?,
        })
    }

    /// Adds c times the other list, place by place. Takes no memory.
    pub fn add_scaled(&mut self, field: Field, c: u32, other: &[u32])
        requires lengths { length self.old ≡ length other.now }
        requires factor { c < field }
        requires residues { AreResidues field self.old }
        requires other_residues { AreResidues field other.now }
        ensures sum { dense field self.new ≡ dense field self.old ⊞ residue field c ⊡ dense field other.now }
        ensures residues { AreResidues field self.new }
        ensures length { length self.new ≡ length self.old }
    {
        axpy(field, &mut self.values, c, other);
    }
}
