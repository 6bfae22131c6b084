ghost use Rattle.std.specs.Prelude.{◌≡◌, ◌<◌, ◌≤◌, ◌^◌, ◌↔◌, ℕ, IfOk, IsTrue, length};
ghost use Rattle.field_table.specs.Residues.{AreResidues, HasResidues};
ghost use Rattle.field_table.specs.Terms.{HasPlacesBelow, residue_terms};
ghost use Rattle.linear_algebra.specs.Dense.{dense};
ghost use Rattle.linear_algebra.specs.Residue.{residue};
ghost use Rattle.linear_algebra.specs.Sparse.{IsCombo, sparse};

use crate::field::Field;
use crate::gather::{nonzero_terms, order, reduced, sums_by_place};
use crate::memory::OutOfMemory;
use crate::search::number_at;
use std::alloc::Global;
use std::marker::Model;

/// A combination of places: terms of a place and a residue, where the places rise and no residue is
/// 0. It keeps no characteristic: that its residues are below one is a condition of the calls that
/// compute with them. Contracts see it as the list of its terms.
#[derive(Debug, Drop)]
pub struct Combo {
    terms: Vec<(u32, u32)>,
}

impl Model for Combo {
    ghost use Rattle.std.specs.Prelude.{ℕ, List};
    ghost use Rattle.linear_algebra.specs.Sparse.{IsCombo};

    ghost Value = { List (ℕ × ℕ) };

    ghost view = { λ c. c.terms.items };

    ghost invariant = { λ c. IsCombo c.terms.items };
}

impl Combo {
    /// The combination of any terms: the residues of repeated places are summed, and sums that are 0
    /// left out. Costs a sort of the terms.
    pub fn from_terms(
        alloc: Global,
        field: Field,
        terms: &[(u32, i64)],
    ) -> Result<Combo, OutOfMemory>
        ensures vector { IfOk result (λ c. sparse field c ≡ sparse field (residue_terms field terms.now)) }
        ensures residues { IfOk result (λ c. HasResidues field c) }
    {
        let mut terms = reduced(alloc, field, terms)?;
        order(field, &mut terms);
        Ok(Combo::of(sums_by_place(alloc, field, &terms)?))
    }

    /// The combination of the numbers of a list that are not 0, each at its place in the list.
    pub fn from_dense(alloc: Global, residues: &[u32]) -> Result<Combo, OutOfMemory>
        requires { length residues.now ≤ 2 ^ 32 }
        ensures vector { IfOk result (λ c. (p : ℕ) → sparse p c ≡ dense p residues.now) }
        ensures residues { IfOk result (λ c. (p : ℕ) → AreResidues p residues.now → HasResidues p c) }
        ensures places { IfOk result (λ c. HasPlacesBelow (length residues.now) c) }
    {
        Ok(Combo::of(nonzero_terms(alloc, residues)?))
    }

    /// The combination of terms that rise and have no 0; the vector is moved and not copied.
    pub fn of(terms: Vec<(u32, u32)>) -> Combo
        requires { IsCombo terms.items }
        ensures { result ≡ terms.items }
    {
        Combo { terms }
    }

    /// The terms, their places rising.
    pub fn terms(&self) -> &[(u32, u32)]
        ensures terms { result.now ≡ self.now }
        ensures combo { IsCombo self.now }
    {
        self.terms.as_slice()
    }

    /// The number at a place, and 0 where no term has it. Costs a binary search. Takes no memory.
    pub fn at(&self, place: u32) -> u32
        ensures number { (p : ℕ) → residue p result ≡ sparse p self.now place }
        ensures residue { (p : ℕ) → 0 < p → HasResidues p self.now → result < p }
    {
        number_at(&self.terms, place)
    }

    /// Whether each place and each number is below its bound.
    pub fn is_within(&self, places: u32, numbers: u32) -> bool
        ensures { IsTrue result ↔ (HasPlacesBelow places self.now × HasResidues numbers self.now) }
    {
        self.terms
            .iter()
            .all(|term| term.0 < places && term.1 < numbers)
    }

    /// Gives the terms back; the vector is moved and not copied.
    pub fn into_terms(self) -> Vec<(u32, u32)>
        ensures terms { result.items ≡ self }
        ensures combo { IsCombo self }
    {
        let Combo { terms } = self;
        terms
    }
}
