ghost use Rattle.std.specs.Prelude.{◌≡◌, ◌<◌, ◌^◌, ℕ, All, IfOk, length, slice_index};
ghost use Rattle.field_table.specs.Residues.{AreResidues, HasResidues};
ghost use Rattle.field_table.specs.Terms.{HasPlacesBelow};
ghost use Rattle.linear_algebra.specs.Coordinates.{at_places};
ghost use Rattle.linear_algebra.specs.Dense.{dense};
ghost use Rattle.linear_algebra.specs.Prime.{IsPrime};
ghost use Rattle.linear_algebra.specs.Residue.{opposite, residue};
ghost use Rattle.linear_algebra.specs.Sparse.{IsCombo, sparse};
ghost use Rattle.std.specs.List.Sorted.{IsStrictlyIncreasing};

use field_table::{Field, PlaceTable};
use std::alloc::{AllocError, Global};

/// The terms at the free symbols, each at the symbol's number among them, with the residues that cancel theirs.
pub fn negated(
    alloc: Global,
    field: Field,
    free: &PlaceTable,
    terms: &[(u32, u32)],
) -> Result<Vec<(u32, u32)>, AllocError>
    requires rising { IsCombo terms.now }
    requires residues { HasResidues field terms.now }
    requires free { IsStrictlyIncreasing free.now.places }
    ensures combo { IfOk result (λ v. IsCombo v.items) }
    ensures residues { IfOk result (λ v. HasResidues field v.items) }
    ensures places { IfOk result (λ v. HasPlacesBelow (length free.now.places) v.items) }
    ensures entries { IfOk result (λ v. (j : ℕ) → j < length free.now.places →
        sparse field v.items j ≡ opposite (sparse field terms.now (slice_index free.now.places j))) }
{
    let mut negated = Vec::with_capacity(alloc, terms.len())?;
    for term in terms {
        if let Some(number) = free.number_of(term.0) {
            negated.push((number, field.neg(term.1)))?;
        }
    }
    Ok(negated)
}

/// The terms of the combination of the free symbols with these coefficients.
pub fn lifted_terms(
    alloc: Global,
    free: &PlaceTable,
    coords: &[u32],
) -> Result<Vec<(u32, u32)>, AllocError>
    requires count { length coords.now ≡ length free.now.places }
    requires rising { IsStrictlyIncreasing free.now.places }
    ensures rising { IfOk result (λ v. IsCombo v.items) }
    ensures vector { IfOk result (λ v. (p : ℕ) → sparse p v.items ≡ at_places free.now.places (dense p coords.now)) }
    ensures residues { IfOk result (λ v. (p : ℕ) → AreResidues p coords.now → HasResidues p v.items) }
    ensures places { IfOk result (λ v. (n : ℕ) → All (λ k. k < n) free.now.places → HasPlacesBelow n v.items) }
{
    let mut terms = Vec::new(alloc);
    for j in 0..coords.len() {
        if coords[j] != 0 {
            terms.push((free.place(j), coords[j]))?;
        }
    }
    Ok(terms)
}
