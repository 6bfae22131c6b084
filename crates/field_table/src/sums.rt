ghost use Rattle.std.specs.Prelude.{◌≡◌, ◌≢◌, ◌<◌, ℕ, ◌++◌, [], ◌∷◌, IfOk, OnOk};
ghost use Rattle.field_table.specs.Residues.{HasResidues};
ghost use Rattle.field_table.specs.Terms.{HasPlacesBelow};
ghost use Rattle.linear_algebra.specs.Residue.{residue};
ghost use Rattle.linear_algebra.specs.Sparse.{IsCombo, sparse};
ghost use Rattle.linear_algebra.specs.Vector.{◌⊞◌, ◌⊡◌};

use crate::combo::Combo;
use crate::field::Field;
use crate::memory::OutOfMemory;
use std::alloc::{AllocError, Global};

// Adds the term, unless its number is 0.
fn push_nonzero(terms: &mut Vec<(u32, u32)>, place: u32, number: u32) -> Result<(), AllocError>
    ensures zero { OnOk result (number ≡ 0 → terms.new.items ≡ terms.old.items) }
    ensures some { OnOk result (number ≢ 0 → terms.new.items ≡ terms.old.items ++ (place, number) ∷ []) }
{
    if number != 0 {
        terms.push((place, number))?;
    }
    Ok(())
}

// The terms of x and c times those of y, merged.
fn merged(
    alloc: Global,
    field: Field,
    x: &[(u32, u32)],
    c: u32,
    y: &[(u32, u32)],
) -> Result<Vec<(u32, u32)>, AllocError>
    requires left { IsCombo x.now }
    requires right { IsCombo y.now }
    requires residues { HasResidues field x.now }
    requires factor { c < field }
    requires more_residues { HasResidues field y.now }
    ensures sum { IfOk result (λ z. sparse field z.items ≡ sparse field x.now ⊞ residue field c ⊡ sparse field y.now) }
    ensures combo { IfOk result (λ z. IsCombo z.items) }
    ensures residues { IfOk result (λ z. HasResidues field z.items) }
{
    let mut sum = Vec::with_capacity(alloc, x.len() + y.len())?;
    let mut i = 0;
    let mut j = 0;
    'both: while i < x.len() && j < y.len() {
        if x[i].0 < y[j].0 {
            sum.push(x[i])?;
            i += 1;
        } else if y[j].0 < x[i].0 {
            push_nonzero(&mut sum, y[j].0, field.mul(c, y[j].1))?;
            j += 1;
        } else {
            push_nonzero(&mut sum, x[i].0, field.add(x[i].1, field.mul(c, y[j].1)))?;
            i += 1;
            j += 1;
        }
    }
    'left: while i < x.len() {
        sum.push(x[i])?;
        i += 1;
    }
    'right: while j < y.len() {
        push_nonzero(&mut sum, y[j].0, field.mul(c, y[j].1))?;
        j += 1;
    }
    Ok(sum)
}

/// The terms of x and c times those of y, added. Costs a step for each term.
pub fn plus_multiple(
    alloc: Global,
    field: Field,
    x: &[(u32, u32)],
    c: u32,
    y: &[(u32, u32)],
) -> Result<Combo, OutOfMemory>
    requires left { IsCombo x.now }
    requires right { IsCombo y.now }
    requires residues { HasResidues field x.now }
    requires factor { c < field }
    requires more_residues { HasResidues field y.now }
    ensures sum { IfOk result (λ z. sparse field z ≡ sparse field x.now ⊞ residue field c ⊡ sparse field y.now) }
    ensures residues { IfOk result (λ z. HasResidues field z) }
    ensures places { IfOk result (λ z. (n : ℕ) → HasPlacesBelow n x.now → HasPlacesBelow n y.now → HasPlacesBelow n z) }
{
    Ok(Combo::of(merged(alloc, field, x, c, y)?))
}

/// The terms times the factor. Costs a step for each term.
pub fn product(
    alloc: Global,
    field: Field,
    c: u32,
    terms: &[(u32, u32)],
) -> Result<Combo, OutOfMemory>
    requires right { IsCombo terms.now }
    requires factor { c < field }
    requires residues { HasResidues field terms.now }
    ensures product { IfOk result (λ z. sparse field z ≡ residue field c ⊡ sparse field terms.now) }
    ensures residues { IfOk result (λ z. HasResidues field z) }
    ensures places { IfOk result (λ z. (n : ℕ) → HasPlacesBelow n terms.now → HasPlacesBelow n z) }
{
    plus_multiple(alloc, field, &[], c, terms)
}
