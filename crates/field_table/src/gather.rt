ghost use Rattle.std.specs.List.Sorted.{IsNonDecreasingBy};
ghost use Rattle.std.specs.Prelude.{◌≡◌, ◌≢◌, ◌<◌, ◌≤◌, ◌+◌, ◌^◌, ◌++◌, [], ◌∷◌, ℕ, IfOk, OnOk, length, take, slice_index_or};
ghost use Rattle.field_table.specs.Residues.{AreResidues, HasResidues};
ghost use Rattle.field_table.specs.Terms.{HasPlacesBelow, place_at, residue_terms};
ghost use Rattle.linear_algebra.specs.Dense.{dense};
ghost use Rattle.linear_algebra.specs.Sparse.{IsCombo, single, sparse};
ghost use Rattle.linear_algebra.specs.Vector.{◌⊞◌};

use crate::field::Field;
use std::alloc::{AllocError, Global};

/// The terms with their integers' residues.
pub fn reduced(
    alloc: Global,
    field: Field,
    terms: &[(u32, i64)],
) -> Result<Vec<(u32, u32)>, AllocError>
    ensures terms { IfOk result (λ v. v.items ≡ residue_terms field terms.now) }
    ensures residues { IfOk result (λ v. HasResidues field v.items) }
{
    terms
        .iter()
        .map(|term| (term.0, field.residue(term.1)))
        .collect(alloc)
}

/// Orders the terms by their places.
pub fn order(field: Field, terms: &mut [(u32, u32)])
    requires { HasResidues field terms.old }
    ensures order { IsNonDecreasingBy (λ t. t.0) terms.new }
    ensures vector { sparse field terms.new ≡ sparse field terms.old }
    ensures residues { HasResidues field terms.new }
{
    terms.sort_unstable_by_key(|term| term.0);
}

// The terms of one place that stand together, up to before `end`, and the sum of their residues.
#[derive(Clone, Copy)]
struct Run {
    sum: u32,
    end: usize,
}

fn run_from(field: Field, terms: &[(u32, u32)], start: usize) -> Run
    requires within { start < length terms.now }
    requires residues { HasResidues field terms.now }
    ensures after { start < result.end }
    ensures within { result.end ≤ length terms.now }
    ensures ended { result.end < length terms.now → place_at terms.now result.end ≢ place_at terms.now start }
    ensures sum { sparse field (take result.end terms.now)
        ≡ sparse field (take start terms.now) ⊞ single field (place_at terms.now start) result.sum }
    ensures below { result.sum < field }
{
    let place = terms[start].0;
    let mut sum = terms[start].1;
    let mut end = start + 1;
    while end < terms.len() && terms[end].0 == place {
        sum = field.add(sum, terms[end].1);
        end += 1;
    }
    Run { sum, end }
}

// Adds the term, unless its residue is 0.
fn push_nonzero(terms: &mut Vec<(u32, u32)>, place: u32, residue: u32) -> Result<(), AllocError>
    ensures zero { OnOk result (residue ≡ 0 → terms.new.items ≡ terms.old.items) }
    ensures some { OnOk result (residue ≢ 0 → terms.new.items ≡ terms.old.items ++ (place, residue) ∷ []) }
{
    if residue != 0 {
        terms.push((place, residue))?;
    }
    Ok(())
}

/// The one term for each place of ordered terms, without those whose residues sum to 0.
pub fn sums_by_place(
    alloc: Global,
    field: Field,
    terms: &[(u32, u32)],
) -> Result<Vec<(u32, u32)>, AllocError>
    requires order { IsNonDecreasingBy (λ t. t.0) terms.now }
    requires residues { HasResidues field terms.now }
    ensures vector { IfOk result (λ v. sparse field v.items ≡ sparse field terms.now) }
    ensures combo { IfOk result (λ v. IsCombo v.items) }
    ensures residues { IfOk result (λ v. HasResidues field v.items) }
{
    let mut gathered = Vec::with_capacity(alloc, terms.len())?;
    let mut start = 0;
    while start < terms.len() {
        let run = run_from(field, terms, start);
        push_nonzero(&mut gathered, terms[start].0, run.sum)?;
        start = run.end;
    }
    Ok(gathered)
}

/// The numbers of a list that are not 0, with their places.
pub fn nonzero_terms(alloc: Global, numbers: &[u32]) -> Result<Vec<(u32, u32)>, AllocError>
    requires { length numbers.now ≤ 2 ^ 32 }
    ensures vector { IfOk result (λ v. (p : ℕ) → sparse p v.items ≡ dense p numbers.now) }
    ensures combo { IfOk result (λ v. IsCombo v.items) }
    ensures residues { IfOk result (λ v. (p : ℕ) → AreResidues p numbers.now → HasResidues p v.items) }
    ensures places { IfOk result (λ v. HasPlacesBelow (length numbers.now) v.items) }
{
    let count = numbers.iter().filter(|number| **number != 0).count();
    let mut terms = Vec::with_capacity(alloc, count)?;
    for place in 0..numbers.len() {
        if numbers[place] != 0 {
            terms.push((place as u32, numbers[place]))?;
        }
    }
    Ok(terms)
}
