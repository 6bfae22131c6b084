ghost use Rattle.std.specs.Prelude.{◌≡◌, ◌<◌, ℕ, All, IfOk, OnOk, length};
ghost use Rattle.field_table.specs.Residues.{HasResidues};
ghost use Rattle.field_table.specs.Terms.{HasPlacesBelow};
ghost use Rattle.linear_algebra.specs.Residue.{residue};
ghost use Rattle.linear_algebra.specs.Sparse.{IsCombo, single, sparse, sparse_rows};
ghost use Rattle.linear_algebra.specs.Vector.{◌⊞◌, ◌⊡◌, combination};
ghost use Rattle.sparse_echelon.specs.Leads.{at_leads};

use field_table::{Combo, Field, OutOfMemory, PlaceTable, plus_multiple};
use std::alloc::Global;

// Adds the number times the factor times the row with this greatest place, if there is one.
fn add_row_of(
    alloc: Global,
    field: Field,
    factor: u32,
    leads: &PlaceTable,
    rows: &[Combo],
    place: u32,
    number: u32,
    sum: &mut Combo,
) -> Result<(), OutOfMemory>
    requires rows { All (HasResidues field) rows.now }
    requires many { length leads.now.places ≡ length rows.now }
    requires factor { factor < field }
    requires number { number < field }
    requires residues { HasResidues field sum.old }
    ensures sum { OnOk result (sparse field sum.new ≡ sparse field sum.old ⊞ residue field factor
        ⊡ combination (at_leads leads.now (single field place number)) (sparse_rows field rows.now)) }
    ensures residues { OnOk result (HasResidues field sum.new) }
    ensures places { OnOk result ((n : ℕ) → HasPlacesBelow n sum.old → All (HasPlacesBelow n) rows.now → HasPlacesBelow n sum.new) }
{
    if let Some(row) = leads.number_of(place) {
        *sum = plus_multiple(
            alloc,
            field,
            sum.terms(),
            field.mul(factor, number),
            rows[row as usize].terms(),
        )?;
    }
    Ok(())
}

/// The start and the factor times the combination of the rows by the numbers that the terms have at their greatest places.
/// Costs, for each term at such a place, a step for each term of the sum so far and of the row.
pub fn plus_selected(
    alloc: Global,
    field: Field,
    start: &[(u32, u32)],
    factor: u32,
    leads: &PlaceTable,
    rows: &[Combo],
    selecting: &[(u32, u32)],
) -> Result<Combo, OutOfMemory>
    requires start { IsCombo start.now }
    requires start_residues { HasResidues field start.now }
    requires rows { All (HasResidues field) rows.now }
    requires many { length leads.now.places ≡ length rows.now }
    requires factor { factor < field }
    requires term_residues { HasResidues field selecting.now }
    ensures sum { IfOk result (λ z. sparse field z ≡ sparse field start.now ⊞ residue field factor
        ⊡ combination (at_leads leads.now (sparse field selecting.now)) (sparse_rows field rows.now)) }
    ensures residues { IfOk result (λ z. HasResidues field z) }
    ensures places { IfOk result (λ z. (n : ℕ) → HasPlacesBelow n start.now → All (HasPlacesBelow n) rows.now → HasPlacesBelow n z) }
{
    let mut sum = Combo::of(Vec::from_slice(alloc, start)?);
    for term in selecting {
        add_row_of(alloc, field, factor, leads, rows, term.0, term.1, &mut sum)?;
    }
    Ok(sum)
}
