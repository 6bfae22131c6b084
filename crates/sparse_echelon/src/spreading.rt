ghost use Rattle.std.specs.Prelude.{◌≡◌, ◌<◌, ℕ, All, length};
ghost use Rattle.field_table.specs.Residues.{AreResidues, HasResidues};
ghost use Rattle.field_table.specs.Terms.{HasPlacesBelow};
ghost use Rattle.linear_algebra.specs.Dense.{dense};
ghost use Rattle.linear_algebra.specs.Residue.{residue};
ghost use Rattle.linear_algebra.specs.Sparse.{single, sparse, sparse_rows};
ghost use Rattle.linear_algebra.specs.Vector.{◌⊞◌, ◌⊡◌, combination, minus};
ghost use Rattle.sparse_echelon.specs.Leads.{at_leads};

use field_table::{Combo, Field, PlaceTable, axpy_sparse};

// Adds the number times the factor times the row with this greatest place to the list, if there is one.
fn spread_row_of(
    field: Field,
    factor: u32,
    leads: &PlaceTable,
    rows: &[Combo],
    place: u32,
    number: u32,
    acc: &mut [u32],
)
    requires places { All (HasPlacesBelow (length acc.old)) rows.now }
    requires rows { All (HasResidues field) rows.now }
    requires many { length leads.now.places ≡ length rows.now }
    requires factor { factor < field }
    requires number { number < field }
    requires residues { AreResidues field acc.old }
    ensures sum { dense field acc.new ≡ dense field acc.old ⊞ residue field factor
        ⊡ combination (at_leads leads.now (single field place number)) (sparse_rows field rows.now) }
    ensures residues { AreResidues field acc.new }
{
    if let Some(row) = leads.number_of(place) {
        axpy_sparse(
            field,
            acc,
            field.mul(factor, number),
            rows[row as usize].terms(),
        );
    }
}

/// Adds the factor times the combination of the rows by the numbers that the terms have at their greatest places to the
/// list. Costs a step for each term of the rows that are added. Takes no memory.
pub fn spread_selected(
    field: Field,
    factor: u32,
    leads: &PlaceTable,
    rows: &[Combo],
    selecting: &[(u32, u32)],
    acc: &mut [u32],
)
    requires places { All (HasPlacesBelow (length acc.old)) rows.now }
    requires rows { All (HasResidues field) rows.now }
    requires many { length leads.now.places ≡ length rows.now }
    requires factor { factor < field }
    requires term_residues { HasResidues field selecting.now }
    requires residues { AreResidues field acc.old }
    ensures sum { dense field acc.new ≡ dense field acc.old ⊞ residue field factor
        ⊡ combination (at_leads leads.now (sparse field selecting.now)) (sparse_rows field rows.now) }
    ensures residues { AreResidues field acc.new }
{
    for term in selecting {
        spread_row_of(field, factor, leads, rows, term.0, term.1, acc);
    }
}

/// Puts the terms into the list, less the combination of the rows by the numbers that they have at their greatest places.
pub fn spread_remainder(
    field: Field,
    leads: &PlaceTable,
    rows: &[Combo],
    terms: &[(u32, u32)],
    acc: &mut [u32],
)
    requires places { All (HasPlacesBelow (length acc.old)) rows.now }
    requires rows { All (HasResidues field) rows.now }
    requires many { length leads.now.places ≡ length rows.now }
    requires term_residues { HasResidues field terms.now }
    requires term_places { HasPlacesBelow (length acc.old) terms.now }
    ensures difference { dense field acc.new ≡ minus (sparse field terms.now)
        (combination (at_leads leads.now (sparse field terms.now)) (sparse_rows field rows.now)) }
    ensures residues { AreResidues field acc.new }
{
    acc.fill(0);
    spread_selected(field, field.neg(1), leads, rows, terms, acc);
    axpy_sparse(field, acc, 1, terms);
}
