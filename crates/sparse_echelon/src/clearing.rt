ghost use Rattle.std.specs.Prelude.{◌≡◌, ◌⊎◌, ◌<◌, ℕ, All, OnOk, length};
ghost use Rattle.field_table.specs.Residues.{HasResidues};
ghost use Rattle.field_table.specs.Terms.{HasPlacesBelow};
ghost use Rattle.linear_algebra.specs.Residue.{opposite, residue};
ghost use Rattle.linear_algebra.specs.Sparse.{sparse};
ghost use Rattle.linear_algebra.specs.Vector.{◌⊞◌, ◌⊡◌};
ghost use Rattle.sparse_echelon.specs.Leads.{AreCleared, KeepsWidth};
ghost use Rattle.sparse_echelon.specs.Occurrences.{AreBelow, HasNumbersAt, IsAt, KeepsNumbers, ListsChanges};

use crate::occurrences::add_row;
use crate::row_numbers::RowNumbers;
use field_table::{Combo, Field, OutOfMemory, plus_multiple};
use std::alloc::Global;

// Clears the place from the row by one that is 1 there, and does the same to its log.
fn clear_row(
    alloc: Global,
    field: Field,
    row: &mut Combo,
    log: &mut Combo,
    place: u32,
    cleared: &Combo,
    cleared_log: &Combo,
    occurrences: &mut [RowNumbers],
    number: u32,
) -> Result<(), OutOfMemory>
    requires places { HasPlacesBelow (length occurrences.old) cleared.now }
    requires row_residues { HasResidues field row.old }
    requires log_residues { HasResidues field log.old }
    requires residues { HasResidues field cleared.now }
    requires more_residues { HasResidues field cleared_log.now }
    ensures row { OnOk result (sparse field row.new
        ≡ sparse field row.old ⊞ (opposite (sparse field row.old place) ⊡ sparse field cleared.now)) }
    ensures log { OnOk result (sparse field log.new
        ≡ sparse field log.old ⊞ (opposite (sparse field row.old place) ⊡ sparse field cleared_log.now)) }
    ensures row_residues { OnOk result (HasResidues field row.new) }
    ensures log_residues { OnOk result (HasResidues field log.new) }
    ensures row_places { OnOk result ((n : ℕ) → HasPlacesBelow n row.old → HasPlacesBelow n cleared.now → HasPlacesBelow n row.new) }
    ensures log_places { OnOk result ((n : ℕ) → HasPlacesBelow n log.old → HasPlacesBelow n cleared_log.now → HasPlacesBelow n log.new) }
    ensures listed { OnOk result (((row.new ≡ row.old) × (log.new ≡ log.old)) ⊎ IsAt occurrences.new cleared.now number) }
    ensures grows { OnOk result (KeepsNumbers occurrences.old occurrences.new) }
    ensures below { OnOk result ((n : ℕ) → number < n → AreBelow n occurrences.old → AreBelow n occurrences.new) }
{
    let coefficient = row.at(place);
    if coefficient != 0 {
        let factor = field.neg(coefficient);
        *row = plus_multiple(alloc, field, row.terms(), factor, cleared.terms())?;
        *log = plus_multiple(alloc, field, log.terms(), factor, cleared_log.terms())?;
        add_row(occurrences, cleared.terms(), number)?;
    }
    Ok(())
}

/// Clears the place from each of the numbered rows by one that is 1 there, and does the same to the logs. Costs a step for
/// each term of the rows that have the place.
pub fn clear_rows(
    alloc: Global,
    field: Field,
    rows: &mut [Combo],
    logs: &mut [Combo],
    numbers: &[u32],
    place: u32,
    cleared: &Combo,
    cleared_log: &Combo,
    occurrences: &mut [RowNumbers],
) -> Result<(), OutOfMemory>
    requires numbers { All (λ j. j < length rows.old) numbers.now }
    requires found { HasNumbersAt field rows.old place numbers.now }
    requires one { sparse field cleared.now place ≡ residue field 1 }
    requires many { length rows.old ≡ length logs.old }
    requires places { HasPlacesBelow (length occurrences.old) cleared.now }
    requires rows { All (HasResidues field) rows.old }
    requires logs { All (HasResidues field) logs.old }
    requires residues { HasResidues field cleared.now }
    requires more_residues { HasResidues field cleared_log.now }
    ensures row { OnOk result (AreCleared field place rows.old rows.old rows.new cleared.now) }
    ensures log { OnOk result (AreCleared field place rows.old logs.old logs.new cleared_log.now) }
    ensures rows { OnOk result (KeepsWidth field rows.old rows.new cleared.now) }
    ensures logs { OnOk result (KeepsWidth field logs.old logs.new cleared_log.now) }
    ensures listed { OnOk result (ListsChanges field rows.old rows.new occurrences.new cleared.now) }
    ensures grows { OnOk result (KeepsNumbers occurrences.old occurrences.new) }
    ensures below { OnOk result (AreBelow (length rows.old) occurrences.old → AreBelow (length rows.old) occurrences.new) }
{
    for number in numbers {
        clear_row(
            alloc,
            field,
            &mut rows[*number as usize],
            &mut logs[*number as usize],
            place,
            cleared,
            cleared_log,
            occurrences,
            *number,
        )?;
    }
    Ok(())
}
