ghost use Rattle.std.specs.Prelude.{◌≡◌, ◌<◌, ℕ, [], IfOk, OnOk, length, slice_index_or};
ghost use Rattle.field_table.specs.Terms.{HasPlacesBelow};
ghost use Rattle.sparse_echelon.specs.Occurrences.{AreBelow, IsAt, KeepsNumbers};

use crate::row_numbers::RowNumbers;
use field_table::OutOfMemory;
use std::alloc::Global;

/// No row at any place below the width.
pub fn no_rows(alloc: Global, width: usize) -> Result<Vec<RowNumbers>, OutOfMemory>
    ensures width { IfOk result (λ v. length v.items ≡ width) }
    ensures below { IfOk result (λ v. AreBelow 0 v.items) }
{
    let mut occurrences = Vec::with_capacity(alloc, width)?;
    while occurrences.len() < width {
        occurrences.push(RowNumbers::none(alloc))?;
    }
    Ok(occurrences)
}

/// Adds the number of a row at the place of each of the terms but the last.
pub fn add_row(
    occurrences: &mut [RowNumbers],
    terms: &[(u32, u32)],
    number: u32,
) -> Result<(), OutOfMemory>
    requires places { HasPlacesBelow (length occurrences.old) terms.now }
    ensures added { OnOk result (IsAt occurrences.new terms.now number) }
    ensures grows { OnOk result (KeepsNumbers occurrences.old occurrences.new) }
    ensures below { OnOk result ((n : ℕ) → number < n → AreBelow n occurrences.old → AreBelow n occurrences.new) }
{
    for i in 1..terms.len() {
        occurrences[terms[i - 1].0 as usize].push(number)?;
    }
    Ok(())
}
