ghost use Rattle.std.specs.Prelude.{◌≡◌, ◌≢◌, ℕ, ◌<◌, ◌+◌, ◌++◌, ◌∷◌, [], ◌^◌, All, OnOk, length};
ghost use Rattle.field_table.specs.Residues.{HasResidues};
ghost use Rattle.field_table.specs.Terms.{HasPlacesBelow};
ghost use Rattle.linear_algebra.specs.Residue.{residue};
ghost use Rattle.linear_algebra.specs.Sparse.{sparse};
ghost use Rattle.sparse_echelon.specs.Leads.{AreCleared, KeepsWidth, lead};
ghost use Rattle.sparse_echelon.specs.Occurrences.{AreBelow, HasNumbersAt, KeepsNumbers, ListsChanges};

use crate::clearing::clear_rows;
use crate::row_numbers::RowNumbers;
use field_table::{Combo, Field, OutOfMemory, PlaceTable};
use std::alloc::Global;

/// An echelon form: the rows of its basis, each beside its coefficients over the given rows, their greatest places, and the
/// numbers of the given rows that were kept.
#[derive(Drop)]
pub struct Stored {
    pub leads: PlaceTable,
    pub basis: Vec<Combo>,
    pub logs: Vec<Combo>,
    pub kept: Vec<u32>,
}

impl Stored {
    /// Clears the place from each of the numbered rows of the basis by one that is 1 there, and does the same to their logs.
    pub fn clear(
        &mut self,
        alloc: Global,
        field: Field,
        numbers: &[u32],
        place: u32,
        cleared: &Combo,
        cleared_log: &Combo,
        occurrences: &mut [RowNumbers],
    ) -> Result<(), OutOfMemory>
        requires numbers { All (λ j. j < length self.old.basis.items) numbers.now }
        requires found { HasNumbersAt field self.old.basis.items place numbers.now }
        requires one { sparse field cleared.now place ≡ residue field 1 }
        requires many { length self.old.basis.items ≡ length self.old.logs.items }
        requires places { HasPlacesBelow (length occurrences.old) cleared.now }
        requires rows { All (HasResidues field) self.old.basis.items }
        requires logs { All (HasResidues field) self.old.logs.items }
        requires residues { HasResidues field cleared.now }
        requires more_residues { HasResidues field cleared_log.now }
        ensures row { OnOk result (AreCleared field place self.old.basis.items
            self.old.basis.items self.new.basis.items cleared.now) }
        ensures log { OnOk result (AreCleared field place self.old.basis.items
            self.old.logs.items self.new.logs.items cleared_log.now) }
        ensures rows { OnOk result (KeepsWidth field self.old.basis.items self.new.basis.items cleared.now) }
        ensures logs { OnOk result (KeepsWidth field self.old.logs.items self.new.logs.items cleared_log.now) }
        ensures listed { OnOk result (ListsChanges field self.old.basis.items self.new.basis.items
            occurrences.new cleared.now) }
        ensures grows { OnOk result (KeepsNumbers occurrences.old occurrences.new) }
        ensures below { OnOk result (AreBelow (length self.old.basis.items) occurrences.old →
            AreBelow (length self.old.basis.items) occurrences.new) }
        ensures count { OnOk result (length self.new.basis.items ≡ length self.old.basis.items) }
        ensures log_count { OnOk result (length self.new.logs.items ≡ length self.old.logs.items) }
        ensures leads { OnOk result (self.new.leads ≡ self.old.leads) }
        ensures kept { OnOk result (self.new.kept.items ≡ self.old.kept.items) }
    {
        clear_rows(
            alloc,
            field,
            &mut self.basis,
            &mut self.logs,
            numbers,
            place,
            cleared,
            cleared_log,
            occurrences,
        )
    }

    /// Adds a row with its log, its greatest place and the number of the given row that it comes from.
    pub fn push(
        &mut self,
        row: Combo,
        log: Combo,
        place: u32,
        number: u32,
    ) -> Result<(), OutOfMemory>
        requires within { place < self.old.leads.width }
        requires count { length self.old.leads.places + 1 < 2 ^ 32 }
        requires other { (j : ℕ) → j < length self.old.leads.places → lead self.old.leads j ≢ place }
        ensures basis { OnOk result (self.new.basis.items ≡ self.old.basis.items ++ row ∷ []) }
        ensures logs { OnOk result (self.new.logs.items ≡ self.old.logs.items ++ log ∷ []) }
        ensures leads { OnOk result (self.new.leads
            ≡ record { width = self.old.leads.width; places = self.old.leads.places ++ place ∷ [] }) }
        ensures kept { OnOk result (self.new.kept.items ≡ self.old.kept.items ++ number ∷ []) }
    {
        self.basis.push(row)?;
        self.logs.push(log)?;
        self.leads.push(place)?;
        self.kept.push(number)?;
        Ok(())
    }
}
