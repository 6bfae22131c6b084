ghost use Rattle.std.specs.Prelude.{◌↔◌, ◌*◌, IsTrue};
ghost use Rattle.field_table.specs.Residues.{HasResidues};
ghost use Rattle.field_table.specs.Terms.{HasPlacesBelow};

/// Whether each place is below the first number, and each coefficient below the second.
pub fn are_below(terms: &[(u32, u32)], places: u32, numbers: u32) -> bool
    ensures { IsTrue result ↔ (HasPlacesBelow places terms.now × HasResidues numbers terms.now) }
{
    terms.iter().all(|term| term.0 < places && term.1 < numbers)
}
