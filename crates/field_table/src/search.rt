ghost use Rattle.std.specs.Prelude.{◌≡◌, ◌<◌, ◌≤◌, ℕ, length};
ghost use Rattle.field_table.specs.Residues.{HasResidues};
ghost use Rattle.field_table.specs.Terms.{place_at};
ghost use Rattle.linear_algebra.specs.Residue.{residue};
ghost use Rattle.linear_algebra.specs.Sparse.{sparse, IsCombo};

// The index of the first term whose place is not below the given one; the number of terms if there is none.
fn first_from(terms: &[(u32, u32)], place: u32) -> usize
    requires rising { IsCombo terms.now }
    ensures within { result ≤ length terms.now }
    ensures below { (k : ℕ) → k < result → place_at terms.now k < place }
    ensures from { (k : ℕ) → result ≤ k → k < length terms.now → place ≤ place_at terms.now k }
{
    let mut low = 0;
    let mut high = terms.len();
    while low < high {
        let middle = low + (high - low) / 2;
        if terms[middle].0 < place {
            low = middle + 1;
        } else {
            high = middle;
        }
    }
    low
}

/// The number at a place, and 0 where no term has it. Costs a binary search.
pub fn number_at(terms: &[(u32, u32)], place: u32) -> u32
    requires rising { IsCombo terms.now }
    ensures number { (p : ℕ) → residue p result ≡ sparse p terms.now place }
    ensures residue { (p : ℕ) → 0 < p → HasResidues p terms.now → result < p }
{
    let i = first_from(terms, place);
    if i < terms.len() && terms[i].0 == place {
        terms[i].1
    } else {
        0
    }
}
