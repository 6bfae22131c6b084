ghost use Rattle.std.specs.Prelude.{◌≡◌, ◌<◌, IfOk, length, map, pos};
ghost use Rattle.linear_algebra.specs.Sparse.{sparse};
ghost use Rattle.field_table.specs.Residues.{HasResidues};
ghost use Rattle.field_table.specs.Terms.{HasPlacesBelow};
ghost use Rattle.p1_normal.specs.Actions.{matrix_star, image_number};
ghost use Rattle.p1_normal.specs.Points.{symbols};
ghost use Rattle.star_map.specs.Star.{star as star_of, star_terms};

use field_table::{Combo, Field, OutOfMemory};
use p1_normal::Level;
use std::alloc::{AllocError, Global};

// The terms with (-u:v) in the place of each symbol (u:v).
fn images(alloc: Global, level: &Level, terms: &[(u32, u32)]) -> Result<Vec<(u32, i64)>, AllocError>
    requires places { HasPlacesBelow (length (symbols level.now)) terms.now }
    ensures { IfOk result (λ images. images.items ≡ star_terms level.now terms.now) }
{
    terms
        .iter()
        .map(|term| (level.star_of(term.0), i64::from(term.1)))
        .collect(alloc)
}

/// Star of a combination: its residues, each at the symbol (-u:v) for (u:v). Costs an action a
/// term, and a sort of the terms. Congruent combinations have congruent stars, which
/// `star_keeps_congruence` states.
pub fn star(alloc: Global, level: &Level, field: Field, combo: &Combo) -> Result<Combo, OutOfMemory>
    requires places { HasPlacesBelow (length (symbols level.now)) combo.now }
    ensures vector { IfOk result (λ c.
        sparse field c ≡ star_of level.now (sparse field combo.now)) }
    ensures residues { IfOk result (λ c. HasResidues field c) }
    ensures places { IfOk result (λ c. HasPlacesBelow (length (symbols level.now)) c) }
{
    let terms = images(alloc, level, combo.terms())?;
    let image = Combo::from_terms(alloc, field, &terms)?;
    // Read for the places of the image, which rise and have no 0.
    let _rising = image.terms();
    Ok(image)
}
