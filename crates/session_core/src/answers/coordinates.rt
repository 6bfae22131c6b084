ghost use Rattle.std.specs.Prelude.{◌≡◌, ◌<◌, All, IfOk, length};
ghost use Rattle.field_table.specs.Terms.{residue_terms};
ghost use Rattle.linear_algebra.specs.Sparse.{sparse};
ghost use Rattle.p1_normal.specs.Points.{symbols};
ghost use Rattle.star_map.specs.Star.{star as star_of};
ghost use Rattle.session_core.specs.Answers.{TellsCertificate, TellsCoordinates};

use crate::terms::combination_of;
use field_table::OutOfMemory;
use quotient_coords::Space;
use reply_text::{Pairs, Reply};
use std::alloc::Global;

/// The coordinates of the combination of numbered terms.
pub fn reduce(alloc: Global, space: &Space, numbers: &[(u32, i64)]) -> Result<Reply, OutOfMemory>
    requires places { All (λ t. t.0 < length (symbols space.now.level)) numbers.now }
    ensures { IfOk result (TellsCoordinates space.now
        (sparse space.now.characteristic (residue_terms space.now.characteristic numbers.now))) }
{
    let combination = combination_of(alloc, space.level(), space.field(), numbers)?;
    let values = space.coords(alloc, &combination)?;
    Ok(Reply::Coords { values })
}

/// The coordinates of the combination of numbered terms, and the coefficients over kept relations by which these add
/// up to it less the combination of the free symbols by its coordinates.
pub fn certify(alloc: Global, space: &Space, numbers: &[(u32, i64)]) -> Result<Reply, OutOfMemory>
    requires places { All (λ t. t.0 < length (symbols space.now.level)) numbers.now }
    ensures { IfOk result (TellsCertificate space.now
        (residue_terms space.now.characteristic numbers.now)) }
{
    let combination = combination_of(alloc, space.level(), space.field(), numbers)?;
    let coords = space.coords(alloc, &combination)?;
    let kept = space.kept_coefficients(alloc, &combination)?;
    let trace = Pairs::of(kept.into_terms());
    Ok(Reply::Certified { coords, trace })
}

/// The coordinates of star of the combination of numbered terms.
pub fn star(alloc: Global, space: &Space, numbers: &[(u32, i64)]) -> Result<Reply, OutOfMemory>
    requires places { All (λ t. t.0 < length (symbols space.now.level)) numbers.now }
    ensures { IfOk result (TellsCoordinates space.now (star_of space.now.level
        (sparse space.now.characteristic (residue_terms space.now.characteristic numbers.now)))) }
{
    let field = space.field();
    let combination = combination_of(alloc, space.level(), field, numbers)?;
    let image = star_map::star(alloc, space.level(), field, &combination)?;
    let values = space.coords(alloc, &image)?;
    Ok(Reply::Coords { values })
}
