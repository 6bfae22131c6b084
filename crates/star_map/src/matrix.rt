ghost use Rattle.std.specs.Prelude.{◌≡◌, ◌<◌, IfOk, length};
ghost use Rattle.dense_mat.specs.Matrix.{IsMatrix};
ghost use Rattle.linear_algebra.specs.Coordinates.{unit};
ghost use Rattle.p1_normal.specs.Actions.{image_number, matrix_star};
ghost use Rattle.p1_normal.specs.Points.{symbols};
ghost use Rattle.quotient_coords.specs.Quotient.{AreCoordinates, dimension};
ghost use Rattle.star_map.specs.Star.{IsStarMatrix};

use dense_mat::Mat;
use field_table::{Combo, OutOfMemory, Residues};
use quotient_coords::Space;
use std::alloc::Global;

// The coordinates of the symbol (-u:v), for symbol k = (u:v).
fn star_column(alloc: Global, space: &Space, k: u32) -> Result<Residues, OutOfMemory>
    requires place { k < length (symbols space.now.level) }
    ensures { IfOk result (AreCoordinates space.now.level
        (unit {p = space.now.characteristic} (image_number space.now.level k matrix_star))) }
{
    let _prime = space.field().characteristic();
    let symbol = space.level().star_of(k);
    let combo = Combo::of(vec![in alloc; (symbol, 1); 1]?);
    space.coords(alloc, &combo)
}

/// The matrix of star on the quotient, d columns of d residues: column j is the coordinates of (-u:v), for
/// free symbol j = (u:v). Costs an action and the coordinates of one symbol for each free symbol, and a
/// copy of d * d numbers. Times the coordinates of a combination it gives those of its star, which
/// `star_matrix_gives_stars` states.
pub fn star_matrix(alloc: Global, space: &Space) -> Result<Mat, OutOfMemory>
    ensures star { IfOk result (IsStarMatrix space.now.level space.now.characteristic) }
    ensures square { IfOk result (IsMatrix space.now.characteristic) }
    ensures size { IfOk result (λ m. length m ≡ dimension space.now.level space.now.characteristic) }
{
    let _few = space.level().count();
    let mut columns = Vec::with_capacity(alloc, space.dim() as usize)?;
    for j in 0..space.dim() {
        columns.push(star_column(alloc, space, space.free(j))?)?;
    }
    Mat::from_columns(alloc, space.field(), &columns)
}
