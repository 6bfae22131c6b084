ghost use Rattle.std.specs.Prelude.{◌≡◌, IfOk, length};
ghost use Rattle.dense_mat.specs.Matrix.{IsMatrix};
ghost use Rattle.dense_mat.specs.Subspace.{Subspace, IsBasisOf};
ghost use Rattle.linear_algebra.specs.Dense.{dense_rows};
ghost use Rattle.stable_subspaces.specs.Operator.{InImage};

use crate::basis::{Basis, span_of};
use crate::mat::Mat;
use field_table::{Field, OutOfMemory};
use std::alloc::Global;

/// The image of the part. Costs a product of the matrix with each row of the part and the
/// elimination of the images.
pub fn image_on(alloc: Global, field: Field, mat: &Mat, part: &Basis) -> Result<Basis, OutOfMemory>
    requires field { part.now.characteristic ≡ field }
    requires matrix { IsMatrix field mat.now }
    requires size { part.now.width ≡ length mat.now }
    ensures { IfOk result (IsBasisOf field part.now.width
        (InImage 1 (dense_rows field mat.now) (dense_rows field part.now.rows))) }
{
    let images = mat.apply_to_rows(alloc, field, part.rows())?;
    span_of(alloc, field, &images, part.width())
}
