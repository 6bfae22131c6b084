ghost use Rattle.std.specs.Prelude.{◌≡◌, ◌<◌, IfOk, length};
ghost use Rattle.dense_mat.specs.Matrix.{IsMatrix, identity, scalar, scalar_column};

use crate::mat::Mat;
use field_table::{Field, OutOfMemory, Residues};
use std::alloc::Global;

// Column j of c times the identity matrix.
fn scalar_column_of(alloc: Global, size: usize, c: u32, j: usize) -> Result<Residues, OutOfMemory>
    requires { j < size }
    ensures { IfOk result (λ r. r ≡ scalar_column size c j) }
{
    let mut column = vec![in alloc; 0; size]?;
    column[j] = c;
    Ok(Residues::of(column))
}

// The columns of c times the identity matrix.
pub fn scalar_columns(alloc: Global, size: usize, c: u32) -> Result<Vec<Residues>, OutOfMemory>
    ensures { IfOk result (λ v. v.items ≡ scalar size c) }
{
    let mut columns = Vec::with_capacity(alloc, size)?;
    for j in 0..size {
        columns.push(scalar_column_of(alloc, size, c, j)?)?;
    }
    Ok(columns)
}

impl Mat {
    /// c times the identity matrix.
    pub fn scalar(alloc: Global, field: Field, c: u32, size: u32) -> Result<Mat, OutOfMemory>
        requires { c < field }
        ensures columns { IfOk result (λ m. m ≡ scalar size c) }
        ensures matrix { IfOk result (IsMatrix field) }
        ensures size { IfOk result (λ m. length m ≡ size) }
    {
        let columns = scalar_columns(alloc, size as usize, c)?;
        Mat::from_columns(alloc, field, &columns)
    }

    /// The identity matrix.
    pub fn identity(alloc: Global, field: Field, size: u32) -> Result<Mat, OutOfMemory>
        ensures columns { IfOk result (λ m. m ≡ identity size) }
        ensures matrix { IfOk result (IsMatrix field) }
        ensures size { IfOk result (λ m. length m ≡ size) }
    {
        Mat::scalar(alloc, field, 1, size)
    }
}
