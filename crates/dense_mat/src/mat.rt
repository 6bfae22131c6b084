ghost use Rattle.std.specs.Prelude.{◌≡◌, ◌<◌, ◌≤◌, ◌+◌, ◌*◌, ◌++◌, ◌^◌, [], ℕ, IfOk, OnOk, length, map, take, drop, slice_index_or};
ghost use Rattle.dense_mat.specs.Echelon.{AreRows};
ghost use Rattle.dense_mat.specs.Matrix.{IsBlock, IsMatrix, columns_of, entry};
ghost use Rattle.field_table.specs.Residues.{AreResidues};
ghost use Rattle.linear_algebra.specs.Dense.{dense, dense_rows};
ghost use Rattle.linear_algebra.specs.Residue.{residue};
ghost use Rattle.linear_algebra.specs.Vector.{◌⊞◌, ◌⊡◌};
ghost use Rattle.stable_subspaces.specs.Operator.{apply};

use field_table::{Field, OutOfMemory, Residues, axpy};
use std::alloc::Global;
use std::marker::Model;

/// A square matrix: column j is the image of the j-th unit vector. It keeps no characteristic: that
/// its entries are residues is a condition of the calls that compute with it. Contracts see the
/// list of its columns, which stand one after another in one block.
#[derive(Debug, Drop)]
pub struct Mat {
    size: u32,
    pub(crate) entries: Vec<u32>,
}

impl Model for Mat {
    ghost use Rattle.std.specs.Prelude.{◌≡◌, ◌*◌, ℕ, List, length};
    ghost use Rattle.dense_mat.specs.Matrix.{columns_of};

    ghost Value = { List (List ℕ) };

    ghost view = { λ m. columns_of m.size m.entries.items };

    ghost invariant = { λ m. length m.entries.items ≡ m.size * m.size };
}

// Column j of a block of columns of this size.
fn column_of(entries: &[u32], size: usize, j: usize) -> &[u32]
    requires within { j < size }
    requires block { length entries.now ≡ size * size }
    ensures { result.now ≡ take size (drop (j * size) entries.now) }
{
    let start = j * size;
    &entries[start..start + size]
}

// The columns one after another.
fn block_of(alloc: Global, columns: &[Residues]) -> Result<Vec<u32>, OutOfMemory>
    requires square { (j : ℕ) → j < length columns.now →
        length (slice_index_or columns.now j []) ≡ length columns.now }
    ensures { IfOk result (λ v.
        IsBlock (length columns.now) columns.now (length columns.now) v.items) }
{
    let mut entries = Vec::new(alloc);
    for j in 0..columns.len() {
        entries.extend_from_slice(columns[j].as_slice())?;
    }
    Ok(entries)
}

// The matrix of a block, which is moved and not copied.
fn matrix_of(size: u32, entries: Vec<u32>) -> Mat
    requires { length entries.items ≡ size * size }
    ensures { result ≡ columns_of size entries.items }
{
    Mat { size, entries }
}

impl Mat {
    /// The matrix of these columns, as many as each has numbers. Costs their copy.
    pub fn from_columns(
        alloc: Global,
        field: Field,
        columns: &[Residues],
    ) -> Result<Mat, OutOfMemory>
        requires count { length columns.now < 2 ^ 32 }
        requires columns { IsMatrix field columns.now }
        ensures { IfOk result (λ m. m ≡ columns.now) }
    {
        Ok(matrix_of(columns.len() as u32, block_of(alloc, columns)?))
    }

    /// A matrix with the same entries. Costs their copy.
    pub fn copy(&self, alloc: Global) -> Result<Mat, OutOfMemory>
        ensures { IfOk result (λ m. m ≡ self.now) }
    {
        let entries = Vec::from_slice(alloc, &self.entries)?;
        Ok(matrix_of(self.size, entries))
    }

    /// The number of columns, and of rows.
    pub fn size(&self) -> u32
        ensures { result ≡ length self.now }
    {
        self.size
    }

    /// A column. Takes no memory.
    pub fn column(&self, column: u32) -> &[u32]
        requires { column < length self.now }
        ensures numbers { result.now ≡ slice_index_or self.now column [] }
        ensures length { length result.now ≡ length self.now }
    {
        column_of(&self.entries, self.size as usize, column as usize)
    }

    /// An entry. Takes no memory.
    pub fn entry(&self, row: u32, column: u32) -> u32
        requires row { row < length self.now }
        requires column { column < length self.now }
        ensures { result ≡ entry self.now row column }
    {
        self.column(column)[row as usize]
    }
}
