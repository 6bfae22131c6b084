ghost use Rattle.std.specs.Prelude.{◌≡◌, ◌<◌, ◌++◌, ◌∷◌, [], IfOk, length, map, take, slice_index_or};
ghost use Rattle.dense_mat.specs.Accumulation.{HasRoom};
ghost use Rattle.dense_mat.specs.Echelon.{AreRows};
ghost use Rattle.dense_mat.specs.Matrix.{IsMatrix};
ghost use Rattle.field_table.specs.Residues.{AreResidues};
ghost use Rattle.linear_algebra.specs.Dense.{dense, dense_rows};
ghost use Rattle.linear_algebra.specs.Vector.{◌⊞◌};
ghost use Rattle.stable_subspaces.specs.Operator.{apply, power};

use crate::accumulation::{add, residues_of};
use crate::copies::copies_of;
use crate::mat::Mat;
use field_table::{Field, OutOfMemory, Residues};
use std::alloc::Global;

// Adds the image of v to sums of residues.
fn add_image(field: Field, mat: &Mat, v: &[u32], sums: &mut [u64])
    requires matrix { IsMatrix field mat.now }
    requires lengths { length sums.old ≡ length mat.now }
    requires vector { length v.now ≡ length mat.now }
    requires vector_residues { AreResidues field v.now }
    requires room { HasRoom 0 sums.old }
    ensures sum { dense field sums.new
        ≡ dense field sums.old ⊞ apply (dense_rows field mat.now) (dense field v.now) }
{
    for j in 0..mat.size() {
        add(field, sums, j as usize, v[j as usize], mat.column(j));
    }
}

impl Mat {
    /// The image of v. Costs a pass over the size for each column.
    pub fn apply(&self, alloc: Global, field: Field, v: &[u32]) -> Result<Residues, OutOfMemory>
        requires matrix { IsMatrix field self.now }
        requires vector { length v.now ≡ length self.now }
        requires residues { AreResidues field v.now }
        ensures image { IfOk result (λ r. dense field r
            ≡ apply (dense_rows field self.now) (dense field v.now)) }
        ensures residues { IfOk result (λ r. AreResidues field r) }
        ensures length { IfOk result (λ r. length r ≡ length self.now) }
    {
        let mut sums = vec![in alloc; 0; v.len()]?;
        add_image(field, self, v, &mut sums);
        residues_of(alloc, field, &sums)
    }

    /// The images of rows. Costs as many passes for each.
    pub fn apply_to_rows(
        &self,
        alloc: Global,
        field: Field,
        rows: &[Residues],
    ) -> Result<Vec<Residues>, OutOfMemory>
        requires matrix { IsMatrix field self.now }
        requires rows { AreRows field (length self.now) rows.now }
        ensures images { IfOk result (λ r. dense_rows field r.items
            ≡ map (apply (dense_rows field self.now)) (dense_rows field rows.now)) }
        ensures rows { IfOk result (λ r. AreRows field (length self.now) r.items) }
        ensures length { IfOk result (λ r. length r.items ≡ length rows.now) }
    {
        let mut images = Vec::with_capacity(alloc, rows.len())?;
        for i in 0..rows.len() {
            images.push(self.apply(alloc, field, rows[i].as_slice())?)?;
        }
        Ok(images)
    }

    /// The images of rows under the matrix applied n times. No power of the matrix is formed. Costs
    /// n times the images.
    pub fn apply_power_to_rows(
        &self,
        alloc: Global,
        field: Field,
        n: u32,
        rows: &[Residues],
    ) -> Result<Vec<Residues>, OutOfMemory>
        requires matrix { IsMatrix field self.now }
        requires rows { AreRows field (length self.now) rows.now }
        ensures images { IfOk result (λ r. dense_rows field r.items
            ≡ map (power n (dense_rows field self.now)) (dense_rows field rows.now)) }
        ensures rows { IfOk result (λ r. AreRows field (length self.now) r.items) }
        ensures length { IfOk result (λ r. length r.items ≡ length rows.now) }
    {
        let mut images = copies_of(alloc, rows)?;
        for _k in 0..n {
            images = self.apply_to_rows(alloc, field, &images)?;
        }
        Ok(images)
    }

    /// The product: other is applied first. Costs a pass over the size for each entry.
    pub fn mul(&self, alloc: Global, field: Field, other: &Mat) -> Result<Mat, OutOfMemory>
        requires sizes { length self.now ≡ length other.now }
        requires left { IsMatrix field self.now }
        requires right { IsMatrix field other.now }
        ensures product { IfOk result (λ m. dense_rows field m
            ≡ map (apply (dense_rows field self.now)) (dense_rows field other.now)) }
        ensures matrix { IfOk result (IsMatrix field) }
        ensures size { IfOk result (λ m. length m ≡ length self.now) }
    {
        let mut columns = Vec::with_capacity(alloc, other.size() as usize)?;
        for j in 0..other.size() {
            columns.push(self.apply(alloc, field, other.column(j))?)?;
        }
        Mat::from_columns(alloc, field, &columns)
    }
}
