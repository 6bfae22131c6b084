ghost use Rattle.std.specs.Prelude.{◌≡◌, ◌<◌, ◌*◌, ◌↔◌, IsTrue, ℕ, List, length, replicate};
ghost use Rattle.dense_mat.specs.Echelon.{AreRows};
ghost use Rattle.linear_algebra.specs.Dense.{dense};
ghost use Rattle.linear_algebra.specs.Vector.{◌⊞◌};
ghost use Rattle.field_table.specs.Residues.{AreResidues};
ghost use Rattle.p1_normal.specs.declared.matrix.Matrix.{Matrix};
ghost use Rattle.p1_normal.specs.Points.{symbols};
ghost use Rattle.quotient_coords.specs.Quotient.{AreCoordinates};
ghost use Rattle.hecke_ops.specs.Operators.{AreColumns, relation_sum};

use field_table::{Field, Residues};
use p1_normal::Level;

// Puts the sum of two lists of residues, place by place.
fn put_sum(field: Field, x: &[u32], y: &[u32], sum: &mut [u32])
    requires positive { 0 < field }
    requires first { length x.now ≡ length sum.old }
    requires second { length y.now ≡ length sum.old }
    requires first_residues { AreResidues field x.now }
    requires second_residues { AreResidues field y.now }
    ensures sum { dense field sum.new ≡ dense field x.now ⊞ dense field y.now }
    ensures residues { AreResidues field sum.new }
{
    for i in 0..sum.len() {
        sum[i] = field.add(x[i], y[i]);
    }
}

// Adds a list of residues, place by place.
fn add(field: Field, x: &[u32], sum: &mut [u32])
    requires positive { 0 < field }
    requires count { length x.now ≡ length sum.old }
    requires residues { AreResidues field x.now }
    requires sum_residues { AreResidues field sum.old }
    ensures sum { dense field sum.new ≡ dense field sum.old ⊞ dense field x.now }
    ensures residues { AreResidues field sum.new }
{
    for i in 0..sum.len() {
        sum[i] = field.add(sum[i], x[i]);
    }
}

/// Puts the coordinates of the sum of relation k, which are those of the columns of its two or three symbols.
/// Costs one or two passes over the coordinates.
pub fn put_relation_sum(level: &Level, field: Field, columns: &[Residues], k: u32, sum: &mut [u32])
    requires positive { 0 < field }
    requires place { k < 2 * length (symbols level.now) }
    requires count { length columns.now ≡ length (symbols level.now) }
    requires rows { AreRows field (length sum.old) columns.now }
    ensures { (L : List Matrix) → AreColumns level.now field L columns.now →
        AreCoordinates {p = field} level.now (relation_sum level.now L k) sum.new }
{
    let m = level.count();
    if k < m {
        let s = level.s_of(k);
        put_sum(
            field,
            columns[k as usize].as_slice(),
            columns[s as usize].as_slice(),
            sum,
        );
    } else {
        let t = level.t_of(k - m);
        let last = level.t_of(t);
        put_sum(
            field,
            columns[(k - m) as usize].as_slice(),
            columns[t as usize].as_slice(),
            sum,
        );
        add(field, columns[last as usize].as_slice(), sum);
    }
}

/// Whether all numbers are 0.
pub fn is_zero(values: &[u32]) -> bool
    ensures { IsTrue result ↔ (values.now ≡ replicate (length values.now) 0) }
{
    values.iter().all(|value| *value == 0)
}
