ghost use Rattle.std.specs.Prelude.{◌≡◌, ◌*◌, IfSome, IsNone, ℕ, List, length};
ghost use Rattle.dense_mat.specs.Echelon.{AreRows};
ghost use Rattle.linear_algebra.specs.Coordinates.{IsKeptList};
ghost use Rattle.linear_algebra.specs.Prime.{IsPrime};
ghost use Rattle.p1_normal.specs.declared.matrix.Matrix.{Matrix};
ghost use Rattle.p1_normal.specs.Points.{symbols};
ghost use Rattle.manin_relations.specs.Relations.{relations};
ghost use Rattle.quotient_coords.specs.Quotient.{dimension};
ghost use Rattle.hecke_ops.specs.Operators.{AreColumns, IsFirstFailing, KeepsRelations};

use crate::sum::{is_zero, put_relation_sum};
use field_table::{Field, Residues};
use p1_normal::Level;

/// The least relation whose sum has coordinates other than 0, which are left in `sum`. Only the kept
/// relations are tested: the sum of another is a combination of those of the relations before it.
pub fn first_failing(
    level: &Level,
    field: Field,
    columns: &[Residues],
    kept: &[u32],
    sum: &mut [u32],
) -> Option<u32>
    requires prime { IsPrime field }
    requires kept { IsKeptList (relations {p = field} level.now)
        (2 * length (symbols level.now)) kept.now }
    requires count { length columns.now ≡ length (symbols level.now) }
    requires width { length sum.old ≡ dimension level.now field }
    requires rows { AreRows field (length sum.old) columns.now }
    ensures found { IfSome result (λ k. (L : List Matrix) → AreColumns level.now field L columns.now →
        IsFirstFailing level.now field L k sum.new) }
    ensures none { IsNone result → (L : List Matrix) → AreColumns level.now field L columns.now →
        KeepsRelations level.now field L }
{
    for k in kept {
        put_relation_sum(level, field, columns, *k, sum);
        if !is_zero(sum) {
            return Some(*k);
        }
    }
    None
}
