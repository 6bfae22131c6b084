ghost use Rattle.std.specs.Prelude.{◌≡◌, ◌<◌, ◌⊎◌, ℕ, List, IfErr, IfOk, IsErrOf, length, true};
ghost use Rattle.dense_mat.specs.Echelon.{AreRows};
ghost use Rattle.p1_normal.specs.declared.matrix.Matrix.{Matrix};
ghost use Rattle.p1_normal.specs.Points.{symbols};
ghost use Rattle.quotient_coords.specs.Quotient.{dimension};
ghost use Rattle.hecke_ops.specs.declared.fault.VetFault.{VetFault};
ghost use Rattle.hecke_ops.specs.Operators.{AreColumns, IsFirstFailing, IsHeckeMatrix, IsOperator};
ghost use Rattle.hecke_ops.specs.Vetting.{IsFault};

use crate::columns::all_columns;
use crate::failing::first_failing;
use crate::fault::VetFault;
use crate::operator::Operator;
use dense_mat::Mat;
use field_table::{OutOfMemory, Residues};
use hecke_columns::ColumnSource;
use quotient_coords::Space;
use std::alloc::Global;

// The matrix of the columns of the free symbols.
fn matrix_of(alloc: Global, space: &Space, columns: &[Residues]) -> Result<Mat, OutOfMemory>
    requires few { length columns.now < u32.MAX }
    requires count { length columns.now ≡ length (symbols space.now.level) }
    requires rows { AreRows space.now.characteristic
        (dimension space.now.level space.now.characteristic) columns.now }
    ensures { IfOk result (λ m. (L : List Matrix) →
        AreColumns space.now.level space.now.characteristic L columns.now →
        IsHeckeMatrix space.now.level space.now.characteristic L m) }
{
    let mut free = Vec::with_capacity(alloc, space.dim() as usize)?;
    for j in 0..space.dim() {
        free.push(columns[space.free(j) as usize].copy(alloc)?)?;
    }
    Mat::from_columns(alloc, space.field(), &free)
}

/// Tests the source's matrices on the relations, and gives their operator. Refuses the least relation whose
/// sum isn't congruent to 0, with the d coordinates of that sum. Asks the source once for each of the m
/// symbols and keeps these columns, m * d numbers; then each kept relation costs a pass or two over d numbers
/// and takes no memory. Nothing is asked of the determinant: a list over which the relations are kept has an
/// operator.
pub fn vet<C: ColumnSource>(
    alloc: Global,
    space: &Space,
    columns: &mut C,
) -> Result<Operator, VetFault>
    requires setting { C.setting columns.old ≡ space.now }
    requires given { (k : ℕ) → k < length (symbols space.now.level) → C.can_give columns.old k ≡ true }
    ensures level { IfOk result (λ a.
        (a.level ≡ space.now.level) × (a.characteristic ≡ space.now.characteristic)) }
    ensures operator { IfOk result (λ a.
        IsOperator space.now.level space.now.characteristic (C.matrices columns.old).list a.columns) }
    ensures refused { IfErr result
        (IsFault space.now.level space.now.characteristic (C.matrices columns.old).list) }
    ensures failing { (k : ℕ) (coords : List ℕ) →
        IsFirstFailing space.now.level space.now.characteristic (C.matrices columns.old).list k coords →
        IsErrOf result (VetFault.Relation k coords) ⊎ IsErrOf result VetFault.OutOfMemory }
    ensures setting { C.setting columns.new ≡ C.setting columns.old }
    ensures matrices { C.matrices columns.new ≡ C.matrices columns.old }
    ensures can_give { C.can_give columns.new ≡ C.can_give columns.old }
{
    let _prime = space.field().characteristic();
    let all = all_columns(alloc, columns, space.level().count(), space.dim())?;
    let mut sum = vec![in alloc; 0; space.dim() as usize]?;
    match first_failing(space.level(), space.field(), &all, space.kept(), &mut sum) {
        Some(number) => Err(VetFault::Relation {
            number,
            coords: Residues::of(sum),
        }),
        None => Ok(Operator::of(
            space.level().modulus(),
            space.field(),
            matrix_of(alloc, space, &all)?,
        )),
    }
}
