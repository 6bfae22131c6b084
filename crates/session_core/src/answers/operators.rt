ghost use Rattle.std.specs.Prelude.{◌≡◌, ◌≤◌, IfErr, IfOk, List, length, map};
ghost use Rattle.dense_mat.specs.Matrix.{IsMatrix};
ghost use Rattle.field_table.specs.Residues.{AreResidues};
ghost use Rattle.linear_algebra.specs.Integers.{residue_of};
ghost use Rattle.op_polynomials.specs.declared.poly.TheConstants.{MAX_COEFFICIENTS};
ghost use Rattle.op_polynomials.specs.declared.name.OpName.{OpName};
ghost use Rattle.quotient_coords.specs.Quotient.{Ground, dimension};
ghost use Rattle.session_core.specs.Demands.{ServesDemand, operator_demand};
ghost use Rattle.session_core.specs.Operators.{
  AnswersBy,
  Fails,
  IsFailing,
  KeepsCongruence,
  TellsImage,
  TellsTrace,
  TellsValue,
};
ghost use Rattle.split_state.specs.Versions.{IsOperatorMatrix};

use dense_mat::Mat;
use field_table::{Field, OutOfMemory, Residues};
use hecke_columns::ColumnSource;
use hecke_ops::{VetFault, vet};
use op_polynomials::{OpName, Poly};
use quotient_coords::Space;
use reply_text::{Refusal, Reply};
use star_map::star_matrix;
use std::alloc::Global;

/// The matrix of an operator, or the first relation that it does not send to 0, from a source of all columns of its n.
pub fn operator_matrix<C: ColumnSource>(
    alloc: Global,
    space: &Space,
    op: OpName,
    columns: &mut C,
) -> Result<Mat, VetFault>
    requires source { ServesDemand (C.setting columns.old) (C.matrices columns.old)
        (C.can_give columns.old) space.now (operator_demand op) }
    ensures keeps { IfOk result (λ _. KeepsCongruence space.now op) }
    ensures matrix { IfOk result (IsOperatorMatrix space.now op) }
    ensures residues { IfOk result (IsMatrix space.now.characteristic) }
    ensures size { IfOk result (λ m. length m ≡ dimension space.now.level space.now.characteristic) }
    ensures fails { IfErr result (IsFailing space.now op) }
{
    match op {
        OpName::T { .. } => Ok(vet(alloc, space, columns)?.into_mat()),
        OpName::Star => Ok(star_matrix(alloc, space)?),
    }
}

/// The reply to an operator that fails.
pub fn failing_reply(fault: VetFault) -> Result<Reply, OutOfMemory>
    ensures { (g : Ground) (op : OpName) → IsFailing g op fault → IfOk result (Fails g op) }
{
    match fault {
        VetFault::Relation { number, coords } => {
            Ok(Reply::Refused(Refusal::Relation { number, coords }))
        }
        VetFault::OutOfMemory => Err(OutOfMemory),
    }
}

// The residues of numbers.
fn residues_of(alloc: Global, field: Field, numbers: &[i64]) -> Result<Vec<u32>, OutOfMemory>
    ensures numbers { IfOk result (λ v. v.items ≡ map (residue_of field) numbers.now) }
    ensures residues { IfOk result (λ v. AreResidues field v.items) }
{
    let mut residues = Vec::with_capacity(alloc, numbers.len())?;
    for number in numbers {
        residues.push(field.residue(*number))?;
    }
    Ok(residues)
}

/// The dimension and the trace of an operator, or the first relation that it does not send to 0. Costs its test.
pub fn operator<C: ColumnSource>(
    alloc: Global,
    space: &Space,
    op: OpName,
    columns: &mut C,
) -> Result<Reply, OutOfMemory>
    requires source { ServesDemand (C.setting columns.old) (C.matrices columns.old)
        (C.can_give columns.old) space.now (operator_demand op) }
    ensures { IfOk result (AnswersBy space.now op (TellsTrace space.now)) }
{
    match operator_matrix(alloc, space, op, columns) {
        Ok(mat) => Ok(Reply::Operator {
            dim: mat.size(),
            trace: mat.trace(space.field()),
        }),
        Err(fault) => failing_reply(fault),
    }
}

/// The operator's image of the given coordinates, or the first relation that it does not send to 0. Costs its test and
/// d passes over d numbers.
pub fn apply<C: ColumnSource>(
    alloc: Global,
    space: &Space,
    op: OpName,
    coords: &[i64],
    columns: &mut C,
) -> Result<Reply, OutOfMemory>
    requires source { ServesDemand (C.setting columns.old) (C.matrices columns.old)
        (C.can_give columns.old) space.now (operator_demand op) }
    requires length { length coords.now ≡ dimension space.now.level space.now.characteristic }
    ensures { IfOk result (AnswersBy space.now op (TellsImage space.now coords.now)) }
{
    let given = residues_of(alloc, space.field(), coords)?;
    match operator_matrix(alloc, space, op, columns) {
        Ok(mat) => Ok(Reply::Coords {
            values: mat.apply(alloc, space.field(), &given)?,
        }),
        Err(fault) => failing_reply(fault),
    }
}

/// The value of a polynomial in the operator at the given coordinates, or the first relation that the operator does not
/// send to 0. Costs its test, and d passes over d numbers for each coefficient but the first.
pub fn poly<C: ColumnSource>(
    alloc: Global,
    space: &Space,
    op: OpName,
    coefficients: &[i64],
    coords: &[i64],
    columns: &mut C,
) -> Result<Reply, OutOfMemory>
    requires source { ServesDemand (C.setting columns.old) (C.matrices columns.old)
        (C.can_give columns.old) space.now (operator_demand op) }
    requires few { length coefficients.now ≤ MAX_COEFFICIENTS }
    requires length { length coords.now ≡ dimension space.now.level space.now.characteristic }
    ensures { IfOk result (AnswersBy space.now op (TellsValue space.now coefficients.now coords.now)) }
{
    let given = residues_of(alloc, space.field(), coords)?;
    let Ok(polynomial) = Poly::of(space.field(), coefficients) else {
        unreachable!()
    };
    match operator_matrix(alloc, space, op, columns) {
        Ok(mat) => Ok(Reply::Coords {
            values: polynomial.at_vector(alloc, space.field(), &mat, &given)?,
        }),
        Err(fault) => failing_reply(fault),
    }
}
