ghost use Rattle.std.specs.Prelude.{◌≡◌, ◌≤◌, ℕ, ℤ, IfOk, List, length, map};
ghost use Rattle.dense_mat.specs.Matrix.{IsMatrix};
ghost use Rattle.field_table.specs.Residues.{AreResidues};
ghost use Rattle.linear_algebra.specs.Integers.{residue_of};
ghost use Rattle.op_polynomials.specs.declared.poly.TheConstants.{MAX_COEFFICIENTS};
ghost use Rattle.quotient_coords.specs.Quotient.{Ground, dimension};
ghost use Rattle.script_text.specs.declared.command.Command.TheVariants as commands;
ghost use Rattle.session_core.specs.Answers.{IsAnswer, IsCommutator, TellsCommutator, part_sizes};
ghost use Rattle.session_core.specs.Demands.{ServesDemand, operator_demand};
ghost use Rattle.session_core.specs.Operators.{KeepsCongruence};
ghost use Rattle.session_core.specs.Replies.{Finishes, IsVersionAt};
ghost use Rattle.split_state.specs.Decomposition.{Decomposition};
ghost use Rattle.split_state.specs.Versions.{IsOperatorMatrix};

use crate::answers::operators::{failing_reply, operator_matrix};
use crate::outcome::Finish;
use dense_mat::Mat;
use field_table::{OutOfMemory, Residues};
use hecke_columns::ColumnSource;
use op_polynomials::{OpName, Poly};
use quotient_coords::Space;
use reply_text::{Operators, Refusal, Reply, Rows};
use split_state::{RefineFault, Splitting};
use std::alloc::Global;

// The dimensions of the parts.
fn part_sizes(alloc: Global, splitting: &Splitting) -> Result<Residues, OutOfMemory>
    ensures { IfOk result (λ sizes. sizes ≡ part_sizes splitting.now) }
{
    let parts = splitting.parts();
    let mut sizes = Vec::with_capacity(alloc, parts.len())?;
    for part in parts {
        sizes.push(part.dim())?;
    }
    Ok(Residues::of(sizes))
}

// The splitting by a polynomial in the operator with this matrix, or the first difference of its products.
fn refined(
    alloc: Global,
    space: &Space,
    splitting: &Splitting,
    op: OpName,
    mat: &Mat,
    poly: Poly,
) -> Result<Finish, OutOfMemory>
    requires size { length mat.now ≡ dimension space.now.level space.now.characteristic }
    requires matrix { IsMatrix space.now.characteristic mat.now }
    requires keeps { KeepsCongruence space.now op }
    requires operator { IsOperatorMatrix space.now op mat.now }
    requires coefficients { AreResidues space.now.characteristic poly }
    requires version { (v : ℕ) × IsVersionAt space.now v splitting.now }
    ensures { (v : ℕ) (coefficients : List ℤ) → map (residue_of space.now.characteristic) coefficients ≡ poly →
        IfOk result (Finishes space.now v splitting.now (commands.Split op coefficients)) }
{
    let _listed = space.field().characteristic();
    match splitting.refine(alloc, op, mat, &poly) {
        Ok(next) => {
            let dims = part_sizes(alloc, &next)?;
            Ok(Finish::Split {
                op,
                poly,
                next,
                dims,
            })
        }
        Err(fault) => Ok(Finish::Reply(commutator_reply(fault)?)),
    }
}

// The reply to a splitting that is not refined.
fn commutator_reply(fault: RefineFault) -> Result<Reply, OutOfMemory>
    ensures { (s : Decomposition) (columns : List (List ℕ)) → IsCommutator s columns fault →
        IfOk result (TellsCommutator s columns) }
{
    match fault {
        RefineFault::Commutator {
            other,
            row,
            column,
            left,
            right,
        } => Ok(Reply::Refused(Refusal::Commutator {
            other,
            row,
            column,
            left,
            right,
        })),
        RefineFault::OutOfMemory => Err(OutOfMemory),
    }
}

/// A split by a polynomial in the operator: the next splitting with the dimensions of its parts, or the first relation
/// that the operator does not send to 0, or the first place where its products with a listed operator differ. Costs the
/// operator's test, and what a refinement costs.
pub fn split<C: ColumnSource>(
    alloc: Global,
    space: &Space,
    splitting: &Splitting,
    op: OpName,
    coefficients: &[i64],
    columns: &mut C,
) -> Result<Finish, OutOfMemory>
    requires source { ServesDemand (C.setting columns.old) (C.matrices columns.old)
        (C.can_give columns.old) space.now (operator_demand op) }
    requires few { length coefficients.now ≤ MAX_COEFFICIENTS }
    requires version { (v : ℕ) × IsVersionAt space.now v splitting.now }
    ensures { (v : ℕ) → IfOk result (Finishes space.now v splitting.now (commands.Split op coefficients.now)) }
{
    let Ok(poly) = Poly::of(space.field(), coefficients) else {
        unreachable!()
    };
    match operator_matrix(alloc, space, op, columns) {
        Ok(mat) => refined(alloc, space, splitting, op, &mat, poly),
        Err(fault) => Ok(Finish::Reply(failing_reply(fault)?)),
    }
}

/// The splitting: the dimensions of its parts, and the listed operators.
pub fn show(alloc: Global, splitting: &Splitting, version: u32) -> Result<Reply, OutOfMemory>
    ensures { (g : Ground) → IfOk result (IsAnswer g version splitting.now commands.Show) }
{
    let dims = part_sizes(alloc, splitting)?;
    let ops = Vec::from_slice(alloc, splitting.ops())?;
    Ok(Reply::Splitting {
        number: version,
        dims,
        ops: Operators::of(ops),
    })
}

/// The reduced echelon basis of a part, numbered from 1.
pub fn part(alloc: Global, splitting: &Splitting, number: u32) -> Result<Reply, OutOfMemory>
    requires number { (1 ≤ number) × (number ≤ length splitting.now.parts) }
    ensures { (g : Ground) (v : ℕ) → IfOk result (IsAnswer g v splitting.now (commands.Part number)) }
{
    let part = &splitting.parts()[number as usize - 1];
    let rows = copies_of(alloc, part.rows())?;
    Ok(Reply::Rows {
        rows: Rows::of(rows),
    })
}

// Copies of rows.
fn copies_of(alloc: Global, rows: &[Residues]) -> Result<Vec<Residues>, OutOfMemory>
    ensures { IfOk result (λ copies. copies.items ≡ rows.now) }
{
    let mut copies = Vec::with_capacity(alloc, rows.len())?;
    for row in rows {
        copies.push(row.copy(alloc)?)?;
    }
    Ok(copies)
}
