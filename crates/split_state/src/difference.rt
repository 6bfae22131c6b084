ghost use Rattle.std.specs.Prelude.{◌≡◌, ◌<◌, ℕ, List, [], IfOk, IsErrOf, MatchOption, length, slice_index, slice_index_or};
ghost use Rattle.op_polynomials.specs.declared.name.OpName.{OpName};
ghost use Rattle.dense_mat.specs.Matrix.{IsMatrix};
ghost use Rattle.linear_algebra.specs.Dense.{dense_rows};
ghost use Rattle.linear_algebra.specs.Span.{Each};
ghost use Rattle.split_state.specs.Decomposition.{Centralises, IsSized};
ghost use Rattle.split_state.specs.Difference.{Agree, AgreeAll, IsColumnDifference, IsDifference, IsDifferenceAmong, IsFirstUnequal};

use crate::fault::RefineFault;
use crate::refining::is_listed;
use dense_mat::Mat;
use field_table::{Field, OutOfMemory};
use op_polynomials::OpName;
use std::alloc::Global;

// A row in which two columns differ, and their entries there.
#[derive(Clone, Copy)]
struct Unequal {
    row: u32,
    left: u32,
    right: u32,
}

// The first such row.
fn first_unequal(size: u32, left: &[u32], right: &[u32]) -> Option<Unequal>
    requires left { length left.now ≡ size }
    requires right { length right.now ≡ size }
    ensures { MatchOption result
        ((k : ℕ) → k < size → slice_index left.now k ≡ slice_index right.now k)
        (λ u. IsFirstUnequal left.now right.now u.row u.left u.right) }
{
    for row in 0..size {
        let x = left[row as usize];
        let y = right[row as usize];
        if x != y {
            return Some(Unequal {
                row,
                left: x,
                right: y,
            });
        }
    }
    None
}

// The first row in which the products of two matrices in both orders differ in this column.
fn column_difference(
    alloc: Global,
    field: Field,
    a: &Mat,
    o: &Mat,
    column: u32,
) -> Result<Option<Unequal>, OutOfMemory>
    requires matrix { IsMatrix field a.now }
    requires other { IsSized field (length a.now) o.now }
    requires column { column < length a.now }
    ensures { IfOk result (λ found. MatchOption found
        ((k : ℕ) → k < length a.now → Agree field a.now o.now k column)
        (λ u. IsColumnDifference field a.now o.now u.row column u.left u.right)) }
{
    let left = a.apply(alloc, field, o.column(column))?;
    let right = o.apply(alloc, field, a.column(column))?;
    Ok(first_unequal(a.size(), left.as_slice(), right.as_slice()))
}

// The first place at which the products of two matrices in both orders differ, and their entries
// there.
#[derive(Clone, Copy)]
struct Difference {
    row: u32,
    column: u32,
    left: u32,
    right: u32,
}

fn matrix_difference(
    alloc: Global,
    field: Field,
    a: &Mat,
    o: &Mat,
) -> Result<Option<Difference>, OutOfMemory>
    requires matrix { IsMatrix field a.now }
    requires other { IsSized field (length a.now) o.now }
    ensures { IfOk result (λ found. MatchOption found (AgreeAll field a.now o.now)
        (λ d. IsDifference field a.now o.now d.row d.column d.left d.right)) }
{
    let size = a.size();
    for column in 0..size {
        match column_difference(alloc, field, a, o, column)? {
            Some(found) => {
                return Ok(Some(Difference {
                    row: found.row,
                    column,
                    left: found.left,
                    right: found.right,
                }));
            }
            None => {}
        }
    }
    Ok(None)
}

// Tests whether the matrix commutes with each of these, in their order and column by column, and
// refuses the first difference.
fn commuting_with_each(
    alloc: Global,
    field: Field,
    names: &[OpName],
    matrices: &[Mat],
    mat: &Mat,
) -> Result<(), RefineFault>
    requires matrix { IsMatrix field mat.now }
    requires listed { Each (IsSized field (length mat.now)) matrices.now }
    requires many { length matrices.now ≡ length names.now }
    ensures agree { IfOk result (λ _. (k : ℕ) → k < length matrices.now →
        AgreeAll field mat.now (slice_index_or matrices.now k [])) }
    ensures commutator { (other : OpName) (row column left right : ℕ) →
        IsErrOf result (RefineFault.Commutator other row column left right) →
        IsDifferenceAmong field mat.now names.now matrices.now other row column left right }
{
    for k in 0..matrices.len() {
        match matrix_difference(alloc, field, mat, &matrices[k])? {
            Some(found) => {
                return Err(RefineFault::Commutator {
                    other: names[k],
                    row: found.row,
                    column: found.column,
                    left: found.left,
                    right: found.right,
                });
            }
            None => {}
        }
    }
    Ok(())
}

/// Tests whether the matrix of an operator commutes with each listed one, in their order and column
/// by column, and refuses the first difference. Costs two products of a matrix and a vector for
/// each column of each listed matrix up to it; and nothing where the operator is listed, since
/// listed matrices commute.
pub fn commuting(
    alloc: Global,
    field: Field,
    names: &[OpName],
    matrices: &[Mat],
    op: OpName,
    mat: &Mat,
) -> Result<(), RefineFault>
    requires matrix { IsMatrix field mat.now }
    requires listed { Each (IsSized field (length mat.now)) matrices.now }
    requires many { length matrices.now ≡ length names.now }
    requires matches { (k : ℕ) → k < length names.now → slice_index_or names.now k op ≡ op →
        slice_index_or matrices.now k [] ≡ mat.now }
    requires commute { Each (λ m. Centralises field matrices.now (dense_rows field m))
        matrices.now }
    ensures agree { IfOk result (λ _. (k : ℕ) → k < length matrices.now →
        AgreeAll field mat.now (slice_index_or matrices.now k [])) }
    ensures commutator { (other : OpName) (row column left right : ℕ) →
        IsErrOf result (RefineFault.Commutator other row column left right) →
        IsDifferenceAmong field mat.now names.now matrices.now other row column left right }
{
    if is_listed(names, op) {
        return Ok(());
    }
    commuting_with_each(alloc, field, names, matrices, mat)
}
