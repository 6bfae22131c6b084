ghost use Rattle.std.specs.Prelude.{◌≡◌, ◌↔◌, ◌++◌, ℕ, List, IfOk, IsTrue, Contains, length, take};
ghost use Rattle.op_polynomials.specs.declared.name.OpName.{OpName};
ghost use Rattle.dense_mat.specs.Matrix.{IsMatrix};
ghost use Rattle.dense_mat.specs.Subspace.{Subspace, IsBasisOf};
ghost use Rattle.linear_algebra.specs.Dense.{dense_rows};
ghost use Rattle.linear_algebra.specs.Span.{Each, InSpan};
ghost use Rattle.split_state.specs.Decomposition.{Keeps};
ghost use Rattle.split_state.specs.Step.{SplitBy, nonzero_of};

use dense_mat::{Basis, Mat};
use field_table::{Field, OutOfMemory};
use fitting_split::fit;
use op_polynomials::OpName;
use std::alloc::Global;

/// Subspaces with the same bases.
pub fn copies_of_parts(alloc: Global, parts: &[Basis]) -> Result<Vec<Basis>, OutOfMemory>
    ensures { IfOk result (λ v. v.items ≡ parts.now) }
{
    let mut copies = Vec::with_capacity(alloc, parts.len())?;
    for part in parts {
        copies.push(part.copy(alloc)?)?;
    }
    Ok(copies)
}

/// Matrices with the same entries.
pub fn copies_of_matrices(alloc: Global, matrices: &[Mat]) -> Result<Vec<Mat>, OutOfMemory>
    ensures { IfOk result (λ v. v.items ≡ matrices.now) }
{
    let mut copies = Vec::with_capacity(alloc, matrices.len())?;
    for matrix in matrices {
        copies.push(matrix.copy(alloc)?)?;
    }
    Ok(copies)
}

/// Whether the operator is listed.
pub fn is_listed(names: &[OpName], op: OpName) -> bool
    ensures { IsTrue result ↔ Contains names.now op }
{
    names.contains(&op)
}

/// Puts a part with a vector other than 0 at the end; one with 0 alone is let go.
pub fn push_part(parts: &mut Vec<Basis>, part: Basis) -> Result<(), OutOfMemory>
    ensures { IfOk result (λ _. parts.new.items ≡ parts.old.items ++ nonzero_of part) }
{
    if 0 < part.dim() {
        parts.push(part)?;
    }
    Ok(())
}

/// Each part replaced by its generalised kernel and its eventual image under the matrix, in this
/// order; parts with 0 alone are left out.
pub fn split_parts(
    alloc: Global,
    field: Field,
    value: &Mat,
    parts: &[Basis],
) -> Result<Vec<Basis>, OutOfMemory>
    requires matrix { IsMatrix field value.now }
    requires bases { Each (λ (b : Subspace).
        IsBasisOf field (length value.now) (InSpan (dense_rows field b.rows)) b) parts.now }
    requires stable { Keeps field parts.now (dense_rows field value.now) }
    ensures { IfOk result (λ r.
        SplitBy field (length value.now) (dense_rows field value.now) parts.now r.items) }
{
    let mut news = Vec::new(alloc);
    for i in 0..parts.len() {
        let pair = fit(alloc, field, value, &parts[i])?;
        push_part(&mut news, pair.kernel)?;
        push_part(&mut news, pair.image)?;
    }
    Ok(news)
}
