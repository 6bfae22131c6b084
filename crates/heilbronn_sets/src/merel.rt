ghost use Rattle.std.specs.Prelude.{◌≡◌, ◌<◌, ◌≤◌, ◌+◌, ◌*◌, ◌++◌, ◌⊎◌, ◌↔◌, IfErr, IfOk, IsErrOf};
ghost use Rattle.heilbronn_sets.specs.Merel.{merel_matrices, with_corner, with_row};
ghost use Rattle.heilbronn_sets.specs.declared.matrix_set.SetFault.TheVariants.{OutOfMemory as Memory, Limit};

use crate::matrix_set::{MatrixSet, SetFault};
use p1_normal::{MAX_DET, Matrix};
use std::alloc::{AllocError, Global};

// The next quotient and remainder by a, where what is divided grows by b.
fn divided_on(a: u32, b: u32, quotient: u32, rest: u32) -> (u32, u32)
    requires below { (b < a) × (rest < a) }
    requires few { (a ≤ MAX_DET) × (quotient ≤ MAX_DET) }
    ensures value { a * result.0 + result.1 ≡ a * quotient + rest + b }
    ensures rest { result.1 < a }
    ensures quotient { result.0 ≤ quotient + 1 }
{
    let sum = rest + b;
    if sum < a {
        (quotient, sum)
    } else {
        (quotient + 1, sum - a)
    }
}

// Puts the matrices of determinant n with the first row (a, b) behind the list.
fn push_row(list: &mut Vec<Matrix>, n: u32, a: u32, b: u32) -> Result<(), AllocError>
    requires limit { n ≤ MAX_DET }
    requires row { (b < a) × (a ≤ n) }
    ensures items { IfOk result (λ _. list.new.items ≡ list.old.items ++ with_row n a b) }
{
    let mut c = 0;
    let mut quotient = n / a;
    let mut rest = n % a;
    // Past the first c at or above the quotient no matrix follows, since b is below a.
    while c < quotient {
        let next = divided_on(a, b, quotient, rest);
        if rest == 0 {
            list.push(Matrix::new(a as i32, b as i32, c as i32, quotient as i32))?;
        }
        c += 1;
        quotient = next.0;
        rest = next.1;
    }
    Ok(())
}

// Puts the matrices of determinant n with the first entry a behind the list.
fn push_corner(list: &mut Vec<Matrix>, n: u32, a: u32) -> Result<(), AllocError>
    requires limit { n ≤ MAX_DET }
    requires corner { a ≤ n }
    ensures items { IfOk result (λ _. list.new.items ≡ list.old.items ++ with_corner n a) }
{
    for b in 0..a {
        push_row(list, n, a, b)?;
    }
    Ok(())
}

// The matrices of Merel's set of determinant n.
fn all_rows(alloc: Global, n: u32) -> Result<Vec<Matrix>, AllocError>
    requires limit { n ≤ MAX_DET }
    ensures items { IfOk result (λ list. list.items ≡ merel_matrices n) }
{
    let mut list = Vec::new(alloc);
    for a in 1..n + 1 {
        push_corner(&mut list, n, a)?;
    }
    Ok(list)
}

/// Merel's set of determinant n: all integer matrices [[a, b], [c, d]] with a > b >= 0, d > c >= 0 and
/// ad - bc = n, in lexicographic order (Merel, Universal Fourier expansions of modular forms, 1994). The
/// limit is judged before any memory is taken. Costs about n^2 log n steps, each without a division.
pub fn merel_set(alloc: Global, n: u32) -> Result<MatrixSet, SetFault>
    ensures set { IfOk result (λ s. s ≡ record { det = n; list = merel_matrices n }) }
    ensures limit { IsErrOf result (SetFault.Limit n) ↔ ((n ≡ 0) ⊎ (MAX_DET < n)) }
    ensures refused { IfErr result (λ e. (e ≡ Memory) ⊎ (e ≡ Limit n)) }
{
    if n == 0 || n > MAX_DET {
        return Err(SetFault::Limit { n });
    }
    let list = all_rows(alloc, n)?;
    Ok(MatrixSet::whole(n, list))
}
