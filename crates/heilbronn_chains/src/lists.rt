ghost use Rattle.std.specs.Prelude.{◌≡◌, ◌<◌, ◌≤◌, ◌+◌, ◌++◌, ◌⊎◌, ◌↔◌, IfErr, IfOk, IsErrOf, [], pos};
ghost use Rattle.heilbronn_sets.specs.Merel.{merel_matrices, starts, with_row};
ghost use Rattle.heilbronn_sets.specs.declared.matrix_set.SetFault.TheVariants.{OutOfMemory as Memory, Limit};
ghost use Rattle.heilbronn_chains.specs.Chains.{AreChains, JoinsChains};
ghost use Rattle.heilbronn_chains.specs.Order.{rank};
ghost use Rattle.heilbronn_chains.specs.Starts.{lower_matrices};

use crate::chain::{Chain, push_chain};
use heilbronn_sets::{MatrixSet, SetFault};
use p1_normal::{MAX_DET, Matrix};
use std::alloc::{AllocError, Global};

// Puts the matrices [[a, 0], [c, d]] with c below d behind the list.
fn push_lower(list: &mut Vec<Matrix>, a: u32, d: u32) -> Result<(), AllocError>
    requires few { (a ≤ MAX_DET) × (d ≤ MAX_DET) }
    ensures items { IfOk result (λ _. list.new.items ≡ list.old.items ++ lower_matrices a d) }
{
    for c in 0..d {
        list.push(Matrix::new(a as i32, 0, c as i32, d as i32))?;
    }
    Ok(())
}

// Puts the matrices of determinant n that begin chains, with the first entry a, behind the list.
fn push_corner(list: &mut Vec<Matrix>, n: u32, a: u32) -> Result<(), AllocError>
    requires limit { n ≤ MAX_DET }
    requires corner { (0 < a) × (a ≤ n) }
    ensures items { IfOk result (λ _. list.new.items ≡ list.old.items ++ with_row n a 0) }
{
    if n % a != 0 {
        return Ok(());
    }
    push_lower(list, a, n / a)
}

// The matrices of determinant n that begin chains.
fn all_starts(alloc: Global, n: u32) -> Result<Vec<Matrix>, AllocError>
    requires limit { n ≤ MAX_DET }
    ensures items { IfOk result (λ list. list.items ≡ starts n) }
{
    let mut list = Vec::new(alloc);
    for a in 1..n + 1 {
        push_corner(&mut list, n, a)?;
    }
    Ok(list)
}

/// The matrices of Merel's set of determinant n with b = 0, in lexicographic order: each begins a
/// chain, and each chain begins so. They are the [[a, 0], [c, d]] with ad = n and 0 <= c < d. The
/// limit is judged before any memory is taken.
pub fn starts(alloc: Global, n: u32) -> Result<Vec<Matrix>, SetFault>
    ensures list { IfOk result (λ list. list.items ≡ starts n) }
    ensures limit { IsErrOf result (SetFault.Limit n) ↔ ((n ≡ 0) ⊎ (MAX_DET < n)) }
    ensures refused { IfErr result (λ e. (e ≡ Memory) ⊎ (e ≡ Limit n)) }
{
    if n == 0 || n > MAX_DET {
        return Err(SetFault::Limit { n });
    }
    Ok(all_starts(alloc, n)?)
}

/// The chains of Merel's set of determinant n, one for each of `starts` and in their order. Each
/// matrix of the set stands in exactly one of them, once. Costs a division for each matrix.
pub fn chains(alloc: Global, n: u32) -> Result<Vec<Chain>, SetFault>
    ensures chains { IfOk result (λ list. AreChains n list.items) }
    ensures limit { IsErrOf result (SetFault.Limit n) ↔ ((n ≡ 0) ⊎ (MAX_DET < n)) }
    ensures refused { IfErr result (λ e. (e ≡ Memory) ⊎ (e ≡ Limit n)) }
{
    if n == 0 || n > MAX_DET {
        return Err(SetFault::Limit { n });
    }
    Ok(all_chains(alloc, n)?)
}

// The chains of determinant n.
fn all_chains(alloc: Global, n: u32) -> Result<Vec<Chain>, AllocError>
    requires some { 0 < n }
    requires limit { n ≤ MAX_DET }
    ensures chains { IfOk result (λ list. AreChains n list.items) }
{
    let starts = all_starts(alloc, n)?;
    let mut list = Vec::with_capacity(alloc, starts.len())?;
    for start in &starts {
        let chain = Chain::from(alloc, *start)?;
        list.push(chain)?;
    }
    Ok(list)
}

// The matrices of determinant n, one chain behind the other.
fn joined_chains(alloc: Global, n: u32) -> Result<Vec<Matrix>, AllocError>
    requires some { 0 < n }
    requires limit { n ≤ MAX_DET }
    ensures chains { IfOk result (λ list. JoinsChains n list.items) }
{
    let starts = all_starts(alloc, n)?;
    let mut list = Vec::new(alloc);
    for start in &starts {
        push_chain(&mut list, *start)?;
    }
    Ok(list)
}

// A number that orders matrices of Merel's sets as their entries do.
fn rank_of(matrix: &Matrix) -> u64
    ensures { result ≡ rank (MAX_DET + 1) matrix.now }
{
    let base = u64::from(MAX_DET + 1);
    let upper = u64::from(matrix.a.unsigned_abs()) * base + u64::from(matrix.b.unsigned_abs());
    let three = upper * base + u64::from(matrix.c.unsigned_abs());
    three * base + u64::from(matrix.d.unsigned_abs())
}

// Merel's matrices of determinant n, walked along their chains and put into order.
fn by_chains(alloc: Global, n: u32) -> Result<Vec<Matrix>, AllocError>
    requires some { 0 < n }
    requires limit { n ≤ MAX_DET }
    ensures items { IfOk result (λ list. list.items ≡ merel_matrices n) }
{
    let mut list = joined_chains(alloc, n)?;
    list.sort_unstable_by_key(|matrix| rank_of(matrix));
    Ok(list)
}

/// Merel's set of determinant n, walked along its chains and then put into lexicographic order. The
/// limit is judged before any memory is taken. Costs a division for each matrix, and the sort.
pub fn merel_by_chains(alloc: Global, n: u32) -> Result<MatrixSet, SetFault>
    ensures set { IfOk result (λ s. s ≡ record { det = n; list = merel_matrices n }) }
    ensures limit { IsErrOf result (SetFault.Limit n) ↔ ((n ≡ 0) ⊎ (MAX_DET < n)) }
    ensures refused { IfErr result (λ e. (e ≡ Memory) ⊎ (e ≡ Limit n)) }
{
    if n == 0 || n > MAX_DET {
        return Err(SetFault::Limit { n });
    }
    MatrixSet::of(n, by_chains(alloc, n)?)
}
