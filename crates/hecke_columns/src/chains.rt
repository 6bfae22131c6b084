ghost use Rattle.std.specs.Prelude.{◌≡◌, ◌<◌, ◌≤◌, IfOk, OnOk, length, pos};
ghost use Rattle.field_table.specs.Residues.{AreResidues};
ghost use Rattle.heilbronn_chains.specs.Chains.{degree};
ghost use Rattle.heilbronn_sets.specs.Merel.{IsMerel, merel_matrices, starts};
ghost use Rattle.p1_normal.specs.declared.matrix.TheConstants.{MAX_DET};
ghost use Rattle.p1_normal.specs.Points.{symbols};
ghost use Rattle.p1_normal.specs.Units.{gcd};
ghost use Rattle.hecke_columns.specs.Chains.{AddsChainSum, AddsChainSums};
ghost use Rattle.hecke_columns.specs.Hecke.{IsColumn};

use field_table::{Field, OutOfMemory, Residues};
use heilbronn_chains::{next, starts};
use heilbronn_sets::SetFault;
use p1_normal::{Level, Matrix};
use quotient_coords::Space;
use std::alloc::Global;

// The matrices that begin the chains of determinant n.
pub(crate) fn all_starts(alloc: Global, n: u32) -> Result<Vec<Matrix>, OutOfMemory>
    requires some { 0 < n }
    requires limit { n ≤ MAX_DET }
    ensures list { IfOk result (λ list. list.items ≡ starts n) }
{
    match starts(alloc, n) {
        Ok(list) => Ok(list),
        Err(SetFault::OutOfMemory) => Err(OutOfMemory),
        Err(_) => unreachable!(),
    }
}

// Adds 1 to the count of symbol k times each matrix of the chain that begins with a matrix.
fn add_chain(level: &Level, field: Field, start: Matrix, k: u32, counts: &mut [u32])
    requires above_one { 1 < field }
    requires place { k < length (symbols level.now) }
    requires limit { degree start ≤ MAX_DET }
    requires member { IsMerel (degree start) start }
    requires begins { start.b ≡ pos 0 }
    requires coprime { gcd (degree start) level.now ≡ 1 }
    requires count { length counts.old ≡ length (symbols level.now) }
    requires residues { AreResidues field counts.old }
    ensures sum { AddsChainSum level.now field (degree start) k start counts.old counts.new }
    ensures residues { AreResidues field counts.new }
{
    let hit = level.act(k, &start) as usize;
    counts[hit] = field.add(counts[hit], 1);
    let mut last = start;
    while let Some(matrix) = next(&last) {
        let hit = level.act(k, &matrix) as usize;
        counts[hit] = field.add(counts[hit], 1);
        last = matrix;
    }
}

// Adds 1 to the count of symbol k times each matrix of Merel's set of determinant n.
fn add_chains(
    alloc: Global,
    level: &Level,
    field: Field,
    n: u32,
    k: u32,
    counts: &mut [u32],
) -> Result<(), OutOfMemory>
    requires above_one { 1 < field }
    requires place { k < length (symbols level.now) }
    requires some { 0 < n }
    requires limit { n ≤ MAX_DET }
    requires coprime { gcd n level.now ≡ 1 }
    requires count { length counts.old ≡ length (symbols level.now) }
    requires residues { AreResidues field counts.old }
    ensures sums { OnOk result (AddsChainSums level.now field n k counts.old counts.new) }
    ensures residues { AreResidues field counts.new }
{
    let starts = all_starts(alloc, n)?;
    for start in &starts {
        add_chain(level, field, *start, k, counts);
    }
    Ok(())
}

/// The coordinates of the sum of symbol k over Merel's set of determinant n, whose chains are walked.
pub(crate) fn column_by_chains(
    alloc: Global,
    space: &Space,
    n: u32,
    k: u32,
) -> Result<Residues, OutOfMemory>
    requires place { k < length (symbols space.now.level) }
    requires some { 0 < n }
    requires limit { n ≤ MAX_DET }
    requires coprime { gcd n space.now.level ≡ 1 }
    ensures { IfOk result (IsColumn space.now (merel_matrices n) k) }
{
    let level = space.level();
    let mut counts = vec![in alloc; 0; level.count() as usize]?;
    add_chains(alloc, level, space.field(), n, k, &mut counts)?;
    space.coords_of_counts(alloc, &counts)
}
