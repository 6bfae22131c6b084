ghost use Rattle.std.specs.Prelude.{◌≡◌, ◌<◌, ◌≤◌, ◌^◌, ℕ, All, IfOk, List, length, map, true};
ghost use Rattle.std.specs.List.{Contains, sum_by};
ghost use Rattle.field_table.specs.Terms.{residue_terms};
ghost use Rattle.hecke_columns.specs.Hecke.{hecke_sum};
ghost use Rattle.linear_algebra.specs.Sparse.{sparse};
ghost use Rattle.quotient_coords.specs.Quotient.{AreCoordinates, Ground};
ghost use Rattle.script_text.specs.declared.command.Command.TheVariants as commands;
ghost use Rattle.session_core.specs.Answers.{IsAnswer, TellsCoordinates};
ghost use Rattle.split_state.specs.Decomposition.{Decomposition};

use field_table::{OutOfMemory, Residues};
use hecke_columns::ColumnSource;
use heilbronn_chains::Chain;
use heilbronn_sets::SetFault;
use p1_normal::MAX_DET;
use quotient_coords::Space;
use reply_text::Reply;
use std::alloc::Global;

// The coordinates of the sum over the source's matrices of numbered terms.
fn image_of<C: ColumnSource>(
    alloc: Global,
    space: &Space,
    numbers: &[(u32, i64)],
    columns: &mut C,
) -> Result<Vec<u32>, OutOfMemory>
    requires setting { C.setting columns.old ≡ space.now }
    requires given { (k : ℕ) → Contains (map (λ t. t.0) numbers.now) k →
        C.can_give columns.old k ≡ true }
    ensures { IfOk result (λ v. AreCoordinates space.now.level (hecke_sum space.now.level
        (C.matrices columns.old).list
        (sparse space.now.characteristic (residue_terms space.now.characteristic numbers.now))) v.items) }
{
    let field = space.field();
    // The characteristic is a prime, so above 0.
    let _prime = field.characteristic();
    let mut values = vec![in alloc; 0; space.dim() as usize]?;
    for term in numbers {
        columns.add_column(alloc, term.0, field.residue(term.1), &mut values)?;
    }
    Ok(values)
}

/// The coordinates of the sum over the source's matrices of the combination of numbered terms.
pub fn image<C: ColumnSource>(
    alloc: Global,
    space: &Space,
    numbers: &[(u32, i64)],
    columns: &mut C,
) -> Result<Reply, OutOfMemory>
    requires setting { C.setting columns.old ≡ space.now }
    requires given { (k : ℕ) → Contains (map (λ t. t.0) numbers.now) k →
        C.can_give columns.old k ≡ true }
    ensures { IfOk result (TellsCoordinates space.now (hecke_sum space.now.level
        (C.matrices columns.old).list
        (sparse space.now.characteristic (residue_terms space.now.characteristic numbers.now)))) }
{
    let values = image_of(alloc, space, numbers, columns)?;
    Ok(Reply::Coords {
        values: Residues::of(values),
    })
}

// How many matrices chains have together.
fn matrix_count(chains: &[Chain]) -> u32
    requires few { sum_by (λ ms. length ms) chains.now < 2 ^ 32 }
    ensures { result ≡ sum_by (λ ms. length ms) chains.now }
{
    let mut count = 0;
    for chain in chains {
        count += chain.as_slice().len() as u32;
    }
    count
}

/// How many chains Merel's set of determinant n falls into, and how many matrices they have together. Walks the chains.
pub fn chains(alloc: Global, n: u32) -> Result<Reply, OutOfMemory>
    requires limits { (0 < n) × (n ≤ MAX_DET) }
    ensures { (g : Ground) (v : ℕ) (s : Decomposition) →
        IfOk result (IsAnswer g v s (commands.Chains n)) }
{
    let list = match heilbronn_chains::chains(alloc, n) {
        Ok(list) => list,
        Err(SetFault::OutOfMemory) => return Err(OutOfMemory),
        Err(_) => unreachable!(),
    };
    Ok(Reply::Chains {
        chains: list.len() as u32,
        matrices: matrix_count(&list),
    })
}
