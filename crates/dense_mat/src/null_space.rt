ghost use Rattle.std.specs.Prelude.{◌≡◌, ◌<◌, ◌≤◌, ◌+◌, ◌-◌, ◌++◌, ◌∷◌, [], ℕ, IfOk, length, drop, slice_index_or};
ghost use Rattle.dense_mat.specs.Echelon.{AreRows, IsEchelon, lead};
ghost use Rattle.dense_mat.specs.Graph.{AreRests, IsGraph};
ghost use Rattle.dense_mat.specs.Matrix.{IsMatrix};
ghost use Rattle.dense_mat.specs.Subspace.{Subspace, IsBasisOf, IsSentToZero};
ghost use Rattle.linear_algebra.specs.Dense.{dense_rows};
ghost use Rattle.stable_subspaces.specs.Operator.{InKernel};

use crate::basis::{Basis, basis_of};
use crate::elimination::{Echelon, echelon_of, position_of};
use crate::mat::Mat;
use field_table::{Field, OutOfMemory, Residues};
use std::alloc::Global;

// The numbers of the first list and then those of the second.
fn joined(alloc: Global, first: &[u32], second: &[u32]) -> Result<Residues, OutOfMemory>
    ensures { IfOk result (λ r. r ≡ first.now ++ second.now) }
{
    let mut list = Vec::from_slice(alloc, first)?;
    list.extend_from_slice(second)?;
    Ok(Residues::of(list))
}

// Each image with its row after it.
fn graph_of(
    alloc: Global,
    images: &[Residues],
    rows: &[Residues],
) -> Result<Vec<Residues>, OutOfMemory>
    requires many { length images.now ≡ length rows.now }
    ensures { IfOk result (λ g. IsGraph images.now rows.now (length rows.now) g.items) }
{
    let mut graph = Vec::with_capacity(alloc, rows.len())?;
    for j in 0..rows.len() {
        graph.push(joined(alloc, images[j].as_slice(), rows[j].as_slice())?)?;
    }
    Ok(graph)
}

// The numbers from a place on.
fn rest_of(alloc: Global, numbers: &[u32], start: usize) -> Result<Residues, OutOfMemory>
    requires { start ≤ length numbers.now }
    ensures { IfOk result (λ r. r ≡ drop start numbers.now) }
{
    Ok(Residues::of(Vec::from_slice(alloc, &numbers[start..])?))
}

// The rows from number `start` on, each from the place `width` on.
fn rests_of(
    alloc: Global,
    rows: &[Residues],
    start: usize,
    width: usize,
) -> Result<Vec<Residues>, OutOfMemory>
    requires start { start ≤ length rows.now }
    requires widths { (j : ℕ) → j < length rows.now →
        width ≤ length (slice_index_or rows.now j []) }
    ensures { IfOk result (λ r. AreRests start width rows.now r.items) }
{
    let mut rests = Vec::with_capacity(alloc, rows.len() - start)?;
    for j in start..rows.len() {
        rests.push(rest_of(alloc, rows[j].as_slice(), width)?)?;
    }
    Ok(rests)
}

// The leads from number `start` on, less the width.
fn leads_from(
    alloc: Global,
    leads: &[usize],
    start: usize,
    width: usize,
) -> Result<Vec<usize>, OutOfMemory>
    requires start { start ≤ length leads.now }
    requires after { (j : ℕ) → start ≤ j → j < length leads.now → width ≤ lead leads.now j }
    ensures many { IfOk result (λ v. length v.items + start ≡ length leads.now) }
    ensures each { IfOk result (λ v. (j : ℕ) → j < length v.items
        → lead v.items j ≡ lead leads.now (start + j) - width) }
{
    let mut places = Vec::with_capacity(alloc, leads.len() - start)?;
    for j in start..leads.len() {
        places.push(leads[j] - width)?;
    }
    Ok(places)
}

/// The combinations of the part's rows for which the same combination of the images of these is 0.
/// Costs the elimination of as many rows of twice the width, each an image with its row after it:
/// the rows of that echelon form whose leads come past the images are the kernel, in reduced
/// echelon form (Cohen, A Course in Computational Algebraic Number Theory, 2.3).
pub fn kernel_by_images(
    alloc: Global,
    field: Field,
    images: &[Residues],
    part: &Basis,
) -> Result<Basis, OutOfMemory>
    requires field { part.now.characteristic ≡ field }
    requires many { length images.now ≡ length part.now.rows }
    requires images { AreRows field part.now.width images.now }
    ensures { IfOk result (IsBasisOf field part.now.width
        (IsSentToZero (dense_rows field images.now) (dense_rows field part.now.rows))) }
{
    let width = part.width() as usize;
    let graph = graph_of(alloc, images, part.rows())?;
    let echelon = echelon_of(alloc, field, &graph, width + width)?;
    let start = position_of(&echelon.leads, width);
    let kernel = Echelon {
        rows: rests_of(alloc, &echelon.rows, start, width)?,
        leads: leads_from(alloc, &echelon.leads, start, width)?,
    };
    Ok(basis_of(field, part.width(), kernel))
}

/// The vectors of the part that the matrix sends to 0. Costs a product of the matrix with each row
/// of the part and the elimination of these images with their rows.
pub fn kernel_on(alloc: Global, field: Field, mat: &Mat, part: &Basis) -> Result<Basis, OutOfMemory>
    requires field { part.now.characteristic ≡ field }
    requires matrix { IsMatrix field mat.now }
    requires size { part.now.width ≡ length mat.now }
    ensures { IfOk result (IsBasisOf field part.now.width
        (InKernel 1 (dense_rows field mat.now) (dense_rows field part.now.rows))) }
{
    let images = mat.apply_to_rows(alloc, field, part.rows())?;
    kernel_by_images(alloc, field, &images, part)
}
