ghost use Rattle.std.specs.Prelude.{◌≡◌, ◌<◌, All, IfOk, length, map};
ghost use Rattle.field_table.specs.Residues.{AreResidues};
ghost use Rattle.field_table.specs.Terms.{HasPlacesBelow};
ghost use Rattle.heilbronn_sets.specs.Merel.{merel_matrices};
ghost use Rattle.linear_algebra.specs.Dense.{dense};
ghost use Rattle.linear_algebra.specs.Vector.{◌⊞◌};
ghost use Rattle.p1_normal.specs.Actions.{IsInvertible};
ghost use Rattle.p1_normal.specs.Points.{symbols};
ghost use Rattle.p1_normal.specs.Units.{gcd};
ghost use Rattle.hecke_columns.specs.Hecke.{IsColumn, images, symbol_sum};
ghost use Rattle.hecke_columns.specs.Steps.{IsActing, image_after, matrices_of};

use crate::steps::{Step, Steps};
use crate::turns::Turns;
use field_table::{Field, OutOfMemory, Residues};
use p1_normal::Level;
use quotient_coords::Space;
use std::alloc::{AllocError, Global};

// The number of symbol k times the matrix after a step, where `hit` is that before the step.
fn image_after(level: &Level, turns: &Turns, step: Step, k: u32, hit: u32) -> u32
    requires table { turns.now.level ≡ level.now }
    requires place { k < length (symbols level.now) }
    requires hit { hit < length (symbols level.now) }
    requires acting { IsActing level.now step }
    ensures number { result ≡ image_after level.now k hit step }
    ensures below { result < length (symbols level.now) }
{
    match step {
        Step::Begin(start) => level.act(k, &start),
        Step::Turn(q) => turns.turned(level, hit, q),
    }
}

// Adds 1 to the count of symbol k times the matrix after each step.
fn add_steps(level: &Level, turns: &Turns, field: Field, steps: &[Step], k: u32, counts: &mut [u32])
    requires above_one { 1 < field }
    requires table { turns.now.level ≡ level.now }
    requires place { k < length (symbols level.now) }
    requires acting { All (IsActing level.now) steps.now }
    requires invertible { All (IsInvertible level.now) (matrices_of steps.now) }
    requires count { length counts.old ≡ length (symbols level.now) }
    requires residues { AreResidues field counts.old }
    ensures sum { dense field counts.new
        ≡ dense field counts.old ⊞ symbol_sum level.now (matrices_of steps.now) k }
    ensures residues { AreResidues field counts.new }
{
    let mut hit = k;
    for step in steps {
        hit = image_after(level, turns, *step, k, hit);
        counts[hit as usize] = field.add(counts[hit as usize], 1);
    }
}

// A term of 1 at symbol k times the matrix after each step, in their order.
fn hits_of(
    alloc: Global,
    level: &Level,
    turns: &Turns,
    steps: &[Step],
    k: u32,
) -> Result<Vec<(u32, u32)>, AllocError>
    requires table { turns.now.level ≡ level.now }
    requires place { k < length (symbols level.now) }
    requires acting { All (IsActing level.now) steps.now }
    requires invertible { All (IsInvertible level.now) (matrices_of steps.now) }
    ensures hits { IfOk result (λ list.
        list.items ≡ map (λ j. (j, 1)) (images level.now (matrices_of steps.now) k)) }
    ensures places { IfOk result (λ list. HasPlacesBelow (length (symbols level.now)) list.items) }
{
    let mut hits = Vec::with_capacity(alloc, steps.len())?;
    let mut hit = k;
    for step in steps {
        hit = image_after(level, turns, *step, k, hit);
        hits.push((hit, 1))?;
    }
    Ok(hits)
}

// The coordinates of the sum along the steps, from a list of the images: for few steps.
fn column_from_hits(
    alloc: Global,
    space: &Space,
    turns: &Turns,
    steps: &Steps,
    k: u32,
) -> Result<Residues, OutOfMemory>
    requires table { turns.now.level ≡ space.now.level }
    requires place { k < length (symbols space.now.level) }
    requires coprime { gcd steps.now space.now.level ≡ 1 }
    ensures { IfOk result (IsColumn space.now (merel_matrices steps.now) k) }
{
    let hits = hits_of(alloc, space.level(), turns, steps.as_slice(), k)?;
    space.coords_of_terms(alloc, &hits)
}

// The same, from how often each symbol is an image: for many steps.
fn column_from_counts(
    alloc: Global,
    space: &Space,
    turns: &Turns,
    steps: &Steps,
    k: u32,
) -> Result<Residues, OutOfMemory>
    requires table { turns.now.level ≡ space.now.level }
    requires place { k < length (symbols space.now.level) }
    requires coprime { gcd steps.now space.now.level ≡ 1 }
    ensures { IfOk result (IsColumn space.now (merel_matrices steps.now) k) }
{
    let level = space.level();
    let mut counts = vec![in alloc; 0; level.count() as usize]?;
    add_steps(
        level,
        turns,
        space.field(),
        steps.as_slice(),
        k,
        &mut counts,
    );
    space.coords_of_counts(alloc, &counts)
}

/// The coordinates of the sum of symbol k over Merel's set whose chains the steps walk.
pub(crate) fn column_by_turns(
    alloc: Global,
    space: &Space,
    turns: &Turns,
    steps: &Steps,
    k: u32,
) -> Result<Residues, OutOfMemory>
    requires table { turns.now.level ≡ space.now.level }
    requires place { k < length (symbols space.now.level) }
    requires coprime { gcd steps.now space.now.level ≡ 1 }
    ensures { IfOk result (IsColumn space.now (merel_matrices steps.now) k) }
{
    if steps.as_slice().len() < space.level().count() as usize / 2 {
        column_from_hits(alloc, space, turns, steps, k)
    } else {
        column_from_counts(alloc, space, turns, steps, k)
    }
}
