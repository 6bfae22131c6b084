ghost use Rattle.std.specs.Prelude.{ℕ, ◌≡◌, ◌<◌, All, IfOk, IfSome, IsSome, List, OnOk, length, map};
ghost use Rattle.cusps_boundary.specs.Cusps.{cusps as cusps_of};
ghost use Rattle.field_table.specs.Terms.{residue_terms};
ghost use Rattle.linear_algebra.specs.Sparse.{sparse};
ghost use Rattle.p1_normal.specs.Points.{symbol_at, symbols};
ghost use Rattle.quotient_coords.specs.Quotient.{Ground};
ghost use Rattle.script_text.specs.declared.command.Command.TheVariants as commands;
ghost use Rattle.session_core.specs.Answers.{IsAnswer, TellsBoundary};
ghost use Rattle.split_state.specs.Decomposition.{Decomposition};

use crate::terms::combination_of;
use cusps_boundary::Cusps;
use field_table::OutOfMemory;
use p1_normal::{Level, Point};
use quotient_coords::Space;
use reply_text::{Points, Reply};
use std::alloc::Global;

// The cusps of a level, made where they are not there yet.
fn hold_cusps(alloc: Global, level: &Level, table: &mut Option<Cusps>) -> Result<(), OutOfMemory>
    requires cusps { IfSome table.old (λ c. c ≡ level.now) }
    ensures cusps { IfSome table.new (λ c. c ≡ level.now) }
    ensures there { OnOk result (IsSome table.new) }
{
    if table.is_none() {
        *table = Some(Cusps::build(alloc, level)?);
    }
    Ok(())
}

/// The boundary of the combination of numbered terms. Makes the cusps where they are not there yet.
pub fn boundary(
    alloc: Global,
    space: &Space,
    table: &mut Option<Cusps>,
    numbers: &[(u32, i64)],
) -> Result<Reply, OutOfMemory>
    requires cusps { IfSome table.old (λ c. c ≡ space.now.level) }
    requires places { All (λ t. t.0 < length (symbols space.now.level)) numbers.now }
    ensures cusps { IfSome table.new (λ c. c ≡ space.now.level) }
    ensures reply { IfOk result (TellsBoundary space.now
        (sparse space.now.characteristic (residue_terms space.now.characteristic numbers.now))) }
{
    hold_cusps(alloc, space.level(), table)?;
    match table {
        Some(cusps) => boundary_over(alloc, space, cusps, numbers),
        None => unreachable!(),
    }
}

// The same over the cusps.
fn boundary_over(
    alloc: Global,
    space: &Space,
    cusps: &Cusps,
    numbers: &[(u32, i64)],
) -> Result<Reply, OutOfMemory>
    requires cusps { cusps.now ≡ space.now.level }
    requires places { All (λ t. t.0 < length (symbols space.now.level)) numbers.now }
    ensures { IfOk result (TellsBoundary space.now
        (sparse space.now.characteristic (residue_terms space.now.characteristic numbers.now))) }
{
    let field = space.field();
    let combination = combination_of(alloc, space.level(), field, numbers)?;
    let values = cusps.boundary(alloc, field, &combination)?;
    Ok(Reply::Boundary { values })
}

/// The cusps, each by its least symbol. Makes them where they are not there yet.
pub fn cusps(alloc: Global, level: &Level, table: &mut Option<Cusps>) -> Result<Reply, OutOfMemory>
    requires cusps { IfSome table.old (λ c. c ≡ level.now) }
    ensures cusps { IfSome table.new (λ c. c ≡ level.now) }
    ensures reply { (g : Ground) (v : ℕ) (s : Decomposition) → g.level ≡ level.now →
        IfOk result (IsAnswer g v s commands.Cusps) }
{
    hold_cusps(alloc, level, table)?;
    match table {
        Some(cusps) => {
            let points = Points::of(least_points(alloc, level, cusps)?);
            Ok(Reply::Cusps { points })
        }
        None => unreachable!(),
    }
}

// The least symbol of each cusp.
fn least_points(alloc: Global, level: &Level, cusps: &Cusps) -> Result<Vec<Point>, OutOfMemory>
    requires cusps { cusps.now ≡ level.now }
    ensures { IfOk result (λ points. points.items
        ≡ map (symbol_at level.now) (cusps_of level.now)) }
{
    let mut points = Vec::with_capacity(alloc, cusps.count() as usize)?;
    for c in 0..cusps.count() {
        points.push(level.symbol(cusps.least(c)))?;
    }
    Ok(points)
}
