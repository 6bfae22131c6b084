ghost use Rattle.std.specs.Prelude.{◌≡◌, ◌<◌, ◌≤◌, ◌+◌, ◌∷◌, ◌++◌, [], ℕ, All, IfOk, List, OnOk, drop, false, length};
ghost use Rattle.std.specs.Arc.{arc_value};
ghost use Rattle.std.specs.List.{range_with_len};
ghost use Rattle.p1_normal.specs.declared.matrix.TheConstants.{MAX_DET};
ghost use Rattle.p1_normal.specs.Points.{symbols};
ghost use Rattle.p1_normal.specs.Units.{gcd};
ghost use Rattle.hecke_columns.specs.Walks.{IsWalk, walk_number};
ghost use Rattle.turn_board.specs.Passes.{Continues, view};
ghost use Rattle.session_core.specs.Demands.{HasAll, HasColumns, ServesDemand, demand_pairs, symbol_pairs};
ghost use Rattle.host_workers.specs.Lookups.{IsLookup};
ghost use Rattle.host_workers.specs.Sessions.{Flies, MayFly};
ghost use Rattle.host_workers.specs.Workers.{published_pairs};

use column_flight::{FlightState, Flights, Gate};
use field_table::OutOfMemory;
use hecke_columns::{Column, ColumnSource, GatheredColumns, Walk, Walks};
use quotient_coords::Space;
use session_core::Demand;
use std::alloc::Global;
use std::sync::{Arc, Wait};
use turn_board::Pass;

// The columns that were found among those of one determinant, and the symbols of the others, which other sessions
// compute.
#[derive(Drop)]
struct Lookup {
    found: Vec<Arc<Column>>,
    missing: Vec<u32>,
}

// A source of the columns of a demand, which the flights give.
pub(crate) fn gathered<R: Wait, G: Gate>(
    rt: &R,
    alloc: Global,
    space: &Space,
    flights: &Flights,
    pass: &mut Pass<FlightState>,
    walks: &mut Walks,
    demand: &Demand,
    gate: &G,
) -> Result<GatheredColumns, OutOfMemory>
    requires pass { MayFly flights.now space.now pass.old }
    requires walks { walks.old ≡ space.now.level }
    requires columns { HasColumns space.now.level demand.now }
    ensures later { Continues pass.old pass.new }
    ensures idle { (view pass.new).has_turn ≡ false }
    ensures walks { walks.new ≡ walks.old }
    ensures flies { Flies (demand_pairs space.now.level demand.now) ((view pass.old).number + 1)
        (view pass.old).seen (view pass.new).seen }
    ensures held { OnOk result (HasAll (published_pairs (view pass.new).seen)
        (demand_pairs space.now.level demand.now)) }
    ensures serves { IfOk result (λ s. ServesDemand (⟦<GatheredColumns as ColumnSource>⟧.setting s)
        (⟦<GatheredColumns as ColumnSource>⟧.matrices s)
        (⟦<GatheredColumns as ColumnSource>⟧.can_give s)
        space.now demand.now) }
{
    match demand {
        Demand::Nothing => GatheredColumns::of(alloc, space, Vec::new(alloc), 1),
        Demand::Some { n, symbols } => gathered_symbols(
            rt,
            alloc,
            space,
            flights,
            pass,
            walks,
            *n,
            symbols.as_slice(),
            gate,
        ),
        Demand::All { n } => {
            let symbols = numbers_below(alloc, space.level().count())?;
            gathered_symbols(rt, alloc, space, flights, pass, walks, *n, &symbols, gate)
        }
    }
}

// The numbers below a count.
fn numbers_below(alloc: Global, count: u32) -> Result<Vec<u32>, OutOfMemory>
    ensures { IfOk result (λ numbers. numbers.items ≡ range_with_len 0 count) }
{
    let mut numbers = Vec::with_capacity(alloc, count as usize)?;
    for k in 0..count {
        numbers.push(k)?;
    }
    Ok(numbers)
}

// A source of the columns of these symbols, over Merel's set of determinant n.
fn gathered_symbols<R: Wait, G: Gate>(
    rt: &R,
    alloc: Global,
    space: &Space,
    flights: &Flights,
    pass: &mut Pass<FlightState>,
    walks: &mut Walks,
    n: u32,
    given: &[u32],
    gate: &G,
) -> Result<GatheredColumns, OutOfMemory>
    requires pass { MayFly flights.now space.now pass.old }
    requires walks { walks.old ≡ space.now.level }
    requires limits { (0 < n) × (n ≤ MAX_DET) }
    requires coprime { gcd n space.now.level ≡ 1 }
    requires places { All (λ k. k < length (symbols space.now.level)) given.now }
    ensures later { Continues pass.old pass.new }
    ensures idle { (view pass.new).has_turn ≡ false }
    ensures walks { walks.new ≡ walks.old }
    ensures flies { Flies (symbol_pairs n given.now) ((view pass.old).number + 1)
        (view pass.old).seen (view pass.new).seen }
    ensures held { OnOk result (HasAll (published_pairs (view pass.new).seen)
        (symbol_pairs n given.now)) }
    ensures serves { IfOk result (λ s. ServesDemand (⟦<GatheredColumns as ColumnSource>⟧.setting s)
        (⟦<GatheredColumns as ColumnSource>⟧.matrices s)
        (⟦<GatheredColumns as ColumnSource>⟧.can_give s)
        space.now (Demand.Some n given.now)) }
{
    // No symbol is demanded twice.
    let count = given.len().min(space.level().count() as usize) as u32;
    walks.hold(alloc, space.level(), n, count)?;
    let walk = walks.walk(n);
    let Lookup { mut found, missing } = looked_up(
        rt, alloc, space, flights, pass, &walk, given, gate,
    )?;
    await_columns(
        rt, alloc, space, flights, pass, &walk, &missing, &mut found, gate,
    )?;
    GatheredColumns::of(alloc, space, found, n)
}

// Looks at the column of each symbol once, and computes those that no other session computes.
fn looked_up<R: Wait, G: Gate>(
    rt: &R,
    alloc: Global,
    space: &Space,
    flights: &Flights,
    pass: &mut Pass<FlightState>,
    walk: &Walk<'_>,
    given: &[u32],
    gate: &G,
) -> Result<Lookup, OutOfMemory>
    requires pass { MayFly flights.now space.now pass.old }
    requires walk { IsWalk space.now.level walk.now }
    requires coprime { gcd (walk_number walk.now) space.now.level ≡ 1 }
    requires places { All (λ k. k < length (symbols space.now.level)) given.now }
    ensures later { Continues pass.old pass.new }
    ensures idle { (view pass.new).has_turn ≡ false }
    ensures flies { Flies (symbol_pairs (walk_number walk.now) given.now) ((view pass.old).number + 1)
        (view pass.old).seen (view pass.new).seen }
    ensures lookup { IfOk result (λ l. IsLookup space.now (walk_number walk.now) (view pass.new).seen
        given.now l.found.items l.missing.items) }
{
    let mut lookup = Lookup {
        found: Vec::with_capacity(alloc, given.len())?,
        missing: Vec::new(alloc),
    };
    for symbol in given {
        look_up(
            rt,
            alloc,
            space,
            flights,
            pass,
            walk,
            *symbol,
            gate,
            &mut lookup,
        )?;
    }
    Ok(lookup)
}

// Looks at the column of a symbol once.
fn look_up<R: Wait, G: Gate>(
    rt: &R,
    alloc: Global,
    space: &Space,
    flights: &Flights,
    pass: &mut Pass<FlightState>,
    walk: &Walk<'_>,
    symbol: u32,
    gate: &G,
    lookup: &mut Lookup,
) -> Result<(), OutOfMemory>
    requires pass { MayFly flights.now space.now pass.old }
    requires walk { IsWalk space.now.level walk.now }
    requires coprime { gcd (walk_number walk.now) space.now.level ≡ 1 }
    requires place { symbol < length (symbols space.now.level) }
    ensures later { Continues pass.old pass.new }
    ensures idle { (view pass.new).has_turn ≡ false }
    ensures flies { Flies ((walk_number walk.now, symbol) ∷ []) ((view pass.old).number + 1)
        (view pass.old).seen (view pass.new).seen }
    ensures lookup { OnOk result ((given : List ℕ) → IsLookup space.now (walk_number walk.now)
        (view pass.old).seen given lookup.old.found.items lookup.old.missing.items →
        IsLookup space.now (walk_number walk.now) (view pass.new).seen
        (given ++ symbol ∷ []) lookup.new.found.items lookup.new.missing.items) }
{
    match flights.try_column(rt, alloc, pass, space, walk, symbol, gate)? {
        Some(column) => {
            lookup.found.push(column)?;
            Ok(())
        }
        None => {
            lookup.missing.push(symbol)?;
            Ok(())
        }
    }
}

// The columns of the missing symbols, for which it waits.
fn await_columns<R: Wait, G: Gate>(
    rt: &R,
    alloc: Global,
    space: &Space,
    flights: &Flights,
    pass: &mut Pass<FlightState>,
    walk: &Walk<'_>,
    missing: &[u32],
    found: &mut Vec<Arc<Column>>,
    gate: &G,
) -> Result<(), OutOfMemory>
    requires pass { MayFly flights.now space.now pass.old }
    requires walk { IsWalk space.now.level walk.now }
    requires coprime { gcd (walk_number walk.now) space.now.level ≡ 1 }
    requires places { All (λ k. k < length (symbols space.now.level)) missing.now }
    ensures later { Continues pass.old pass.new }
    ensures idle { (view pass.new).has_turn ≡ false }
    ensures flies { Flies (symbol_pairs (walk_number walk.now) missing.now) ((view pass.old).number + 1)
        (view pass.old).seen (view pass.new).seen }
    ensures lookup { OnOk result ((given : List ℕ) → IsLookup space.now (walk_number walk.now)
        (view pass.old).seen given found.old.items missing.now →
        IsLookup space.now (walk_number walk.now) (view pass.new).seen given found.new.items []) }
{
    for symbol in missing {
        await_column(rt, alloc, space, flights, pass, walk, *symbol, found, gate)?;
    }
    Ok(())
}

// The column of a missing symbol, for which it waits.
fn await_column<R: Wait, G: Gate>(
    rt: &R,
    alloc: Global,
    space: &Space,
    flights: &Flights,
    pass: &mut Pass<FlightState>,
    walk: &Walk<'_>,
    symbol: u32,
    found: &mut Vec<Arc<Column>>,
    gate: &G,
) -> Result<(), OutOfMemory>
    requires pass { MayFly flights.now space.now pass.old }
    requires walk { IsWalk space.now.level walk.now }
    requires coprime { gcd (walk_number walk.now) space.now.level ≡ 1 }
    requires place { symbol < length (symbols space.now.level) }
    ensures later { Continues pass.old pass.new }
    ensures idle { (view pass.new).has_turn ≡ false }
    ensures flies { Flies ((walk_number walk.now, symbol) ∷ []) ((view pass.old).number + 1)
        (view pass.old).seen (view pass.new).seen }
    ensures lookup { OnOk result ((given missing : List ℕ) → IsLookup space.now (walk_number walk.now)
        (view pass.old).seen given found.old.items (symbol ∷ missing) →
        IsLookup space.now (walk_number walk.now) (view pass.new).seen given found.new.items missing) }
{
    let column = flights.column_along(rt, alloc, pass, space, walk, symbol, gate)?;
    found.push(column)?;
    Ok(())
}
