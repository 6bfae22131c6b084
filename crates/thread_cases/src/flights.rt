ghost use Rattle.std.specs.Prelude.{◌≡◌, [], IfOk, None};
ghost use Rattle.std.specs.Arc.{arc_value};
ghost use Rattle.turn_board.specs.Passes.{IsIdle, pass_count, view};
ghost use Rattle.column_flight.specs.Flights.{IsColumnAt, claimer};
ghost use Rattle.column_flight.specs.Shared.{HasNoClaim, board_of, setting_of};

use crate::spaces::space_at_11;
use column_flight::{FlightEvent, FlightKey, FlightState, Flights, Gate, GatePoint, Look, NoGate};
use field_table::OutOfMemory;
use hecke_columns::{Column, Walk};
use heilbronn_sets::merel_set;
use p1_normal::gcd;
use quotient_coords::Space;
use std::alloc::{AllocError, Global};
use std::sync::atomic::{AtomicU32, Ordering};
use std::sync::{Arc, Wait};
use std::test::Fail;
use std::thread;
use std::thread::yield_now;
use turn_board::Pass;

// Flights with two passes.
fn open_two(
    alloc: Global,
    space: &Space,
) -> Result<(Flights, Pass<FlightState>, Pass<FlightState>), OutOfMemory>
    ensures count { IfOk result (λ o. pass_count (board_of o.0) ≡ 2) }
    ensures setting { IfOk result (λ o. setting_of o.0 ≡ space.now) }
    ensures first { IfOk result (λ o. IsIdle (board_of o.0) 0 o.1) }
    ensures second { IfOk result (λ o. IsIdle (board_of o.0) 1 o.2) }
    ensures none_first { IfOk result (λ o. HasNoClaim (view o.1)) }
    ensures none_second { IfOk result (λ o. HasNoClaim (view o.2)) }
{
    let (flights, mut passes) = Flights::open(alloc, space, 2)?;
    let Some(second) = passes.pop() else {
        unreachable!()
    };
    let Some(first) = passes.pop() else {
        unreachable!()
    };
    Ok((flights, first, second))
}

// The state of flights with two passes.
fn close_two(
    alloc: Global,
    flights: Flights,
    first: Pass<FlightState>,
    second: Pass<FlightState>,
) -> Result<FlightState, AllocError>
    requires count { pass_count (board_of flights) ≡ 2 }
    requires first { IsIdle (board_of flights) 0 first }
    requires second { IsIdle (board_of flights) 1 second }
{
    let mut passes = Vec::with_capacity(alloc, 2)?;
    passes.push_reserved(first);
    passes.push_reserved(second);
    Ok(flights.close(passes))
}

// The first column of n = 2, for the pass of this number, where there is memory and 2 does not divide the level.
fn first_column<R: Wait, G: Gate>(
    rt: &R,
    alloc: Global,
    flights: &Flights,
    space: &Space,
    pass: &mut Pass<FlightState>,
    gate: &G,
) -> Option<Arc<Column>>
    requires pass { IsIdle (board_of flights.now) (view pass.old).number pass.old }
    requires none { HasNoClaim (view pass.old) }
    requires space { space.now ≡ setting_of flights.now }
    ensures pass { IsIdle (board_of flights.now) (view pass.old).number pass.new }
    ensures none { HasNoClaim (view pass.new) }
{
    let set = merel_set(alloc, 2).ok()?;
    if space.level().count() == 0 || gcd(set.det(), space.level().modulus()) != 1 {
        return None;
    }
    flights.column(rt, alloc, pass, space, &set, 0, gate).ok()
}

// Whether there are two columns, with the same coordinates.
fn are_equal(first: Option<Arc<Column>>, second: Option<Arc<Column>>) -> bool {
    match (first, second) {
        (Some(first), Some(second)) => first.coords() == second.coords(),
        _ => false,
    }
}

// Whether the events are a claim and a publication of the first column of n = 2 by one session.
fn is_one_flight(events: &[FlightEvent], by: u32) -> bool {
    let key = FlightKey { n: 2, symbol: 0 };
    events
        == [
            FlightEvent::Claim { key, by },
            FlightEvent::Publish { key, by },
        ]
        .as_slice()
}

// It counts the columns that are computed.
#[derive(Drop)]
struct Counter {
    columns: AtomicU32,
}

impl Gate for Counter {
    fn pass<R: Wait>(&self, _rt: &R, point: GatePoint) {
        if let GatePoint::BeforeColumn { .. } = point {
            self.columns.fetch_add(1, Ordering::SeqCst);
        }
    }
}

// It holds the session that computes a column until another session has looked at it.
#[derive(Drop)]
struct Hold {
    entered: AtomicU32,
    released: AtomicU32,
}

impl Gate for Hold {
    fn pass<R: Wait>(&self, _rt: &R, _point: GatePoint) {
        self.entered.store(1, Ordering::SeqCst);
        is_set(&self.released);
    }
}

// Whether the word is set within so many turns of other threads.
fn is_set(word: &AtomicU32) -> bool {
    for _ in 0..10_000_000u32 {
        if word.load(Ordering::SeqCst) == 1 {
            return true;
        }
        yield_now();
    }
    false
}

// A look at the first column of n = 2 while another session computes it, and then the column. Answers whether the look
// found the claim of that session.
fn look_and_wait<R: Wait>(
    rt: &R,
    alloc: Global,
    flights: &Flights,
    space: &Space,
    pass: &mut Pass<FlightState>,
    hold: &Hold,
) -> Option<bool>
    requires pass { IsIdle (board_of flights.now) (view pass.old).number pass.old }
    requires none { HasNoClaim (view pass.old) }
    requires space { space.now ≡ setting_of flights.now }
    ensures pass { IsIdle (board_of flights.now) (view pass.old).number pass.new }
    ensures none { HasNoClaim (view pass.new) }
{
    let set = merel_set(alloc, 2).ok()?;
    if space.level().count() == 0 || gcd(set.det(), space.level().modulus()) != 1 {
        return None;
    }
    let entered = is_set(&hold.entered);
    let looked = flights.try_column(rt, alloc, pass, space, &Walk::Set(&set), 0, &NoGate);
    hold.released.store(1, Ordering::SeqCst);
    let elsewhere = looked.ok()?.is_none();
    let column = first_column(rt, alloc, flights, space, pass, &NoGate)?;
    Some(entered && elsewhere && column.coords() == [3, 1, 0].as_slice())
}

// A claim that is given up.
fn give_up(state: &mut FlightState, by: u32, key: FlightKey) -> Result<bool, OutOfMemory>
    requires { claimer state.old.events key ≡ None }
    ensures none { claimer state.new.events key ≡ None }
    ensures setting { state.new.setting ≡ state.old.setting }
{
    let look = state.look(by, key)?;
    match look {
        Look::Mine(ticket) => {
            state.abandon(ticket);
            Ok(true)
        }
        Look::Ready(_column) => Ok(false),
        Look::Pending { key: _, by: _ } => Ok(false),
    }
}

// Claims of two sessions in turn, each of which is given up.
fn give_up_in_turn(
    state: &mut FlightState,
    key: FlightKey,
    rounds: u32,
) -> Result<bool, OutOfMemory>
    requires { claimer state.old.events key ≡ None }
    ensures none { claimer state.new.events key ≡ None }
    ensures setting { state.new.setting ≡ state.old.setting }
{
    let mut all = true;
    for round in 0..rounds {
        let given = give_up(state, 1 + round % 2, key)?;
        all = all && given;
    }
    Ok(all)
}

// A claim that is published.
fn settle(
    state: &mut FlightState,
    by: u32,
    key: FlightKey,
    column: Arc<Column>,
) -> Result<bool, OutOfMemory>
    requires none { claimer state.old.events key ≡ None }
    requires column { IsColumnAt state.old.setting key (arc_value column) }
{
    let look = state.look(by, key)?;
    match look {
        Look::Mine(ticket) => {
            state.publish(ticket, column);
            Ok(true)
        }
        Look::Ready(_column) => Ok(false),
        Look::Pending { key: _, by: _ } => Ok(false),
    }
}

// The claims of two sessions are given up in turn, and the third session publishes.
fn settle_after_all(alloc: Global, space: &Space, state: &mut FlightState) -> Result<bool, Fail>
    requires space { state.old.setting ≡ space.now }
    requires new { state.old.events ≡ [] }
{
    let set = merel_set(alloc, 2)?;
    let n = set.det();
    if space.level().count() == 0 || gcd(n, space.level().modulus()) != 1 {
        return Err(Fail::from("2 divides the level"));
    }
    let key = FlightKey { n, symbol: 0 };
    let all = give_up_in_turn(state, key, 100)?;
    let column = Arc::new(alloc, Column::compute(alloc, space, &set, 0)?)?;
    let settled = settle(state, 3, key, column)?;
    Ok(all && settled)
}

#[test]
fn a_session_takes_a_column(rt: HostRuntime) -> Result<(), Fail> {
    let alloc = rt.alloc();
    let space = space_at_11(alloc)?;
    let (flights, mut first, second) = open_two(alloc, &space)?;
    let column = first_column(&rt, alloc, &flights, &space, &mut first, &NoGate);
    assert!(rt; column.is_some_and(|it| it.coords() == [3, 1, 0].as_slice()));
    let state = close_two(alloc, flights, first, second)?;
    assert!(rt; state.published() == 1);
    assert!(rt; is_one_flight(state.events(), 1));
    Ok(())
}

// A column that is asked for twice is computed once.
#[test]
fn a_published_column_is_shared(rt: HostRuntime) -> Result<(), Fail> {
    let alloc = rt.alloc();
    let space = space_at_11(alloc)?;
    let (flights, mut first, second) = open_two(alloc, &space)?;
    let gate = Counter {
        columns: AtomicU32::new(0),
    };
    let column = first_column(&rt, alloc, &flights, &space, &mut first, &gate);
    let again = first_column(&rt, alloc, &flights, &space, &mut first, &gate);
    assert!(rt; are_equal(column, again));
    assert!(rt; gate.columns.load(Ordering::SeqCst) == 1);
    let state = close_two(alloc, flights, first, second)?;
    assert!(rt; is_one_flight(state.events(), 1));
    Ok(())
}

// Two threads ask for one column, which is computed once.
#[test]
fn two_threads_share_a_column(rt: HostRuntime) -> Result<(), Fail> {
    let alloc = rt.alloc();
    let space = space_at_11(alloc)?;
    let (flights, mut first, mut second) = open_two(alloc, &space)?;
    let gate = Counter {
        columns: AtomicU32::new(0),
    };
    let (by_first, by_second) = thread::join_mut(
        &rt,
        &mut || first_column(&rt, alloc, &flights, &space, &mut first, &gate),
        &mut || first_column(&rt, alloc, &flights, &space, &mut second, &gate),
    );
    assert!(rt; are_equal(by_first, by_second));
    assert!(rt; gate.columns.load(Ordering::SeqCst) == 1);
    let state = close_two(alloc, flights, first, second)?;
    assert!(rt; is_one_flight(state.events(), 1) || is_one_flight(state.events(), 2));
    Ok(())
}

// A session that looks at a column which another one computes is told so at once, and later has it.
#[test]
fn a_look_does_not_wait(rt: HostRuntime) -> Result<(), Fail> {
    let alloc = rt.alloc();
    let space = space_at_11(alloc)?;
    let (flights, mut first, mut second) = open_two(alloc, &space)?;
    let hold = Hold {
        entered: AtomicU32::new(0),
        released: AtomicU32::new(0),
    };
    let (by_first, by_second) = thread::join_mut(
        &rt,
        &mut || first_column(&rt, alloc, &flights, &space, &mut first, &hold),
        &mut || look_and_wait(&rt, alloc, &flights, &space, &mut second, &hold),
    );
    assert!(rt; by_first.is_some_and(|it| it.coords() == [3, 1, 0].as_slice()));
    assert!(rt; by_second == Some(true));
    let state = close_two(alloc, flights, first, second)?;
    assert!(rt; is_one_flight(state.events(), 1));
    Ok(())
}

// A hundred claims are given up, and then one is published.
#[test]
fn claims_that_are_given_up_leave_the_key_free(rt: HostRuntime) -> Result<(), Fail> {
    let alloc = rt.alloc();
    let space = space_at_11(alloc)?;
    let mut state = FlightState::new(alloc, &space);
    assert!(rt; settle_after_all(alloc, &space, &mut state)?);
    assert!(rt; state.published() == 1);
    assert!(rt; state.events().len() == 202);
    assert!(rt; is_one_flight(&state.events()[200..], 3));
    Ok(())
}
