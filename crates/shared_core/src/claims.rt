ghost use Rattle.std.specs.Prelude.{◌≡◌, ◌≢◌, ◌<◌, ◌≤◌, ◌++◌, ◌∷◌, [], ◌↔◌, if◌then◌else◌, IfOk, IsSome, IsTrue, Some, None, length};
ghost use Rattle.std.specs.Arc.{arc_value};
ghost use Rattle.indexmap.specs.IndexMap.{get, spare};
ghost use Rattle.p1_normal.specs.Points.{symbols};
ghost use Rattle.column_flight.specs.declared.event.FlightKey.{FlightKey as Key};
ghost use Rattle.column_flight.specs.declared.event.FlightEvent.TheVariants.{Claim as Claims_event, Publish as Publishes, Abandon as Abandons};
ghost use Rattle.column_flight.specs.Flights.{IsColumnAt, claimer, same_key, standing};
ghost use Rattle.shared_core.specs.Claims.{AreClaims};
ghost use Rattle.shared_core.specs.Core.{IsFlightKey, claims_made, look_outcome};

use crate::step::Outcome;
use column_flight::{FlightKey, FlightState, Look, Ticket};
use field_table::OutOfMemory;
use hecke_columns::Column;
use indexmap::IndexMap;
use quotient_coords::Space;
use std::alloc::Global;
use std::sync::Arc;

/// The tickets of the unsettled claims, by their keys.
pub(crate) type Claims = IndexMap<FlightKey, Ticket>;

// Takes a ticket in, at a key that has none.
fn put_ticket(claims: &mut Claims, key: FlightKey, ticket: Ticket)
    requires room { 0 < spare claims.old }
    requires absent { get same_key claims.old key ≡ None }
    ensures { (q : Key) → get same_key claims.new q
        ≡ (if same_key key q then Some ticket else get same_key claims.old q) }
{
    let inserted = claims.insert(key, ticket);
    let Ok(before) = inserted else { unreachable!() };
    let None = before else { unreachable!() };
}

// Takes the ticket of a key out.
fn take_ticket(claims: &mut Claims, key: FlightKey) -> Ticket
    requires there { IsSome (get same_key claims.old key) }
    ensures ticket { get same_key claims.old key ≡ Some result }
    ensures others { (q : Key) → get same_key claims.new q
        ≡ (if same_key key q then None else get same_key claims.old q) }
{
    match claims.swap_remove(&key) {
        Some(ticket) => ticket,
        None => unreachable!(),
    }
}

/// Whether the session has an unsettled claim on the key.
pub(crate) fn has_claim(
    flights: &FlightState,
    claims: &Claims,
    session: u32,
    key: FlightKey,
) -> bool
    requires claims { AreClaims flights.now.events claims.now.entries }
    ensures { IsTrue result ↔ (claimer flights.now.events key ≡ Some session) }
{
    match claims.get(&key) {
        Some(ticket) => ticket.by() == session,
        None => false,
    }
}

/// Looks at a key for a session.
pub(crate) fn look_at(
    flights: &mut FlightState,
    claims: &mut Claims,
    session: u32,
    key: FlightKey,
) -> Result<Outcome, OutOfMemory>
    requires claims { AreClaims flights.old.events claims.old.entries }
    requires unclaimed { claimer flights.old.events key ≢ Some session }
    ensures claims { AreClaims flights.new.events claims.new.entries }
    ensures outcome { IfOk result (λ o. o ≡ look_outcome (standing flights.old.events key)) }
    ensures events { IfOk result (λ _. flights.new.events
        ≡ flights.old.events ++ claims_made key session (standing flights.old.events key)) }
    ensures setting { flights.new.setting ≡ flights.old.setting }
{
    claims.reserve(1)?;
    let look = flights.look(session, key)?;
    match look {
        Look::Ready(_column) => Ok(Outcome::Ready),
        Look::Pending { key: _, by } => Ok(Outcome::Pending(by)),
        Look::Mine(ticket) => {
            put_ticket(claims, key, ticket);
            Ok(Outcome::Mine)
        }
    }
}

// The column of a key.
fn column_of_key(alloc: Global, space: &Space, key: FlightKey) -> Result<Arc<Column>, OutOfMemory>
    requires { IsFlightKey space.now.level key }
    ensures { IfOk result (λ column. IsColumnAt space.now key (arc_value column)) }
{
    let column = Column::by_chains(alloc, space, key.n, key.symbol)?;
    Ok(Arc::new(alloc, column)?)
}

/// Computes and publishes the column of a key that the session has claimed.
pub(crate) fn publish_at(
    alloc: Global,
    space: &Space,
    flights: &mut FlightState,
    claims: &mut Claims,
    session: u32,
    key: FlightKey,
) -> Result<(), OutOfMemory>
    requires key { IsFlightKey space.now.level key }
    requires setting { flights.old.setting ≡ space.now }
    requires claims { AreClaims flights.old.events claims.old.entries }
    requires claimed { claimer flights.old.events key ≡ Some session }
    ensures claims { AreClaims flights.new.events claims.new.entries }
    ensures events { IfOk result (λ _.
        flights.new.events ≡ flights.old.events ++ Publishes key session ∷ []) }
    ensures setting { flights.new.setting ≡ flights.old.setting }
{
    let column = column_of_key(alloc, space, key)?;
    let ticket = take_ticket(claims, key);
    flights.publish(ticket, column);
    Ok(())
}

/// Gives up the claim of the session on the key.
pub(crate) fn abandon_at(
    flights: &mut FlightState,
    claims: &mut Claims,
    session: u32,
    key: FlightKey,
)
    requires claims { AreClaims flights.old.events claims.old.entries }
    requires claimed { claimer flights.old.events key ≡ Some session }
    ensures claims { AreClaims flights.new.events claims.new.entries }
    ensures events { flights.new.events ≡ flights.old.events ++ Abandons key session ∷ [] }
    ensures setting { flights.new.setting ≡ flights.old.setting }
{
    let ticket = take_ticket(claims, key);
    flights.abandon(ticket);
}

/// Gives up every claim that is not settled.
pub(crate) fn abandon_all(flights: &mut FlightState, mut claims: Claims)
    requires claims { AreClaims flights.old.events claims.entries }
{
    while let Some((_key, ticket)) = claims.pop() {
        flights.abandon(ticket);
    }
    claims.destroy_empty();
}
