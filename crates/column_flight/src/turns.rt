// The calls of a flight at turns, each of one turn. The gate and the computation stand between turns.
ghost use Rattle.std.specs.Prelude.{◌≡◌, ◌≢◌, ◌<◌, ◌+◌, ◌∷◌, [], false, true, Some, IfOk, IfSome, IsNone, OnOk, OnErr, length};
ghost use Rattle.std.specs.Arc.{arc_value};
ghost use Rattle.p1_normal.specs.Points.{symbols};
ghost use Rattle.p1_normal.specs.Units.{gcd};
ghost use Rattle.hecke_columns.specs.Walks.{IsWalk, walk_number};
ghost use Rattle.turn_board.specs.Passes.{Continues, IsOf, view};
ghost use Rattle.column_flight.specs.declared.event.FlightEvent.{FlightEvent};
ghost use Rattle.column_flight.specs.Flights.{IsColumnAt, claimer, is_published, standing};
ghost use Rattle.column_flight.specs.Looks.{IsAnswer, claims};
ghost use Rattle.column_flight.specs.Shared.{IsElsewhere, MayAbandon, MayPublish, after, board_of, key_along, own_events, setting_of};

use crate::event::FlightKey;
use crate::flights::Flights;
use crate::gate::{Gate, GatePoint};
use crate::look::{Look, Ticket};
use crate::state::FlightState;
use field_table::OutOfMemory;
use hecke_columns::{Column, Walk};
use quotient_coords::Space;
use std::alloc::Global;
use std::sync::{Arc, Wait};
use turn_board::Pass;

impl Flights {
    // A look, and the flight of a claim that it made.
    pub(crate) fn visit<R: Wait, G: Gate>(
        &self,
        rt: &R,
        alloc: Global,
        pass: &mut Pass<FlightState>,
        space: &Space,
        walk: &Walk<'_>,
        symbol: u32,
        gate: &G,
    ) -> Result<Option<Arc<Column>>, OutOfMemory>
        requires board { IsOf (board_of self.now) pass.old }
        requires idle { (view pass.old).has_turn ≡ false }
        requires space { space.now ≡ setting_of self.now }
        requires walk { IsWalk space.now.level walk.now }
        requires place { symbol < length (symbols space.now.level) }
        requires coprime { gcd (walk_number walk.now) space.now.level ≡ 1 }
        requires unclaimed { claimer (view pass.old).seen (key_along walk.now symbol)
            ≢ Some ((view pass.old).number + 1) }
        ensures later { Continues pass.old pass.new }
        ensures turn { (view pass.old).tries < (view pass.new).tries }
        ensures idle { (view pass.new).has_turn ≡ false }
        ensures column { IfOk result (λ found. IfSome found (λ column.
            IsColumnAt (setting_of self.now) (key_along walk.now symbol) (arc_value column))) }
        ensures published { IfOk result (λ found. IfSome found (λ _.
            is_published (view pass.new).seen (key_along walk.now symbol) ≡ true)) }
        ensures elsewhere { IfOk result (λ found. IsNone found →
            IsElsewhere (key_along walk.now symbol) (view pass.old) (view pass.new)) }
        ensures made { OnOk result
            (MayPublish (key_along walk.now symbol) (view pass.old) (view pass.new)) }
        ensures refused { OnErr result
            (MayAbandon (key_along walk.now symbol) (view pass.old) (view pass.new)) }
    {
        let key = FlightKey {
            n: walk.n(),
            symbol,
        };
        let look = self.look(rt, pass, key)?;
        match look {
            Look::Ready(column) => Ok(Some(column)),
            Look::Pending { key: _, by: _ } => Ok(None),
            Look::Mine(ticket) => {
                let column = self.fly(rt, alloc, pass, space, walk, ticket, gate)?;
                Ok(Some(column))
            }
        }
    }

    // A look at a turn of this call.
    pub(crate) fn look<R: Wait>(
        &self,
        rt: &R,
        pass: &mut Pass<FlightState>,
        key: FlightKey,
    ) -> Result<Look, OutOfMemory>
        requires board { IsOf (board_of self.now) pass.old }
        requires idle { (view pass.old).has_turn ≡ false }
        requires unclaimed { claimer (view pass.old).seen key ≢ Some ((view pass.old).number + 1) }
        ensures later { Continues pass.old pass.new }
        ensures turn { (view pass.old).tries < (view pass.new).tries }
        ensures idle { (view pass.new).has_turn ≡ false }
        ensures answer { IfOk result
            (IsAnswer (setting_of self.now) key ((view pass.old).number + 1)) }
        ensures standing { IfOk result (λ look.
            standing (view pass.new).seen key ≡ after (view pass.old).number look) }
        ensures made { IfOk result (λ look.
            own_events (view pass.old) (view pass.new) ≡ claims look) }
        ensures refused { OnErr result (own_events (view pass.old) (view pass.new) ≡ []) }
    {
        let mut held = self.board.take(rt, pass);
        let state = held.state();
        state.is_legal();
        let look = state.look(pass.number() + 1, key);
        self.board.give(pass, held);
        look
    }

    // Computes the column of a claim, and settles it.
    pub(crate) fn fly<R: Wait, G: Gate>(
        &self,
        rt: &R,
        alloc: Global,
        pass: &mut Pass<FlightState>,
        space: &Space,
        walk: &Walk<'_>,
        ticket: Ticket,
        gate: &G,
    ) -> Result<Arc<Column>, OutOfMemory>
        requires board { IsOf (board_of self.now) pass.old }
        requires idle { (view pass.old).has_turn ≡ false }
        requires space { space.now ≡ setting_of self.now }
        requires walk { IsWalk space.now.level walk.now }
        requires place { ticket.key.symbol < length (symbols space.now.level) }
        requires coprime { gcd (walk_number walk.now) space.now.level ≡ 1 }
        requires number { ticket.key.n ≡ walk_number walk.now }
        requires maker { ticket.by ≡ (view pass.old).number + 1 }
        requires claim { claimer (view pass.old).seen ticket.key ≡ Some ticket.by }
        ensures later { Continues pass.old pass.new }
        ensures idle { (view pass.new).has_turn ≡ false }
        ensures column { IfOk result (λ column.
            IsColumnAt (setting_of self.now) ticket.key (arc_value column)) }
        ensures published { OnOk result (is_published (view pass.new).seen ticket.key ≡ true) }
        ensures made { OnOk result (own_events (view pass.old) (view pass.new)
            ≡ FlightEvent.Publish ticket.key ticket.by ∷ []) }
        ensures refused { OnErr result (own_events (view pass.old) (view pass.new)
            ≡ FlightEvent.Abandon ticket.key ticket.by ∷ []) }
    {
        let FlightKey { n, symbol } = ticket.key();
        gate.pass(
            rt,
            GatePoint::BeforeColumn {
                session: ticket.by(),
                n,
                symbol,
            },
        );
        match compute_twice(alloc, space, walk, symbol) {
            Ok((answer, column)) => {
                self.publish(rt, pass, ticket, column);
                Ok(answer)
            }
            Err(fault) => {
                self.abandon(rt, pass, ticket);
                Err(fault)
            }
        }
    }

    // A publication at a turn of this call.
    fn publish<R: Wait>(
        &self,
        rt: &R,
        pass: &mut Pass<FlightState>,
        ticket: Ticket,
        column: Arc<Column>,
    )
        requires board { IsOf (board_of self.now) pass.old }
        requires idle { (view pass.old).has_turn ≡ false }
        requires maker { ticket.by ≡ (view pass.old).number + 1 }
        requires claim { claimer (view pass.old).seen ticket.key ≡ Some ticket.by }
        requires column { IsColumnAt (setting_of self.now) ticket.key (arc_value column) }
        ensures later { Continues pass.old pass.new }
        ensures idle { (view pass.new).has_turn ≡ false }
        ensures published { is_published (view pass.new).seen ticket.key ≡ true }
        ensures made { own_events (view pass.old) (view pass.new)
            ≡ FlightEvent.Publish ticket.key ticket.by ∷ [] }
    {
        let mut held = self.board.take(rt, pass);
        let state = held.state();
        state.is_legal();
        state.publish(ticket, column);
        self.board.give(pass, held);
    }

    // An abandonment at a turn of this call.
    fn abandon<R: Wait>(&self, rt: &R, pass: &mut Pass<FlightState>, ticket: Ticket)
        requires board { IsOf (board_of self.now) pass.old }
        requires idle { (view pass.old).has_turn ≡ false }
        requires maker { ticket.by ≡ (view pass.old).number + 1 }
        requires claim { claimer (view pass.old).seen ticket.key ≡ Some ticket.by }
        ensures later { Continues pass.old pass.new }
        ensures idle { (view pass.new).has_turn ≡ false }
        ensures made { own_events (view pass.old) (view pass.new)
            ≡ FlightEvent.Abandon ticket.key ticket.by ∷ [] }
    {
        let mut held = self.board.take(rt, pass);
        let state = held.state();
        state.is_legal();
        state.abandon(ticket);
        self.board.give(pass, held);
    }
}

// The column, for the caller and for the flights. Both copies are made before the publication, so that
// a refused one gives the claim up.
fn compute_twice(
    alloc: Global,
    space: &Space,
    walk: &Walk<'_>,
    symbol: u32,
) -> Result<(Arc<Column>, Arc<Column>), OutOfMemory>
    requires walk { IsWalk space.now.level walk.now }
    requires place { symbol < length (symbols space.now.level) }
    requires coprime { gcd (walk_number walk.now) space.now.level ≡ 1 }
    ensures first { IfOk result (λ both.
        IsColumnAt space.now (key_along walk.now symbol) (arc_value both.0)) }
    ensures second { IfOk result (λ both.
        IsColumnAt space.now (key_along walk.now symbol) (arc_value both.1)) }
{
    let column = Arc::new(alloc, walk.column(alloc, space, symbol)?)?;
    let answer = column.clone()?;
    Ok((answer, column))
}
