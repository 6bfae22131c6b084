ghost use Rattle.std.specs.Prelude.{◌≡◌, ◌≢◌, ◌≤◌, ◌<◌, ◌+◌, [], false, true, Some, IfOk, IfSome, IsNone, OnOk, OnErr, length};
ghost use Rattle.std.specs.Arc.{arc_value};
ghost use Rattle.heilbronn_sets.specs.Merel.{merel_matrices};
ghost use Rattle.p1_normal.specs.Points.{symbols};
ghost use Rattle.p1_normal.specs.Units.{gcd};
ghost use Rattle.hecke_columns.specs.Walks.{IsWalk, walk_number};
ghost use Rattle.turn_board.specs.Passes.{Continues, IsOf, view};
ghost use Rattle.column_flight.specs.Flights.{IsColumnAt, claimer, is_published};
ghost use Rattle.column_flight.specs.Shared.{AddsOnly, IsElsewhere, LeavesNoClaim, MayAbandon, MayPublish, board_of, flight_key, key_along, setting_of};

use crate::flights::Flights;
use crate::gate::Gate;
use crate::state::FlightState;
use field_table::OutOfMemory;
use hecke_columns::{Column, Walk};
use heilbronn_sets::MatrixSet;
use quotient_coords::Space;
use std::alloc::Global;
use std::sync::{Arc, Wait};
use std::thread::yield_now;
use turn_board::Pass;

// How often a waiting session gives the processor away between two looks, at most.
const MAX_YIELDS: u32 = 64;

impl Flights {
    /// The column of symbol `symbol`, over the set, which is Merel's set of its determinant. Where it is
    /// free, the pass claims it, passes the gate and computes it without the turn, and publishes it;
    /// where another pass has claimed it, this one looks again, with growing pauses, in which it has
    /// neither the turn nor the processor. A refused call has given its claim up. Costs a turn where the
    /// column is published, and two turns and the computation where it is free.
    pub fn column<R: Wait, G: Gate>(
        &self,
        rt: &R,
        alloc: Global,
        pass: &mut Pass<FlightState>,
        space: &Space,
        set: &MatrixSet,
        symbol: u32,
        gate: &G,
    ) -> Result<Arc<Column>, OutOfMemory>
        requires board { IsOf (board_of self.now) pass.old }
        requires idle { (view pass.old).has_turn ≡ false }
        requires space { space.now ≡ setting_of self.now }
        requires place { symbol < length (symbols space.now.level) }
        requires coprime { gcd set.now.det space.now.level ≡ 1 }
        requires merel { set.now.list ≡ merel_matrices set.now.det }
        requires unclaimed { claimer (view pass.old).seen (flight_key set.now.det symbol)
            ≢ Some ((view pass.old).number + 1) }
        ensures later { Continues pass.old pass.new }
        ensures turn { (view pass.old).tries < (view pass.new).tries }
        ensures idle { (view pass.new).has_turn ≡ false }
        ensures column { IfOk result (λ column.
            IsColumnAt (setting_of self.now) (flight_key set.now.det symbol) (arc_value column)) }
        ensures published { OnOk result
            (is_published (view pass.new).seen (flight_key set.now.det symbol) ≡ true) }
        ensures made { OnOk result
            (MayPublish (flight_key set.now.det symbol) (view pass.old) (view pass.new)) }
        ensures refused { OnErr result
            (MayAbandon (flight_key set.now.det symbol) (view pass.old) (view pass.new)) }
        ensures settled { LeavesNoClaim (view pass.old) (view pass.new) }
        ensures own { AddsOnly (flight_key set.now.det symbol) (view pass.old) (view pass.new) }
    {
        self.column_along(rt, alloc, pass, space, &Walk::Set(set), symbol, gate)
    }

    /// The column of symbol `symbol` along any way of making the columns of a determinant; else as `column`.
    pub fn column_along<R: Wait, G: Gate>(
        &self,
        rt: &R,
        alloc: Global,
        pass: &mut Pass<FlightState>,
        space: &Space,
        walk: &Walk<'_>,
        symbol: u32,
        gate: &G,
    ) -> Result<Arc<Column>, OutOfMemory>
        requires board { IsOf (board_of self.now) pass.old }
        requires idle { (view pass.old).has_turn ≡ false }
        requires space { space.now ≡ setting_of self.now }
        requires walk { IsWalk space.now.level walk.now }
        requires place { symbol < length (symbols space.now.level) }
        requires coprime { gcd (walk_number walk.now) space.now.level ≡ 1 }
        requires unclaimed { claimer (view pass.old).seen (key_along walk.now symbol)
            ≢ Some ((view pass.old).number + 1) }
        ensures later { Continues pass.old pass.new }
        ensures turn { (view pass.old).tries < (view pass.new).tries }
        ensures idle { (view pass.new).has_turn ≡ false }
        ensures column { IfOk result (λ column.
            IsColumnAt (setting_of self.now) (key_along walk.now symbol) (arc_value column)) }
        ensures published { OnOk result
            (is_published (view pass.new).seen (key_along walk.now symbol) ≡ true) }
        ensures made { OnOk result
            (MayPublish (key_along walk.now symbol) (view pass.old) (view pass.new)) }
        ensures refused { OnErr result
            (MayAbandon (key_along walk.now symbol) (view pass.old) (view pass.new)) }
        ensures settled { LeavesNoClaim (view pass.old) (view pass.new) }
        ensures own { AddsOnly (key_along walk.now symbol) (view pass.old) (view pass.new) }
    {
        let mut yields = 1;
        for _ in rt.forever() {
            if let Some(column) = self.try_column(rt, alloc, pass, space, walk, symbol, gate)? {
                return Ok(column);
            }
            yields = pause(yields);
        }
        unreachable!()
    }

    /// One look alone, which does not wait for another session: `None` where the unsettled claim of
    /// another session stands on the column at the turn of this call. Else as `column_along`. So a
    /// session that needs many columns goes on to the next one, and comes back to this one.
    pub fn try_column<R: Wait, G: Gate>(
        &self,
        rt: &R,
        alloc: Global,
        pass: &mut Pass<FlightState>,
        space: &Space,
        walk: &Walk<'_>,
        symbol: u32,
        gate: &G,
    ) -> Result<Option<Arc<Column>>, OutOfMemory>
        requires board { IsOf (board_of self.now) pass.old }
        requires idle { (view pass.old).has_turn ≡ false }
        requires space { space.now ≡ setting_of self.now }
        requires walk { IsWalk space.now.level walk.now }
        requires place { symbol < length (symbols space.now.level) }
        requires coprime { gcd (walk_number walk.now) space.now.level ≡ 1 }
        requires unclaimed { claimer (view pass.old).seen (key_along walk.now symbol)
            ≢ Some ((view pass.old).number + 1) }
        ensures later { Continues pass.old pass.new }
        ensures turn { (view pass.old).tries < (view pass.new).tries }
        ensures idle { (view pass.new).has_turn ≡ false }
        ensures column { IfOk result (λ found. IfSome found (λ column.
            IsColumnAt (setting_of self.now) (key_along walk.now symbol) (arc_value column))) }
        ensures published { IfOk result (λ found. IfSome found (λ _.
            is_published (view pass.new).seen (key_along walk.now symbol) ≡ true)) }
        ensures elsewhere { IfOk result (λ found. IsNone found →
            IsElsewhere (key_along walk.now symbol) (view pass.old) (view pass.new)) }
        ensures made { OnOk result
            (MayPublish (key_along walk.now symbol) (view pass.old) (view pass.new)) }
        ensures refused { OnErr result
            (MayAbandon (key_along walk.now symbol) (view pass.old) (view pass.new)) }
        ensures settled { LeavesNoClaim (view pass.old) (view pass.new) }
        ensures own { AddsOnly (key_along walk.now symbol) (view pass.old) (view pass.new) }
    {
        self.visit(rt, alloc, pass, space, walk, symbol, gate)
    }
}

// Lets other threads run, so often, and answers how often the next time.
fn pause(yields: u32) -> u32
    requires { yields ≤ MAX_YIELDS }
    ensures { result ≤ MAX_YIELDS }
{
    for _ in 0..yields {
        yield_now();
    }
    (2 * yields).min(MAX_YIELDS)
}
