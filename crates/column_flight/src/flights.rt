ghost use Rattle.std.specs.Prelude.{◌≡◌, ◌≤◌, [], false, IfOk};
ghost use Rattle.std.specs.List.{All, AllZip, range_with_len};
ghost use mathlib.Core.List.{IsPrefix};
ghost use Rattle.turn_board.specs.Passes.{AreAll, IsAccounted, IsNew, IsOf, opening_state, pass_count, view};
ghost use Rattle.column_flight.specs.Shared.{board_of, setting_of};

use crate::state::FlightState;
use field_table::OutOfMemory;
use quotient_coords::Space;
use std::alloc::Global;
use turn_board::{Board, BoardFault, Pass};

/// The flights of a space's columns, which threads share in turns.
#[derive(Drop)]
pub struct Flights {
    pub(crate) board: Board<FlightState>,
}

impl Flights {
    /// The flights of no event, for the columns of the space, and their passes from number 0 on.
    pub fn open(
        alloc: Global,
        space: &Space,
        passes: u32,
    ) -> Result<(Flights, Vec<Pass<FlightState>>), OutOfMemory>
        requires some { 1 ≤ passes }
        ensures state { IfOk result (λ opened.
            opening_state (board_of opened.0) ≡ record { events = []; setting = space.now }) }
        ensures count { IfOk result (λ opened. pass_count (board_of opened.0) ≡ passes) }
        ensures passes { IfOk result (λ opened.
            AllZip (IsNew (board_of opened.0)) (range_with_len 0 passes) opened.1.items) }
    {
        let state = FlightState::new(alloc, space);
        match Board::open(alloc, state, passes) {
            Ok((board, list)) => Ok((Flights { board }, list)),
            Err(BoardFault::OutOfMemory { state: _ }) => Err(OutOfMemory),
        }
    }

    /// The board.
    pub fn board(&self) -> &Board<FlightState>
        ensures { result.now ≡ board_of self.now }
    {
        &self.board
    }

    /// The flights, once all passes are back, in any order. The events begin with what each pass has
    /// seen, and each of them names one of the passes and stands at its place in what this one has seen.
    pub fn close(self, passes: Vec<Pass<FlightState>>) -> FlightState
        requires board { All (IsOf (board_of self)) passes.items }
        requires all { AreAll (board_of self) passes.items }
        requires idle { All (λ pass. (view pass).has_turn ≡ false) passes.items }
        ensures setting { result.setting ≡ setting_of self }
        ensures seen { All (λ pass. IsPrefix (view pass).seen result.events) passes.items }
        ensures made { IsAccounted passes.items result }
    {
        let Flights { board } = self;
        board.close(passes)
    }
}
