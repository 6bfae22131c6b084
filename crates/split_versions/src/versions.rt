ghost use Rattle.std.specs.Prelude.{◌≡◌, ◌<◌, ◌≤◌, ◌+◌, ◌++◌, ◌∷◌, [], ℕ, Err, false, IfOk, length, take};
ghost use Rattle.std.specs.Arc.{arc_value};
ghost use Rattle.std.specs.List.{All, AllZip, range_with_len};
ghost use mathlib.Core.List.{IsPrefix};
ghost use Rattle.turn_board.specs.Passes.{AreAll, Continues, IsAccounted, IsNew, IsOf, opening_state, pass_count, view};
ghost use Rattle.turn_board.specs.Views.{HasSeen, counted};
ghost use Rattle.split_state.specs.Versions.{IsVersion};
ghost use Rattle.reply_text.specs.declared.limits.TheConstants.{MAX_VERSIONS};
ghost use Rattle.split_versions.specs.Histories.{AreVersions, maker_of};
ghost use Rattle.split_versions.specs.Shared.{Commits, HasTurned, board_of, freshness, setting_of};

use crate::fault::{CommitFault, Freshness};
use crate::state::VersionState;
use field_table::OutOfMemory;
use op_polynomials::SplitEntry;
use quotient_coords::Space;
use split_state::Splitting;
use std::alloc::Global;
use std::sync::{Arc, Wait};
use turn_board::{Board, BoardFault, Pass};

/// The accepted splits of a space, which threads share in turns.
#[derive(Drop)]
pub struct Versions {
    board: Board<VersionState>,
}

impl Versions {
    /// The history of no entry of the space, and its passes from number 0 on.
    pub fn open(
        alloc: Global,
        space: &Space,
        passes: u32,
    ) -> Result<(Versions, Vec<Pass<VersionState>>), OutOfMemory>
        requires some { 1 ≤ passes }
        ensures state { IfOk result (λ opened. opening_state (board_of opened.0)
            ≡ record { entries = []; setting = space.now }) }
        ensures count { IfOk result (λ opened. pass_count (board_of opened.0) ≡ passes) }
        ensures passes { IfOk result (λ opened.
            AllZip (IsNew (board_of opened.0)) (range_with_len 0 passes) opened.1.items) }
    {
        let state = VersionState::new(alloc, space)?;
        match Board::open(alloc, state, passes) {
            Ok((board, list)) => Ok((Versions { board }, list)),
            Err(BoardFault::OutOfMemory { state: _ }) => Err(OutOfMemory),
        }
    }

    /// The board.
    pub fn board(&self) -> &Board<VersionState>
        ensures { result.now ≡ board_of self.now }
    {
        &self.board
    }

    /// The history, once all passes are back. Each entry names one of them and stands in the list that this one
    /// has seen, at its place.
    pub fn close(self, passes: Vec<Pass<VersionState>>) -> VersionState
        requires board { All (IsOf (board_of self)) passes.items }
        requires all { AreAll (board_of self) passes.items }
        requires idle { All (λ pass. (view pass).has_turn ≡ false) passes.items }
        ensures setting { result.setting ≡ setting_of self }
        ensures few { length result.entries ≤ MAX_VERSIONS }
        ensures versions { AreVersions (setting_of self) result.entries }
        ensures seen { All (λ pass. IsPrefix (view pass).seen result.entries) passes.items }
        ensures made { IsAccounted passes.items result }
    {
        let Versions { board } = self;
        let state = board.close(passes);
        let _ = state.entries();
        state
    }

    /// The number of entries, and the version of them, at a turn of this call. It appends nothing. Where
    /// it is refused, the pass may have seen more.
    pub fn current<R: Wait>(
        &self,
        rt: &R,
        pass: &mut Pass<VersionState>,
    ) -> Result<(u32, Arc<Splitting>), OutOfMemory>
        requires board { IsOf (board_of self.now) pass.old }
        requires idle { (view pass.old).has_turn ≡ false }
        ensures later { Continues pass.old pass.new }
        ensures turn { HasTurned (view pass.old) (view pass.new) }
        ensures none { HasSeen maker_of (view pass.old).number (view pass.old).seen (view pass.new).seen }
        ensures count { IfOk result (λ current. current.0 ≡ length (view pass.new).seen) }
        ensures few { IfOk result (λ current. current.0 ≤ MAX_VERSIONS) }
        ensures newest { IfOk result (λ current.
            IsVersion (setting_of self.now) (view pass.new).seen (arc_value current.1)) }
    {
        let mut held = self.board.take(rt, pass);
        let current = held.state().current();
        self.board.give(pass, held);
        current
    }

    /// Commits an entry at a turn of this call, as the state does: `seen` entries were seen, and `next` is
    /// the version that it makes of theirs.
    pub fn commit<R: Wait>(
        &self,
        rt: &R,
        pass: &mut Pass<VersionState>,
        seen: u32,
        entry: SplitEntry,
        next: Arc<Splitting>,
    ) -> Result<u32, CommitFault>
        requires board { IsOf (board_of self.now) pass.old }
        requires idle { (view pass.old).has_turn ≡ false }
        requires seen { seen ≤ length (view pass.old).seen }
        requires next { IsVersion (setting_of self.now)
            (take seen (view pass.old).seen ++ entry ∷ []) (arc_value next) }
        requires maker { entry.session ≡ (view pass.old).number + 1 }
        ensures later { Continues pass.old pass.new }
        ensures turn { HasTurned (view pass.old) (view pass.new) }
        ensures commits { Commits (view pass.old) seen entry result (view pass.new) }
        ensures full { result ≡ Err CommitFault.Full → seen ≡ MAX_VERSIONS }
        ensures stale { (count : ℕ) → result ≡ Err (CommitFault.Stale count) →
            (seen < count) × (count ≤ MAX_VERSIONS) }
    {
        let mut held = self.board.take(rt, pass);
        let answer = held.state().commit(seen, entry, next);
        self.board.give(pass, held);
        answer
    }

    /// Whether entries were added since the pass looked, by one load of the count. It takes no turn.
    pub fn newer(&self, pass: &mut Pass<VersionState>) -> Freshness
        requires board { IsOf (board_of self.now) pass.old }
        ensures later { Continues pass.old pass.new }
        ensures load { view pass.new ≡ counted (view pass.old) (view pass.new).counted }
        ensures answer { result ≡ freshness (length (view pass.old).seen) (view pass.new).counted }
    {
        let seen = pass.seen_length();
        let count = self.board.count(pass);
        if seen < count {
            Freshness::Newer { count }
        } else {
            Freshness::Same
        }
    }
}
