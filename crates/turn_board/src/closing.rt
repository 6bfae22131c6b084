ghost use Rattle.std.specs.Prelude.{◌≡◌, ◌<◌, ℕ, true, false, vec_len};
ghost use Rattle.std.specs.List.{All, AllByRecursion};
ghost use mathlib.Core.List.{IsPrefix};
ghost use Rattle.turn_board.specs.Passes.{AreAll, IsAccounted, IsOf, opening_state, view};
ghost use Rattle.turn_board.specs.Views.{IsAmong, past_of, pasts};

use crate::board::Board;
use crate::kept::Kept;
use crate::pass::Pass;
use crate::plays::Merge;
use crate::view::View;
use atomic_table::Seat;

impl<S: Kept> Board<S> {
    /// The state, once all passes are back, in any order. Each entry names one of them and stands in
    /// the list that this one has seen, at its place; so none was lost, made up or counted twice.
    pub fn close(self, passes: Vec<Pass<S>>) -> S
        requires board { All (IsOf self) passes.items }
        requires all { AreAll self passes.items }
        requires idle { All (λ pass. (view pass).has_turn ≡ false) passes.items }
        ensures label { S.label result ≡ S.label (opening_state self) }
        ensures seen { All (λ pass. IsPrefix (view pass).seen (S.entries 0 result)) passes.items }
        ensures made { IsAccounted passes.items result }
    {
        let seat = self.join_all(passes);
        let Board { table } = self;
        let mut closed = table.close_with(seat);
        let home = closed.take(0);
        closed.free();
        match home {
            Some(state) => state,
            None => unreachable!(),
        }
    }

    // All passes are joined into one.
    fn join_all(&self, mut passes: Vec<Pass<S>>) -> Seat<Option<S>, View<S::Entry>>
        requires some { 0 < vec_len passes }
        requires board { All (IsOf self.now) passes.items }
        requires idle { All (λ pass. (view pass).has_turn ≡ false) passes.items }
        ensures seat { result.table_id ≡ self.now.table.shared.table_id }
        ensures view { (result.me.0.is_live ≡ true) × (result.me.0.has_turn ≡ false) }
        ensures kept { AllByRecursion (λ pass.
            IsAmong (past_of (view pass)) (pasts result.me.0)) passes.items }
    {
        let Some(first) = passes.pop() else {
            unreachable!()
        };
        let mut seat = first.into_seat();
        while let Some(pass) = passes.pop() {
            self.table
                .shared
                .join_seat::<Merge>(&mut seat, pass.into_seat());
        }
        seat
    }
}
