ghost use Rattle.std.specs.Prelude.{None, Some, ◌≡◌, ◌<◌, ◌≤◌, ◌+◌, ◌∷◌, [], true, false, length, IfOk, IfErr, OnErr};
ghost use Rattle.turn_board.specs.Passes.{Continues, Gives, IsBusy, IsOf, MayGive, Takes, state_of, view};
ghost use Rattle.turn_board.specs.Plays.{Adds, MayAdd};
ghost use Rattle.turn_board.specs.Views.{counted};

use crate::board::Board;
use crate::fault::Busy;
use crate::held::Held;
use crate::kept::Kept;
use crate::pass::Pass;
use crate::plays::{Add, Give, Load, Try};
use crate::view::View;
use atomic_table::Seat;
use std::sync::Wait;
use std::thread::yield_now;

impl<S: Kept> Board<S> {
    /// One load of the count word, which the view counts: how many entries the history had then. It
    /// is no less than the pass has seen, and with the turn it is just that.
    pub fn count(&self, pass: &mut Pass<S>) -> u64
        requires board { IsOf self.now pass.old }
        ensures later { Continues pass.old pass.new }
        ensures view { view pass.new ≡ counted (view pass.old) result }
        ensures within { length (view pass.old).seen ≤ result }
        ensures whole { (view pass.old).has_turn ≡ true → result ≡ length (view pass.old).seen }
    {
        self.table.shared.load::<Load>(&mut pass.seat, 0)
    }

    /// One try of the turn word: a compare and exchange of 0 with the pass's number plus 1. It does
    /// not wait. `Busy` comes where the word found was not 0: it is the number plus 1 of another
    /// pass, so that a board with one pass never answers it. With the turn comes the state, whose
    /// list begins with what the pass had seen, and is now seen.
    pub fn try_take(&self, pass: &mut Pass<S>) -> Result<Held<S>, Busy>
        requires board { IsOf self.now pass.old }
        requires idle { (view pass.old).has_turn ≡ false }
        ensures later { Continues pass.old pass.new }
        ensures busy { IfErr result (λ busy. IsBusy pass.old busy.by pass.new) }
        ensures shared { OnErr result (1 < (view pass.old).passes) }
        ensures ok { IfOk result (λ held. Takes self.now pass.old held pass.new) }
        ensures once { (view pass.new).tries ≡ (view pass.old).tries + 1 }
    {
        let seat = u64::from(pass.number) + 1;
        let found = self
            .table
            .shared
            .compare_exchange::<Try>(&mut pass.seat, 1, 0, seat);
        if found != 0 {
            return Err(Busy { by: found as u32 });
        }
        match self.table.shared.exchange(&mut pass.seat, 0, None) {
            Some(state) => {
                pass.seen_length = state.length();
                Ok(Held { state })
            }
            None => unreachable!(),
        }
    }

    /// Tries until it has the turn, and lets other threads run after each try that missed. Nothing
    /// says that it returns.
    pub fn take<R: Wait>(&self, rt: &R, pass: &mut Pass<S>) -> Held<S>
        requires board { IsOf self.now pass.old }
        requires idle { (view pass.old).has_turn ≡ false }
        ensures later { Continues pass.old pass.new }
        ensures ok { Takes self.now pass.old result pass.new }
    {
        for _ in rt.forever() {
            match self.try_take(pass) {
                Ok(held) => return held,
                Err(_) => yield_now(),
            }
        }
        unreachable!()
    }

    /// Gives the turn back, and the state with one entry more or none: an entry more is counted by
    /// one addition to the count word, before the turn is free.
    pub fn give(&self, pass: &mut Pass<S>, held: Held<S>)
        requires board { IsOf self.now pass.old }
        requires turn { (view pass.old).has_turn ≡ true }
        requires label { S.label (state_of held) ≡ (view pass.old).label }
        requires entries { MayGive pass.old held }
        ensures later { Continues pass.old pass.new }
        ensures given { Gives pass.old held pass.new }
    {
        let Held { state } = held;
        let length = state.length();
        let grows = length > pass.seen_length;
        self.put_back(&mut pass.seat, state);
        self.add_entry(&mut pass.seat, grows);
        self.table.shared.store::<Give>(&mut pass.seat, 1, 0);
        pass.seen_length = length;
    }

    // The state goes back into the slot that the seat holds.
    fn put_back(&self, seat: &mut Seat<Option<S>, View<S::Entry>>, state: S)
        requires board { seat.old.table_id ≡ self.now.table.shared.table_id }
        requires hand { seat.old.me.1 ≡ (0, None) ∷ [] }
        ensures seat { (seat.new.table_id ≡ seat.old.table_id) × (seat.new.id ≡ seat.old.id) }
        ensures view { seat.new.me.0 ≡ seat.old.me.0 }
        ensures hand { seat.new.me.1 ≡ (0, Some state) ∷ [] }
    {
        let _ = self.table.shared.exchange(seat, 0, Some(state));
    }

    // The entry of the state in hand, if it has one more than was seen, joins the history.
    fn add_entry(&self, seat: &mut Seat<Option<S>, View<S::Entry>>, grows: bool)
        requires board { seat.old.table_id ≡ self.now.table.shared.table_id }
        requires turn { (seat.old.me.0.is_live ≡ true) × (seat.old.me.0.has_turn ≡ true) }
        requires hand { MayAdd (S.entries 0) S.maker S.label seat.old.me grows }
        ensures seat { (seat.new.table_id ≡ seat.old.table_id) × (seat.new.id ≡ seat.old.id) }
        ensures added { Adds (S.entries 0) S.maker S.label seat.old.me seat.new.me }
    {
        if grows {
            self.table.shared.fetch_add::<Add>(seat, 0, 1);
        }
    }
}
