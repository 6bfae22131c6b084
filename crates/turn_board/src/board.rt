ghost use Rattle.std.specs.Prelude.{Some, ◌≡◌, ◌+◌, ◌<◌, ◌≤◌, [], ◌∷◌, true, false, ℕ, vec_len, vec_capacity, IfOk, IfErr};
ghost use Rattle.std.specs.List.{AllZip, range_with_len};

use crate::fault::BoardFault;
use crate::kept::Kept;
use crate::pass::Pass;
use crate::plays::{Deal, Order};
use crate::view::View;
use atomic_table::{Refused, Seat, Table};
use std::alloc::Global;
use std::snapshot::Snapshot;

/// A board: a state that threads take in turns.
#[derive(Drop)]
pub struct Board<S: Kept> {
    pub(crate) table: Table<Option<S>, View<S::Entry>, (Snapshot<S>, u32), Order, Global>,
    ghost sized: { (table.shared.table_id.words ≡ 2) × (table.shared.table_id.slots ≡ 1) },
    ghost some: { 1 ≤ table.shared.key.1 },
}

impl<S: Kept> Board<S> {
    ghost use Rattle.turn_board.specs.Passes.{IsNew, opening_state, pass_count};
    ghost use Rattle.turn_board.specs.Views.{new_view};
    ghost use Rattle.turn_board.specs.declared.fault.BoardFault.TheVariants.{OutOfMemory};

    /// A board of this state, which stands for no entry yet, and its passes, numbered from 0. Where
    /// memory is refused the state comes back. The calls with a pass take no memory.
    pub fn open(
        alloc: Global,
        state: S,
        passes: u32,
    ) -> Result<(Board<S>, Vec<Pass<S>>), BoardFault<S>>
        requires some { 1 ≤ passes }
        requires empty { S.entries 0 state ≡ [] }
        ensures refused { IfErr result (λ fault. fault ≡ OutOfMemory state) }
        ensures state { IfOk result (λ opened. opening_state opened.0 ≡ state) }
        ensures count { IfOk result (λ opened. pass_count opened.0 ≡ passes) }
        ensures passes { IfOk result (λ opened.
            AllZip (IsNew opened.0) (range_with_len 0 passes) opened.1.items) }
    {
        let Ok(mut list) = Vec::with_capacity(alloc, passes as usize) else {
            return Err(BoardFault::OutOfMemory { state });
        };
        let (board, dealer) = Board::lay(alloc, state, passes)?;
        board.deal(dealer, &mut list, passes);
        Ok((board, list))
    }

    // The board with its first seat.
    fn lay(
        alloc: Global,
        state: S,
        passes: u32,
    ) -> Result<(Board<S>, Seat<Option<S>, View<S::Entry>>), BoardFault<S>>
        requires some { 1 ≤ passes }
        requires empty { S.entries 0 state ≡ [] }
        ensures refused { IfErr result (λ fault. fault ≡ OutOfMemory state) }
        ensures state { IfOk result (λ laid. opening_state laid.0 ≡ state) }
        ensures count { IfOk result (λ laid. pass_count laid.0 ≡ passes) }
        ensures seat { IfOk result (λ laid.
            (laid.1.table_id ≡ laid.0.table.shared.table_id) × (laid.1.id ≡ 0)) }
        ensures view { IfOk result (λ laid.
            laid.1.me ≡ (new_view (S.label (opening_state laid.0)) (pass_count laid.0) 0 1, [])) }
    {
        let Ok(mut slots) = Vec::with_capacity(alloc, 1) else {
            return Err(BoardFault::OutOfMemory { state });
        };
        let about = (Snapshot::of(&state), passes);
        slots.push_reserved(Some(state));
        match Table::new(alloc, &[0, 0], slots, &about) {
            Ok((table, seat)) => Ok((Board { table }, seat)),
            Err(Refused { mut slots }) => match slots.pop() {
                Some(Some(state)) => Err(BoardFault::OutOfMemory { state }),
                _ => unreachable!(),
            },
        }
    }

    // Gives each of the other numbers to a new pass.
    fn deal(
        &self,
        mut dealer: Seat<Option<S>, View<S::Entry>>,
        list: &mut Vec<Pass<S>>,
        passes: u32,
    )
        requires count { (1 ≤ passes) × (pass_count self.now ≡ passes) }
        requires room { (list.old.items ≡ []) × (passes ≤ vec_capacity list.old) }
        requires seat { (dealer.table_id ≡ self.now.table.shared.table_id) × (dealer.id ≡ 0) }
        requires view { dealer.me
            ≡ (new_view (S.label (opening_state self.now)) (pass_count self.now) 0 1, []) }
        ensures { AllZip (IsNew self.now) (range_with_len 0 passes) list.new.items }
    {
        for number in 1..passes {
            let seat = self.table.shared.split_seat::<Deal>(&mut dealer);
            list.push_reserved(Pass {
                number,
                seen_length: 0,
                seat,
            });
        }
        let first = Pass {
            number: 0,
            seen_length: 0,
            seat: dealer,
        };
        if list.insert(0, first).is_err() {
            unreachable!();
        }
    }
}
