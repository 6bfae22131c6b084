ghost use Rattle.turn_board.specs.History.{BoardHistory};
ghost use Rattle.turn_board.specs.Plays.{Adds, Counts, Gives, Tries};
ghost use Rattle.turn_board.specs.Views.{dealt, merged, next_view, opening_view, spent_view};

use crate::kept::Kept;
use crate::view::View;
use atomic_table::{Join, Play, Split, TableRule};
use std::snapshot::Snapshot;

/// The rule of a board, which is told the opening state and the number of passes.
pub struct Order;

impl<S: Kept> TableRule<Option<S>, View<S::Entry>, (Snapshot<S>, u32)> for Order {
    ghost holds = { λ about s.
        BoardHistory (S.entries 0) S.maker S.label (S.label about.0.value) about.1 s };

    ghost first = { λ about. opening_view (S.label about.0.value) about.1 };
}

/// One load of the count.
pub struct Load;

impl<S: Kept> Play<Option<S>, View<S::Entry>> for Load {
    ghost then = { λ _. Counts (S.entries 0) S.maker S.label };
}

/// One try of the turn word.
pub struct Try;

impl<S: Kept> Play<Option<S>, View<S::Entry>> for Try {
    ghost then = { λ _. Tries (S.entries 0) S.maker S.label };
}

/// One entry joins the history.
pub struct Add;

impl<S: Kept> Play<Option<S>, View<S::Entry>> for Add {
    ghost then = { λ _ v _ w. Adds (S.entries 0) S.maker S.label v w };
}

/// The turn is given back.
pub struct Give;

impl<S: Kept> Play<Option<S>, View<S::Entry>> for Give {
    ghost then = { λ _ v _ w. Gives (S.entries 0) S.maker S.label v w };
}

/// A new pass gets the next number.
pub struct Deal;

impl<E> Split<View<E>> for Deal {
    ghost left = { dealt };

    ghost right = { next_view };
}

/// One pass is joined into another.
pub struct Merge;

impl<E> Join<View<E>> for Merge {
    ghost both = { merged };

    ghost spent = { spent_view };
}
