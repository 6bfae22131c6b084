//! A counted history that threads share in turns. A board keeps one state, which stands for a list
//! of entries. Each of its passes knows how much of that list it has seen, whether it has the turn,
//! and what its tries of the turn and its loads of the count have found.
//!
//! A board has two words, the count of the entries and the turn, and one slot, the state's home. Its
//! rule (`BoardHistory`) holds between any two steps of any threads.
#![tactic(auto)]

// What a board hands out. A `Held` has no `Drop`, so it cannot be let go. A pass that is let go keeps
// its board from being closed.
//
// token    made by             ended by    so that no thread forgets to
// Pass     open                close       say at the end what it has seen
// Held     try_take, take      give        give the turn back, and the state with it
// Board    open                close       let the state out, once all passes are back

mod board;
mod closing;
mod fault;
mod held;
mod kept;
mod lent;
mod pass;
mod plays;
mod sharing;
mod turns;
mod view;

pub use board::Board;
pub use fault::{BoardFault, Busy};
pub use held::Held;
pub use kept::Kept;
pub use pass::Pass;
pub use view::{Past, View};
