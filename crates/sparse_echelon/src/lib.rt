//! Elimination of rows over a prime field: the places that are greatest in some combination of them, the rows that earlier
//! ones don't span, and the one member of a class without those places, with the coefficients that lead to it. It knows
//! nothing of where the rows come from.
#![tactic(auto)]

mod clearing;
mod echelon;
mod elimination;
mod occurrences;
mod repeats;
mod row_numbers;
mod selection;
mod spreading;
mod stored;

pub use echelon::{Echelon, eliminate};
