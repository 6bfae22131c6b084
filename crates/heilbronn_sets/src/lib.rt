//! Sets of integer matrices of one determinant, and Merel's set of each determinant, which makes the
//! Hecke operators of the symbols.
#![tactic(auto)]

mod laws;
mod matrix_set;
mod merel;
mod sharing;

pub use laws::{merel_laws, merel_order, small_sets};
pub use matrix_set::{MatrixSet, SetFault};
pub use merel::merel_set;
