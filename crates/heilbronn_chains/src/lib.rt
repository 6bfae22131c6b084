//! Chains of Merel's matrices: each member of Merel's set stands in exactly one chain, and the
//! chains of determinant n are the lattices of index n, one for each.
#![tactic(auto)]

mod chain;
mod laws;
mod lists;
mod step;

pub use chain::Chain;
pub use laws::{chain_laws, end_laws, lattice_laws, start_laws, step_laws, turn_laws};
pub use lists::{chains, merel_by_chains, starts};
pub use step::next;
