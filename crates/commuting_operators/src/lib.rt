//! Hecke operators whose index is coprime to the level, and the star involution: Merel's sets keep
//! the relations, so that such an operator is never refused, the matrices of any two commute, and
//! that of T_n is a polynomial in those of the T_q for the primes q that divide n. Definitions and
//! proofs alone: each function is a law, stated by its contract.
#![tactic(auto)]

mod laws;
mod polynomials;

pub use laws::{merel_sets_are_never_refused, operators_commute};
pub use polynomials::matrices_are_polynomials;
