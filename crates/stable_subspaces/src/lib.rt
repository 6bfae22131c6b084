// The laws of subspaces that an operator keeps: powers of a matrix, polynomials in it, Fitting's two parts,
// direct sums and their refinement, over any width and any prime field. Definitions and proofs alone:
// each function is a law, stated by its contract.
#![tactic(auto)]

mod laws;

pub use laws::{
    commuting_operators_keep_the_parts, fitting_pairs_are_direct_sums, fitting_parts_are_unique,
    refined_sums_are_direct,
};
