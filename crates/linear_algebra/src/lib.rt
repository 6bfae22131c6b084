// The laws of linear algebra over a prime field: residues, vectors, combinations of rows, spans, dimension,
// echelon forms, and coordinates modulo rows, over any width and any prime. Definitions and proofs alone:
// each function is a law, stated by its contract.
#![tactic(auto)]

mod classes;
mod lists;
mod subspaces;

pub use classes::{
    bound_places, coordinates_are_unique, free_places_and_rank, kept_coefficients_are_unique,
    kept_rows_are_a_basis, pivots_are_leads, reductions_are_unique,
};
pub use lists::{dense_lists_are_unique, sparse_lists_are_unique};
pub use subspaces::{
    bases_have_one_size, equal_size_is_equality, independent_rows_are_few,
    one_reduced_echelon_basis, spans_are_transitive,
};
