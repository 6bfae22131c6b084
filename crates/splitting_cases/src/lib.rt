//! Tests of the crates that split a space: matrices, polynomials in an operator, Fitting's parts, operators on a
//! space and splittings. It has nothing but tests.
#![tactic(auto)]

#[cfg(test)]
mod fitting;
#[cfg(test)]
mod hecke_polynomials;
#[cfg(test)]
mod matrices;
#[cfg(test)]
mod operators;
#[cfg(test)]
mod polynomials;
#[cfg(test)]
mod splittings;
