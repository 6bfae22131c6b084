//! Tests of prime fields, symbols, relations and cusps. It has nothing but tests.
#![tactic(auto)]

#[cfg(test)]
mod cusps;
#[cfg(test)]
mod fields;
#[cfg(test)]
mod points;
#[cfg(test)]
mod relations;
