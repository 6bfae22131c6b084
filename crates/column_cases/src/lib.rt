//! Tests of Merel's sets, of their chains and of Hecke columns. It has nothing but tests.
#![tactic(auto)]

#[cfg(test)]
mod chain_walks;
#[cfg(test)]
mod columns;
#[cfg(test)]
mod merel_sets;
