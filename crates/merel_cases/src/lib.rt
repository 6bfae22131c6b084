//! Tests of Merel's theorem and of what follows for Hecke operators: the laws are called, the program
//! gives the same numbers on both sides of them, and numbers at which they are false without a
//! premise. It has nothing but tests.
#![tactic(auto)]

#[cfg(test)]
mod laws;
#[cfg(test)]
mod operators;
#[cfg(test)]
mod premises;
