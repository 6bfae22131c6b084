//! Tests of the host: replies to commands, and whole runs from a script to its transcript. It has nothing but tests.
#![tactic(auto)]

#[cfg(test)]
mod commands;
#[cfg(test)]
mod runs;
