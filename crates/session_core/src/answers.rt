//! The answers to commands that nothing refuses, each family in a module of its own.

pub mod coordinates;
pub mod cusps;
pub mod hecke;
pub mod operators;
pub mod points;
pub mod splits;
