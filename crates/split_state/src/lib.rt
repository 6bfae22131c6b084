//! Splittings of the space of vectors of one length into parts that commuting operators keep, and
//! their refinement by a polynomial in one operator more; and the versions that lists of such steps
//! make of a space of modular symbols.
#![tactic(auto)]

mod difference;
mod fault;
mod laws;
mod refining;
mod sharing;
mod splitting;

pub use fault::RefineFault;
pub use laws::{
    first_differences_are_unique, steps_are_unique, steps_exist, steps_keep_splittings,
    versions_are_splittings, versions_are_unique, versions_exist, versions_grow_by_steps,
    versions_list_operators,
};
pub use splitting::Splitting;
