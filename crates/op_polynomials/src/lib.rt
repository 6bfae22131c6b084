//! Operators by name and polynomials by their coefficients, as plain data that can
//! be copied and compared: what a split of a space is asked for, and what a shared
//! history of splits holds.
#![tactic(auto)]

mod entry;
mod name;
mod poly;
mod values;

pub use entry::SplitEntry;
pub use name::OpName;
pub use poly::{MAX_COEFFICIENTS, Poly, PolyFault, limit_values};
