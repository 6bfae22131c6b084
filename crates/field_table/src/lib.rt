//! The prime fields of the table: residues, the loops over lists of residues, and combinations of places.
#![tactic(auto)]

mod combo;
mod dispatch;
mod field;
mod gather;
mod kernel;
mod laws;
mod memory;
mod modulo;
mod multiple;
mod place_table;
mod products;
mod residues;
mod search;
mod sums;
mod table;

pub use combo::Combo;
pub use dispatch::{axpy, axpy_sparse, dot, scale};
pub use field::{Field, FieldFault};
pub use kernel::Kernel;
pub use laws::{characteristics_are_primes, nonzero_residues_have_inverses, stretches_fit};
pub use memory::OutOfMemory;
pub use place_table::PlaceTable;
pub use products::STRETCH;
pub use residues::Residues;
pub use sums::{plus_multiple, product};
pub use table::{CHARACTERISTIC_LIMIT, CHARACTERISTICS};
