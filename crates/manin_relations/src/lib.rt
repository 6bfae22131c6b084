//! The two-term and three-term relations between the symbols of a level, as sparse rows, and what
//! combinations of them are worth at a symbol. Congruence modulo all of them is defined here, so that
//! crates can speak of the quotient without computing in it.
#![tactic(auto)]

mod combination;
mod laws;
mod list;
mod row;

pub use combination::combination_at;
pub use laws::{relations_are_congruent_to_zero, relations_have_length_m};
pub use list::Relations;
pub use row::{relation, relation_at};
