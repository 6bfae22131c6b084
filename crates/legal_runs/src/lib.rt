//! What every legal run of a script keeps, whatever host made it. It has nothing but laws.
#![tactic(auto)]

mod laws;
mod operators;

pub use laws::{
    columns_are_bounded, generated_texts_are_read, legal_runs_agree, legal_runs_can_be_read,
};
pub use operators::operators_are_never_refused;
