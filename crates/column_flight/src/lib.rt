//! Flights: which session computes which Hecke column, so that each is computed once. A state keeps
//! the list of claims, publications and abandonments, and the columns that were published; threads
//! share it in turns.
#![tactic(auto)]

mod columns;
mod event;
mod flights;
mod gate;
mod laws;
mod look;
mod places;
mod sharing;
mod state;
mod turns;

pub use event::{FlightEvent, FlightKey};
pub use flights::Flights;
pub use gate::{Gate, GatePoint, NoGate};
pub use laws::{
    a_look_claims_at_most_its_key, each_column_is_published_once, publications_are_counted,
    readers_have_one_column,
};
pub use look::{Look, Ticket};
pub use state::FlightState;
