//! The core that sessions share, as a pure function of an interleaving that is given as a list of
//! steps: the flights of columns and the history of splits of one space.
#![tactic(auto)]

mod claims;
mod fault;
mod laws;
mod learning;
mod learnt;
mod legal;
mod machine;
mod operators;
mod run;
mod step;

pub use fault::EventFault;
pub use laws::{runs_are_exact, sessions_learn_more};
pub use run::{CoreRun, run_events};
pub use step::{Act, CoreStep, Outcome};
