//! The host: it reads a script, works out the reply to each command and writes the transcript; or it makes a
//! script from a number, and writes a summary. `run` is the top call, with the words of the command line, the
//! input and the output handed in, and carries the promise that the bytes written are the transcript of the
//! bytes read, or the summary of a run of the script of the number.
#![tactic(auto)]

mod gathering;
mod generation;
mod host;
mod laws;
mod program;
mod reading;
mod serve;
mod session;
mod sessions;
mod sharing;
mod solo;
mod status;
mod top;
mod transcript;
mod words;
mod work;

pub use column_flight::{Gate, GatePoint, NoGate};
pub use host::run_host;
pub use laws::{limits, shared_runs_are_legal};
pub use program::run_program;
pub use session::run_session;
pub use sessions::run_sessions;
pub use shared_core::{Act, CoreRun, CoreStep, EventFault, Outcome, run_events};
pub use solo::run_solo;
pub use status::{MAX_INPUT, Status};
pub use top::run;
pub use work::{SessionWork, SpaceBoards};
