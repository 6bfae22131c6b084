//! The host of one thread: a command line is prepared, which tells its first refusal or the columns that it demands,
//! and finished from a source of these columns. `Host` does both for the lines of all sessions, one after another.
#![tactic(auto)]

mod answers;
mod column_table;
mod demand;
mod finishing;
mod host;
mod laws;
mod outcome;
mod prepared;
mod preparing;
mod terms;

pub use demand::Demand;
pub use finishing::finish;
pub use host::Host;
pub use laws::{
    columns_are_demanded, images_are_sums, legal_histories_are_versions, one_session_runs_are_solo,
    solo_runs_are_legal, solo_runs_are_unique,
};
pub use outcome::Finish;
pub use prepared::Prepared;
pub use preparing::prepare;
