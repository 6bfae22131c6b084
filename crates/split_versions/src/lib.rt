//! Versions: the one history of accepted splits of a space, and the newest splitting, which is the fold of it.
#![tactic(auto)]

mod fault;
mod laws;
mod sharing;
mod state;
mod versions;

pub use fault::{CommitFault, Freshness};
pub use laws::versions_of_prefixes;
pub use state::VersionState;
pub use versions::Versions;
