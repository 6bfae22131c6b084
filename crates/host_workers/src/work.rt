use column_flight::{FlightState, Flights};
use quotient_coords::Space;
use reply_text::{ReplyLine, Sessions};
use split_versions::{VersionState, Versions};
use turn_board::Pass;

/// A space with what its sessions share: the columns that are computed once, and the one history of splits.
#[derive(Drop)]
pub struct SpaceBoards {
    pub space: Space,
    pub flights: Flights,
    pub versions: Versions,
}

/// A session at work: the place of its boards, from 0, its pass of each board, whose number is one less than the number
/// of the session, and the reply lines that it has made.
#[derive(Drop)]
pub struct SessionWork {
    pub place: u32,
    pub columns: Pass<FlightState>,
    pub splits: Pass<VersionState>,
    pub replies: Vec<ReplyLine>,
}

// The sessions of a script once they have run: the closed boards of their space and their replies, by session.
#[derive(Drop)]
pub(crate) struct SharedRun {
    pub(crate) flights: FlightState,
    pub(crate) versions: VersionState,
    pub(crate) replies: Sessions,
}
