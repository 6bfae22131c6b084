use crate::claims::Claims;
use crate::learnt::Learnt;
use column_flight::FlightState;
use split_versions::VersionState;

/// The state of a run: what the sessions share, what each has learnt, and the tickets of the unsettled
/// claims.
pub(crate) struct Machine {
    pub(crate) flights: FlightState,
    pub(crate) versions: VersionState,
    pub(crate) learnt: Vec<Learnt>,
    pub(crate) claims: Claims,
}
