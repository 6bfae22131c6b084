// Flights are shared between threads, and their passes and their state are sent to one: shown here, and
// never called.
use crate::flights::Flights;
use crate::state::FlightState;
use turn_board::Pass;

fn is_shared_and_sent<T: Send + Sync>(_it: &T) {}

fn is_sent<T: Send>(_it: &T) {}

fn flights_cross(flights: &Flights) {
    is_shared_and_sent(flights);
}

fn state_crosses(state: &FlightState) {
    is_sent(state);
}

fn pass_crosses(pass: &Pass<FlightState>) {
    is_sent(pass);
}
