ghost use Rattle.std.specs.Prelude.{◌≡◌, ◌<◌, ◌≤◌, ◌↔◌, IsTrue, length};
ghost use Rattle.shared_core.specs.Core.{IsFlightKey, IsLegalAct, IsLegalStep};
ghost use Rattle.shared_core.specs.Machines.{IsMachine, core_state};
ghost use Rattle.shared_core.specs.Verdicts.{IsOperator};

use crate::claims::has_claim;
use crate::machine::Machine;
use crate::step::{Act, CoreStep};
use column_flight::FlightKey;
use op_polynomials::OpName;
use p1_normal::{MAX_DET, gcd};
use quotient_coords::Space;

// Whether the key is that of a column of the space.
fn is_key(space: &Space, key: FlightKey) -> bool
    ensures { IsTrue result ↔ IsFlightKey space.now.level key }
{
    0 < key.n
        && key.n <= MAX_DET
        && gcd(key.n, space.level().modulus()) == 1
        && key.symbol < space.level().count()
}

// Whether the operator is one of the space.
fn is_operator(space: &Space, op: OpName) -> bool
    ensures { IsTrue result ↔ IsOperator space.now.level op }
{
    match op {
        OpName::T { n } => 0 < n && n <= MAX_DET && gcd(n, space.level().modulus()) == 1,
        OpName::Star => true,
    }
}

/// Whether the session may do so.
fn is_legal_act(space: &Space, sessions: u32, machine: &Machine, session: u32, act: &Act) -> bool
    requires { IsMachine space.now sessions machine.now }
    ensures { IsTrue result ↔ IsLegalAct space.now (core_state machine.now) session act.now }
{
    match act {
        Act::Learn => true,
        Act::Look(key) => {
            is_key(space, *key) && !has_claim(&machine.flights, &machine.claims, session, *key)
        }
        Act::Publish(key) => {
            is_key(space, *key) && has_claim(&machine.flights, &machine.claims, session, *key)
        }
        Act::Abandon(key) => {
            is_key(space, *key) && has_claim(&machine.flights, &machine.claims, session, *key)
        }
        Act::Commit { op, .. } => is_operator(space, *op),
    }
}

/// Whether the step is legal at the state of the machine.
pub(crate) fn is_legal(space: &Space, sessions: u32, machine: &Machine, step: &CoreStep) -> bool
    requires { IsMachine space.now sessions machine.now }
    ensures { IsTrue result ↔ IsLegalStep space.now sessions (core_state machine.now) step.now }
{
    1 <= step.session
        && step.session <= sessions
        && is_legal_act(space, sessions, machine, step.session, &step.act)
}
