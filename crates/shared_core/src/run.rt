ghost use Rattle.std.specs.Prelude.{◌≡◌, ◌<◌, ◌≤◌, ◌++◌, ◌∷◌, [], All, IfOk, IfErr, length, map, replicate, take, vec_len, vec_capacity};
ghost use Rattle.column_flight.specs.Flights.{IsLegalFlights};
ghost use Rattle.split_versions.specs.Histories.{AreVersions};
ghost use Rattle.shared_core.specs.Claims.{AreClaims};
ghost use Rattle.shared_core.specs.Core.{CoreState, Does, IsLegalAct, IsLegalStep, IsRun, IsStep, core_start};
ghost use Rattle.shared_core.specs.Learning.{AreLearnt, counts};
ghost use Rattle.shared_core.specs.Results.{IsCoreRun, IsFault};
ghost use Rattle.shared_core.specs.Machines.{HasActResidues, HasResidues, IsMachine, core_state};

use crate::claims::{abandon_all, abandon_at, look_at, publish_at};
use crate::fault::EventFault;
use crate::learning::{commit_at, learn};
use crate::learnt::Learnt;
use crate::legal::is_legal;
use crate::machine::Machine;
use crate::step::{Act, CoreStep, Outcome};
use column_flight::{FlightEvent, FlightState};
use field_table::OutOfMemory;
use indexmap::IndexMap;
use op_polynomials::SplitEntry;
use quotient_coords::Space;
use split_versions::VersionState;
use std::alloc::Global;

/// What a run leaves: what each step answered, the flights and the history.
#[derive(Drop)]
pub struct CoreRun {
    pub outcomes: Vec<Outcome>,
    pub flights: Vec<FlightEvent>,
    pub history: Vec<SplitEntry>,
}

// Does what the session does at a step that is legal.
fn run_act(
    alloc: Global,
    space: &Space,
    sessions: u32,
    machine: &mut Machine,
    session: u32,
    act: &Act,
) -> Result<Outcome, OutOfMemory>
    requires machine { IsMachine space.now sessions machine.old }
    requires session { (1 ≤ session) × (session ≤ sessions) }
    requires legal { IsLegalAct space.now (core_state machine.old) session act.now }
    requires residues { HasActResidues space.now.characteristic act.now }
    ensures machine { IsMachine space.now sessions machine.new }
    ensures done { IfOk result (λ o.
        Does space.now (core_state machine.old) session act.now o (core_state machine.new)) }
{
    match act {
        Act::Learn => learn(&machine.versions, &mut machine.learnt, session),
        Act::Look(key) => look_at(&mut machine.flights, &mut machine.claims, session, *key),
        Act::Publish(key) => {
            publish_at(
                alloc,
                space,
                &mut machine.flights,
                &mut machine.claims,
                session,
                *key,
            )?;
            Ok(Outcome::Published)
        }
        Act::Abandon(key) => {
            abandon_at(&mut machine.flights, &mut machine.claims, session, *key);
            Ok(Outcome::Abandoned)
        }
        Act::Commit { command, op, poly } => {
            let entry = SplitEntry {
                session,
                command: *command,
                op: *op,
                poly: *poly,
            };
            commit_at(
                alloc,
                space,
                &mut machine.versions,
                &mut machine.learnt,
                entry,
            )
        }
    }
}

// Runs the steps one after another.
fn run_steps(
    alloc: Global,
    space: &Space,
    sessions: u32,
    machine: &mut Machine,
    steps: &[CoreStep],
    outcomes: &mut Vec<Outcome>,
) -> Result<(), EventFault>
    requires few { length steps.now ≤ u32.MAX }
    requires residues { All (HasResidues space.now.characteristic) steps.now }
    requires machine { IsMachine space.now sessions machine.old }
    requires start { core_state machine.old ≡ core_start sessions }
    requires none { outcomes.old.items ≡ [] }
    requires room { length steps.now ≤ vec_capacity outcomes.old }
    ensures machine { IsMachine space.now sessions machine.new }
    ensures run { IfOk result (λ _. IsRun space.now sessions (core_start sessions) steps.now
        outcomes.new.items (core_state machine.new)) }
    ensures fault { IfErr result (IsFault space.now sessions steps.now) }
{
    for place in 0..steps.len() {
        let step = &steps[place];
        if !is_legal(space, sessions, machine, step) {
            return Err(EventFault::Illegal {
                place: place as u32,
            });
        }
        let outcome = run_act(alloc, space, sessions, machine, step.session, &step.act)?;
        outcomes.push_reserved(outcome);
    }
    Ok(())
}

// What each session knows at the start: version 0.
fn nothing_learnt(
    alloc: Global,
    versions: &VersionState,
    sessions: u32,
) -> Result<Vec<Learnt>, OutOfMemory>
    requires none { versions.now.entries ≡ [] }
    ensures learnt { IfOk result (λ ls.
        AreLearnt versions.now.setting versions.now.entries ls.items) }
    ensures counts { IfOk result (λ ls. counts ls.items ≡ replicate sessions 0) }
    ensures sessions { IfOk result (λ ls. length ls.items ≡ sessions) }
{
    let mut learnt = Vec::with_capacity(alloc, sessions as usize)?;
    for _ in 0..sessions {
        let splitting = versions.newest().clone()?;
        learnt.push_reserved(Learnt {
            count: 0,
            splitting,
        });
    }
    Ok(learnt)
}

// The machine before the first step.
fn opened(alloc: Global, space: &Space, sessions: u32) -> Result<Machine, OutOfMemory>
    ensures machine { IfOk result (IsMachine space.now sessions) }
    ensures start { IfOk result (λ m. core_state m ≡ core_start sessions) }
{
    let versions = VersionState::new(alloc, space)?;
    let learnt = nothing_learnt(alloc, &versions, sessions)?;
    Ok(Machine {
        flights: FlightState::new(alloc, space),
        versions,
        learnt,
        claims: IndexMap::new(alloc),
    })
}

// The flights and the history of the machine.
fn lists_of(
    alloc: Global,
    machine: &Machine,
) -> Result<(Vec<FlightEvent>, Vec<SplitEntry>), OutOfMemory>
    ensures flights { IfOk result (λ lists. lists.0.items ≡ machine.now.flights.events) }
    ensures legal { IfOk result (λ lists. IsLegalFlights lists.0.items) }
    ensures history { IfOk result (λ lists. lists.1.items ≡ machine.now.versions.entries) }
    ensures versions { IfOk result (λ lists.
        AreVersions machine.now.versions.setting lists.1.items) }
{
    let flights = Vec::from_slice(alloc, machine.flights.events())?;
    let history = Vec::from_slice(alloc, machine.versions.entries())?;
    Ok((flights, history))
}

/// Runs an interleaving of the sessions that is given as a list of steps, from the start, in which
/// there is no flight and no entry, and no session has learnt anything. Refuses `Illegal` at the first
/// step that is not legal after those before it. Claims that the steps leave unsettled have no event in
/// the answer.
pub fn run_events(
    alloc: Global,
    space: &Space,
    sessions: u32,
    steps: &[CoreStep],
) -> Result<CoreRun, EventFault>
    requires few { length steps.now ≤ u32.MAX }
    requires residues { All (HasResidues space.now.characteristic) steps.now }
    ensures run { IfOk result (IsCoreRun space.now sessions steps.now) }
    ensures legal { IfOk result (λ run. IsLegalFlights run.flights.items) }
    ensures versions { IfOk result (λ run. AreVersions space.now run.history.items) }
    ensures fault { IfErr result (IsFault space.now sessions steps.now) }
{
    let mut outcomes = Vec::with_capacity(alloc, steps.len())?;
    let mut machine = opened(alloc, space, sessions)?;
    let ended = run_steps(alloc, space, sessions, &mut machine, steps, &mut outcomes);
    let lists = lists_of(alloc, &machine);
    close(machine);
    ended?;
    let (flights, history) = lists?;
    Ok(CoreRun {
        outcomes,
        flights,
        history,
    })
}

// Gives up the claims that are left, and ends the machine.
fn close(machine: Machine)
    requires { AreClaims machine.flights.events machine.claims.entries }
{
    let Machine {
        mut flights,
        versions: _versions,
        learnt: _learnt,
        claims,
    } = machine;
    abandon_all(&mut flights, claims);
}
