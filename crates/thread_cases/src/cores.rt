ghost use Rattle.std.specs.Prelude.{◌≡◌, ◌<◌, ℕ, All, IfOk, length};
ghost use Rattle.shared_core.specs.Machines.{HasActResidues, HasResidues};

use crate::spaces::space_at_11;
use column_flight::{FlightEvent, FlightKey};
use field_table::Field;
use op_polynomials::{OpName, Poly};
use quotient_coords::Space;
use shared_core::{
    Act, CoreStep, EventFault, Outcome, run_events, runs_are_exact, sessions_learn_more,
};
use std::alloc::{AllocError, Global};
use std::test::Fail;

// The laws are called once.
#[test]
fn laws(_rt: HostRuntime) {
    runs_are_exact();
    sessions_learn_more();
}

// Session 2 waits while session 1 computes the column, and then finds it.
#[test]
fn one_column_for_two_sessions(rt: HostRuntime) -> Result<(), Fail> {
    let space = space_at_11(rt.alloc())?;
    let key = FlightKey { n: 2, symbol: 0 };
    let steps = [
        CoreStep {
            session: 1,
            act: Act::Look(key),
        },
        CoreStep {
            session: 2,
            act: Act::Look(key),
        },
        CoreStep {
            session: 1,
            act: Act::Publish(key),
        },
        CoreStep {
            session: 2,
            act: Act::Look(key),
        },
        CoreStep {
            session: 2,
            act: Act::Learn,
        },
    ];
    match run_events(rt.alloc(), &space, 2, &steps) {
        Ok(run) => {
            let outcomes = [
                Outcome::Mine,
                Outcome::Pending(1),
                Outcome::Published,
                Outcome::Ready,
                Outcome::Learnt(0),
            ];
            assert!(rt; run.outcomes.as_slice() == outcomes.as_slice());
            let flights = [
                FlightEvent::Claim { key, by: 1 },
                FlightEvent::Publish { key, by: 1 },
            ];
            assert!(rt; run.flights.as_slice() == flights.as_slice());
            assert!(rt; run.history.is_empty());
        }
        Err(_) => assert!(rt; false),
    }
    Ok(())
}

// A session looks twice at a key that it has claimed; a claim that is left open has no abandonment in the answer.
#[test]
fn illegal_and_open(rt: HostRuntime) -> Result<(), Fail> {
    let space = space_at_11(rt.alloc())?;
    let key = FlightKey { n: 2, symbol: 0 };
    let steps = [
        CoreStep {
            session: 1,
            act: Act::Look(key),
        },
        CoreStep {
            session: 1,
            act: Act::Look(key),
        },
    ];
    match run_events(rt.alloc(), &space, 1, &steps) {
        Ok(_) => assert!(rt; false),
        Err(fault) => assert!(rt; fault == EventFault::Illegal { place: 1 }),
    }
    match run_events(rt.alloc(), &space, 1, &steps[..1]) {
        Ok(run) => assert!(rt;
            run.flights.as_slice() == [FlightEvent::Claim { key, by: 1 }].as_slice()
        ),
        Err(_) => assert!(rt; false),
    }
    Ok(())
}

// A publication of what the session has not claimed is no step.
#[test]
fn publication_without_a_claim(rt: HostRuntime) -> Result<(), Fail> {
    let space = space_at_11(rt.alloc())?;
    let key = FlightKey { n: 2, symbol: 0 };
    let steps = [CoreStep {
        session: 1,
        act: Act::Publish(key),
    }];
    match run_events(rt.alloc(), &space, 1, &steps) {
        Ok(_) => assert!(rt; false),
        Err(fault) => assert!(rt; fault == EventFault::Illegal { place: 0 }),
    }
    Ok(())
}

// Each order of two sessions that commit, learn and commit again, a line each: the session of each step, and what the
// steps answer, by Learnt, Committed and Stale with their numbers. A commit is stale exactly where the history has
// grown since its session learnt it.
const SCHEDULES: &[u8] =
    b"111222C1L1C2S2L2C3\n112122C1L1S1C2L2C3\n112212C1L1S1L1C2S2\n112221C1L1S1L1C2S2\n121122C1S1L1C2L2C3\n121212C1S1L1L1C2S2\n121221C1S1L1L1C2S2\n122112C1S1L1L1C2S2\n122121C1S1L1L1C2S2\n122211C1S1L1C2L2C3\n211122C1S1L1C2L2C3\n211212C1S1L1L1C2S2\n211221C1S1L1L1C2S2\n212112C1S1L1L1C2S2\n212121C1S1L1L1C2S2\n212211C1S1L1C2L2C3\n221112C1L1S1L1C2S2\n221121C1L1S1L1C2S2\n221211C1L1S1C2L2C3\n222111C1L1C2S2L2C3";

// The sessions of a line.
fn order_of(line: &[u8]) -> [u32; 6] {
    let session = |place: usize| if line.get(place) == Some(&b'1') { 1 } else { 2 };
    [
        session(0),
        session(1),
        session(2),
        session(3),
        session(4),
        session(5),
    ]
}

// Whether the pair of bytes tells the outcome.
fn is_told(outcome: &Outcome, pair: &[u8]) -> bool {
    let (letter, number) = match outcome {
        Outcome::Learnt(number) => (b'L', *number),
        Outcome::Committed(number) => (b'C', *number),
        Outcome::Stale(number) => (b'S', *number),
        _ => return false,
    };
    matches!(pair, [first, last] if *first == letter && u64::from(*last) == 48 + u64::from(number))
}

// Whether the bytes tell the outcomes, one after another.
fn are_told(outcomes: &[Outcome], told: &[u8]) -> bool {
    if 2 * (outcomes.len() as u128) != told.len() as u128 {
        return false;
    }
    for (place, outcome) in outcomes.iter().enumerate() {
        let start = 2 * place;
        if !is_told(outcome, &told[start..start + 2]) {
            return false;
        }
    }
    true
}

// What the session of a place does there: it learns at its second step, and commits at the others.
fn act_at(order: &[u32; 6], place: usize, commit: &Act) -> Act
    requires place { place < 6 }
    ensures { (p : ℕ) → HasActResidues p commit.now → HasActResidues p result }
{
    let session = order[place];
    let mut before = 0u32;
    for other in &order[..place] {
        if *other == session && before < 6 {
            before += 1;
        }
    }
    if before == 1 { Act::Learn } else { *commit }
}

fn steps_of(
    alloc: Global,
    field: Field,
    order: &[u32; 6],
    commit: &Act,
) -> Result<Vec<CoreStep>, AllocError>
    requires { HasActResidues field commit.now }
    ensures residues { IfOk result (λ steps. All (HasResidues field) steps.items) }
    ensures count { IfOk result (λ steps. length steps.items ≡ 6) }
{
    let mut steps = Vec::new(alloc);
    for place in 0..6 {
        let act = act_at(order, place, commit);
        steps.push(CoreStep {
            session: order[place],
            act,
        })?;
    }
    Ok(steps)
}

// Whether the steps of a line answer so, and the history has an entry for each accepted commit.
fn answers(alloc: Global, space: &Space, commit: &Act, line: &[u8]) -> Result<bool, AllocError>
    requires { HasActResidues space.now.characteristic commit.now }
{
    if line.len() != 18 {
        return Ok(false);
    }
    let commits = line.iter().filter(|it| **it == b'C').count();
    let steps = steps_of(alloc, space.field(), &order_of(line), commit)?;
    match run_events(alloc, space, 2, &steps) {
        Ok(run) => Ok(
            are_told(run.outcomes.as_slice(), &line[6..]) && run.history.len() == commits,
        ),
        Err(_) => Ok(false),
    }
}

#[test]
fn schedules_of_two_sessions(rt: HostRuntime) -> Result<(), Fail> {
    let space = space_at_11(rt.alloc())?;
    let commit = Act::Commit {
        command: 1,
        op: OpName::Star,
        poly: Poly::of(space.field(), &[1])?,
    };
    let mut count = 0u32;
    for line in SCHEDULES.split(|it| *it == b'\n') {
        assert!(rt;
            answers(rt.alloc(), &space, &commit, line)?,
            "schedule {count}"
        );
        count = count.saturating_add(1);
    }
    assert_eq!(rt; count, 20);
    Ok(())
}
