ghost use Rattle.std.specs.Prelude.{◌≡◌, ◌-◌, ◌<◌, ◌≤◌, ◌++◌, ◌∷◌, [], IfOk, OnErr, List, length, slice_index, slice_set};
ghost use Rattle.field_table.specs.Residues.{AreResidues};
ghost use Rattle.column_flight.specs.declared.event.FlightEvent.{FlightEvent};
ghost use Rattle.shared_core.specs.Core.{committed};
ghost use Rattle.shared_core.specs.Learning.{AreLearnt, Commits, counts};
ghost use Rattle.shared_core.specs.Verdicts.{IsOperator};

use crate::learnt::Learnt;
use crate::operators::{TestFault, next_version};
use crate::step::Outcome;
use field_table::OutOfMemory;
use op_polynomials::SplitEntry;
use quotient_coords::Space;
use split_versions::{CommitFault, VersionState};
use std::alloc::Global;
use std::sync::Arc;

/// The session learns the history.
pub(crate) fn learn(
    versions: &VersionState,
    learnt: &mut [Learnt],
    session: u32,
) -> Result<Outcome, OutOfMemory>
    requires session { (1 ≤ session) × (session ≤ length learnt.old) }
    requires learnt { AreLearnt versions.now.setting versions.now.entries learnt.old }
    ensures learnt { AreLearnt versions.now.setting versions.now.entries learnt.new }
    ensures outcome { IfOk result (λ o. o ≡ Outcome.Learnt (length versions.now.entries)) }
    ensures counts { IfOk result (λ _. counts learnt.new
        ≡ slice_set (counts learnt.old) (session - 1) (length versions.now.entries)) }
    ensures refused { OnErr result (learnt.new ≡ learnt.old) }
{
    let count = versions.entries().len() as u32;
    let splitting = versions.newest().clone()?;
    let place = (session - 1) as usize;
    learnt[place] = Learnt { count, splitting };
    Ok(Outcome::Learnt(count))
}

/// Tests a split at the version that the session has learnt, and commits it.
pub(crate) fn commit_at(
    alloc: Global,
    space: &Space,
    versions: &mut VersionState,
    learnt: &mut [Learnt],
    entry: SplitEntry,
) -> Result<Outcome, OutOfMemory>
    requires session { (1 ≤ entry.session) × (entry.session ≤ length learnt.old) }
    requires setting { versions.old.setting ≡ space.now }
    requires operator { IsOperator space.now.level entry.op }
    requires residues { AreResidues space.now.characteristic entry.poly }
    requires learnt { AreLearnt versions.old.setting versions.old.entries learnt.old }
    ensures learnt { AreLearnt versions.new.setting versions.new.entries learnt.new }
    ensures setting { versions.new.setting ≡ versions.old.setting }
    ensures outcome { IfOk result (Commits space.now versions.old.entries
        (slice_index (counts learnt.old) (entry.session - 1)) entry) }
    ensures state { IfOk result (λ o. (F : List FlightEvent) →
        record { flights = F; history = versions.new.entries; learnt = counts learnt.new }
        ≡ committed
        (record { flights = F; history = versions.old.entries; learnt = counts learnt.old })
        entry.session entry o) }
    ensures sessions { length learnt.new ≡ length learnt.old }
{
    let place = (entry.session - 1) as usize;
    let last = &learnt[place];
    let seen = last.count;
    let next = match next_version(alloc, space, &last.splitting, &entry) {
        Ok(next) => next,
        Err(TestFault::Relation { number }) => return Ok(Outcome::Relation(number)),
        Err(TestFault::Commutator) => return Ok(Outcome::Commutator),
        Err(TestFault::OutOfMemory) => return Err(OutOfMemory),
    };
    let next = Arc::new(alloc, next)?;
    let known = next.clone()?;
    match versions.commit(seen, entry, next) {
        Ok(count) => {
            learnt[place] = Learnt {
                count,
                splitting: known,
            };
            Ok(Outcome::Committed(count))
        }
        Err(CommitFault::Stale { count }) => Ok(Outcome::Stale(count)),
        Err(CommitFault::Full) => Ok(Outcome::Full),
    }
}
