ghost use Rattle.std.specs.Prelude.{IfOk};
ghost use Rattle.script_text.specs.Draws.{generated};
ghost use Rattle.session_core.specs.Histories.{VersionsAreSplittings};
ghost use Rattle.session_core.specs.Transcripts.{IsLegalRun, script_ground};
ghost use Rattle.host_workers.specs.Runs.{LeavesSummary};

use crate::host::run_host;
use crate::status::Status;
use column_flight::Gate;
use field_table::OutOfMemory;
use reply_text::{Transcript, write_summary};
use script_text::Script;
use std::alloc::Global;
use std::sync::Wait;
use std::thread::Threads;
use sym_io::Sink;

// Makes a script from a number, runs its sessions all at once and writes the summary of the transcript.
pub(crate) fn run_generated<R: Threads + Wait + Sync, O: Sink, G: Gate>(
    rt: &R,
    alloc: Global,
    seed: u64,
    output: &mut O,
    gate: &G,
) -> Status
    ensures { LeavesSummary seed (O.written output.old) (O.written output.new)
        (O.faults output.old) (O.faults output.new) result }
{
    let Ok(transcript) = generated_run(rt, alloc, seed, gate) else {
        return Status::OutOfMemory;
    };
    match write_summary(seed, &transcript, output) {
        Ok(()) => Status::Done,
        Err(_) => Status::WriteFault,
    }
}

// The transcript of the script that is made from a number.
fn generated_run<R: Threads + Wait + Sync, G: Gate>(
    rt: &R,
    alloc: Global,
    seed: u64,
    gate: &G,
) -> Result<Transcript, OutOfMemory>
    ensures run { IfOk result (IsLegalRun (generated seed)) }
    ensures versions { IfOk result (λ t.
        VersionsAreSplittings (script_ground (generated seed)) t.history) }
{
    let script = Script::generate(alloc, seed)?;
    run_host(rt, alloc, &script, gate)
}
