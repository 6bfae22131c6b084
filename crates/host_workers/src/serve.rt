ghost use Rattle.std.specs.Prelude.{IfOk};
ghost use Rattle.session_core.specs.Histories.{VersionsAreSplittings};
ghost use Rattle.session_core.specs.Transcripts.{IsLegalRun, script_ground};
ghost use Rattle.host_workers.specs.Runs.{LeavesRun};

use crate::host::run_host;
use crate::reading::{read_script, write_run};
use crate::status::Status;
use crate::transcript::transcript_of;
use column_flight::Gate;
use field_table::OutOfMemory;
use reply_text::Transcript;
use script_text::Script;
use session_core::solo_runs_are_legal;
use std::alloc::Global;
use std::sync::Wait;
use std::thread::Threads;
use sym_io::{Sink, Source};

// The transcript of a script whose sessions run all at once. A session that is alone has nobody to share with, so it runs
// on this thread, without boards.
fn served_transcript<R: Threads + Wait + Sync, G: Gate>(
    rt: &R,
    alloc: Global,
    script: &Script,
    gate: &G,
) -> Result<Transcript, OutOfMemory>
    ensures run { IfOk result (IsLegalRun script.now) }
    ensures versions { IfOk result (λ t. VersionsAreSplittings (script_ground script.now) t.history) }
{
    if script.sessions().len() <= 1 {
        solo_runs_are_legal();
        return transcript_of(alloc, script);
    }
    run_host(rt, alloc, script, gate)
}

// Reads a script, runs its sessions all at once and writes the transcript. The same decides as on one thread, where
// it returns.
pub(crate) fn run_serve<R: Threads + Wait + Sync, I: Source, O: Sink, G: Gate>(
    rt: &R,
    alloc: Global,
    input: &mut I,
    output: &mut O,
    gate: &G,
) -> Status
    ensures { LeavesRun IsLegalRun (I.left input.old) (I.left input.new) (O.written output.old)
        (O.written output.new)
        (I.faults input.old) (I.faults input.new) (O.faults output.old) (O.faults output.new) result }
{
    let script = match read_script(alloc, input) {
        Ok(script) => script,
        Err(status) => return status,
    };
    let Ok(transcript) = served_transcript(rt, alloc, &script, gate) else {
        return Status::OutOfMemory;
    };
    write_run(&transcript, output)
}
