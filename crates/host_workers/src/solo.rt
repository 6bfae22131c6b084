ghost use Rattle.session_core.specs.SoloRuns.{IsSoloRun};
ghost use Rattle.host_workers.specs.Runs.{LeavesRun};

use crate::reading::{read_script, write_run};
use crate::status::Status;
use crate::transcript::transcript_of;
use std::alloc::Global;
use sym_io::{Sink, Source};

/// Reads a script, works out its replies on one thread and writes the transcript. It returns on every input.
/// The first of these decides: a fault of the input or too many bytes, as reading meets them; a line that
/// breaks a rule of scripts; a fault of the output. Want of memory may come before the first byte is written;
/// afterwards it is the reply of its command. Costs the opening of the space once, and its replies.
pub fn run_solo<I: Source, O: Sink>(alloc: Global, input: &mut I, output: &mut O) -> Status
    ensures { LeavesRun IsSoloRun (I.left input.old) (I.left input.new) (O.written output.old)
        (O.written output.new)
        (I.faults input.old) (I.faults input.new) (O.faults output.old) (O.faults output.new) result }
{
    let script = match read_script(alloc, input) {
        Ok(script) => script,
        Err(status) => return status,
    };
    let Ok(transcript) = transcript_of(alloc, &script) else {
        return Status::OutOfMemory;
    };
    write_run(&transcript, output)
}
