ghost use Rattle.host_workers.specs.Runs.{ReadsScript, WritesTranscript};

use crate::status::{MAX_INPUT, Status};
use reply_text::{Transcript, write_transcript};
use script_text::{Script, ScriptFault, parse_script};
use std::alloc::Global;
use sym_io::{ReadAllFault, Sink, Source, read_all};

// The script that an input is, or the status of a run without one.
pub(crate) fn read_script<I: Source>(alloc: Global, input: &mut I) -> Result<Script, Status>
    ensures { ReadsScript (I.left input.old) (I.left input.new) (I.faults input.old) (I.faults input.new) result }
{
    let bytes = match read_all(alloc, input, MAX_INPUT) {
        Ok(bytes) => bytes,
        Err(ReadAllFault::OutOfMemory) => return Err(Status::OutOfMemory),
        Err(ReadAllFault::ReadFault) => return Err(Status::ReadFault),
        Err(ReadAllFault::TooLong) => return Err(Status::TooLong),
    };
    match parse_script(alloc, &bytes) {
        Ok(script) => Ok(script),
        Err(ScriptFault::OutOfMemory) => Err(Status::OutOfMemory),
        Err(ScriptFault::BadScript { line, cause }) => Err(Status::BadScript { line, cause }),
    }
}

// Writes the text of a transcript.
pub(crate) fn write_run<O: Sink>(transcript: &Transcript, output: &mut O) -> Status
    ensures { WritesTranscript (O.written output.old) (O.written output.new) (O.faults output.old)
        (O.faults output.new) transcript.now result }
{
    match write_transcript(transcript, output) {
        Ok(()) => Status::Done,
        Err(_) => Status::WriteFault,
    }
}
