ghost use Rattle.std.specs.Prelude.{◌≡◌, IfErr, IfOk, drop};
ghost use Rattle.std.specs.Process.{exit_status};
ghost use Rattle.std.specs.Vec.Iter.{into_iter_items};
ghost use Rattle.host_workers.specs.Programs.{EndsWith, HasRun, HasWords, fault_status};

use crate::status::Status;
use crate::top::run;
use column_flight::Gate;
use std::alloc::{AllocError, Global};
use std::io;
use std::process::ExitCode;
use std::sync::Wait;
use std::thread::Threads;
use std::vec::IntoIter;
use sym_io::{Sink, Source};

/// The whole program but for its real streams. It takes the arguments, the program's own name first, or why they can't be
/// had; it runs what the words after the name ask for, writes the line of the status to `errors` and answers the exit
/// status. Arguments of which one is no text are no line of the table of words.
pub fn run_program<R: Threads + Wait + Sync, I: Source, O: Sink, E: Sink, G: Gate>(
    rt: &R,
    alloc: Global,
    arguments: io::Result<IntoIter<String>>,
    input: &mut I,
    output: &mut O,
    errors: &mut E,
    gate: &G,
) -> ExitCode
    ensures ends { EndsWith arguments (I.left input.old) (I.left input.new)
        (O.written output.old) (O.written output.new) (E.written errors.old) (E.written errors.new)
        (I.faults input.old) (I.faults input.new) (O.faults output.old) (O.faults output.new)
        (E.faults errors.old) (E.faults errors.new) (exit_status result) }
{
    let status = run_arguments(rt, alloc, arguments, input, output, gate);
    let _ = status.write_line(errors);
    ExitCode::from(status.number())
}

// Runs what the words after the program's own name ask for.
fn run_arguments<R: Threads + Wait + Sync, I: Source, O: Sink, G: Gate>(
    rt: &R,
    alloc: Global,
    arguments: io::Result<IntoIter<String>>,
    input: &mut I,
    output: &mut O,
    gate: &G,
) -> Status
    ensures ran { HasRun arguments (I.left input.old) (I.left input.new)
        (O.written output.old) (O.written output.new)
        (I.faults input.old) (I.faults input.new) (O.faults output.old) (O.faults output.new) result }
{
    let words = match words_after_name(alloc, arguments) {
        Ok(words) => words,
        Err(status) => return status,
    };
    run(rt, alloc, &words, input, output, gate)
}

// The words after the program's own name.
fn words_after_name(
    alloc: Global,
    arguments: io::Result<IntoIter<String>>,
) -> Result<Vec<String>, Status>
    ensures words { IfOk result (λ words. HasWords arguments words.items) }
    ensures fault { IfErr result (λ status. status ≡ fault_status arguments) }
{
    match arguments {
        Ok(all) => match collected(alloc, all) {
            Ok(words) => Ok(without_first(words)),
            Err(_) => Err(Status::OutOfMemory),
        },
        Err(fault) => Err(if fault.kind() == io::ErrorKind::OutOfMemory {
            Status::OutOfMemory
        } else {
            Status::Usage
        }),
    }
}

// All of them.
fn collected(alloc: Global, all: IntoIter<String>) -> Result<Vec<String>, AllocError>
    ensures all { IfOk result (λ words. words.items ≡ into_iter_items all) }
{
    let mut words = Vec::new(alloc);
    for word in all {
        words.push(word)?;
    }
    Ok(words)
}

// The words but for the first.
fn without_first(mut words: Vec<String>) -> Vec<String>
    ensures rest { result.items ≡ drop 1 words.items }
{
    if !words.is_empty() {
        let _ = words.remove(0);
    }
    words
}
