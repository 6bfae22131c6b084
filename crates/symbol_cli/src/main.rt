//! The program: `run_program` over the real arguments, input, output and stream for errors.
#![tactic(auto)]

use host_workers::{NoGate, run_program};
use std::env;
use std::process::ExitCode;
use sym_io::{ReaderSource, WriterSink};

fn main(rt: HostRuntime) -> ExitCode {
    let arguments = env::args(&rt);
    let mut input = ReaderSource::new(rt.stdin());
    let mut output = WriterSink::new(rt.stdout());
    let mut errors = WriterSink::new(rt.stderr());
    run_program(
        &rt,
        rt.alloc(),
        arguments,
        &mut input,
        &mut output,
        &mut errors,
        &NoGate,
    )
}
