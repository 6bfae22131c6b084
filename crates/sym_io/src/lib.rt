//! Where bytes come from and where they go: sources and sinks that count their faults, in memory and over
//! std's readers and writers, and what reads or writes a whole text. A fault is answered only where the
//! count of the source or sink that was handed in rose in that call, and a call that succeeds leaves that count as it was.
#![tactic(auto)]

mod buffer;
mod fault;
mod limits;
mod sink;
mod source;
mod whole;

pub use buffer::{BUFFER_SIZE, OutputBuffer};
pub use fault::{Failed, OutOfMemory, ReadAllFault};
pub use limits::limit_values;
pub use sink::{MemSink, Sink, WriterSink};
pub use source::{MemSource, ReaderSource, Source};
pub use whole::{PIECE_SIZE, read_all, write_all};
