ghost use Rattle.std.specs.Prelude.{◌≡◌, ◌<◌, ◌≤◌, ◌+◌, ◌-◌, ◌++◌, Some, None, List, [], ℕ, length, take, min, vec_len, is_err, IfOk};
ghost use Rattle.std.specs.Vec.{vec_capacity};
ghost use Rattle.std.specs.declared.option.Option.{Option};
ghost use Rattle.std.specs.Io.KnownBytes.{WriteAppends};
ghost use Rattle.sym_io.specs.Causes.{HasCause, CountsFaults, next_count};
ghost use Rattle.sym_io.specs.Plans.{is_refused, room, piece_of, new_sink, HasSamePlan};
ghost use Rattle.sym_io.specs.Writing.{TakesSome};

use crate::source::is_planned;
use crate::{Failed, OutOfMemory};
use std::alloc::Global;
use std::io::Write;
use std::marker::Model;

/// Where bytes go, with a count of its faults.
pub trait Sink {
    /// The bytes written, where the sink tells them.
    ghost written: { Self → Option (List ℕ) };

    /// How often a call has failed. It never falls.
    ghost faults: { Self → ℕ };

    /// Appends the first of the bytes, and answers their number, at least 1. A call that fails appends
    /// nothing and counts a fault; one that succeeds leaves the count as it was.
    fn write(&mut self, bytes: &[u8]) -> Result<usize, Failed>
        requires { 0 < length bytes.now }
        ensures bound { TakesSome result bytes.now }
        ensures bytes { WriteAppends (written self.old) (written self.new) result bytes.now }
        ensures cause { HasCause (faults self.old) (faults self.new) result };
}

/// Any writer of std, and a count of its faults. A write that takes nothing is a fault. The sink tells what the
/// writer tells of the bytes that it holds.
#[derive(Drop)]
pub struct WriterSink<W> {
    inner: W,
    faults: u64,
}

impl<W: Write> WriterSink<W> {
    ghost use Rattle.sym_io.specs.Adapters.{sink_inner, sink_faults};

    /// A sink with no fault yet.
    pub fn new(inner: W) -> Self
        ensures inner { sink_inner result ≡ inner }
        ensures faults { sink_faults result ≡ 0 }
    {
        WriterSink { inner, faults: 0 }
    }

    /// The writer, as the calls left it.
    pub fn into_inner(self) -> W
        ensures { result ≡ sink_inner self }
    {
        self.inner
    }
}

impl<W: Write> Sink for WriterSink<W> {
    ghost use Rattle.sym_io.specs.Adapters.{sink_inner, sink_faults};

    ghost written = { λ s. W.contents (sink_inner s) };

    ghost faults = { sink_faults };

    fn write(&mut self, bytes: &[u8]) -> Result<usize, Failed>
        requires { 0 < length bytes.now }
        ensures bound { TakesSome result bytes.now }
        ensures bytes { WriteAppends (W.contents (sink_inner self.old))
            (W.contents (sink_inner self.new)) result bytes.now }
        ensures cause { HasCause (sink_faults self.old) (sink_faults self.new) result }
        ensures faults { CountsFaults (sink_faults self.old) (sink_faults self.new) result }
    {
        match self.inner.write(bytes) {
            Ok(count) if count > 0 => Ok(count),
            _ => {
                self.faults = self.faults.saturating_add(1);
                Err(Failed)
            }
        }
    }
}

/// A sink in memory of a fixed capacity, which takes bytes in pieces, with planned faults. It fails where it
/// is full. Contracts see the bytes and the plan.
#[derive(Debug, Drop)]
pub struct MemSink {
    bytes: Vec<u8>,
    capacity: usize,
    piece: u32,
    fails: Vec<u32>,
    calls: u64,
    faults: u64,
}

impl Model for MemSink {
    ghost use Rattle.std.specs.Prelude.{◌<◌, ◌≤◌, vec_len};
    ghost use Rattle.std.specs.Vec.{vec_capacity};
    ghost use Rattle.sym_io.specs.Plans.{PlannedSink};

    ghost Value = { PlannedSink };

    ghost view = { λ s. record {
      bytes = s.bytes.items;
      capacity = s.capacity;
      piece = s.piece;
      fails = s.fails.items;
      calls = s.calls;
      faults = s.faults;
    } };

    ghost invariant = { λ s. (vec_len s.bytes ≤ s.capacity) × (s.capacity ≤ vec_capacity s.bytes)
        × (0 < s.piece) };
}

impl MemSink {
    /// An empty sink of this capacity, at most `piece` bytes a call. The calls numbered in `fails`, from 0, fail.
    pub fn new(
        alloc: Global,
        capacity: u32,
        piece: u32,
        fails: Vec<u32>,
    ) -> Result<MemSink, OutOfMemory>
        requires { 0 < piece }
        ensures { IfOk result (λ s. s ≡ new_sink capacity piece fails.items) }
    {
        let capacity = capacity as usize;
        let bytes = Vec::with_capacity(alloc, capacity)?;
        Ok(MemSink {
            bytes,
            capacity,
            piece,
            fails,
            calls: 0,
            faults: 0,
        })
    }

    /// The bytes written so far.
    pub fn bytes(&self) -> &[u8]
        ensures { result.now ≡ self.now.bytes }
    {
        &self.bytes
    }
}

impl Sink for MemSink {
    ghost written = { λ s. Some s.bytes };

    ghost faults = { λ s. s.faults };

    fn write(&mut self, bytes: &[u8]) -> Result<usize, Failed>
        requires { 0 < length bytes.now }
        ensures bound { TakesSome result bytes.now }
        ensures bytes { WriteAppends (Some self.old.bytes) (Some self.new.bytes) result bytes.now }
        ensures cause { HasCause self.old.faults self.new.faults result }
        ensures faults { CountsFaults self.old.faults self.new.faults result }
        ensures planned { is_err result ≡ is_refused self.old }
        ensures size { IfOk result
            (λ k. k ≡ piece_of self.old.piece (length bytes.now) (room self.old)) }
        ensures plan { HasSamePlan self.old self.new }
        ensures calls { self.new.calls ≡ next_count self.old.calls }
    {
        let fails = is_planned(&self.fails, self.calls);
        self.calls = self.calls.saturating_add(1);
        let room = self.capacity - self.bytes.len();
        if fails || room == 0 {
            self.faults = self.faults.saturating_add(1);
            return Err(Failed);
        }
        let count = bytes.len().min(room).min(self.piece as usize);
        append(&mut self.bytes, &bytes[..count]);
        Ok(count)
    }
}

// Appends the bytes to a list that has room for them.
fn append(list: &mut Vec<u8>, bytes: &[u8])
    requires { vec_len list.old + length bytes.now ≤ vec_capacity list.old }
    ensures items { list.new.items ≡ list.old.items ++ bytes.now }
    ensures len { vec_len list.new ≡ vec_len list.old + length bytes.now }
    ensures capacity { vec_capacity list.new ≡ vec_capacity list.old }
{
    for byte in bytes {
        list.push_reserved(*byte);
    }
}
