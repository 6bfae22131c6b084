ghost use Rattle.std.specs.Prelude.{◌≡◌, ◌<◌, ◌≤◌, Some, None, List, ℕ, length, drop, take, min, vec_len, is_err, IfOk};
ghost use Rattle.std.specs.declared.option.Option.{Option};
ghost use Rattle.std.specs.Io.{ReadsAtMost};
ghost use Rattle.std.specs.Io.KnownBytes.{ReadConsumes};
ghost use Rattle.sym_io.specs.Causes.{HasCause, CountsFaults, next_count};
ghost use Rattle.sym_io.specs.Plans.{is_planned, piece_of, new_source};

use crate::Failed;
use std::io::Read;
use std::marker::Model;

/// Where bytes come from, with a count of its faults.
pub trait Source {
    /// The bytes left, where the source tells them.
    ghost left: { Self → Option (List ℕ) };

    /// How often a call has failed. It never falls.
    ghost faults: { Self → ℕ };

    /// Moves the first bytes left to the front of the buffer, and answers their number. None are moved only
    /// at the end of the input. A call that fails takes nothing and counts a fault; one that succeeds leaves the
    /// count as it was.
    fn read(&mut self, buf: &mut [u8]) -> Result<usize, Failed>
        requires { 0 < length buf.old }
        ensures bound { ReadsAtMost result buf.new }
        ensures bytes { ReadConsumes (left self.old) (left self.new) result buf.new }
        ensures cause { HasCause (faults self.old) (faults self.new) result };
}

/// Any reader of std, and a count of its faults. The source tells what the reader tells of the bytes that it
/// has left.
#[derive(Drop)]
pub struct ReaderSource<R> {
    inner: R,
    faults: u64,
}

impl<R: Read> ReaderSource<R> {
    ghost use Rattle.sym_io.specs.Adapters.{source_inner, source_faults};

    /// A source with no fault yet.
    pub fn new(inner: R) -> Self
        ensures inner { source_inner result ≡ inner }
        ensures faults { source_faults result ≡ 0 }
    {
        ReaderSource { inner, faults: 0 }
    }

    /// The reader, as the calls left it.
    pub fn into_inner(self) -> R
        ensures { result ≡ source_inner self }
    {
        self.inner
    }
}

impl<R: Read> Source for ReaderSource<R> {
    ghost use Rattle.sym_io.specs.Adapters.{source_inner, source_faults};

    ghost left = { λ s. R.remaining (source_inner s) };

    ghost faults = { source_faults };

    fn read(&mut self, buf: &mut [u8]) -> Result<usize, Failed>
        requires { 0 < length buf.old }
        ensures bound { ReadsAtMost result buf.new }
        ensures bytes { ReadConsumes (R.remaining (source_inner self.old))
            (R.remaining (source_inner self.new)) result buf.new }
        ensures cause { HasCause (source_faults self.old) (source_faults self.new) result }
        ensures faults { CountsFaults (source_faults self.old) (source_faults self.new) result }
    {
        match self.inner.read(buf) {
            Ok(count) => Ok(count),
            Err(_) => {
                self.faults = self.faults.saturating_add(1);
                Err(Failed)
            }
        }
    }
}

/// Bytes in memory, given in pieces, with planned faults. Contracts see the bytes left and the plan.
#[derive(Debug, Drop)]
pub struct MemSource {
    bytes: Vec<u8>,
    at: usize,
    piece: u32,
    fails: Vec<u32>,
    calls: u64,
    faults: u64,
}

impl Model for MemSource {
    ghost use Rattle.std.specs.Prelude.{◌<◌, ◌≤◌, drop, vec_len};
    ghost use Rattle.sym_io.specs.Plans.{PlannedSource};

    ghost Value = { PlannedSource };

    ghost view = { λ s. record {
      bytes = drop s.at s.bytes.items;
      piece = s.piece;
      fails = s.fails.items;
      calls = s.calls;
      faults = s.faults;
    } };

    ghost invariant = { λ s. (s.at ≤ vec_len s.bytes) × (0 < s.piece) };
}

impl MemSource {
    /// The bytes, at most `piece` of them in a call. The calls numbered in `fails`, from 0, fail.
    pub fn new(bytes: Vec<u8>, piece: u32, fails: Vec<u32>) -> Self
        requires { 0 < piece }
        ensures { result ≡ new_source bytes.items piece fails.items }
    {
        MemSource {
            bytes,
            at: 0,
            piece,
            fails,
            calls: 0,
            faults: 0,
        }
    }
}

impl Source for MemSource {
    ghost left = { λ s. Some s.bytes };

    ghost faults = { λ s. s.faults };

    fn read(&mut self, buf: &mut [u8]) -> Result<usize, Failed>
        requires { 0 < length buf.old }
        ensures bound { ReadsAtMost result buf.new }
        ensures bytes { ReadConsumes (Some self.old.bytes) (Some self.new.bytes) result buf.new }
        ensures cause { HasCause self.old.faults self.new.faults result }
        ensures faults { CountsFaults self.old.faults self.new.faults result }
        ensures planned { is_err result ≡ is_planned self.old.fails self.old.calls }
        ensures size { IfOk result
            (λ k. k ≡ piece_of self.old.piece (length self.old.bytes) (length buf.old)) }
        ensures plan { (self.new.piece ≡ self.old.piece) × (self.new.fails ≡ self.old.fails) }
        ensures calls { self.new.calls ≡ next_count self.old.calls }
    {
        let fails = is_planned(&self.fails, self.calls);
        self.calls = self.calls.saturating_add(1);
        if fails {
            self.faults = self.faults.saturating_add(1);
            return Err(Failed);
        }
        let count = fill(&self.bytes[self.at..], self.piece as usize, buf);
        self.at += count;
        Ok(count)
    }
}

// Whether the call with this number is to fail.
pub fn is_planned(fails: &[u32], call: u64) -> bool
    ensures { result ≡ is_planned fails.now call }
{
    fails.iter().any(|number| u64::from(*number) == call)
}

// Moves as much as the piece and the buffer allow.
fn fill(left: &[u8], piece: usize, buf: &mut [u8]) -> usize
    ensures count { result ≡ piece_of piece (length left.now) (length buf.old) }
    ensures within { (result ≤ length left.now) × (result ≤ length buf.old) }
    ensures moved { take result buf.new ≡ take result left.now }
{
    let count = left.len().min(buf.len()).min(piece);
    buf[..count].copy_from_slice(&left[..count]);
    count
}
