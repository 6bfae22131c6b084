ghost use Rattle.std.specs.Prelude.{◌<◌, length};

use host_workers::{Gate, GatePoint, NoGate, run_host};
use reply_text::write_transcript;
use script_text::{ScriptFault, parse_script};
use std::alloc::Global;
use std::sync::Wait;
use std::sync::atomic::{AtomicU64, Ordering};
use std::test::Fail;
use std::thread::{Threads, yield_now};
use sym_io::MemSink;

// How many turns a session is held at most.
const MOST_TURNS: u32 = 10_000_000;

// Waits for a flag, and counts where it came in time.
fn hold(flag: &AtomicU64, released: &AtomicU64) {
    for _ in 0..MOST_TURNS {
        if flag.load(Ordering::SeqCst) == 1 {
            released.fetch_add(1, Ordering::SeqCst);
            return;
        }
        yield_now();
    }
}

/// Holds each of two sessions before its column until the other one is there.
#[derive(Drop)]
struct Meeting {
    first: AtomicU64,
    second: AtomicU64,
    released: AtomicU64,
}

impl Gate for Meeting {
    fn pass<R: Wait>(&self, _rt: &R, point: GatePoint) {
        match point {
            GatePoint::BeforeColumn { session: 1, .. } => {
                self.first.store(1, Ordering::SeqCst);
                hold(&self.second, &self.released);
            }
            GatePoint::BeforeColumn { .. } => {
                self.second.store(1, Ordering::SeqCst);
                hold(&self.first, &self.released);
            }
            _ => {}
        }
    }
}

/// Counts the columns that are computed.
#[derive(Drop)]
struct Computations {
    count: AtomicU64,
}

impl Gate for Computations {
    fn pass<R: Wait>(&self, _rt: &R, point: GatePoint) {
        if let GatePoint::BeforeColumn { .. } = point {
            self.count.fetch_add(1, Ordering::SeqCst);
        }
    }
}

/// Holds the commit of the first session until the second is at its own, and that one until the first has its reply.
#[derive(Drop)]
struct Turns {
    second_came: AtomicU64,
    first_replied: AtomicU64,
    released: AtomicU64,
}

impl Gate for Turns {
    fn pass<R: Wait>(&self, _rt: &R, point: GatePoint) {
        match point {
            GatePoint::BeforeCommit { session: 1, .. } => hold(&self.second_came, &self.released),
            GatePoint::BeforeCommit { .. } => {
                self.second_came.store(1, Ordering::SeqCst);
                hold(&self.first_replied, &self.released);
            }
            GatePoint::AfterReply { session: 1, .. } => self
                .first_replied
                .store(1, Ordering::SeqCst),
            _ => {}
        }
    }
}

/// Holds the second session after its first reply until the first session has its reply, and counts the columns that are
/// computed.
#[derive(Drop)]
struct LateSecond {
    first_replied: AtomicU64,
    released: AtomicU64,
    columns: AtomicU64,
}

impl Gate for LateSecond {
    fn pass<R: Wait>(&self, _rt: &R, point: GatePoint) {
        match point {
            GatePoint::BeforeColumn { .. } => {
                self.columns.fetch_add(1, Ordering::SeqCst);
            }
            GatePoint::AfterReply { session: 1, .. } => {
                self.first_replied.store(1, Ordering::SeqCst);
            }
            GatePoint::AfterReply {
                session: 2,
                command: 1,
            } => hold(&self.first_replied, &self.released),
            _ => {}
        }
    }
}

/// Holds the commit of the first session until the second has its first reply, and the second after it until the first
/// session has its own.
#[derive(Drop)]
struct Between {
    first_replied: AtomicU64,
    second_replied: AtomicU64,
    released: AtomicU64,
}

impl Gate for Between {
    fn pass<R: Wait>(&self, _rt: &R, point: GatePoint) {
        match point {
            GatePoint::BeforeCommit { session: 1, .. } => {
                hold(&self.second_replied, &self.released)
            }
            GatePoint::AfterReply { session: 1, .. } => {
                self.first_replied.store(1, Ordering::SeqCst);
            }
            GatePoint::AfterReply {
                session: 2,
                command: 1,
            } => {
                self.second_replied.store(1, Ordering::SeqCst);
                hold(&self.first_replied, &self.released);
            }
            _ => {}
        }
    }
}

// The text of the transcript that the sessions of a script make, run at once under the gate.
fn text_of<R: Threads + Wait + Sync, G: Gate>(
    rt: &R,
    alloc: Global,
    script: &[u8],
    gate: &G,
) -> Result<MemSink, Fail>
    requires { length script.now < u32.MAX }
{
    let script = match parse_script(alloc, script) {
        Ok(script) => script,
        Err(ScriptFault::OutOfMemory) => return Err("there was no memory".into()),
        Err(ScriptFault::BadScript { .. }) => return Err("it is no script".into()),
    };
    let transcript = run_host(rt, alloc, &script, gate)?;
    let mut text = MemSink::new(alloc, 1000, 64, Vec::new(alloc))?;
    match write_transcript(&transcript, &mut text) {
        Ok(()) => Ok(text),
        Err(_) => Err("it was not written".into()),
    }
}

// Both sessions are before their column at one time, so neither waits for the other to end, nor for a turn that the other
// has while it computes.
#[test]
fn two_sessions_compute_at_once(rt: HostRuntime) -> Result<(), Fail> {
    let meeting = Meeting {
        first: AtomicU64::new(0),
        second: AtomicU64::new(0),
        released: AtomicU64::new(0),
    };
    let text = text_of(
        &rt,
        rt.alloc(),
        b"space 11 101\nsession\nimage 2 1:0:1\nsession\nimage 2 1:1:2\n",
        &meeting,
    )?;
    assert!(rt;
        text.bytes()
            == b"transcript 1\nspace 11 101 symbols 12\nsession 1\n1 @0 ok coords 3 1 0\nsession 2\n1 @0 ok coords 0 99 0\nhistory 0\ncolumns 2\nend\n".as_slice()
    );
    assert_eq!(rt; meeting.released.load(Ordering::SeqCst), 2);
    Ok(())
}

// A column that both sessions demand is computed once.
#[test]
fn one_column_is_computed_once(rt: HostRuntime) -> Result<(), Fail> {
    let computations = Computations {
        count: AtomicU64::new(0),
    };
    let text = text_of(
        &rt,
        rt.alloc(),
        b"space 11 101\nsession\nimage 2 1:0:1\nsession\nimage 2 1:0:1\n",
        &computations,
    )?;
    assert!(rt;
        text.bytes()
            == b"transcript 1\nspace 11 101 symbols 12\nsession 1\n1 @0 ok coords 3 1 0\nsession 2\n1 @0 ok coords 3 1 0\nhistory 0\ncolumns 1\nend\n".as_slice()
    );
    assert_eq!(rt; computations.count.load(Ordering::SeqCst), 1);
    Ok(())
}

// Both splits are computed at version 0; the second is then tried again at version 1.
#[test]
fn a_stale_split_is_tried_again(rt: HostRuntime) -> Result<(), Fail> {
    let turns = Turns {
        second_came: AtomicU64::new(0),
        first_replied: AtomicU64::new(0),
        released: AtomicU64::new(0),
    };
    let text = text_of(
        &rt,
        rt.alloc(),
        b"space 11 101\nsession\nsplit T2 -3,1\nsession\nsplit T3 -4,1\n",
        &turns,
    )?;
    assert!(rt;
        text.bytes()
            == b"transcript 1\nspace 11 101 symbols 12\nsession 1\n1 @0 ok version 1 dims 1 2\nsession 2\n1 @1 ok version 2 dims 1 2\nhistory 2\n1 s1 c1 T2 98,1\n2 s2 c1 T3 97,1\ncolumns 24\nend\n".as_slice()
    );
    assert_eq!(rt; turns.released.load(Ordering::SeqCst), 3);
    Ok(())
}

// A column that another session has published is not computed again, and a point after a reply tells its own session.
#[test]
fn a_published_column_is_not_computed_again(rt: HostRuntime) -> Result<(), Fail> {
    let gate = LateSecond {
        first_replied: AtomicU64::new(0),
        released: AtomicU64::new(0),
        columns: AtomicU64::new(0),
    };
    let text = text_of(
        &rt,
        rt.alloc(),
        b"space 11 101\nsession\nimage 2 1:0:1\nsession\nnormal 0 1\nimage 2 1:0:1\n",
        &gate,
    )?;
    assert!(rt;
        text.bytes()
            == b"transcript 1\nspace 11 101 symbols 12\nsession 1\n1 @0 ok coords 3 1 0\nsession 2\n1 @0 ok point (0:1)\n2 @0 ok coords 3 1 0\nhistory 0\ncolumns 1\nend\n".as_slice()
    );
    assert_eq!(rt; gate.released.load(Ordering::SeqCst), 1);
    assert_eq!(rt; gate.columns.load(Ordering::SeqCst), 1);
    Ok(())
}

// A session learns before each of its commands: between two of them another session's split comes in.
#[test]
fn a_session_learns_at_each_command(rt: HostRuntime) -> Result<(), Fail> {
    let gate = Between {
        first_replied: AtomicU64::new(0),
        second_replied: AtomicU64::new(0),
        released: AtomicU64::new(0),
    };
    let text = text_of(
        &rt,
        rt.alloc(),
        b"space 11 101\nsession\nsplit T2 -3,1\nsession\nshow\nshow\n",
        &gate,
    )?;
    assert!(rt;
        text.bytes()
            == b"transcript 1\nspace 11 101 symbols 12\nsession 1\n1 @0 ok version 1 dims 1 2\nsession 2\n1 @0 ok splitting 0 dims 3 ops\n2 @1 ok splitting 1 dims 1 2 ops T2\nhistory 1\n1 s1 c1 T2 98,1\ncolumns 12\nend\n".as_slice()
    );
    assert_eq!(rt; gate.released.load(Ordering::SeqCst), 2);
    Ok(())
}

// A script that has no session opens its boards and closes them.
#[test]
fn no_session_makes_no_reply(rt: HostRuntime) -> Result<(), Fail> {
    let text = text_of(&rt, rt.alloc(), b"space 11 101\n", &NoGate)?;
    assert!(rt;
        text.bytes()
            == b"transcript 1\nspace 11 101 symbols 12\nhistory 0\ncolumns 0\nend\n".as_slice()
    );
    Ok(())
}
