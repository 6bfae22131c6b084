ghost use Rattle.std.specs.Prelude.{◌≡◌, ◌↔◌, ℕ, codes, true, false, Some, None};
ghost use Rattle.session_core.specs.SoloRuns.{IsSoloRun};
ghost use Rattle.session_core.specs.Transcripts.{IsLegalRun};
ghost use Rattle.host_workers.specs.Runs.{KeepsCounts, LeavesRun, LeavesSummary, LeavesUnread, are_word, seed_of};

use crate::generation::run_generated;
use crate::serve::run_serve;
use crate::solo::run_solo;
use crate::status::Status;
use crate::words::{are_word, generation_seed};
use column_flight::Gate;
use std::alloc::Global;
use std::sync::Wait;
use std::thread::Threads;
use sym_io::{Sink, Source};

/// All that the program does: it takes the words of the command line, reads a script from the input and writes
/// its transcript to the output. With the one word `solo` the sessions run one after another and it returns on every
/// input; with the one word `serve` they run all at once. With the word `gen` and a number it reads nothing: it makes a
/// script from the number, runs its sessions all at once and writes a summary in place of the transcript. Other words are
/// `Usage`, with nothing read or written. Where no reply is `err memory` the summary is a function of the
/// number: for that Merel's theorem is proved in `merel_theorem`, and that operators commute in `commuting_operators`.
pub fn run<R: Threads + Wait + Sync, I: Source, O: Sink, G: Gate>(
    rt: &R,
    alloc: Global,
    words: &[String],
    input: &mut I,
    output: &mut O,
    gate: &G,
) -> Status
    ensures usage { result ≡ Status.Usage ↔
        ((are_word words.now (codes "solo") ≡ false) × (are_word words.now (codes "serve") ≡ false)
        × (seed_of words.now ≡ None)) }
    ensures unread { result ≡ Status.Usage →
        LeavesUnread (I.left input.old) (I.left input.new) (O.written output.old)
        (O.written output.new)
        (I.faults input.old) (I.faults input.new) (O.faults output.old) (O.faults output.new) }
    ensures solo { are_word words.now (codes "solo") ≡ true →
        LeavesRun IsSoloRun (I.left input.old) (I.left input.new) (O.written output.old)
        (O.written output.new)
        (I.faults input.old) (I.faults input.new) (O.faults output.old) (O.faults output.new) result }
    ensures serve { are_word words.now (codes "serve") ≡ true →
        LeavesRun IsLegalRun (I.left input.old) (I.left input.new) (O.written output.old)
        (O.written output.new)
        (I.faults input.old) (I.faults input.new) (O.faults output.old) (O.faults output.new) result }
    ensures generated { (seed : ℕ) → seed_of words.now ≡ Some seed →
        (I.left input.new ≡ I.left input.old) × (I.faults input.new ≡ I.faults input.old)
        × LeavesSummary seed (O.written output.old) (O.written output.new)
        (O.faults output.old) (O.faults output.new) result }
    ensures faultless { KeepsCounts (I.faults input.old) (I.faults input.new)
        (O.faults output.old) (O.faults output.new) result }
{
    if are_word(words, b"solo") {
        run_solo(alloc, input, output)
    } else if are_word(words, b"serve") {
        run_serve(rt, alloc, input, output, gate)
    } else if let Some(seed) = generation_seed(words) {
        run_generated(rt, alloc, seed, output, gate)
    } else {
        Status::Usage
    }
}
