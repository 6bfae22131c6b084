mod serving;
mod session;

use host_workers::{NoGate, Status, limits, run, run_solo, shared_runs_are_legal};
use script_text::ScriptCause;
use std::alloc::Global;
use std::sync::Wait;
use std::test::Fail;
use std::thread::Threads;
use sym_io::{MemSink, MemSource};

const SCRIPT: &[u8] = b"space 11 101\nsession\nnormal 22 7\nnormal 3 1\nnormal 0 0\n";

const TRANSCRIPT: &[u8] =
    b"transcript 1\nspace 11 101 symbols 12\nsession 1\n1 @0 ok point (0:1)\n2 @0 ok point (1:4)\n3 @0 err not_symbol 1\nhistory 0\ncolumns 0\nend\n";

const COORDS: &[u8] =
    b"space 11 101\r\n\n# note\nsession\nreduce 1:1:4\ncertify 1:1:4\ncertify 1:0:1\nreduce 2:1:5 -1:0:1 1:1:7\nreduce\nsession\nbasis\nshow\nreduce 1:1:2 1:11:0\nimage 2 1:0";

const ANSWERS: &[u8] =
    b"transcript 1\nspace 11 101 symbols 12\nsession 1\n1 @0 ok coords 0 100 1\n2 @0 ok certified 0 100 1 by 4:100 15:1\n3 @0 ok certified 1 0 0 by\n4 @0 ok coords 100 99 100\n5 @0 ok coords 0 0 0\nsession 2\n1 @0 ok basis 3 (0:1) (1:2) (1:3)\n2 @0 ok splitting 0 dims 3 ops\n3 @0 err not_symbol 2\n4 @0 err grammar 3\nhistory 0\ncolumns 0\nend\n";

const IMAGES: &[u8] =
    b"space 11 101\nsession\nimage 2 1:0:1\nimage 2 1:1:2\nimage 2 1:1:3\nimage 3 1:0:1\nimage 1 1:1:3\nchains 4\nchains 3\nsession\nimage 2\nimage 2 1:0:1\nimage 22 1:0:1\nimage 22 1:11:0\nimage 401 1:0:1\nchains 0\n";

const IMAGE_ANSWERS: &[u8] =
    b"transcript 1\nspace 11 101 symbols 12\nsession 1\n1 @0 ok coords 3 1 0\n2 @0 ok coords 0 99 0\n3 @0 ok coords 0 0 99\n4 @0 ok coords 4 1 0\n5 @0 ok coords 0 0 1\n6 @0 ok chains 7 matrices 13\n7 @0 ok chains 4 matrices 7\nsession 2\n1 @0 ok coords 0 0 0\n2 @0 ok coords 3 1 0\n3 @0 err not_coprime 11\n4 @0 err not_symbol 1\n5 @0 err limit n\n6 @0 err limit n\nhistory 0\ncolumns 5\nend\n";

const ZERO_COEFFICIENT: &[u8] = b"space 11 101\nsession\nimage 2\nimage 2 101:0:1\n";

const ZERO_ANSWERS: &[u8] =
    b"transcript 1\nspace 11 101 symbols 12\nsession 1\n1 @0 ok coords 0 0 0\n2 @0 ok coords 0 0 0\nhistory 0\ncolumns 1\nend\n";

const LEVEL_ONE: &[u8] =
    b"space 1 5\nsession\nbasis\nnormal 4 6\nreduce 1:0:0\ncertify 1:0:0\nimage 2 1:0:0\nchains 1\n";

const LEVEL_ONE_ANSWERS: &[u8] =
    b"transcript 1\nspace 1 5 symbols 1\nsession 1\n1 @0 ok basis 0\n2 @0 ok point (0:0)\n3 @0 ok coords\n4 @0 ok certified by 0:3\n5 @0 ok coords\n6 @0 ok chains 1 matrices 1\nhistory 0\ncolumns 1\nend\n";

const CUSPS: &[u8] = b"space 4 7\nsession\ncusps\nboundary 1:1:2\nbasis\nnormal 2 3\nstar 1:2:0\n";

const CUSPS_ANSWERS: &[u8] =
    b"transcript 1\nspace 4 7 symbols 6\nsession 1\n1 @0 ok cusps 3 (0:1) (1:0) (2:1)\n2 @0 ok boundary 0 1 6\n3 @0 ok basis 2 (0:1) (1:2)\n4 @0 ok point (2:1)\n5 @0 err not_symbol 1\nhistory 0\ncolumns 0\nend\n";

const STARS: &[u8] =
    b"space 11 101\nsession\nstar 1:1:3\nboundary 1:0:1\nboundary 1:1:2\ncusps\nstar\nboundary\n";

const STARS_ANSWERS: &[u8] =
    b"transcript 1\nspace 11 101 symbols 12\nsession 1\n1 @0 ok coords 0 1 100\n2 @0 ok boundary 1 100\n3 @0 ok boundary 0 0\n4 @0 ok cusps 2 (0:1) (1:0)\n5 @0 ok coords 0 0 0\n6 @0 ok boundary 0 0\nhistory 0\ncolumns 0\nend\n";

const SPLITS: &[u8] =
    b"space 11 101\nsession\nsplit T2 -3,1\nshow\npart 1\npart 2\noperator T2\napply T2 1 0 0\npoly T2 -3,1 1 81 0\nsplit star -1,1\n";

const SPLITS_ANSWERS: &[u8] =
    b"transcript 1\nspace 11 101 symbols 12\nsession 1\n1 @0 ok version 1 dims 1 2\n2 @1 ok splitting 1 dims 1 2 ops T2\n3 @1 ok rows 1 81 0\n4 @1 ok rows 0 1 0 ; 0 0 1\n5 @1 ok operator 3 trace 100\n6 @1 ok coords 3 1 0\n7 @1 ok coords 0 0 0\n8 @1 ok version 2 dims 1 1 1\nhistory 2\n1 s1 c1 T2 98,1\n2 s1 c8 star 100,1\ncolumns 12\nend\n";

const OPERATORS: &[u8] =
    b"space 11 101\nsession\noperator star\noperator T3\napply star 0 0 1\napply T2 1 2\nsession\npoly T2 0 1 2 3\nsplit T22 1\npart 2\npart 0\npart 1\n";

const OPERATORS_ANSWERS: &[u8] =
    b"transcript 1\nspace 11 101 symbols 12\nsession 1\n1 @0 ok operator 3 trace 1\n2 @0 ok operator 3 trace 2\n3 @0 ok coords 0 1 100\n4 @0 err length 3 2\nsession 2\n1 @0 ok coords 0 0 0\n2 @0 err not_coprime 11\n3 @0 err no_part 1\n4 @0 err no_part 1\n5 @0 ok rows 1 0 0 ; 0 1 0 ; 0 0 1\nhistory 0\ncolumns 24\nend\n";

// A script with the calls of the input and of the output that fail, the room of the output, the status and what is written.
#[derive(Clone, Copy)]
struct Case {
    name: &'static str,
    script: &'static [u8],
    read_fails: &'static [u32],
    write_fails: &'static [u32],
    room: u32,
    status: Status,
    written: &'static [u8],
}

fn plain(
    name: &'static str,
    script: &'static [u8],
    status: Status,
    written: &'static [u8],
) -> Case {
    Case {
        name,
        script,
        read_fails: &[],
        write_fails: &[],
        room: 1000,
        status,
        written,
    }
}

fn bad(name: &'static str, script: &'static [u8], line: u32, cause: ScriptCause) -> Case {
    plain(name, script, Status::BadScript { line, cause }, b"")
}

fn cases() -> [Case; 16] {
    [
        plain("points", SCRIPT, Status::Done, TRANSCRIPT),
        plain("coordinates", COORDS, Status::Done, ANSWERS),
        plain("images", IMAGES, Status::Done, IMAGE_ANSWERS),
        plain(
            "a coefficient of 0",
            ZERO_COEFFICIENT,
            Status::Done,
            ZERO_ANSWERS,
        ),
        plain("level 1", LEVEL_ONE, Status::Done, LEVEL_ONE_ANSWERS),
        plain("stars", STARS, Status::Done, STARS_ANSWERS),
        plain("cusps", CUSPS, Status::Done, CUSPS_ANSWERS),
        plain("splits", SPLITS, Status::Done, SPLITS_ANSWERS),
        plain("operators", OPERATORS, Status::Done, OPERATORS_ANSWERS),
        Case {
            read_fails: &[1],
            ..plain("a failed read", SCRIPT, Status::ReadFault, b"")
        },
        Case {
            write_fails: &[0],
            ..plain("a failed write", SCRIPT, Status::WriteFault, b"")
        },
        Case {
            room: 10,
            ..plain("little room", SCRIPT, Status::WriteFault, b"transcript")
        },
        bad(
            "no characteristic",
            b"space 11 6\n",
            1,
            ScriptCause::Characteristic,
        ),
        bad("no level", b"space 1001 5\n", 1, ScriptCause::Level),
        bad("no header", b"# x\n", 2, ScriptCause::Header),
        bad(
            "no session",
            b"space 11 101\nnormal 3 1\n",
            2,
            ScriptCause::NoSession,
        ),
    ]
}

// The status of a run with one word, and whether it wrote the text of the case.
fn runs_as<R: Threads + Wait + Sync>(
    rt: &R,
    alloc: Global,
    word: &str,
    case: &Case,
) -> Result<bool, Fail> {
    let mut words = Vec::new(alloc);
    words.push(String::from_str(alloc, word)?)?;
    let bytes = case.script.to_vec(alloc)?;
    let mut input = MemSource::new(bytes, 8, case.read_fails.to_vec(alloc)?);
    let mut output = MemSink::new(alloc, case.room, 8, case.write_fails.to_vec(alloc)?)?;
    let status = run(rt, alloc, &words, &mut input, &mut output, &NoGate);
    Ok(status == case.status && output.bytes() == case.written)
}

#[test]
fn each_script_has_its_status_and_text(rt: HostRuntime) -> Result<(), Fail> {
    for case in cases() {
        assert!(rt; runs_as(&rt, rt.alloc(), "solo", &case)?, "{}", case.name);
    }
    Ok(())
}

// So it has with `serve`, where it has one session that splits, or none that does.
#[test]
fn sessions_at_once_have_the_same_text(rt: HostRuntime) -> Result<(), Fail> {
    for case in cases() {
        assert!(rt; runs_as(&rt, rt.alloc(), "serve", &case)?, "{}", case.name);
    }
    Ok(())
}

// Whether these words are refused with nothing read or written.
fn are_refused<R: Threads + Wait + Sync>(
    rt: &R,
    alloc: Global,
    words: &[&str],
) -> Result<bool, Fail> {
    let mut list = Vec::new(alloc);
    for word in words {
        list.push(String::from_str(alloc, word)?)?;
    }
    let mut input = MemSource::new(SCRIPT.to_vec(alloc)?, 8, [0].to_vec(alloc)?);
    let mut output = MemSink::new(alloc, 1000, 8, Vec::new(alloc))?;
    let status = run(rt, alloc, &list, &mut input, &mut output, &NoGate);
    Ok(status == Status::Usage && output.bytes().is_empty())
}

#[test]
fn other_words_read_nothing(rt: HostRuntime) -> Result<(), Fail> {
    let alloc = rt.alloc();
    assert!(rt; are_refused(&rt, alloc, &[])?);
    assert!(rt; are_refused(&rt, alloc, &["serve", "x"])?);
    for word in ["", "gen", "-1", "Serve"] {
        assert!(rt; are_refused(&rt, alloc, &[word])?, "the word '{word}'");
    }
    Ok(())
}

// So is the word `gen` without one number below 2 to the 64.
#[test]
fn other_numbers_read_nothing(rt: HostRuntime) -> Result<(), Fail> {
    let alloc = rt.alloc();
    assert!(rt; are_refused(&rt, alloc, &["gen", "1", "2"])?);
    for number in [
        "",
        "x",
        "-1",
        "99999999999999999999",
        "18446744073709551616",
    ] {
        assert!(rt;
            are_refused(&rt, alloc, &["gen", number])?,
            "the number '{number}'"
        );
    }
    Ok(())
}

// A script of one image of so many terms, each the symbol (0:1).
fn image_script(alloc: Global, terms: u32) -> Result<Vec<u8>, Fail> {
    let mut script = b"space 11 101\nsession\nimage 2".to_vec(alloc)?;
    for _ in 0..terms {
        script.extend_from_slice(b" 1:0:1")?;
    }
    Ok(script)
}

// What the script of such an image has on its fourth line.
fn has_reply(alloc: Global, terms: u32, reply: &[u8]) -> Result<bool, Fail> {
    let mut input = MemSource::new(image_script(alloc, terms)?, 64, Vec::new(alloc));
    let mut output = MemSink::new(alloc, 1000, 64, Vec::new(alloc))?;
    let status = run_solo(alloc, &mut input, &mut output);
    let told = output.bytes().split(|byte| *byte == b'\n').nth(3);
    Ok(status == Status::Done && told == Some(reply))
}

// The image of (0:1) is 3 1 0.
#[test]
fn images_of_many_terms(rt: HostRuntime) -> Result<(), Fail> {
    assert!(rt; has_reply(rt.alloc(), 2, b"1 @0 ok coords 6 2 0")?);
    assert!(rt; has_reply(rt.alloc(), 64, b"1 @0 ok coords 91 64 0")?);
    assert!(rt; has_reply(rt.alloc(), 65, b"1 @0 err limit terms")?);
    Ok(())
}

#[test]
fn laws(_rt: HostRuntime) {
    limits();
    shared_runs_are_legal();
}
