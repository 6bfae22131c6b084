ghost use Rattle.std.specs.Prelude.{◌<◌, ◌^◌, ◌-◌, length};

use field_table::{Field, Residues};
use op_polynomials::{OpName, Poly, SplitEntry};
use p1_normal::Point;
use reply_text::{
    History, Operators, Pairs, Piece, Points, Refusal, Reply, ReplyLine, Rows, SessionReplies,
    Sessions, Transcript, TranscriptFault, put_separated, read_transcript, write_summary,
    write_text, write_transcript,
};
use script_text::LimitWord;
use std::alloc::Global;
use std::test::Fail;
use sym_io::{MemSink, OutputBuffer};

fn needs<T: Send + Sync>(_: &T) {}

fn line(number: u32, version: u32, reply: Reply) -> ReplyLine {
    ReplyLine {
        number,
        version,
        reply,
    }
}

fn refused(number: u32, refusal: Refusal) -> ReplyLine {
    line(number, 0, Reply::Refused(refusal))
}

fn residues(alloc: Global, values: &[u32]) -> Result<Residues, Fail> {
    Ok(Residues::of(values.to_vec(alloc)?))
}

fn points(alloc: Global, values: &[Point]) -> Result<Points, Fail> {
    Ok(Points::of(values.to_vec(alloc)?))
}

// A transcript of one session, at level 11 and characteristic 101.
fn transcript(
    alloc: Global,
    replies: Vec<ReplyLine>,
    history: Vec<SplitEntry>,
    columns: u64,
) -> Result<Transcript, Fail> {
    let mut sessions = Vec::new(alloc);
    sessions.push(SessionReplies::of(replies))?;
    Ok(Transcript {
        modulus: 11,
        characteristic: 101,
        symbols: 12,
        sessions: Sessions::of(sessions),
        history: History::of(history),
        columns,
    })
}

// Two pairs that name points, and one that names none.
fn of_pairs(alloc: Global) -> Result<Transcript, Fail> {
    let mut replies = Vec::new(alloc);
    replies.push(line(1, 0, Reply::Point(Point { u: 0, v: 1 })))?;
    replies.push(line(2, 0, Reply::Point(Point { u: 1, v: 4 })))?;
    replies.push(refused(3, Refusal::NotSymbol { term: 1 }))?;
    transcript(alloc, replies, Vec::new(alloc), 0)
}

// Two splits, and what is said of the parts after the first.
fn of_splits(alloc: Global) -> Result<Transcript, Fail> {
    let field = Field::open(101)?;
    let second = OpName::T { n: 2 };
    let mut replies = Vec::new(alloc);
    let dims = residues(alloc, &[1, 2])?;
    replies.push(line(1, 0, Reply::Version { number: 1, dims }))?;
    let dims = residues(alloc, &[1, 2])?;
    let ops = Operators::of([second].to_vec(alloc)?);
    replies.push(line(
        2,
        1,
        Reply::Splitting {
            number: 1,
            dims,
            ops,
        },
    ))?;
    let mut rows = Vec::new(alloc);
    rows.push(residues(alloc, &[1, 81, 0])?)?;
    let rows = Rows::of(rows);
    replies.push(line(3, 1, Reply::Rows { rows }))?;
    let mut rows = Vec::new(alloc);
    rows.push(residues(alloc, &[0, 1, 0])?)?;
    rows.push(residues(alloc, &[0, 0, 1])?)?;
    let rows = Rows::of(rows);
    replies.push(line(4, 1, Reply::Rows { rows }))?;
    replies.push(line(5, 1, Reply::Operator { dim: 3, trace: 100 }))?;
    let values = residues(alloc, &[3, 1, 0])?;
    replies.push(line(6, 1, Reply::Coords { values }))?;
    let values = residues(alloc, &[0, 0, 0])?;
    replies.push(line(7, 1, Reply::Coords { values }))?;
    let dims = residues(alloc, &[1, 1, 1])?;
    replies.push(line(8, 1, Reply::Version { number: 2, dims }))?;
    let first = SplitEntry {
        session: 1,
        command: 1,
        op: second,
        poly: Poly::of(field, &[-3, 1])?,
    };
    let last = SplitEntry {
        session: 1,
        command: 8,
        op: OpName::Star,
        poly: Poly::of(field, &[-1, 1])?,
    };
    transcript(alloc, replies, [first, last].to_vec(alloc)?, 12)
}

// The other replies, some with empty lists.
fn of_the_others(alloc: Global) -> Result<Transcript, Fail> {
    let mut replies = Vec::new(alloc);
    let none = points(alloc, &[])?;
    replies.push(line(1, 0, Reply::Basis { points: none }))?;
    let values = residues(alloc, &[])?;
    replies.push(line(2, 0, Reply::Coords { values }))?;
    let coords = residues(alloc, &[0, 100, 1])?;
    let trace = Pairs::of([(4, 100), (15, 1)].to_vec(alloc)?);
    replies.push(line(3, 0, Reply::Certified { coords, trace }))?;
    let values = residues(alloc, &[1, 100])?;
    replies.push(line(4, 0, Reply::Boundary { values }))?;
    let cusps = points(alloc, &[Point { u: 0, v: 1 }, Point { u: 1, v: 0 }])?;
    replies.push(line(5, 0, Reply::Cusps { points: cusps }))?;
    let chains = 7;
    let matrices = 13;
    replies.push(line(6, 0, Reply::Chains { chains, matrices }))?;
    replies.push(refused(7, Refusal::Grammar { token: 3 }))?;
    let what = LimitWord::N;
    replies.push(refused(8, Refusal::Limit { what }))?;
    replies.push(refused(9, Refusal::NotCoprime { gcd: 11 }))?;
    replies.push(refused(10, Refusal::Length { need: 3, got: 2 }))?;
    replies.push(refused(11, Refusal::NoPart { count: 1 }))?;
    replies.push(refused(12, Refusal::VersionsFull))?;
    let coords = residues(alloc, &[100, 1, 0])?;
    replies.push(refused(13, Refusal::Relation { number: 0, coords }))?;
    let refusal = Refusal::Commutator {
        other: OpName::Star,
        row: 0,
        column: 0,
        left: 1,
        right: 0,
    };
    replies.push(refused(14, refusal))?;
    replies.push(line(15, 0, Reply::Memory))?;
    transcript(alloc, replies, Vec::new(alloc), 1)
}

// Whether this text is written.
fn is_written(alloc: Global, t: &Transcript, text: &[u8]) -> Result<bool, Fail> {
    let mut sink = MemSink::new(alloc, 4096, 64, Vec::new(alloc))?;
    write_transcript(t, &mut sink)?;
    Ok(sink.bytes() == text)
}

#[test]
fn transcripts(rt: HostRuntime) -> Result<(), Fail> {
    let alloc = rt.alloc();
    let pairs = of_pairs(alloc)?;
    needs(&pairs);
    let text =
        b"transcript 1\nspace 11 101 symbols 12\nsession 1\n1 @0 ok point (0:1)\n2 @0 ok point (1:4)\n3 @0 err not_symbol 1\nhistory 0\ncolumns 0\nend\n";
    assert!(rt; is_written(alloc, &pairs, text)?);
    let text =
        b"transcript 1\nspace 11 101 symbols 12\nsession 1\n1 @0 ok version 1 dims 1 2\n2 @1 ok splitting 1 dims 1 2 ops T2\n3 @1 ok rows 1 81 0\n4 @1 ok rows 0 1 0 ; 0 0 1\n5 @1 ok operator 3 trace 100\n6 @1 ok coords 3 1 0\n7 @1 ok coords 0 0 0\n8 @1 ok version 2 dims 1 1 1\nhistory 2\n1 s1 c1 T2 98,1\n2 s1 c8 star 100,1\ncolumns 12\nend\n";
    assert!(rt; is_written(alloc, &of_splits(alloc)?, text)?);
    let text =
        b"transcript 1\nspace 11 101 symbols 12\nsession 1\n1 @0 ok basis 0\n2 @0 ok coords\n3 @0 ok certified 0 100 1 by 4:100 15:1\n4 @0 ok boundary 1 100\n5 @0 ok cusps 2 (0:1) (1:0)\n6 @0 ok chains 7 matrices 13\n7 @0 err grammar 3\n8 @0 err limit n\n9 @0 err not_coprime 11\n10 @0 err length 3 2\n11 @0 err no_part 1\n12 @0 err versions_full\n13 @0 err relation 0 100 1 0\n14 @0 err commutator star 0 0 1 0\n15 @0 err memory\nhistory 0\ncolumns 1\nend\n";
    assert!(rt; is_written(alloc, &of_the_others(alloc)?, text)?);
    let mut failing = MemSink::new(alloc, 4096, 64, [0].to_vec(alloc)?)?;
    assert!(rt; write_transcript(&pairs, &mut failing).is_err());
    assert!(rt; failing.bytes().is_empty());
    let mut full = MemSink::new(alloc, 10, 64, Vec::new(alloc))?;
    assert!(rt; write_transcript(&pairs, &mut full).is_err());
    assert!(rt; full.bytes() == b"transcript".as_slice());
    Ok(())
}

// The greatest number, and pieces between commas.
#[test]
fn pieces(rt: HostRuntime) -> Result<(), Fail> {
    let alloc = rt.alloc();
    let mut sink = MemSink::new(alloc, 100, 64, Vec::new(alloc))?;
    write_text(&Piece::Number(u64::MAX), &mut sink)?;
    assert!(rt; sink.bytes() == b"18446744073709551615".as_slice());
    let mut sink = MemSink::new(alloc, 100, 64, Vec::new(alloc))?;
    let mut buffer = OutputBuffer::new();
    let pieces = [Piece::Number(0), Piece::Word(b"-"), Piece::Number(12)];
    put_separated(&mut buffer, &mut sink, b",", &pieces)?;
    buffer.flush(&mut sink)?;
    assert!(rt; sink.bytes() == b"0,-,12".as_slice());
    Ok(())
}

// Some replies to the first commands of two sessions that the number 0 draws: reduce, show and image, and image, star
// and image.
fn of_draws(alloc: Global) -> Result<Transcript, Fail> {
    let mut first = Vec::new(alloc);
    let values = residues(alloc, &[7, 8])?;
    first.push(line(1, 0, Reply::Coords { values }))?;
    first.push(line(2, 0, Reply::Memory))?;
    let values = residues(alloc, &[1, 2, 100])?;
    first.push(line(3, 0, Reply::Coords { values }))?;
    let mut second = Vec::new(alloc);
    let values = residues(alloc, &[u32::MAX, 1])?;
    second.push(line(1, 0, Reply::Coords { values }))?;
    let values = residues(alloc, &[5])?;
    second.push(line(2, 0, Reply::Coords { values }))?;
    second.push(refused(3, Refusal::NotSymbol { term: 1 }))?;
    let mut sessions = Vec::new(alloc);
    sessions.push(SessionReplies::of(first))?;
    sessions.push(SessionReplies::of(second))?;
    Ok(Transcript {
        modulus: 11,
        characteristic: 101,
        symbols: 12,
        sessions: Sessions::of(sessions),
        history: History::of(Vec::new(alloc)),
        columns: 7,
    })
}

#[test]
fn summaries(rt: HostRuntime) -> Result<(), Fail> {
    let t = of_draws(rt.alloc())?;
    let mut sink = MemSink::new(rt.alloc(), 200, 64, Vec::new(rt.alloc()))?;
    write_summary(0, &t, &mut sink)?;
    let text =
        b"generated 0\nspace 11 101 symbols 12 sessions 2 commands 6\nok 4 memory 1 versions 0 columns 7\nsum 4294967399\nend\n".as_slice();
    assert!(rt; sink.bytes() == text);
    Ok(())
}

// Whether this text is read, and written again as it stands.
fn is_read(alloc: Global, text: &[u8]) -> Result<bool, Fail>
    requires { length text.now < u32.MAX }
{
    match read_transcript(alloc, text) {
        Ok(t) => is_written(alloc, &t, text),
        Err(_) => Ok(false),
    }
}

// The line at which this text is that of no transcript, or 0.
fn faulty_line(alloc: Global, text: &[u8]) -> u32
    requires { length text.now < u32.MAX }
{
    match read_transcript(alloc, text) {
        Err(TranscriptFault::BadTranscript { line }) => line,
        _ => 0,
    }
}

#[test]
fn reads_what_is_written(rt: HostRuntime) -> Result<(), Fail> {
    let text =
        b"transcript 1\nspace 11 101 symbols 12\nsession 1\n1 @0 ok version 1 dims 1 2\n2 @1 ok rows 0 1 0 ; 0 0 1\n3 @1 err commutator star 0 0 1 0\nsession 2\nhistory 1\n1 s1 c1 T2 98,1\ncolumns 18446744073709551615\nend\n";
    assert!(rt; is_read(rt.alloc(), text)?);
    Ok(())
}

// Another version, no line, and another number of symbols.
#[test]
fn faulty_first_lines(rt: HostRuntime) {
    let alloc = rt.alloc();
    assert_eq!(rt; faulty_line(alloc, b"transcript 3\n"), 1);
    assert_eq!(rt; faulty_line(alloc, b""), 1);
    let text = b"transcript 1\nspace 11 101 symbols 13\n";
    assert_eq!(rt; faulty_line(alloc, text), 2);
}

// No line feed at the end, no end, and a line after it.
#[test]
fn faulty_last_lines(rt: HostRuntime) {
    let alloc = rt.alloc();
    let text = b"transcript 1\nspace 11 101 symbols 12\nhistory 0\ncolumns 0\nend";
    assert_eq!(rt; faulty_line(alloc, text), 5);
    let text = b"transcript 1\nspace 11 101 symbols 12\nhistory 0\ncolumns 0\n";
    assert_eq!(rt; faulty_line(alloc, text), 5);
    let text = b"transcript 1\nspace 11 101 symbols 12\nhistory 0\ncolumns 0\nend\n\n";
    assert_eq!(rt; faulty_line(alloc, text), 6);
}

// No row, a leading zero, and a number of 65 bits.
#[test]
fn faulty_numbers(rt: HostRuntime) {
    let alloc = rt.alloc();
    let text = b"transcript 1\nspace 11 101 symbols 12\nsession 1\n1 @0 ok rows\n";
    assert_eq!(rt; faulty_line(alloc, text), 4);
    let text = b"transcript 1\nspace 11 101 symbols 12\nsession 1\n1 @0 ok coords 01\n";
    assert_eq!(rt; faulty_line(alloc, text), 4);
    let text = b"transcript 1\nspace 11 101 symbols 12\nhistory 0\ncolumns 18446744073709551616\n";
    assert_eq!(rt; faulty_line(alloc, text), 4);
}
