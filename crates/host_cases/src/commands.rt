ghost use Rattle.std.specs.Prelude.{◌≡◌, ◌<◌, ◌≤◌, All, IfOk, length, map};
ghost use Rattle.std.specs.Arc.{arc_value};
ghost use Rattle.p1_normal.specs.declared.matrix.TheConstants.{MAX_DET};
ghost use Rattle.p1_normal.specs.Points.{symbols};
ghost use Rattle.p1_normal.specs.Units.{gcd};
ghost use Rattle.hecke_columns.specs.Gathering.{IsGathered, IsGatheredAt, symbol_of};
ghost use Rattle.session_core.specs.Demands.{HasColumns};
ghost use Rattle.session_core.specs.Replies.{IsVersionAt};

use field_table::{Field, OutOfMemory};
use hecke_columns::{Column, GatheredColumns, LocalColumns};
use heilbronn_sets::merel_set;
use p1_normal::{Level, MAX_DET};
use quotient_coords::Space;
use reply_text::{Reply, write_text};
use script_text::CommandLine;
use session_core::{
    Demand, Finish, Host, Prepared, columns_are_demanded, finish, images_are_sums, prepare,
    solo_runs_are_legal, solo_runs_are_unique,
};
use split_state::Splitting;
use std::alloc::Global;
use std::sync::Arc;
use std::test::Fail;
use sym_io::MemSink;

// The space at a level and a characteristic. At level 11 and characteristic 101 symbol 0 is (0:1), symbol v + 1 is (1:v),
// and the free symbols are 0, 3 and 4.
fn space_at(alloc: Global, modulus: u32, characteristic: u32) -> Result<Space, Fail> {
    let level = Level::open(alloc, modulus)?;
    let field = Field::open(characteristic)?;
    Ok(Space::open(alloc, level, field)?)
}

fn line(alloc: Global, text: &str) -> Result<CommandLine, Fail> {
    if text.len() > 1000 {
        return Err("too long".into());
    }
    Ok(CommandLine {
        line: 1,
        text: text.as_bytes().to_vec(alloc)?,
    })
}

fn demands(prepared: &Prepared, det: u32, expected: &[u32]) -> bool {
    match prepared.demand() {
        Demand::Some { n, symbols } => *n == det && symbols.as_slice() == expected,
        _ => false,
    }
}

#[test]
fn symbols_are_demanded_once(rt: HostRuntime) -> Result<(), Fail> {
    let space = space_at(rt.alloc(), 11, 101)?;
    let image = line(rt.alloc(), "image 2 1:1:3 0:1:2 1:0:1 1:1:3")?;
    let splitting = Splitting::whole(rt.alloc(), space.field(), space.dim())?;
    match prepare(rt.alloc(), &space, &image, &splitting, 0) {
        Ok(prepared) => assert!(rt; demands(&prepared, 2, &[0, 3, 4])),
        Err(_) => assert!(rt; false),
    }
    Ok(())
}

// Whether this is the text of the reply.
fn says(alloc: Global, reply: &Reply, expected: &str) -> Result<bool, Fail> {
    let mut output = MemSink::new(alloc, 1000, 64, Vec::new(alloc))?;
    match write_text(reply, &mut output) {
        Ok(()) => Ok(output.bytes() == expected.as_bytes()),
        Err(_) => Ok(false),
    }
}

// A host of one session.
fn host_at(alloc: Global, modulus: u32, characteristic: u32) -> Result<Host, Fail>
    ensures { IfOk result (λ h. h.sessions ≡ 1) }
{
    let space = space_at(alloc, modulus, characteristic)?;
    Ok(Host::new(alloc, space, 1)?)
}

// Whether the host replies so to the line, at this version.
fn is_told(
    alloc: Global,
    host: &mut Host,
    text: &str,
    version: u32,
    expected: &str,
) -> Result<bool, Fail>
    requires { host.old.sessions ≡ 1 }
    ensures { host.new.sessions ≡ 1 }
{
    let line = line(alloc, text)?;
    let told = host.step(1, 1, &line);
    Ok(told.version == version && says(alloc, &told.reply, expected)?)
}

// Whether the host replies so to the lines, one after another, each at its version.
fn are_told(alloc: Global, host: &mut Host, rows: &[(&str, u32, &str)]) -> Result<bool, Fail>
    requires { host.old.sessions ≡ 1 }
{
    for row in rows {
        if !is_told(alloc, host, row.0, row.1, row.2)? {
            return Ok(false);
        }
    }
    Ok(true)
}

// Whether a host at level 11 and characteristic 101 does, and has so many columns afterwards.
fn answers_at_11(alloc: Global, columns: u64, rows: &[(&str, u32, &str)]) -> Result<bool, Fail> {
    let mut host = host_at(alloc, 11, 101)?;
    Ok(are_told(alloc, &mut host, rows)? && host.columns() == columns)
}

#[test]
fn normal_forms(rt: HostRuntime) -> Result<(), Fail> {
    let rows = [
        ("normal 22 7", 0, "ok point (0:1)"),
        ("normal 3 1", 0, "ok point (1:4)"),
        ("normal 0 0", 0, "err not_symbol 1"),
    ];
    assert!(rt; answers_at_11(rt.alloc(), 0, &rows)?);
    Ok(())
}

#[test]
fn coordinates(rt: HostRuntime) -> Result<(), Fail> {
    let rows = [
        ("reduce 1:1:4", 0, "ok coords 0 100 1"),
        ("certify 1:1:4", 0, "ok certified 0 100 1 by 4:100 15:1"),
        ("certify 1:0:1", 0, "ok certified 1 0 0 by"),
        ("reduce 2:1:5 -1:0:1 1:1:7", 0, "ok coords 100 99 100"),
        ("reduce", 0, "ok coords 0 0 0"),
    ];
    assert!(rt; answers_at_11(rt.alloc(), 0, &rows)?);
    Ok(())
}

#[test]
fn images(rt: HostRuntime) -> Result<(), Fail> {
    let rows = [
        ("image 2 1:0:1", 0, "ok coords 3 1 0"),
        ("image 2 1:1:2", 0, "ok coords 0 99 0"),
        ("image 2 1:1:3", 0, "ok coords 0 0 99"),
        ("image 2", 0, "ok coords 0 0 0"),
        ("image 2 101:0:1", 0, "ok coords 0 0 0"),
    ];
    assert!(rt; answers_at_11(rt.alloc(), 3, &rows)?);
    Ok(())
}

#[test]
fn images_of_other_numbers(rt: HostRuntime) -> Result<(), Fail> {
    let rows = [
        ("image 3 1:0:1", 0, "ok coords 4 1 0"),
        ("image 1 1:1:3", 0, "ok coords 0 0 1"),
    ];
    assert!(rt; answers_at_11(rt.alloc(), 2, &rows)?);
    Ok(())
}

#[test]
fn refusals(rt: HostRuntime) -> Result<(), Fail> {
    let rows = [
        ("image 22 1:0:1", 0, "err not_coprime 11"),
        ("image 401 1:0:1", 0, "err limit n"),
        ("image 0 1:0:1", 0, "err limit n"),
        ("image 2 1:11:0", 0, "err not_symbol 1"),
        ("image 22 1:11:0", 0, "err not_symbol 1"),
        ("image 2 1:0", 0, "err grammar 3"),
        ("frob", 0, "err grammar 1"),
        ("split", 0, "err grammar 2"),
        ("apply T2 1 2", 0, "err length 3 2"),
        ("part 2", 0, "err no_part 1"),
        ("part 0", 0, "err no_part 1"),
        ("reduce 1:1:5000000000", 0, "err limit number"),
    ];
    assert!(rt; answers_at_11(rt.alloc(), 0, &rows)?);
    Ok(())
}

#[test]
fn operators_and_splits(rt: HostRuntime) -> Result<(), Fail> {
    let rows = [
        ("split T2 -3,1", 0, "ok version 1 dims 1 2"),
        ("show", 1, "ok splitting 1 dims 1 2 ops T2"),
        ("part 1", 1, "ok rows 1 81 0"),
        ("part 2", 1, "ok rows 0 1 0 ; 0 0 1"),
        ("operator T2", 1, "ok operator 3 trace 100"),
        ("apply T2 1 0 0", 1, "ok coords 3 1 0"),
        ("poly T2 -3,1 1 81 0", 1, "ok coords 0 0 0"),
        ("split star -1,1", 1, "ok version 2 dims 1 1 1"),
    ];
    assert!(rt; answers_at_11(rt.alloc(), 12, &rows)?);
    Ok(())
}

#[test]
fn star_and_cusps(rt: HostRuntime) -> Result<(), Fail> {
    let rows = [
        ("boundary 1:0:1", 0, "ok boundary 1 100"),
        ("boundary 1:1:2", 0, "ok boundary 0 0"),
        ("cusps", 0, "ok cusps 2 (0:1) (1:0)"),
        ("split star -1,1", 0, "ok version 1 dims 2 1"),
        ("part 1", 1, "ok rows 1 0 0 ; 0 1 0"),
        ("part 2", 1, "ok rows 0 1 99"),
        ("star 1:1:3", 1, "ok coords 0 1 100"),
    ];
    assert!(rt; answers_at_11(rt.alloc(), 0, &rows)?);
    Ok(())
}

#[test]
fn chains_are_counted(rt: HostRuntime) -> Result<(), Fail> {
    let rows = [
        ("chains 4", 0, "ok chains 7 matrices 13"),
        ("chains 3", 0, "ok chains 4 matrices 7"),
        ("chains 0", 0, "err limit n"),
        ("chains 401", 0, "err limit n"),
    ];
    assert!(rt; answers_at_11(rt.alloc(), 0, &rows)?);
    Ok(())
}

// The shared column of symbol k over Merel's set of determinant n.
fn shared_column(alloc: Global, space: &Space, n: u32, k: u32) -> Result<Arc<Column>, OutOfMemory>
    requires limits { (0 < n) × (n ≤ MAX_DET) }
    requires coprime { gcd n space.now.level ≡ 1 }
    requires place { k < length (symbols space.now.level) }
    ensures { IfOk result (λ c. IsGatheredAt space.now n k (arc_value c)) }
{
    Ok(Arc::new(alloc, Column::by_chains(alloc, space, n, k)?)?)
}

// Those of these symbols.
fn shared_columns(
    alloc: Global,
    space: &Space,
    n: u32,
    given: &[u32],
) -> Result<Vec<Arc<Column>>, OutOfMemory>
    requires limits { (0 < n) × (n ≤ MAX_DET) }
    requires coprime { gcd n space.now.level ≡ 1 }
    requires places { All (λ k. k < length (symbols space.now.level)) given.now }
    ensures gathered { IfOk result (λ list. All (λ c. IsGathered space.now n (arc_value c)) list.items) }
    ensures symbols { IfOk result (λ list. map (λ c. symbol_of (arc_value c)) list.items ≡ given.now) }
{
    let mut columns = Vec::with_capacity(alloc, given.len())?;
    for k in given {
        let column = shared_column(alloc, space, n, *k)?;
        columns.push(column)?;
    }
    Ok(columns)
}

// What the command comes to over columns that are gathered for it.
fn gathered_finish(
    alloc: Global,
    space: &Space,
    splitting: &Splitting,
    prepared: &Prepared,
    n: u32,
    given: &[u32],
) -> Result<Finish, Fail>
    requires ground { prepared.now.ground ≡ space.now }
    requires version { IsVersionAt space.now prepared.now.version splitting.now }
    requires parts { prepared.now.parts ≡ length splitting.now.parts }
    requires demand { prepared.now.demand ≡ Demand.Some n given.now }
    requires columns { HasColumns space.now.level prepared.now.demand }
{
    let columns = shared_columns(alloc, space, n, given)?;
    let mut source = GatheredColumns::of(alloc, space, columns, n)?;
    Ok(finish(alloc, space, prepared, splitting, &mut source))
}

// What the command comes to over columns that are computed when they are asked for.
fn local_finish(
    alloc: Global,
    space: &Space,
    splitting: &Splitting,
    prepared: &Prepared,
    n: u32,
) -> Result<Finish, Fail>
    requires ground { prepared.now.ground ≡ space.now }
    requires version { IsVersionAt space.now prepared.now.version splitting.now }
    requires parts { prepared.now.parts ≡ length splitting.now.parts }
    requires demand { prepared.now.demand ≡ Demand.All n }
    requires columns { HasColumns space.now.level prepared.now.demand }
{
    let set = merel_set(alloc, n)?;
    let mut source = LocalColumns::new(space, &set);
    Ok(finish(alloc, space, prepared, splitting, &mut source))
}

// What a command comes to that demands columns: some gathered, or all local.
fn demanding_finish(
    alloc: Global,
    space: &Space,
    splitting: &Splitting,
    prepared: &Prepared,
) -> Result<Finish, Fail>
    requires ground { prepared.now.ground ≡ space.now }
    requires version { IsVersionAt space.now prepared.now.version splitting.now }
    requires parts { prepared.now.parts ≡ length splitting.now.parts }
{
    match prepared.demand() {
        Demand::Nothing => Err("nothing is demanded".into()),
        Demand::Some { n, symbols } => {
            gathered_finish(alloc, space, splitting, prepared, *n, symbols.as_slice())
        }
        Demand::All { n } => local_finish(alloc, space, splitting, prepared, *n),
    }
}

// The whole space, which is version 0.
fn whole_of(alloc: Global, space: &Space) -> Result<Splitting, OutOfMemory>
    ensures { IfOk result (IsVersionAt space.now 0) }
{
    let whole = Splitting::whole(alloc, space.field(), space.dim())?;
    Ok(whole)
}

// Whether it is this reply, or a split into parts of these dimensions.
fn is_finish(alloc: Global, finish: Finish, expected: &str, parts: &[u32]) -> Result<bool, Fail> {
    match finish {
        Finish::Reply(reply) => says(alloc, &reply, expected),
        Finish::Split { dims, .. } => Ok(dims.as_slice() == parts),
    }
}

// What a line comes to at version 0, if nothing refuses it.
fn line_finish(
    alloc: Global,
    space: &Space,
    splitting: &Splitting,
    line: &CommandLine,
) -> Result<Finish, Fail>
    requires version { IsVersionAt space.now 0 splitting.now }
{
    match prepare(alloc, space, line, splitting, 0) {
        Ok(prepared) => demanding_finish(alloc, space, splitting, &prepared),
        Err(_) => Err("refused".into()),
    }
}

// What a line comes to at version 0 of level 11 and characteristic 101.
fn finish_at_11(alloc: Global, text: &str) -> Result<Finish, Fail> {
    let space = space_at(alloc, 11, 101)?;
    let splitting = whole_of(alloc, &space)?;
    let line = line(alloc, text)?;
    line_finish(alloc, &space, &splitting, &line)
}

// Whether that is this reply, or a split into parts of these dimensions.
fn comes_to(alloc: Global, text: &str, expected: &str, parts: &[u32]) -> Result<bool, Fail> {
    let finish = finish_at_11(alloc, text)?;
    is_finish(alloc, finish, expected, parts)
}

#[test]
fn images_over_gathered_columns(rt: HostRuntime) -> Result<(), Fail> {
    assert!(rt; comes_to(rt.alloc(), "image 2 1:0:1", "ok coords 3 1 0", &[])?);
    assert!(rt; comes_to(rt.alloc(), "image 2 1:1:3", "ok coords 0 0 99", &[])?);
    Ok(())
}

#[test]
fn operators_over_local_columns(rt: HostRuntime) -> Result<(), Fail> {
    assert!(rt; comes_to(rt.alloc(), "operator T2", "ok operator 3 trace 100", &[])?);
    assert!(rt; comes_to(rt.alloc(), "split T2 -3,1", "", &[1, 2])?);
    Ok(())
}

#[test]
fn runs_are_legal(_rt: HostRuntime) {
    solo_runs_are_legal();
}

#[test]
fn runs_are_unique(_rt: HostRuntime) {
    solo_runs_are_unique();
}

#[test]
fn columns_are_counted(_rt: HostRuntime) {
    columns_are_demanded();
}

#[test]
fn images_of_coordinates_are_sums(_rt: HostRuntime) {
    images_are_sums();
}
