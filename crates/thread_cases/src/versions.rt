ghost use Rattle.std.specs.Prelude.{◌≡◌, ◌+◌, ◌++◌, ◌∷◌, [], IfOk, List, false};
ghost use Rattle.std.specs.Arc.{arc_value};
ghost use Rattle.field_table.specs.Residues.{AreResidues};
ghost use Rattle.op_polynomials.specs.declared.entry.SplitEntry.{SplitEntry as Entry};
ghost use Rattle.op_polynomials.specs.declared.name.OpName.TheVariants.{Star};
ghost use Rattle.split_state.specs.Versions.{IsVersion};
ghost use Rattle.turn_board.specs.Passes.{IsOf, pass_count, view};
ghost use Rattle.split_versions.specs.Shared.{board_of, setting_of};

use crate::spaces::space_at_11;
use field_table::Field;
use op_polynomials::{OpName, Poly, SplitEntry};
use quotient_coords::Space;
use reply_text::MAX_VERSIONS;
use split_state::Splitting;
use split_versions::{CommitFault, Freshness, VersionState, Versions, versions_of_prefixes};
use star_map::star_matrix;
use std::alloc::{AllocError, Global};
use std::sync::{Arc, Wait};
use std::test::Fail;
use turn_board::Pass;

// The law is called once.
#[test]
fn prefixes(_rt: HostRuntime) {
    versions_of_prefixes();
}

// A split by star that leaves each part as it is, of the first session.
fn split_by_star(field: Field) -> Result<SplitEntry, Fail>
    ensures star { IfOk result (λ e. e.op ≡ Star) }
    ensures session { IfOk result (λ e. e.session ≡ 1) }
    ensures residues { IfOk result (λ e. AreResidues field e.poly) }
{
    let poly = Poly::of(field, &[1])?;
    Ok(SplitEntry {
        session: 1,
        command: 1,
        op: OpName::Star,
        poly,
    })
}

// The version that an entry of star makes of this one.
fn next_version(
    alloc: Global,
    space: &Space,
    last: &Splitting,
    entry: &SplitEntry,
) -> Result<Arc<Splitting>, Fail>
    requires version { (entries : List Entry) × IsVersion space.now entries last.now }
    requires star { entry.now.op ≡ Star }
    requires residues { AreResidues space.now.characteristic entry.now.poly }
    ensures { IfOk result (λ next. (entries : List Entry) → IsVersion space.now entries last.now →
        IsVersion space.now (entries ++ entry.now ∷ []) (arc_value next)) }
{
    let _ = last.parts();
    let mat = star_matrix(alloc, space)?;
    let next = last.refine(alloc, entry.op, &mat, &entry.poly)?;
    Ok(Arc::new(alloc, next)?)
}

// Commits the entry to the newest version.
fn commit(
    alloc: Global,
    space: &Space,
    state: &mut VersionState,
    entry: &SplitEntry,
) -> Result<Result<u32, CommitFault>, Fail>
    requires setting { state.old.setting ≡ space.now }
    requires star { entry.now.op ≡ Star }
    requires residues { AreResidues space.now.characteristic entry.now.poly }
    ensures setting { state.new.setting ≡ state.old.setting }
{
    let seen = state.entries().len() as u32;
    let next = next_version(alloc, space, state.newest(), entry)?;
    Ok(state.commit(seen, *entry, next))
}

// Commits the entry so often, and tells whether each was accepted.
fn commit_often(
    alloc: Global,
    space: &Space,
    state: &mut VersionState,
    entry: &SplitEntry,
    times: u32,
) -> Result<bool, Fail>
    requires setting { state.old.setting ≡ space.now }
    requires star { entry.now.op ≡ Star }
    requires residues { AreResidues space.now.characteristic entry.now.poly }
    ensures setting { state.new.setting ≡ state.old.setting }
{
    let mut all = true;
    for _ in 0..times {
        match commit(alloc, space, state, entry)? {
            Ok(_) => {}
            Err(_) => all = false,
        }
    }
    Ok(all)
}

// Commits an entry that was tested at version 0.
fn commit_first(
    alloc: Global,
    space: &Space,
    state: &mut VersionState,
    entry: &SplitEntry,
) -> Result<Result<u32, CommitFault>, Fail>
    requires setting { state.old.setting ≡ space.now }
    requires star { entry.now.op ≡ Star }
    requires residues { AreResidues space.now.characteristic entry.now.poly }
    ensures setting { state.new.setting ≡ state.old.setting }
{
    let fresh = VersionState::new(alloc, space)?;
    let next = next_version(alloc, space, fresh.newest(), entry)?;
    Ok(state.commit(0, *entry, next))
}

// What two splits that were tested at version 0 are answered.
fn two_at_once(
    alloc: Global,
    space: &Space,
    entry: &SplitEntry,
) -> Result<(Result<u32, CommitFault>, Result<u32, CommitFault>), Fail>
    requires star { entry.now.op ≡ Star }
    requires residues { AreResidues space.now.characteristic entry.now.poly }
{
    let mut state = VersionState::new(alloc, space)?;
    let first = commit_first(alloc, space, &mut state, entry)?;
    let second = commit_first(alloc, space, &mut state, entry)?;
    Ok((first, second))
}

// A split that was tested at version 0 is stale once another was accepted.
#[test]
fn stale(rt: HostRuntime) -> Result<(), Fail> {
    let space = space_at_11(rt.alloc())?;
    let entry = split_by_star(space.field())?;
    let (first, second) = two_at_once(rt.alloc(), &space, &entry)?;
    assert!(rt; matches!(first, Ok(1)));
    assert!(rt; matches!(second, Err(CommitFault::Stale { count: 1 })));
    Ok(())
}

// Whether `MAX_VERSIONS` splits are accepted, and what the next one is answered.
fn one_too_many(
    alloc: Global,
    space: &Space,
    entry: &SplitEntry,
) -> Result<(bool, Result<u32, CommitFault>), Fail>
    requires star { entry.now.op ≡ Star }
    requires residues { AreResidues space.now.characteristic entry.now.poly }
{
    let mut state = VersionState::new(alloc, space)?;
    let all = commit_often(alloc, space, &mut state, entry, MAX_VERSIONS)?;
    let last = commit(alloc, space, &mut state, entry)?;
    Ok((all, last))
}

// A history of `MAX_VERSIONS` entries is full.
#[test]
fn full(rt: HostRuntime) -> Result<(), Fail> {
    let space = space_at_11(rt.alloc())?;
    let entry = split_by_star(space.field())?;
    let (all, last) = one_too_many(rt.alloc(), &space, &entry)?;
    assert!(rt; all && matches!(last, Err(CommitFault::Full)));
    Ok(())
}

// Commits the entry at the version that the pass learns first.
fn learn_and_commit<R: Wait>(
    rt: &R,
    alloc: Global,
    space: &Space,
    versions: &Versions,
    pass: &mut Pass<VersionState>,
    entry: SplitEntry,
) -> Result<Result<u32, CommitFault>, Fail>
    requires setting { setting_of versions.now ≡ space.now }
    requires board { IsOf (board_of versions.now) pass.old }
    requires idle { (view pass.old).has_turn ≡ false }
    requires star { entry.op ≡ Star }
    requires residues { AreResidues space.now.characteristic entry.poly }
    requires session { entry.session ≡ (view pass.old).number + 1 }
    ensures board { IsOf (board_of versions.now) pass.new }
    ensures idle { (view pass.new).has_turn ≡ false }
    ensures number { (view pass.new).number ≡ (view pass.old).number }
{
    let (seen, splitting) = versions.current(rt, pass)?;
    let next = next_version(alloc, space, &splitting, &entry)?;
    Ok(versions.commit(rt, pass, seen, entry, next))
}

// Whether a commit of the first pass is accepted, and both find then what they should.
fn commit_and_look<R: Wait>(
    rt: &R,
    alloc: Global,
    space: &Space,
    versions: &Versions,
    first: &mut Pass<VersionState>,
    second: &mut Pass<VersionState>,
    entry: SplitEntry,
) -> Result<bool, Fail>
    requires setting { setting_of versions.now ≡ space.now }
    requires board { IsOf (board_of versions.now) first.old × IsOf (board_of versions.now) second.old }
    requires idle { ((view first.old).has_turn ≡ false) × ((view second.old).has_turn ≡ false) }
    requires star { entry.op ≡ Star }
    requires residues { AreResidues space.now.characteristic entry.poly }
    requires session { entry.session ≡ (view first.old).number + 1 }
    ensures board { IsOf (board_of versions.now) first.new × IsOf (board_of versions.now) second.new }
    ensures idle { ((view first.new).has_turn ≡ false) × ((view second.new).has_turn ≡ false) }
    ensures first { (view first.new).number ≡ (view first.old).number }
    ensures second { (view second.new).number ≡ (view second.old).number }
{
    let answer = learn_and_commit(rt, alloc, space, versions, first, entry)?;
    let same = versions.newer(first);
    let more = versions.newer(second);
    Ok(
        matches!(answer, Ok(1))
            && matches!(same, Freshness::Same)
            && matches!(more, Freshness::Newer { count: 1 }),
    )
}

// Whether the pass learns one entry, and finds no more right after.
fn learns_one<R: Wait>(
    rt: &R,
    versions: &Versions,
    pass: &mut Pass<VersionState>,
) -> Result<bool, Fail>
    requires board { IsOf (board_of versions.now) pass.old }
    requires idle { (view pass.old).has_turn ≡ false }
    ensures board { IsOf (board_of versions.now) pass.new }
    ensures idle { (view pass.new).has_turn ≡ false }
    ensures number { (view pass.new).number ≡ (view pass.old).number }
{
    let (seen, _) = versions.current(rt, pass)?;
    let same = versions.newer(pass);
    Ok(seen == 1 && matches!(same, Freshness::Same))
}

// The history of versions with two passes.
fn close_two(
    alloc: Global,
    versions: Versions,
    first: Pass<VersionState>,
    second: Pass<VersionState>,
) -> Result<VersionState, AllocError>
    requires count { pass_count (board_of versions) ≡ 2 }
    requires board { IsOf (board_of versions) first × IsOf (board_of versions) second }
    requires numbers { ((view first).number ≡ 0) × ((view second).number ≡ 1) }
    requires idle { ((view first).has_turn ≡ false) × ((view second).has_turn ≡ false) }
{
    let mut passes = Vec::with_capacity(alloc, 2)?;
    passes.push_reserved(first);
    passes.push_reserved(second);
    Ok(versions.close(passes))
}

// One pass commits, and another finds that there is more, learns it and finds no more.
#[test]
fn two_passes(rt: HostRuntime) -> Result<(), Fail> {
    let space = space_at_11(rt.alloc())?;
    let entry = split_by_star(space.field())?;
    let (versions, mut passes) = Versions::open(rt.alloc(), &space, 2)?;
    let (Some(mut second), Some(mut first)) = (passes.pop(), passes.pop()) else {
        panic!(rt; "there are two passes")
    };
    let found = commit_and_look(
        &rt,
        rt.alloc(),
        &space,
        &versions,
        &mut first,
        &mut second,
        entry,
    )?;
    let learnt = learns_one(&rt, &versions, &mut second)?;
    assert!(rt; found && learnt);
    let state = close_two(rt.alloc(), versions, first, second)?;
    assert_eq!(rt; state.entries().len(), 1);
    Ok(())
}
