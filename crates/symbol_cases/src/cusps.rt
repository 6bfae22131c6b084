ghost use Rattle.std.specs.Prelude.{◌≡◌};

use cusps_boundary::{
    Cusps, boundaries_are_linear, boundaries_of_relations_are_zero, cusp_key, cusp_key_laws,
    cusp_laws, small_levels,
};
use field_table::{Combo, Field, OutOfMemory};
use manin_relations::relation;
use p1_normal::Level;
use std::alloc::Global;
use std::test::Fail;

// What workers share may be sent and shared.
fn needs<T: Send + Sync>(_: &T) {}

// Whether the combination has this boundary.
fn has_boundary(
    alloc: Global,
    level: &Level,
    field: Field,
    combo: &Combo,
    values: &[u32],
) -> Result<bool, OutOfMemory> {
    let cusps = Cusps::build(alloc, level)?;
    if !combo.is_within(level.count(), field.characteristic()) {
        return Ok(false);
    }
    let sums = cusps.boundary(alloc, field, combo)?;
    Ok(sums.as_slice() == values)
}

// Whether the boundary of relation k has no residue but 0.
fn has_no_boundary(
    alloc: Global,
    level: &Level,
    cusps: &Cusps,
    field: Field,
    k: u32,
) -> Result<bool, OutOfMemory>
    requires { cusps.now ≡ level.now }
{
    if k >= 2 * level.count() {
        return Ok(false);
    }
    let combo = relation(alloc, level, field, k)?;
    if !combo.is_within(level.count(), field.characteristic()) {
        return Ok(false);
    }
    let sums = cusps.boundary(alloc, field, &combo)?;
    Ok(sums.as_slice().iter().all(|value| *value == 0))
}

// The cusp of symbol k and its key.
fn cusp_of(level: &Level, cusps: &Cusps, k: u32) -> Option<(u32, (u32, u32))>
    requires { cusps.now ≡ level.now }
{
    if k < level.count() {
        Some((cusps.of(k), cusp_key(level, k)))
    } else {
        None
    }
}

// The laws are calls of their own.
#[test]
fn laws_of_cusps(_rt: HostRuntime) {
    small_levels();
    cusp_laws();
    cusp_key_laws();
}

#[test]
fn laws_of_boundaries(_rt: HostRuntime) {
    boundaries_are_linear();
    boundaries_of_relations_are_zero();
}

// How many cusps the level has.
fn cusp_count(alloc: Global, n: u32) -> Result<u32, Fail> {
    let level = Level::open(alloc, n)?;
    let cusps = Cusps::build(alloc, &level)?;
    needs(&cusps);
    Ok(cusps.count())
}

// The levels and the numbers of their cusps by the formula with Euler's function.
#[test]
fn numbers_of_cusps(rt: HostRuntime) -> Result<(), Fail> {
    for (n, count) in [
        (1, 1),
        (4, 3),
        (11, 2),
        (12, 6),
        (16, 6),
        (36, 12),
        (420, 24),
        (499, 2),
        (500, 30),
        (990, 32),
        (1000, 40),
    ] {
        assert_eq!(rt; cusp_count(rt.alloc(), n)?, count, "at {n}");
    }
    Ok(())
}

// Whether the cusp has this least symbol, and this symbol that cusp and key.
fn has_cusp(level: &Level, cusps: &Cusps, c: u32, least: u32, key: (u32, u32)) -> bool
    requires { cusps.now ≡ level.now }
{
    c < cusps.count() && cusps.least(c) == least && cusp_of(level, cusps, least) == Some((c, key))
}

// At level 16 the symbols (4:1) and (4:3) have the two cusps with the first part 4.
#[test]
fn cusps_of_16(rt: HostRuntime) -> Result<(), Fail> {
    let level = Level::open(rt.alloc(), 16)?;
    let cusps = Cusps::build(rt.alloc(), &level)?;
    for (c, least, key) in [
        (0, 0, (16, 0)),
        (1, 1, (1, 0)),
        (2, 17, (2, 1)),
        (3, 21, (4, 1)),
        (4, 22, (4, 3)),
        (5, 23, (8, 1)),
    ] {
        assert!(rt; has_cusp(&level, &cusps, c, least, key), "cusp {c}");
    }
    for (k, c, key) in [(16, 1, (1, 0)), (18, 2, (2, 1)), (20, 2, (2, 1))] {
        assert_eq!(rt; cusp_of(&level, &cusps, k), Some((c, key)), "of {k}");
    }
    Ok(())
}

// Symbol 1 is (1:0), and symbol 3 is (1:2).
#[test]
fn boundaries_at_11(rt: HostRuntime) -> Result<(), Fail> {
    let eleven = Level::open(rt.alloc(), 11)?;
    let field = Field::open(101)?;
    for (k, values) in [(1, [1, 100]), (3, [0, 0]), (0, [100, 1])] {
        let combo = Combo::from_terms(rt.alloc(), field, &[(k, -1)])?;
        assert!(rt;
            has_boundary(rt.alloc(), &eleven, field, &combo, &values)?,
            "of {k}"
        );
    }
    Ok(())
}

// At level 4 symbol 3 is (1:2).
#[test]
fn boundaries_at_4(rt: HostRuntime) -> Result<(), Fail> {
    let four = Level::open(rt.alloc(), 4)?;
    let seven = Field::open(7)?;
    let combo = Combo::from_terms(rt.alloc(), seven, &[(3, 1)])?;
    assert!(rt; has_boundary(rt.alloc(), &four, seven, &combo, &[0, 1, 6])?);
    let sum = Combo::from_terms(rt.alloc(), seven, &[(0, 2), (3, 4), (5, 1)])?;
    assert!(rt; has_boundary(rt.alloc(), &four, seven, &sum, &[2, 1, 4])?);
    Ok(())
}

#[test]
fn boundaries_of_the_relations_of_60(rt: HostRuntime) -> Result<(), Fail> {
    let level = Level::open(rt.alloc(), 60)?;
    let cusps = Cusps::build(rt.alloc(), &level)?;
    for p in [2, 3, 65521] {
        let field = Field::open(p)?;
        for k in 0..2 * level.count() {
            assert!(rt;
                has_no_boundary(rt.alloc(), &level, &cusps, field, k)?,
                "of {k} at {p}"
            );
        }
    }
    Ok(())
}
