ghost use Rattle.std.specs.Prelude.{◌≡◌, ◌<◌, All, IfOk, IfSome, IsTrue, length};
ghost use Rattle.field_table.specs.Residues.{HasResidues};
ghost use Rattle.field_table.specs.Terms.{HasPlacesBelow};

use crate::drawn_rows::{dense_row, drawn_rows};
use crate::plain_elimination::{Plain, Row, ZEROS, difference, eliminated, remainder};
use field_table::{CHARACTERISTICS, Combo, Field, OutOfMemory};
use sparse_echelon::{Echelon, eliminate};
use std::alloc::Global;
use std::test::Fail;

// The width of the rows, and what they are drawn from.
const CASES: [(u32, u32); 12] = [
    (3, 1),
    (3, 2),
    (3, 3),
    (4, 4),
    (4, 5),
    (4, 6),
    (5, 7),
    (5, 8),
    (5, 9),
    (6, 10),
    (6, 11),
    (6, 12),
];

// Rows, what plain elimination makes of them, and what the crate under test does.
#[derive(Drop)]
struct Case {
    rows: Vec<Row>,
    plain: Plain,
    echelon: Echelon,
}

fn combos(alloc: Global, rows: &[Row]) -> Result<Vec<Combo>, OutOfMemory> {
    let mut list = Vec::new(alloc);
    for row in rows {
        list.push(Combo::from_dense(alloc, row)?)?;
    }
    Ok(list)
}

// Whether there are few rows, with their places below the width and their numbers below the characteristic.
fn are_within(rows: &[Combo], width: u32, characteristic: u32) -> bool
    ensures few { IsTrue result → length rows.now < 7 }
    ensures places { IsTrue result → All (HasPlacesBelow width) rows.now }
    ensures residues { IsTrue result → All (HasResidues characteristic) rows.now }
{
    rows.len() < 7 && rows.iter().all(|row| row.is_within(width, characteristic))
}

// The case of rows drawn for the field, or none where a row is not within the width and the characteristic.
fn case_of(
    alloc: Global,
    field: Field,
    width: u32,
    state: &mut u32,
) -> Result<Option<Case>, OutOfMemory>
    ensures width { IfOk result (λ o. IfSome o (λ case. case.echelon.width ≡ width)) }
    ensures field { IfOk result (λ o. IfSome o (λ case. case.echelon.characteristic ≡ field)) }
{
    let p = field.characteristic();
    let rows = drawn_rows(alloc, p, width, state)?;
    let plain = eliminated(alloc, p, &rows)?;
    let combos = combos(alloc, &rows)?;
    if !are_within(&combos, width, p) {
        return Ok(None);
    }
    let echelon = eliminate(alloc, field, &combos, width)?;
    Ok(Some(Case {
        rows,
        plain,
        echelon,
    }))
}

// Whether the pivots are the places at which the plain basis has a row.
fn has_the_pivots(case: &Case) -> bool {
    (0..).zip(case.plain.basis.iter()).all(|(place, row)| case.echelon.is_pivot(place)
        == (*row != ZEROS))
}

fn has_the_kept_rows(case: &Case) -> bool {
    case.echelon.rank() as usize == case.plain.kept.len()
        && case.echelon.kept() == case.plain.kept.as_slice()
}

// The terms as a row, each at its place.
fn row_of(terms: &[(u32, u32)]) -> Row {
    let mut row = ZEROS;
    for (place, number) in terms {
        if let Some(entry) = row.get_mut(*place as usize) {
            *entry = *number;
        }
    }
    row
}

// The row less the rows that the terms number, each times its coefficient.
fn less_rows(p: u32, row: &Row, rows: &[Row], coefficients: &[(u32, u32)]) -> Row
    requires { 0 < p }
{
    let mut left = *row;
    for (number, coefficient) in coefficients {
        if let Some(other) = rows.get(*number as usize) {
            left = difference(p, &left, *coefficient, other);
        }
    }
    left
}

// Whether the row reduces to what plain elimination leaves of it, and its coefficients, all over kept rows, add up to
// the rest.
fn agrees_at(
    alloc: Global,
    field: Field,
    width: u32,
    case: &Case,
    row: &Row,
) -> Result<bool, OutOfMemory>
    requires width { case.now.echelon.width ≡ width }
    requires field { case.now.echelon.characteristic ≡ field }
{
    let p = field.characteristic();
    let combo = Combo::from_dense(alloc, row)?;
    if !combo.is_within(width, p) {
        return Ok(false);
    }
    let reduced = row_of(case.echelon.reduce(alloc, &combo)?.terms());
    let coefficients = case.echelon.trace(alloc, &combo)?;
    let left = less_rows(p, row, &case.rows, coefficients.terms());
    Ok(
        reduced == remainder(p, &case.plain.basis, row)
            && reduced == left
            && coefficients
                .terms()
                .iter()
                .all(|term| case.plain.kept.contains(&term.0)),
    )
}

fn agrees_at_some_rows(
    alloc: Global,
    field: Field,
    width: u32,
    case: &Case,
    state: &mut u32,
) -> Result<bool, OutOfMemory>
    requires width { case.now.echelon.width ≡ width }
    requires field { case.now.echelon.characteristic ≡ field }
{
    for _ in 0..3 {
        let row = dense_row(field.characteristic(), width, state);
        if !agrees_at(alloc, field, width, case, &row)? {
            return Ok(false);
        }
    }
    Ok(true)
}

// Whether the pivots and the kept rows of the drawn rows are those of plain elimination.
fn keeps_the_same_rows(
    alloc: Global,
    field: Field,
    width: u32,
    seed: u32,
) -> Result<bool, OutOfMemory> {
    let mut state = seed;
    match case_of(alloc, field, width, &mut state)? {
        Some(case) => Ok(has_the_pivots(&case) && has_the_kept_rows(&case)),
        None => Ok(false),
    }
}

// Whether three combinations of the places reduce by the drawn rows as by plain elimination.
fn reduces_to_the_same(
    alloc: Global,
    field: Field,
    width: u32,
    seed: u32,
) -> Result<bool, OutOfMemory> {
    let mut state = seed;
    match case_of(alloc, field, width, &mut state)? {
        Some(case) => agrees_at_some_rows(alloc, field, width, &case, &mut state),
        None => Ok(false),
    }
}

#[test]
fn drawn_rows_are_kept_as_by_plain_elimination(rt: HostRuntime) -> Result<(), Fail> {
    for p in CHARACTERISTICS {
        let field = Field::open(p)?;
        for (width, seed) in CASES {
            assert!(rt;
                keeps_the_same_rows(rt.alloc(), field, width, seed)?,
                "at {p} {width} {seed}"
            );
        }
    }
    Ok(())
}

#[test]
fn combinations_reduce_as_by_plain_elimination(rt: HostRuntime) -> Result<(), Fail> {
    for p in CHARACTERISTICS {
        let field = Field::open(p)?;
        for (width, seed) in CASES {
            assert!(rt;
                reduces_to_the_same(rt.alloc(), field, width, seed)?,
                "at {p} {width} {seed}"
            );
        }
    }
    Ok(())
}
