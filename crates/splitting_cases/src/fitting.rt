ghost use Rattle.std.specs.Prelude.{◌≡◌, IfOk, IsTrue, length};
ghost use Rattle.dense_mat.specs.Echelon.{AreRows};
ghost use Rattle.dense_mat.specs.Matrix.{IsMatrix};
ghost use Rattle.field_table.specs.Residues.{AreResidues};
ghost use Rattle.linear_algebra.specs.Dense.{dense_rows};
ghost use Rattle.stable_subspaces.specs.Operator.{IsStable};

use dense_mat::{Basis, Mat, image_on, span_of};
use field_table::{Field, OutOfMemory, Residues};
use fitting_split::{Fit, fit};
use std::alloc::Global;
use std::test::Fail;

// Three rows, or the columns of a matrix of size 3.
type Rows = [[i64; 3]; 3];

// The columns of T_2 - 3 on the space of level 11.
const T2_LESS_3: Rows = [[0, 1, 0], [0, -5, 0], [0, 0, -5]];

// The columns of the map that sends each unit vector to the next, and the last to 0.
const NEXT: Rows = [[0, 1, 0], [0, 0, 1], [0, 0, 0]];

const UNITS: Rows = [[1, 0, 0], [0, 1, 0], [0, 0, 1]];

const TWICE: Rows = [[2, 0, 0], [0, 2, 0], [0, 0, 2]];

const ZEROS: Rows = [[0, 0, 0], [0, 0, 0], [0, 0, 0]];

// The last two unit vectors.
const LAST_TWO: Rows = [[0, 1, 0], [0, 0, 1], [0, 0, 0]];

fn row_of(alloc: Global, field: Field, numbers: &[i64; 3]) -> Result<Residues, OutOfMemory>
    ensures length { IfOk result (λ r. length r ≡ 3) }
    ensures residues { IfOk result (λ r. AreResidues field r) }
{
    let [a, b, c] = *numbers;
    Ok(Residues::of(vec![in alloc; field.residue(a), field.residue(b), field.residue(c)]?))
}

fn rows_of(alloc: Global, field: Field, rows: &Rows) -> Result<Vec<Residues>, OutOfMemory>
    ensures rows { IfOk result (λ v. AreRows field 3 v.items) }
    ensures count { IfOk result (λ v. length v.items ≡ 3) }
{
    let [a, b, c] = rows;
    let first = row_of(alloc, field, a)?;
    let second = row_of(alloc, field, b)?;
    let third = row_of(alloc, field, c)?;
    Ok(vec![in alloc; first, second, third]?)
}

// Whether the matrix sends the part into itself.
fn is_stable(alloc: Global, field: Field, mat: &Mat, part: &Basis) -> Result<bool, OutOfMemory>
    requires field { part.now.characteristic ≡ field }
    requires matrix { IsMatrix field mat.now }
    requires size { part.now.width ≡ length mat.now }
    ensures { IfOk result (λ b. IsTrue b →
        IsStable (dense_rows field mat.now) (dense_rows field part.now.rows)) }
{
    let image = image_on(alloc, field, mat, part)?;
    let rows = image.rows();
    for i in 0..rows.len() {
        if !part.contains(alloc, field, rows[i].as_slice())? {
            return Ok(false);
        }
    }
    Ok(true)
}

// Fitting's parts of the span of the rows, if the matrix of the columns sends it into itself.
fn parts_of(
    alloc: Global,
    field: Field,
    columns: &Rows,
    rows: &Rows,
) -> Result<Option<Fit>, OutOfMemory> {
    let list = rows_of(alloc, field, columns)?;
    let mat = Mat::from_columns(alloc, field, &list)?;
    let generators = rows_of(alloc, field, rows)?;
    let part = span_of(alloc, field, &generators, 3)?;
    if !is_stable(alloc, field, &mat, &part)? {
        return Ok(None);
    }
    Ok(Some(fit(alloc, field, &mat, &part)?))
}

// Whether these are the rows, in their order, with rows of zeros after them.
fn has_rows(basis: &Basis, rows: &[[u32; 3]; 3]) -> bool {
    let count = basis.rows().len();
    count <= 3
        && basis
            .rows()
            .iter()
            .zip(rows)
            .all(|(row, list)| row.as_slice() == list.as_slice())
        && rows.iter().skip(count).all(|list| *list == [0; 3])
}

// Whether the parts are these, with this power.
fn are_parts(parts: &Fit, kernel: &[[u32; 3]; 3], image: &[[u32; 3]; 3], power: u32) -> bool {
    has_rows(&parts.kernel, kernel) && has_rows(&parts.image, image) && parts.power == power
}

// Whether the parts of the span of the rows are these, with this power.
fn has_parts(
    alloc: Global,
    field: Field,
    columns: &Rows,
    rows: &Rows,
    kernel: &[[u32; 3]; 3],
    image: &[[u32; 3]; 3],
    power: u32,
) -> Result<bool, OutOfMemory> {
    match parts_of(alloc, field, columns, rows)? {
        Some(parts) => Ok(are_parts(&parts, kernel, image, power)),
        None => Ok(false),
    }
}

const ALL: [[u32; 3]; 3] = [[1, 0, 0], [0, 1, 0], [0, 0, 1]];

const LAST: [[u32; 3]; 3] = [[0, 1, 0], [0, 0, 1], [0, 0, 0]];

const NONE: [[u32; 3]; 3] = [[0, 0, 0], [0, 0, 0], [0, 0, 0]];

// The eigenvalues of T_2 are 3, -2 and -2.
#[test]
fn eisenstein_and_cuspidal_parts_at_11(rt: HostRuntime) -> Result<(), Fail> {
    let field = Field::open(101)?;
    let kernel = [[1, 81, 0], [0, 0, 0], [0, 0, 0]];
    assert!(rt; has_parts(rt.alloc(), field, &T2_LESS_3, &UNITS, &kernel, &LAST, 1)?);
    Ok(())
}

// There 3 and -2 are one eigenvalue, and the kernel alone has dimension 2.
#[test]
fn one_part_modulo_five(rt: HostRuntime) -> Result<(), Fail> {
    let field = Field::open(5)?;
    assert!(rt; has_parts(rt.alloc(), field, &T2_LESS_3, &UNITS, &ALL, &NONE, 2)?);
    Ok(())
}

// There -5 is 1, and (a, b, c) goes to (0, a + b, c).
#[test]
fn parts_modulo_two_and_three(rt: HostRuntime) -> Result<(), Fail> {
    for (p, kernel) in [
        (2, [[1, 1, 0], [0, 0, 0], [0, 0, 0]]),
        (3, [[1, 2, 0], [0, 0, 0], [0, 0, 0]]),
    ] {
        let field = Field::open(p)?;
        assert!(rt;
            has_parts(rt.alloc(), field, &T2_LESS_3, &UNITS, &kernel, &LAST, 1)?,
            "modulo {p}"
        );
    }
    Ok(())
}

// The zero map, a nilpotent one, a multiple of the identity, a part of dimension 0 and one on which
// the map is invertible, in three characteristics.
#[test]
fn extreme_cases(rt: HostRuntime) -> Result<(), Fail> {
    for p in [3, 101, 65521] {
        let field = Field::open(p)?;
        for (columns, rows, kernel, image, power) in [
            (ZEROS, UNITS, ALL, NONE, 1),
            (NEXT, UNITS, ALL, NONE, 3),
            (NEXT, LAST_TWO, LAST, NONE, 2),
            (TWICE, UNITS, NONE, ALL, 0),
            (NEXT, ZEROS, NONE, NONE, 0),
            (T2_LESS_3, LAST_TWO, NONE, LAST, 0),
        ] {
            assert!(rt;
                has_parts(rt.alloc(), field, &columns, &rows, &kernel, &image, power)?,
                "modulo {p}"
            );
        }
    }
    Ok(())
}

// The span of the first unit vector is no part that the map sends into itself.
#[test]
fn unstable_span(rt: HostRuntime) -> Result<(), Fail> {
    let field = Field::open(101)?;
    let rows = [[1, 0, 0], [0, 0, 0], [0, 0, 0]];
    assert!(rt; parts_of(rt.alloc(), field, &NEXT, &rows)?.is_none());
    Ok(())
}
