ghost use Rattle.std.specs.Prelude.{◌≡◌, ◌<◌, ◌^◌, ◌↔◌, IfOk, IfSome, IsTrue, Contains, length};
ghost use Rattle.dense_mat.specs.Echelon.{AreRows};
ghost use Rattle.dense_mat.specs.Matrix.{IsMatrix};
ghost use Rattle.field_table.specs.Residues.{AreResidues};

use dense_mat::{Basis, Mat};
use field_table::{Field, OutOfMemory, Residues};
use op_polynomials::{OpName, Poly};
use split_state::{
    RefineFault, Splitting, first_differences_are_unique, steps_are_unique, steps_keep_splittings,
    versions_are_splittings, versions_are_unique, versions_grow_by_steps, versions_list_operators,
};
use std::alloc::Global;
use std::test::Fail;

// The columns of T_2 and of star on the space of level 11.
const T2: [[i64; 3]; 3] = [[3, 1, 0], [0, -2, 0], [0, 0, -2]];

const STAR: [[i64; 3]; 3] = [[1, 0, 0], [0, 1, 0], [0, 1, -1]];

// Two shifts of the plane, which do not commute.
const UP: [[i64; 2]; 2] = [[0, 1], [0, 0]];

const DOWN: [[i64; 2]; 2] = [[0, 0], [1, 0]];

// Workers share these.
fn is_shared<T: Send + Sync>(_value: &T) {}

// The laws are called once.
#[test]
fn laws(_rt: HostRuntime) {
    steps_keep_splittings();
    steps_are_unique();
    first_differences_are_unique();
    versions_are_unique();
    versions_grow_by_steps();
    versions_list_operators();
    versions_are_splittings();
}

// As many of the numbers as the width, as residues.
fn row_of(alloc: Global, field: Field, width: u32, numbers: &[i64]) -> Result<Residues, OutOfMemory>
    ensures length { IfOk result (λ r. length r ≡ width) }
    ensures residues { IfOk result (λ r. AreResidues field r) }
{
    let mut row = Vec::new(alloc);
    for k in 0..width {
        row.push(field.residue(numbers.get(k as usize).copied().unwrap_or(0)))?;
    }
    Ok(Residues::of(row))
}

fn rows_of<const N: usize>(
    alloc: Global,
    field: Field,
    width: u32,
    rows: &[[i64; N]],
) -> Result<Vec<Residues>, OutOfMemory>
    ensures rows { IfOk result (λ v. AreRows field width v.items) }
    ensures count { IfOk result (λ v. length v.items ≡ length rows.now) }
{
    let mut list = Vec::new(alloc);
    for row in rows {
        list.push(row_of(alloc, field, width, row.as_slice())?)?;
    }
    Ok(list)
}

fn matrix_of<const N: usize>(
    alloc: Global,
    field: Field,
    columns: &[[i64; N]],
) -> Result<Mat, OutOfMemory>
    requires few { length columns.now < 2 ^ 32 }
    ensures matrix { IfOk result (λ m. IsMatrix field m) }
    ensures size { IfOk result (λ m. length m ≡ length columns.now) }
{
    let list = rows_of(alloc, field, columns.len() as u32, columns)?;
    Mat::from_columns(alloc, field, &list)
}

// Whether the operator is listed.
fn is_listed(names: &[OpName], op: OpName) -> bool
    ensures { IsTrue result ↔ Contains names.now op }
{
    names.contains(&op)
}

// The step by an operator that is new to the splitting, or none where its name is listed.
fn step(
    alloc: Global,
    splitting: &Splitting,
    op: OpName,
    mat: &Mat,
    poly: &Poly,
) -> Result<Option<Splitting>, RefineFault>
    requires matrix { IsMatrix splitting.now.characteristic mat.now }
    requires coefficients { AreResidues splitting.now.characteristic poly.now }
    ensures { IfOk result (λ some.
        IfSome some (λ r. r.characteristic ≡ splitting.now.characteristic)) }
{
    if splitting.dim() != mat.size() || is_listed(splitting.ops(), op) {
        return Ok(None);
    }
    let refined = splitting.refine(alloc, op, mat, poly)?;
    Ok(Some(refined))
}

// Whether these are the numbers of the rows of the part.
fn part_is<const N: usize>(parts: &[Basis], number: usize, numbers: &[[u32; N]]) -> bool {
    let Some(part) = parts.get(number) else {
        return false;
    };
    let rows = part.rows();
    rows.len() == numbers.len()
        && rows
            .iter()
            .zip(numbers)
            .all(|(row, list)| row.as_slice() == list.as_slice())
}

// The whole space has the rows of the identity, and no part where its vectors have no place.
#[test]
fn whole_spaces(rt: HostRuntime) -> Result<(), Fail> {
    let field = Field::open(101)?;
    let whole = Splitting::whole(rt.alloc(), field, 3)?;
    is_shared(&whole);
    assert!(rt; whole.dim() == 3 && whole.parts().len() == 1 && whole.ops().len() == 0);
    assert!(rt; part_is(whole.parts(), 0, &[[1, 0, 0], [0, 1, 0], [0, 0, 1]]));
    let none = Splitting::whole(rt.alloc(), field, 0)?;
    assert!(rt; none.dim() == 0 && none.parts().len() == 0 && none.ops().len() == 0);
    Ok(())
}

// The splitting of the whole space by T_2 - 3.
fn eisenstein(alloc: Global, field: Field) -> Result<Option<Splitting>, Fail>
    ensures { IfOk result (λ some. IfSome some (λ s. s.characteristic ≡ field)) }
{
    let mat = matrix_of(alloc, field, &T2)?;
    let poly = Poly::of(field, &[-3, 1])?;
    let whole = Splitting::whole(alloc, field, 3)?;
    let split = step(alloc, &whole, OpName::T { n: 2 }, &mat, &poly)?;
    Ok(split)
}

// At level 11 T_2 - 3 splits the Eisenstein part from the cuspidal one, whose T_2 is -2.
#[test]
fn eisenstein_and_cuspidal_parts(rt: HostRuntime) -> Result<(), Fail> {
    let split = eisenstein(rt.alloc(), Field::open(101)?)?.ok_or("listed")?;
    assert!(rt; split.dim() == 3 && split.parts().len() == 2);
    assert!(rt; part_is(split.parts(), 0, &[[1, 81, 0]]));
    assert!(rt; part_is(split.parts(), 1, &[[0, 1, 0], [0, 0, 1]]));
    assert!(rt; split.ops() == [OpName::T { n: 2 }].as_slice());
    let copy = split.copy(rt.alloc())?;
    assert!(rt; part_is(copy.parts(), 0, &[[1, 81, 0]]));
    assert!(rt; part_is(copy.parts(), 1, &[[0, 1, 0], [0, 0, 1]]));
    assert!(rt; copy.dim() == 3 && copy.ops() == [OpName::T { n: 2 }].as_slice());
    Ok(())
}

// Modulo 5, where 3 is -2, they are one part.
#[test]
fn one_part_modulo_5(rt: HostRuntime) -> Result<(), Fail> {
    let split = eisenstein(rt.alloc(), Field::open(5)?)?.ok_or("listed")?;
    assert!(rt; split.parts().len() == 1 && split.ops().len() == 1);
    assert!(rt; part_is(split.parts(), 0, &[[1, 0, 0], [0, 1, 0], [0, 0, 1]]));
    Ok(())
}

// Star splits the cuspidal part of level 11, and leaves the Eisenstein one.
#[test]
fn star_splits_the_cuspidal_part(rt: HostRuntime) -> Result<(), Fail> {
    let field = Field::open(101)?;
    let old = eisenstein(rt.alloc(), field)?.ok_or("listed")?;
    let mat = matrix_of(rt.alloc(), field, &STAR)?;
    let poly = Poly::of(field, &[-1, 1])?;
    let split = step(rt.alloc(), &old, OpName::Star, &mat, &poly)?.ok_or("listed")?;
    assert!(rt; split.parts().len() == 3);
    assert!(rt; part_is(split.parts(), 0, &[[1, 81, 0]]));
    assert!(rt; part_is(split.parts(), 1, &[[0, 1, 0]]));
    assert!(rt; part_is(split.parts(), 2, &[[0, 1, 99]]));
    assert!(rt; split.ops() == [OpName::T { n: 2 }, OpName::Star].as_slice());
    Ok(())
}

// The first shift of the plane is nilpotent: one part. The second does not commute with it.
#[test]
fn shifts_of_the_plane(rt: HostRuntime) -> Result<(), Fail> {
    let field = Field::open(101)?;
    let poly = Poly::of(field, &[0, 1])?;
    let whole = Splitting::whole(rt.alloc(), field, 2)?;
    let up = matrix_of(rt.alloc(), field, &UP)?;
    let split = step(rt.alloc(), &whole, OpName::Star, &up, &poly)?.ok_or("listed")?;
    assert!(rt; split.parts().len() == 1 && part_is(split.parts(), 0, &[[1, 0], [0, 1]]));
    let down = matrix_of(rt.alloc(), field, &DOWN)?;
    let refused = step(rt.alloc(), &split, OpName::T { n: 2 }, &down, &poly);
    assert!(rt;
        matches!(
            refused,
            Err(RefineFault::Commutator {
                other: OpName::Star,
                row: 0,
                column: 0,
                left: 1,
                right: 0
            })
        )
    );
    Ok(())
}

// The parts and operators after two steps by one operator.
fn twice(alloc: Global, field: Field, first: &[i64], second: &[i64]) -> Result<(usize, usize), Fail>
    requires first { length first.now < u32.MAX }
    requires second { length second.now < u32.MAX }
{
    let mat = matrix_of(alloc, field, &STAR)?;
    let whole = Splitting::whole(alloc, field, 3)?;
    let poly = Poly::of(field, first)?;
    let split = whole.refine(alloc, OpName::Star, &mat, &poly)?;
    let next = Poly::of(field, second)?;
    let again = split.refine(alloc, OpName::Star, &mat, &next)?;
    Ok((again.parts().len(), again.ops().len()))
}

// An operator is listed once, and its zero parts are left out each time.
#[test]
fn one_operator_twice(rt: HostRuntime) -> Result<(), Fail> {
    let field = Field::open(101)?;
    assert!(rt; twice(rt.alloc(), field, &[-1, 1], &[1, 1])? == (2, 1));
    assert!(rt; twice(rt.alloc(), field, &[1], &[])? == (1, 1));
    Ok(())
}
