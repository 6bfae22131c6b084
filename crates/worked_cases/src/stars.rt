use crate::spaces::space_at;
use dense_mat::Mat;
use field_table::{Combo, Field, OutOfMemory};
use p1_normal::Level;
use star_map::{star, star_is_linear, star_keeps_congruence, star_matrix, star_matrix_gives_stars};
use std::alloc::Global;
use std::test::Fail;

// Star of the terms, if they are symbols.
fn star_of(
    alloc: Global,
    level: &Level,
    field: Field,
    terms: &[(u32, i64)],
) -> Result<Option<Combo>, OutOfMemory> {
    let combo = Combo::from_terms(alloc, field, terms)?;
    if !combo.is_within(level.count(), field.characteristic()) {
        return Ok(None);
    }
    Ok(Some(star(alloc, level, field, &combo)?))
}

// Whether the matrix has these columns.
fn has_columns(mat: &Mat, columns: &[[u32; 3]]) -> bool {
    if mat.size() as usize != columns.len() || mat.size() > 3 {
        return false;
    }
    for j in 0..mat.size() {
        for i in 0..mat.size() {
            if mat.entry(i, j) != columns[j as usize][i as usize] {
                return false;
            }
        }
    }
    true
}

// At level 11 symbol 0 is (0:1), and symbol v + 1 is (1:v).
#[test]
fn star_at_11(rt: HostRuntime) -> Result<(), Fail> {
    let level = Level::open(rt.alloc(), 11)?;
    let field = Field::open(101)?;
    let terms = [(0, 1), (2, 3), (4, -1), (9, 7)];
    let image = star_of(rt.alloc(), &level, field, &terms)?.ok_or("not symbols")?;
    assert_eq!(rt;
        image.terms(),
        [(0, 1), (4, 7), (9, 100), (11, 3)].as_slice()
    );
    Ok(())
}

// At level 11 modulo 101 star sends 0 0 1 to 0 1 100, and its trace is 1.
#[test]
fn star_matrix_at_11(rt: HostRuntime) -> Result<(), Fail> {
    let space = space_at(rt.alloc(), 11, 101)?;
    let mat = star_matrix(rt.alloc(), &space)?;
    assert!(rt; has_columns(&mat, &[[1, 0, 0], [0, 1, 0], [0, 1, 100]]));
    assert_eq!(rt; mat.trace(space.field()), 1);
    Ok(())
}

// The laws are calls of their own.
#[test]
fn laws_of_star(_rt: HostRuntime) {
    star_is_linear();
    star_keeps_congruence();
}

#[test]
fn laws_of_the_matrix(_rt: HostRuntime) -> Result<(), Fail> {
    star_matrix_gives_stars();
    Ok(())
}
