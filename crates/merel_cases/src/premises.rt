use crate::operators::{are_same, is_square, matrix_of, product_of};
use field_table::Field;
use heilbronn_sets::merel_set;
use p1_normal::Level;
use std::alloc::Global;
use std::test::Fail;

// How many of Merel's matrices of determinant n take (0:1), and how many (1:0), to a pair that is no
// symbol: these images are the matrices' rows. Their sum is that of relation 0, (0:1) + (1:0).
fn lost_images(alloc: Global, modulus: u32, n: u32) -> Result<(usize, usize), Fail> {
    let level = Level::open(alloc, modulus)?;
    let set = merel_set(alloc, n)?;
    let first = set
        .list()
        .iter()
        .filter(|m| level.index(i64::from(m.c), i64::from(m.d)).is_err())
        .count();
    let second = set
        .list()
        .iter()
        .filter(|m| level.index(i64::from(m.a), i64::from(m.b)).is_err())
        .count();
    Ok((first, second))
}

// Of determinant 11, [[1, 0], [0, 11]] takes (0:1) to (0:11), and [[11, 0], [0, 1]] takes (1:0) to
// (11:0): at level 11 both are no symbols. So the sum of relation 0 has terms that are no symbols,
// and no sum of relations has such.
#[test]
fn relations_at_11_by_determinant_11(rt: HostRuntime) -> Result<(), Fail> {
    assert_eq!(rt; lost_images(rt.alloc(), 11, 11)?, (1, 1));
    assert_eq!(rt; lost_images(rt.alloc(), 11, 2)?, (0, 0));
    Ok(())
}

// a_2 of 11.2.a.a is -2 and a_4 is 2; on the Eisenstein part T_2 is 3 and T_4 is 7. So T_2 T_2 has the
// trace 9 + 4 + 4 and T_4 has 7 + 2 + 2: 2 is not coprime to 2, and T_2 T_2 is not T_4.
#[test]
fn two_by_two_at_11(rt: HostRuntime) -> Result<(), Fail> {
    let field = Field::open(101)?;
    let square = product_of(rt.alloc(), field, 11, 2, 2)?;
    let four = matrix_of(rt.alloc(), field, 11, 4)?;
    assert!(rt; !are_same(&square, &four));
    assert_eq!(rt; square.trace(field), 17);
    assert_eq!(rt; four.trace(field), 11);
    Ok(())
}

// The difference is the second term of the recurrence, 2 times the identity, and no other multiple.
#[test]
fn second_term_at_11(rt: HostRuntime) -> Result<(), Fail> {
    assert!(rt; is_square(rt.alloc(), 101, 11, 2, 4, 2)?);
    assert!(rt; !is_square(rt.alloc(), 101, 11, 2, 4, 0)?);
    assert!(rt; !is_square(rt.alloc(), 101, 11, 2, 4, 1)?);
    Ok(())
}

// a_5 of 36.2.a.a is 0 and a_25 is -5. On the Eisenstein part, of dimension 11, T_5 is 6 or -6, and T_25
// is 31. So T_5 T_5 has the trace 11 * 36, and T_25 has 11 * 31 - 2 * 5, less by 13 * 5.
#[test]
fn second_term_at_36(rt: HostRuntime) -> Result<(), Fail> {
    let field = Field::open(65521)?;
    let square = product_of(rt.alloc(), field, 36, 5, 5)?;
    assert_eq!(rt; square.trace(field), 396);
    assert_eq!(rt; matrix_of(rt.alloc(), field, 36, 25)?.trace(field), 331);
    assert!(rt; !is_square(rt.alloc(), 65521, 36, 5, 25, 0)?);
    Ok(())
}
