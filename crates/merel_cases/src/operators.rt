ghost use Rattle.std.specs.Prelude.{◌≡◌, IfOk};
ghost use Rattle.dense_mat.specs.Matrix.{IsMatrix};
ghost use Rattle.p1_normal.specs.Units.{gcd};

use dense_mat::Mat;
use field_table::Field;
use hecke_columns::LocalColumns;
use hecke_ops::{Operator, VetFault, vet};
use heilbronn_sets::{MatrixSet, merel_set};
use p1_normal::{Level, gcd};
use quotient_coords::Space;
use star_map::star_matrix;
use std::alloc::Global;
use std::test::Fail;

// What is found over the set.
fn vetted(alloc: Global, space: &Space, set: &MatrixSet) -> Result<Operator, VetFault>
    requires coprime { gcd set.now.det space.now.level ≡ 1 }
    ensures { IfOk result (λ a. a.characteristic ≡ space.now.characteristic) }
{
    let mut source = LocalColumns::new(space, set);
    vet(alloc, space, &mut source)
}

// The matrix of T_n at a level to which n is coprime: that no relation fails is looked at.
pub(crate) fn matrix_of(alloc: Global, field: Field, level: u32, n: u32) -> Result<Mat, Fail>
    ensures { IfOk result (IsMatrix field) }
{
    let space = Space::open(alloc, Level::open(alloc, level)?, field)?;
    let set = merel_set(alloc, n)?;
    if gcd(set.det(), space.level().modulus()) != 1 {
        return Err(Fail::from("not coprime to the level"));
    }
    let Ok(operator) = vetted(alloc, &space, &set) else {
        return Err(Fail::from("a relation fails"));
    };
    Ok(operator.into_mat())
}

// The matrix of star.
fn matrix_of_star(alloc: Global, field: Field, level: u32) -> Result<Mat, Fail>
    ensures { IfOk result (IsMatrix field) }
{
    let space = Space::open(alloc, Level::open(alloc, level)?, field)?;
    Ok(star_matrix(alloc, &space)?)
}

// The product of two matrices.
fn product(alloc: Global, field: Field, left: &Mat, right: &Mat) -> Result<Mat, Fail>
    requires left { IsMatrix field left.now }
    requires right { IsMatrix field right.now }
    ensures { IfOk result (IsMatrix field) }
{
    if left.size() != right.size() {
        return Err(Fail::from("sizes differ"));
    }
    Ok(left.mul(alloc, field, right)?)
}

// A matrix and so many times another one.
fn sum(field: Field, mut left: Mat, more: u32, right: &Mat) -> Result<Mat, Fail>
    requires left { IsMatrix field left }
    requires right { IsMatrix field right.now }
    ensures { IfOk result (IsMatrix field) }
{
    if left.size() != right.size() {
        return Err(Fail::from("sizes differ"));
    }
    left.add_scaled(field, field.residue(i64::from(more)), right);
    Ok(left)
}

// Whether the matrices have the same columns.
pub(crate) fn are_same(a: &Mat, b: &Mat) -> bool {
    if a.size() != b.size() {
        return false;
    }
    for j in 0..a.size() {
        if a.column(j) != b.column(j) {
            return false;
        }
    }
    true
}

// The product T_m T_n.
pub(crate) fn product_of(
    alloc: Global,
    field: Field,
    level: u32,
    m: u32,
    n: u32,
) -> Result<Mat, Fail>
    ensures { IfOk result (IsMatrix field) }
{
    let first = matrix_of(alloc, field, level, m)?;
    let second = matrix_of(alloc, field, level, n)?;
    product(alloc, field, &first, &second)
}

// Whether T_m T_n and T_n T_m are T_k.
fn multiply(alloc: Global, p: u32, level: u32, m: u32, n: u32, k: u32) -> Result<bool, Fail> {
    let field = Field::open(p)?;
    let whole = matrix_of(alloc, field, level, k)?;
    let first = product_of(alloc, field, level, m, n)?;
    let second = product_of(alloc, field, level, n, m)?;
    Ok(are_same(&first, &whole) && are_same(&second, &whole))
}

// Whether T_q T_q is T_k and so many times the identity more.
pub(crate) fn is_square(
    alloc: Global,
    p: u32,
    level: u32,
    q: u32,
    k: u32,
    more: u32,
) -> Result<bool, Fail> {
    let field = Field::open(p)?;
    let square = product_of(alloc, field, level, q, q)?;
    let identity = matrix_of(alloc, field, level, 1)?;
    let other = sum(field, matrix_of(alloc, field, level, k)?, more, &identity)?;
    Ok(are_same(&square, &other))
}

// Whether T_n and star commute.
fn commutes_with_star(alloc: Global, p: u32, level: u32, n: u32) -> Result<bool, Fail> {
    let field = Field::open(p)?;
    let hecke = matrix_of(alloc, field, level, n)?;
    let star = matrix_of_star(alloc, field, level)?;
    let first = product(alloc, field, &star, &hecke)?;
    let second = product(alloc, field, &hecke, &star)?;
    Ok(are_same(&first, &second))
}

#[test]
fn two_and_three_at_11(rt: HostRuntime) -> Result<(), Fail> {
    assert!(rt; multiply(rt.alloc(), 101, 11, 2, 3, 6)?);
    assert!(rt; commutes_with_star(rt.alloc(), 101, 11, 2)?);
    Ok(())
}

// 12 is above the level.
#[test]
fn twelve_at_11_in_small_characteristics(rt: HostRuntime) -> Result<(), Fail> {
    for p in [2, 3] {
        assert!(rt; multiply(rt.alloc(), p, 11, 3, 4, 12)?, "modulo {p}");
        assert!(rt; is_square(rt.alloc(), p, 11, 2, 4, 2)?, "modulo {p}");
    }
    Ok(())
}

#[test]
fn twenty_five_at_36(rt: HostRuntime) -> Result<(), Fail> {
    assert!(rt; is_square(rt.alloc(), 65521, 36, 5, 25, 5)?);
    assert!(rt; commutes_with_star(rt.alloc(), 65521, 36, 25)?);
    Ok(())
}

#[test]
fn five_and_seven_at_36(rt: HostRuntime) -> Result<(), Fail> {
    assert!(rt; multiply(rt.alloc(), 65521, 36, 5, 7, 35)?);
    Ok(())
}

// The space is 0, as there are no newforms and one cusp.
#[test]
fn six_at_1(rt: HostRuntime) -> Result<(), Fail> {
    for p in [2, 3, 101] {
        assert!(rt; multiply(rt.alloc(), p, 1, 2, 3, 6)?, "modulo {p}");
        let field = Field::open(p)?;
        assert_eq!(rt; matrix_of(rt.alloc(), field, 1, 6)?.size(), 0, "modulo {p}");
    }
    Ok(())
}
