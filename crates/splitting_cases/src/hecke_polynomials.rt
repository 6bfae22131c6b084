ghost use Rattle.std.specs.Prelude.{◌≡◌, IfOk};
ghost use Rattle.dense_mat.specs.Matrix.{IsMatrix};
ghost use Rattle.p1_normal.specs.Units.{gcd};

use dense_mat::Mat;
use field_table::Field;
use hecke_columns::LocalColumns;
use hecke_ops::{Operator, VetFault, vet};
use heilbronn_sets::{MatrixSet, merel_set};
use p1_normal::{Level, gcd};
use quotient_coords::Space;
use std::alloc::Global;
use std::test::Fail;

// The operator over the set.
fn vetted(alloc: Global, space: &Space, set: &MatrixSet) -> Result<Operator, VetFault>
    requires coprime { gcd set.now.det space.now.level ≡ 1 }
    ensures { IfOk result (λ a. a.characteristic ≡ space.now.characteristic) }
{
    let mut source = LocalColumns::new(space, set);
    vet(alloc, space, &mut source)
}

// The matrix of T_n at the level.
fn matrix_of(alloc: Global, field: Field, level: u32, n: u32) -> Result<Mat, Fail>
    ensures { IfOk result (IsMatrix field) }
{
    let space = Space::open(alloc, Level::open(alloc, level)?, field)?;
    let set = merel_set(alloc, n)?;
    if gcd(set.det(), space.level().modulus()) != 1 {
        return Err(Fail::from("not coprime to the level"));
    }
    let Ok(operator) = vetted(alloc, &space, &set) else {
        return Err(Fail::from("the set has no operator"));
    };
    Ok(operator.into_mat())
}

// The product of two matrices, less a multiple of a third one.
fn product_less(
    alloc: Global,
    field: Field,
    left: &Mat,
    right: &Mat,
    c: i64,
    other: &Mat,
) -> Result<Mat, Fail>
    requires left { IsMatrix field left.now }
    requires right { IsMatrix field right.now }
    requires other { IsMatrix field other.now }
    ensures { IfOk result (IsMatrix field) }
{
    if left.size() != right.size() || left.size() != other.size() {
        return Err(Fail::from("sizes differ"));
    }
    let mut product = left.mul(alloc, field, right)?;
    product.add_scaled(field, field.neg(field.residue(c)), other);
    Ok(product)
}

// Whether two matrices are equal.
fn are_equal(left: &Mat, right: &Mat) -> bool {
    if left.size() != right.size() {
        return false;
    }
    for j in 0..left.size() {
        if left.column(j) != right.column(j) {
            return false;
        }
    }
    true
}

// Whether T_n is T_q T_m - c T_l, with T_1 for l = 1.
fn recurs(alloc: Global, level: u32, indices: [u32; 3], c: i64, l: u32) -> Result<bool, Fail> {
    let field = Field::open(101)?;
    let [n, q, m] = indices;
    let left = matrix_of(alloc, field, level, q)?;
    let right = matrix_of(alloc, field, level, m)?;
    let other = matrix_of(alloc, field, level, l)?;
    let value = product_less(alloc, field, &left, &right, c, &other)?;
    let whole = matrix_of(alloc, field, level, n)?;
    Ok(are_equal(&value, &whole))
}

// T_4 = T_2^2 - 2, and T_2^2 less anything else is not T_4.
#[test]
fn square_of_two_at_11(rt: HostRuntime) -> Result<(), Fail> {
    assert!(rt; recurs(rt.alloc(), 11, [4, 2, 2], 2, 1)?);
    assert!(rt; !recurs(rt.alloc(), 11, [4, 2, 2], 0, 1)?);
    Ok(())
}

// T_8 = T_2 T_4 - 2 T_2.
#[test]
fn cube_of_two_at_11(rt: HostRuntime) -> Result<(), Fail> {
    assert!(rt; recurs(rt.alloc(), 11, [8, 2, 4], 2, 2)?);
    Ok(())
}

// T_25 = T_5^2 - 5.
#[test]
fn square_of_five_at_36(rt: HostRuntime) -> Result<(), Fail> {
    assert!(rt; recurs(rt.alloc(), 36, [25, 5, 5], 5, 1)?);
    Ok(())
}

// T_12 = T_4 T_3.
#[test]
fn twelve_at_11(rt: HostRuntime) -> Result<(), Fail> {
    assert!(rt; recurs(rt.alloc(), 11, [12, 4, 3], 0, 1)?);
    Ok(())
}
