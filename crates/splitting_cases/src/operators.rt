ghost use Rattle.std.specs.Prelude.{◌≡◌};
ghost use Rattle.p1_normal.specs.Units.{gcd};

use dense_mat::Mat;
use field_table::Field;
use hecke_columns::LocalColumns;
use hecke_ops::{
    Operator, VetFault, first_failing_relation_is_one, one_matrix_moves_symbols,
    operators_give_sums, vet,
};
use heilbronn_sets::{MatrixSet, merel_set};
use p1_normal::{Level, Matrix, gcd};
use quotient_coords::Space;
use std::alloc::Global;
use std::test::Fail;

// What workers share may be sent and shared.
fn needs<T: Send + Sync>(_: &T) {}

// Whether the matrix has these columns.
fn has_columns(mat: &Mat, columns: &[[u32; 3]]) -> bool {
    if mat.size() as usize != columns.len() || mat.size() > 3 {
        return false;
    }
    for j in 0..mat.size() {
        for i in 0..mat.size() {
            if mat.entry(i, j) != columns[j as usize][i as usize] {
                return false;
            }
        }
    }
    true
}

// The quotient at level 11 and characteristic 101.
fn space_at_11(alloc: Global) -> Result<Space, Fail> {
    Ok(Space::open(alloc, Level::open(alloc, 11)?, Field::open(101)?)?)
}

// What is found over the set.
fn vetted(alloc: Global, space: &Space, set: &MatrixSet) -> Result<Operator, VetFault>
    requires coprime { gcd set.now.det space.now.level ≡ 1 }
{
    let mut source = LocalColumns::new(space, set);
    vet(alloc, space, &mut source)
}

// The operator of Merel's set of determinant n at level 11.
fn operator_at_11(alloc: Global, n: u32) -> Result<Operator, Fail> {
    let space = space_at_11(alloc)?;
    let set = merel_set(alloc, n)?;
    if gcd(set.det(), space.level().modulus()) != 1 {
        return Err(Fail::from("not coprime to 11"));
    }
    let Ok(operator) = vetted(alloc, &space, &set) else {
        return Err(Fail::from("the set has no operator"));
    };
    Ok(operator)
}

#[test]
fn operator_of_two_at_11(rt: HostRuntime) -> Result<(), Fail> {
    let operator = operator_at_11(rt.alloc(), 2)?;
    needs(&operator);
    assert!(rt; has_columns(operator.mat(), &[[3, 1, 0], [0, 99, 0], [0, 0, 99]]));
    assert_eq!(rt; operator.trace(), 100);
    Ok(())
}

#[test]
fn operator_of_three_at_11(rt: HostRuntime) -> Result<(), Fail> {
    let operator = operator_at_11(rt.alloc(), 3)?;
    assert_eq!(rt; operator.trace(), 2);
    let mat = operator.into_mat();
    assert_eq!(rt; mat.size(), 3);
    Ok(())
}

// Three of the four matrices of Merel's set.
#[test]
fn failing_relation_at_11(rt: HostRuntime) -> Result<(), Fail> {
    let space = space_at_11(rt.alloc())?;
    let list = vec![in rt.alloc();
        Matrix::new(1, 0, 0, 2),
        Matrix::new(1, 0, 1, 2),
        Matrix::new(2, 0, 0, 1),
    ]?;
    let set = MatrixSet::of(2, list)?;
    assert!(rt; gcd(set.det(), space.level().modulus()) == 1);
    let Err(VetFault::Relation { number, coords }) = vetted(rt.alloc(), &space, &set) else {
        return Err(Fail::from("no relation fails"));
    };
    assert_eq!(rt; number, 0);
    assert!(rt; coords.as_slice() == [100, 1, 0].as_slice());
    Ok(())
}

#[test]
fn laws_of_operators(_rt: HostRuntime) -> Result<(), Fail> {
    operators_give_sums();
    Ok(())
}

#[test]
fn laws_of_failing_relations(_rt: HostRuntime) -> Result<(), Fail> {
    first_failing_relation_is_one();
    one_matrix_moves_symbols();
    Ok(())
}
