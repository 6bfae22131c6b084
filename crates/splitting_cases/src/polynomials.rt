ghost use Rattle.std.specs.Prelude.{◌≡◌, IfOk, length};
ghost use Rattle.dense_mat.specs.Matrix.{IsMatrix};
ghost use Rattle.field_table.specs.Residues.{AreResidues};

use dense_mat::Mat;
use field_table::{Field, OutOfMemory, Residues};
use op_polynomials::{OpName, Poly, PolyFault, SplitEntry};
use std::alloc::Global;
use std::test::Fail;

fn needs<T: Send + Sync + Copy + Eq>(_: &T) {}

/// A polynomial of the numbers -3 and 1 modulo 101, one of as many as there may be, and one of too many.
#[test]
fn polynomials(rt: HostRuntime) {
    let Ok(field) = Field::open(101) else {
        return assert!(rt; false);
    };
    assert!(rt; matches!(Poly::of(field, &[0; 17]), Ok(_)));
    assert!(rt;
        matches!(
            Poly::of(field, &[0; 18]),
            Err(PolyFault::Degree { count: 18 })
        )
    );
    match Poly::of(field, &[-3, 1]) {
        Ok(poly) => {
            assert_eq!(rt; poly.coefficients(), [98, 1].as_slice());
            let op = OpName::T { n: 2 };
            let entry = SplitEntry {
                session: 1,
                command: 1,
                op,
                poly,
            };
            let copy = entry;
            needs(&copy);
            assert!(rt; copy == entry);
        }
        Err(_) => assert!(rt; false),
    }
}

// The columns of T_2 on the space of level 11.
const T2: [[i64; 3]; 3] = [[3, 1, 0], [0, -2, 0], [0, 0, -2]];

// The columns of the map that sends each unit vector to the next, and the last to 0.
const NEXT: [[i64; 3]; 3] = [[0, 1, 0], [0, 0, 1], [0, 0, 0]];

fn vector_of(alloc: Global, field: Field, numbers: &[i64; 3]) -> Result<Residues, OutOfMemory>
    ensures length { IfOk result (λ r. length r ≡ 3) }
    ensures residues { IfOk result (λ r. AreResidues field r) }
{
    let [a, b, c] = *numbers;
    Ok(Residues::of(vec![in alloc; field.residue(a), field.residue(b), field.residue(c)]?))
}

fn matrix_of(alloc: Global, field: Field, columns: &[[i64; 3]; 3]) -> Result<Mat, OutOfMemory>
    ensures matrix { IfOk result (λ m. IsMatrix field m) }
    ensures size { IfOk result (λ m. length m ≡ 3) }
{
    let [a, b, c] = columns;
    let first = vector_of(alloc, field, a)?;
    let second = vector_of(alloc, field, b)?;
    let third = vector_of(alloc, field, c)?;
    let list = vec![in alloc; first, second, third]?;
    Mat::from_columns(alloc, field, &list)
}

// The value of the polynomial in the matrix of the columns at the vector.
fn value_at(
    alloc: Global,
    field: Field,
    poly: &Poly,
    columns: &[[i64; 3]; 3],
    v: [i64; 3],
) -> Result<Residues, OutOfMemory>
    requires { AreResidues field poly.now }
{
    let mat = matrix_of(alloc, field, columns)?;
    let vector = vector_of(alloc, field, &v)?;
    poly.at_vector(alloc, field, &mat, vector.as_slice())
}

// The columns of the value of the polynomial in the matrix of the columns.
fn columns_of_value(
    alloc: Global,
    field: Field,
    poly: &Poly,
    columns: &[[i64; 3]; 3],
) -> Result<Vec<u32>, OutOfMemory>
    requires { AreResidues field poly.now }
{
    let mat = matrix_of(alloc, field, columns)?;
    let value = poly.at_matrix(alloc, field, &mat)?;
    let mut numbers = Vec::new(alloc);
    for j in 0..value.size() {
        numbers.extend_from_slice(value.column(j))?;
    }
    Ok(numbers)
}

#[test]
fn difference_at_11(rt: HostRuntime) -> Result<(), Fail> {
    let field = Field::open(101)?;
    let poly = Poly::of(field, &[-3, 1])?;
    let columns = columns_of_value(rt.alloc(), field, &poly, &T2)?;
    assert_eq!(rt;
        columns.as_slice(),
        [0, 1, 0, 0, 96, 0, 0, 0, 96].as_slice()
    );
    let value = value_at(rt.alloc(), field, &poly, &T2, [1, 81, 0])?;
    assert_eq!(rt; value.as_slice(), [0, 0, 0].as_slice());
    Ok(())
}

// The coefficients go from the constant up.
#[test]
fn coefficients_in_order(rt: HostRuntime) -> Result<(), Fail> {
    let field = Field::open(65521)?;
    let poly = Poly::of(field, &[1, 2, 3])?;
    let columns = columns_of_value(rt.alloc(), field, &poly, &NEXT)?;
    assert_eq!(rt; columns.as_slice(), [1, 2, 3, 0, 1, 2, 0, 0, 1].as_slice());
    let value = value_at(rt.alloc(), field, &poly, &NEXT, [0, 1, -1])?;
    assert_eq!(rt; value.as_slice(), [0, 1, 1].as_slice());
    Ok(())
}

#[test]
fn zero_polynomials(rt: HostRuntime) -> Result<(), Fail> {
    let field = Field::open(2)?;
    let zero = Poly::of(field, &[2])?;
    let value = value_at(rt.alloc(), field, &zero, &T2, [1, 2, 3])?;
    assert_eq!(rt; value.as_slice(), [0, 0, 0].as_slice());
    let none = Poly::of(field, &[])?;
    let value = value_at(rt.alloc(), field, &none, &T2, [1, 2, 3])?;
    assert_eq!(rt; value.as_slice(), [0, 0, 0].as_slice());
    let columns = columns_of_value(rt.alloc(), field, &none, &T2)?;
    assert!(rt; columns.iter().all(|number| *number == 0));
    Ok(())
}
