ghost use Rattle.std.specs.Prelude.{◌≡◌, ◌<◌, IfOk, length};
ghost use Rattle.dense_mat.specs.Echelon.{AreRows};
ghost use Rattle.dense_mat.specs.Matrix.{IsMatrix};
ghost use Rattle.field_table.specs.Residues.{AreResidues};

use dense_mat::{
    Basis, Mat, bases_are_unique, identity_leaves, image_on, independent, kernel_by_images,
    kernel_on, span_of, whole_space,
};
use field_table::{Field, OutOfMemory, Residues};
use std::alloc::Global;
use std::test::Fail;

// The columns of T_2 on the space of level 11.
const T2: [[i64; 3]; 3] = [[3, 1, 0], [0, -2, 0], [0, 0, -2]];

// The columns of T_2 - 3 there.
const T2_LESS_3: [[i64; 3]; 3] = [[0, 1, 0], [0, -5, 0], [0, 0, -5]];

// The columns of the map that sends the first unit vector to the second, and the others to 0.
const FIRST_TO_SECOND: [[i64; 3]; 3] = [[0, 1, 0], [0, 0, 0], [0, 0, 0]];

// The same from the second to the third.
const SECOND_TO_THIRD: [[i64; 3]; 3] = [[0, 0, 0], [0, 0, 1], [0, 0, 0]];

// What workers share may be sent and shared.
fn needs<T: Send + Sync>(_: &T) {}

// As many of the numbers as the width, as residues.
fn row_of(alloc: Global, field: Field, width: u32, numbers: &[i64]) -> Result<Residues, OutOfMemory>
    ensures length { IfOk result (λ r. length r ≡ width) }
    ensures residues { IfOk result (λ r. AreResidues field r) }
{
    let mut row = Vec::new(alloc);
    for k in 0..width {
        row.push(field.residue(numbers.get(k as usize).copied().unwrap_or(0)))?;
    }
    Ok(Residues::of(row))
}

fn rows_of(
    alloc: Global,
    field: Field,
    width: u32,
    rows: &[[i64; 3]],
) -> Result<Vec<Residues>, OutOfMemory>
    ensures rows { IfOk result (λ v. AreRows field width v.items) }
    ensures count { IfOk result (λ v. length v.items ≡ length rows.now) }
{
    let mut list = Vec::new(alloc);
    for row in rows {
        list.push(row_of(alloc, field, width, row.as_slice())?)?;
    }
    Ok(list)
}

fn matrix_of(alloc: Global, field: Field, columns: &[[i64; 3]; 3]) -> Result<Mat, OutOfMemory>
    ensures matrix { IfOk result (λ m. IsMatrix field m) }
    ensures size { IfOk result (λ m. length m ≡ 3) }
{
    let list = rows_of(alloc, field, 3, columns.as_slice())?;
    Mat::from_columns(alloc, field, &list)
}

// Whether these are the numbers of the rows.
fn rows_are<const N: usize>(rows: &[Residues], numbers: &[[u32; N]]) -> bool {
    rows.len() == numbers.len()
        && rows
            .iter()
            .zip(numbers)
            .all(|(row, list)| row.as_slice() == list.as_slice())
}

// The image of a vector under the matrix of these columns.
fn image_of(
    alloc: Global,
    field: Field,
    columns: &[[i64; 3]; 3],
    v: [i64; 3],
) -> Result<Residues, OutOfMemory> {
    let mat = matrix_of(alloc, field, columns)?;
    let vector = row_of(alloc, field, 3, v.as_slice())?;
    mat.apply(alloc, field, vector.as_slice())
}

// A column of the product of two matrices, of which the second is applied first.
fn column_of_product(
    alloc: Global,
    field: Field,
    first: &[[i64; 3]; 3],
    second: &[[i64; 3]; 3],
    j: u32,
) -> Result<Vec<u32>, OutOfMemory>
    requires { j < 3 }
{
    let left = matrix_of(alloc, field, first)?;
    let right = matrix_of(alloc, field, second)?;
    let product = left.mul(alloc, field, &right)?;
    Ok(Vec::from_slice(alloc, product.column(j))?)
}

// The matrix of these columns less a multiple of the identity.
fn difference(
    alloc: Global,
    field: Field,
    columns: &[[i64; 3]; 3],
    multiple: i64,
) -> Result<Mat, OutOfMemory>
    ensures matrix { IfOk result (λ m. IsMatrix field m) }
    ensures size { IfOk result (λ m. length m ≡ 3) }
{
    let mut mat = matrix_of(alloc, field, columns)?;
    let identity = Mat::identity(alloc, field, 3)?;
    mat.add_scaled(field, field.neg(field.residue(multiple)), &identity);
    Ok(mat)
}

// The basis of the span.
fn basis_of(
    alloc: Global,
    field: Field,
    width: u32,
    rows: &[[i64; 3]],
) -> Result<Basis, OutOfMemory>
    ensures characteristic { IfOk result (λ b. b.characteristic ≡ field) }
    ensures width { IfOk result (λ b. b.width ≡ width) }
{
    let list = rows_of(alloc, field, width, rows)?;
    span_of(alloc, field, &list, width)
}

// Whether the vector is in the span.
fn is_in_span(
    alloc: Global,
    field: Field,
    width: u32,
    rows: &[[i64; 3]],
    v: [i64; 3],
) -> Result<bool, OutOfMemory> {
    let basis = basis_of(alloc, field, width, rows)?;
    let vector = row_of(alloc, field, width, v.as_slice())?;
    basis.contains(alloc, field, vector.as_slice())
}

// Whether the rows are independent.
fn are_independent(
    alloc: Global,
    field: Field,
    width: u32,
    rows: &[[i64; 3]],
) -> Result<bool, OutOfMemory> {
    let list = rows_of(alloc, field, width, rows)?;
    independent(alloc, field, &list, width)
}

// The kernel on the span of the rows.
fn kernel_of(
    alloc: Global,
    field: Field,
    columns: &[[i64; 3]; 3],
    rows: &[[i64; 3]],
) -> Result<Basis, OutOfMemory> {
    let mat = matrix_of(alloc, field, columns)?;
    let part = basis_of(alloc, field, 3, rows)?;
    kernel_on(alloc, field, &mat, &part)
}

// The image of the span of the rows.
fn image_space(
    alloc: Global,
    field: Field,
    columns: &[[i64; 3]; 3],
    rows: &[[i64; 3]],
) -> Result<Basis, OutOfMemory> {
    let mat = matrix_of(alloc, field, columns)?;
    let part = basis_of(alloc, field, 3, rows)?;
    image_on(alloc, field, &mat, &part)
}

// The kernel of the matrix applied n times, on the whole space.
fn kernel_of_power(
    alloc: Global,
    field: Field,
    columns: &[[i64; 3]; 3],
    n: u32,
) -> Result<Basis, OutOfMemory> {
    let mat = matrix_of(alloc, field, columns)?;
    let whole = whole_space(alloc, field, 3)?;
    let images = mat.apply_power_to_rows(alloc, field, n, whole.rows())?;
    kernel_by_images(alloc, field, &images, &whole)
}

const UNITS: [[i64; 3]; 3] = [[1, 0, 0], [0, 1, 0], [0, 0, 1]];

#[test]
fn laws_hold(rt: HostRuntime) -> Result<(), Fail> {
    bases_are_unique();
    identity_leaves();
    Ok(())
}

#[test]
fn entries_at_11(rt: HostRuntime) -> Result<(), Fail> {
    let mat = matrix_of(rt.alloc(), Field::open(101)?, &T2)?;
    needs(&mat);
    assert_eq!(rt;
        (mat.entry(1, 0), mat.entry(0, 1), mat.entry(1, 1)),
        (1, 0, 99)
    );
    let copy = mat.copy(rt.alloc())?;
    assert_eq!(rt; copy.column(0), [3, 1, 0].as_slice());
    Ok(())
}

#[test]
fn entries_of_the_identity(rt: HostRuntime) -> Result<(), Fail> {
    let identity = Mat::identity(rt.alloc(), Field::open(2)?, 2)?;
    assert_eq!(rt; identity.column(0), [1, 0].as_slice());
    assert_eq!(rt; identity.column(1), [0, 1].as_slice());
    let none = Mat::identity(rt.alloc(), Field::open(2)?, 0)?;
    assert_eq!(rt; none.size(), 0);
    Ok(())
}

#[test]
fn image_at_11(rt: HostRuntime) -> Result<(), Fail> {
    let image = image_of(rt.alloc(), Field::open(101)?, &T2, [1, 81, 0])?;
    assert_eq!(rt; image.as_slice(), [3, 41, 0].as_slice());
    Ok(())
}

#[test]
fn square_at_11(rt: HostRuntime) -> Result<(), Fail> {
    let column = column_of_product(rt.alloc(), Field::open(101)?, &T2, &T2, 0)?;
    assert_eq!(rt; column.as_slice(), [9, 1, 0].as_slice());
    Ok(())
}

// The second matrix is applied first: one order sends the first unit vector to the third, the other
// sends it to 0.
#[test]
fn order_of_a_product(rt: HostRuntime) -> Result<(), Fail> {
    let field = Field::open(3)?;
    let one = column_of_product(rt.alloc(), field, &SECOND_TO_THIRD, &FIRST_TO_SECOND, 0)?;
    assert_eq!(rt; one.as_slice(), [0, 0, 1].as_slice());
    let other = column_of_product(rt.alloc(), field, &FIRST_TO_SECOND, &SECOND_TO_THIRD, 0)?;
    assert_eq!(rt; other.as_slice(), [0, 0, 0].as_slice());
    Ok(())
}

#[test]
fn difference_at_11(rt: HostRuntime) -> Result<(), Fail> {
    let mat = difference(rt.alloc(), Field::open(101)?, &T2, 3)?;
    assert_eq!(rt; mat.column(0), [0, 1, 0].as_slice());
    assert_eq!(rt; mat.column(1), [0, 96, 0].as_slice());
    assert_eq!(rt; mat.column(2), [0, 0, 96].as_slice());
    Ok(())
}

#[test]
fn span_of_two_rows(rt: HostRuntime) -> Result<(), Fail> {
    let basis = basis_of(rt.alloc(), Field::open(101)?, 2, &[[2, 2, 0], [1, 1, 0]])?;
    needs(&basis);
    assert!(rt; rows_are(basis.rows(), &[[1, 1]]));
    Ok(())
}

// Modulo 5, with rows in no order and one of them spanned.
#[test]
fn span_of_three_rows(rt: HostRuntime) -> Result<(), Fail> {
    let field = Field::open(5)?;
    let basis = basis_of(rt.alloc(), field, 3, &[[0, 2, 1], [4, 2, 1], [4, 4, 2]])?;
    let copy = basis.copy(rt.alloc())?;
    assert!(rt; rows_are(copy.rows(), &[[1, 0, 0], [0, 1, 3]]));
    Ok(())
}

#[test]
fn whole_space_of_width_three(rt: HostRuntime) -> Result<(), Fail> {
    let whole = whole_space(rt.alloc(), Field::open(2)?, 3)?;
    assert!(rt; rows_are(whole.rows(), &[[1, 0, 0], [0, 1, 0], [0, 0, 1]]));
    let none = whole_space(rt.alloc(), Field::open(2)?, 0)?;
    assert_eq!(rt; (none.width(), none.dim()), (0, 0));
    Ok(())
}

#[test]
fn vectors_in_a_line(rt: HostRuntime) -> Result<(), Fail> {
    let field = Field::open(101)?;
    assert!(rt; is_in_span(rt.alloc(), field, 2, &[[1, 1, 0]], [3, 3, 0])?);
    assert!(rt; !is_in_span(rt.alloc(), field, 2, &[[1, 1, 0]], [1, 2, 0])?);
    Ok(())
}

#[test]
fn independence_of_two_rows(rt: HostRuntime) -> Result<(), Fail> {
    let field = Field::open(101)?;
    assert!(rt; are_independent(rt.alloc(), field, 2, &[[1, 0, 0], [1, 1, 0]])?);
    assert!(rt; !are_independent(rt.alloc(), field, 2, &[[1, 1, 0], [2, 2, 0]])?);
    Ok(())
}

// The rows 1, 1 and 1, -1 are dependent modulo 2 alone.
#[test]
fn independence_in_two_characteristics(rt: HostRuntime) -> Result<(), Fail> {
    let rows = [[1, 1, 0], [1, -1, 0]];
    assert!(rt; !are_independent(rt.alloc(), Field::open(2)?, 2, rows.as_slice())?);
    assert!(rt; are_independent(rt.alloc(), Field::open(3)?, 2, rows.as_slice())?);
    Ok(())
}

#[test]
fn kernel_and_image_at_11(rt: HostRuntime) -> Result<(), Fail> {
    let field = Field::open(101)?;
    let kernel = kernel_of(rt.alloc(), field, &T2_LESS_3, UNITS.as_slice())?;
    assert!(rt; rows_are(kernel.rows(), &[[1, 81, 0]]));
    let image = image_space(rt.alloc(), field, &T2_LESS_3, UNITS.as_slice())?;
    assert!(rt; rows_are(image.rows(), &[[0, 1, 0], [0, 0, 1]]));
    Ok(())
}

// The part has no vector of the kernel that the whole space has.
#[test]
fn kernel_on_a_part(rt: HostRuntime) -> Result<(), Fail> {
    let field = Field::open(101)?;
    let kernel = kernel_of(rt.alloc(), field, &T2_LESS_3, &[[0, 2, 0], [0, 0, 3]])?;
    assert_eq!(rt; (kernel.width(), kernel.dim()), (3, 0));
    Ok(())
}

// There -5 is 1, and (a, b, c) goes to (0, a + b, c).
#[test]
fn kernels_modulo_two_and_three(rt: HostRuntime) -> Result<(), Fail> {
    let two = kernel_of(rt.alloc(), Field::open(2)?, &T2_LESS_3, UNITS.as_slice())?;
    assert!(rt; rows_are(two.rows(), &[[1, 1, 0]]));
    let three = kernel_of(rt.alloc(), Field::open(3)?, &T2_LESS_3, UNITS.as_slice())?;
    assert!(rt; rows_are(three.rows(), &[[1, 2, 0]]));
    Ok(())
}

// Modulo 5 the square of T_2 - 3 is 0.
#[test]
fn kernels_of_powers_modulo_five(rt: HostRuntime) -> Result<(), Fail> {
    let field = Field::open(5)?;
    let one = kernel_of_power(rt.alloc(), field, &T2_LESS_3, 1)?;
    assert!(rt; rows_are(one.rows(), &[[0, 1, 0], [0, 0, 1]]));
    let two = kernel_of_power(rt.alloc(), field, &T2_LESS_3, 2)?;
    assert!(rt; rows_are(two.rows(), &[[1, 0, 0], [0, 1, 0], [0, 0, 1]]));
    Ok(())
}
