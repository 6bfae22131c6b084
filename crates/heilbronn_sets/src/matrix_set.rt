ghost use Rattle.std.specs.Prelude.{◌≡◌, ◌<◌, ◌≤◌, ◌^◌, ◌*ℤ◌, ◌↔◌, All, IfErr, IfOk, IsOk, None, Some, length, pos, unsigned_abs};
ghost use Rattle.p1_normal.specs.Actions.{IsSmall, determinant};
ghost use Rattle.heilbronn_sets.specs.Sets.{
  IsMatrixSet,
  has_determinant,
  is_small,
  list_fault,
  matrix_fault,
  set_fault,
};

use p1_normal::{MAX_DET, MAX_ENTRY, Matrix};
use std::alloc::AllocError;
use std::marker::Model;
use thiserror::Error;

/// Why a list is no set of matrices of one determinant.
#[derive(Clone, Copy, Debug, PartialEq, Eq, Error)]
pub enum SetFault {
    #[error("out of memory")]
    OutOfMemory,
    #[error("the determinant {n} is not within the limit")]
    Limit { n: u32 },
    #[error("an entry of the matrix at place {place} is too large")]
    Entry { place: u32 },
    #[error("the matrix at place {place} has another determinant")]
    Determinant { place: u32 },
}

impl From<AllocError> for SetFault {
    ghost use Rattle.std.specs.Prelude.{◌≡◌};
    ghost use Rattle.heilbronn_sets.specs.declared.matrix_set.SetFault.TheVariants.{OutOfMemory as Memory};

    ghost from_gives = { λ _ e. e ≡ Memory };

    fn from(_: AllocError) -> Self {
        SetFault::OutOfMemory
    }
}

/// A list of integer matrices of one determinant from 1 to `MAX_DET`, with entries of magnitude at most
/// `MAX_ENTRY`. Contracts see the determinant and the list.
#[derive(Debug, Drop)]
pub struct MatrixSet {
    det: u32,
    list: Vec<Matrix>,
}

impl Model for MatrixSet {
    ghost use Rattle.heilbronn_sets.specs.Sets.{Matrices, IsMatrixSet};

    ghost Value = { Matrices };

    ghost view = { λ s. record { det = s.det; list = s.list.items } };

    ghost invariant = { λ s. IsMatrixSet (record { det = s.det; list = s.list.items }) };
}

impl MatrixSet {
    /// The set of a list of matrices, which is moved and not copied. The first of these refuses it, and
    /// drops the list: a determinant of 0 or above `MAX_DET`; at the first matrix that does not fit, an
    /// entry that is too large; at the same matrix, another determinant. Takes no memory. Costs a pass.
    pub fn of(det: u32, list: Vec<Matrix>) -> Result<MatrixSet, SetFault>
        requires few { length list.items < u32.MAX }
        ensures set { IfOk result (λ s. s ≡ record { det = det; list = list.items }) }
        ensures accepted { IsOk result ↔ (set_fault det list.items ≡ None) }
        ensures refused { IfErr result (λ e. set_fault det list.items ≡ Some e) }
    {
        if det == 0 || det > MAX_DET {
            return Err(SetFault::Limit { n: det });
        }
        match first_fault(det, &list) {
            Some(fault) => Err(fault),
            None => Ok(MatrixSet { det, list }),
        }
    }

    // The set of a list that is known to be one.
    pub(crate) fn whole(det: u32, list: Vec<Matrix>) -> MatrixSet
        requires set { IsMatrixSet (record { det = det; list = list.items }) }
        ensures set { result ≡ record { det = det; list = list.items } }
    {
        MatrixSet { det, list }
    }

    /// The determinant.
    pub fn det(&self) -> u32
        ensures det { result ≡ self.now.det }
        ensures positive { 0 < result }
        ensures limited { result ≤ MAX_DET }
    {
        self.det
    }

    /// The matrices in their order.
    pub fn list(&self) -> &[Matrix]
        ensures list { result.now ≡ self.now.list }
        ensures small { All IsSmall self.now.list }
        ensures determinants { All (λ m. determinant m ≡ pos self.now.det) self.now.list }
        ensures few { length self.now.list < u32.MAX }
    {
        self.list.as_slice()
    }
}

// The product.
fn times(x: i32, y: i32) -> i64
    ensures product { result ≡ x *ℤ y }
    ensures bound { unsigned_abs result ≤ 2 ^ 62 }
{
    i64::from(x) * i64::from(y)
}

// Whether the matrix has the determinant.
fn is_of_determinant(det: u32, matrix: &Matrix) -> bool
    ensures { result ≡ has_determinant det matrix.now }
{
    times(matrix.a, matrix.d) == i64::from(det) + times(matrix.b, matrix.c)
}

// Whether each entry has a magnitude within the limit.
fn is_within_limit(matrix: &Matrix) -> bool
    ensures { result ≡ is_small matrix.now }
{
    matrix.a.unsigned_abs() <= MAX_ENTRY
        && matrix.b.unsigned_abs() <= MAX_ENTRY
        && matrix.c.unsigned_abs() <= MAX_ENTRY
        && matrix.d.unsigned_abs() <= MAX_ENTRY
}

// What does not fit at a matrix.
fn fault_of(det: u32, matrix: &Matrix, place: u32) -> Option<SetFault>
    ensures { result ≡ matrix_fault det matrix.now place }
{
    let small = is_within_limit(matrix);
    let right = is_of_determinant(det, matrix);
    if small && right {
        return None;
    }
    Some(if small {
        SetFault::Determinant { place }
    } else {
        SetFault::Entry { place }
    })
}

// The first matrix that does not fit.
fn first_fault(det: u32, list: &[Matrix]) -> Option<SetFault>
    requires few { length list.now < u32.MAX }
    ensures { result ≡ list_fault det list.now }
{
    let mut place = 0;
    for matrix in list {
        if let Some(fault) = fault_of(det, matrix, place) {
            return Some(fault);
        }
        place += 1;
    }
    None
}
