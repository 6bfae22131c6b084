ghost use Rattle.std.specs.Prelude.{◌≡◌, ◌<◌, length};
ghost use Rattle.dense_mat.specs.Matrix.{IsMatrix, trace_of};
ghost use Rattle.quotient_coords.specs.Quotient.{dimension};
ghost use Rattle.hecke_ops.specs.Operators.{IsSomeOperator};

use dense_mat::Mat;
use field_table::Field;
use std::marker::Model;

/// The operator of a list of matrices over which the sum of each relation is congruent to 0, on the
/// quotient of a level over a field. Contracts see its level, its characteristic and the columns of its
/// matrix, column j the coordinates of the sum of free symbol j.
#[derive(Debug, Drop)]
pub struct Operator {
    modulus: u32,
    field: Field,
    mat: Mat,
}

impl Model for Operator {
    ghost use Rattle.hecke_ops.specs.Operators.{HeckeOperator, IsSomeOperator};

    ghost Value = { HeckeOperator };

    ghost view = { λ a. record { level = a.modulus; characteristic = a.field; columns = a.mat } };

    ghost invariant = { λ a.
        IsSomeOperator (record { level = a.modulus; characteristic = a.field; columns = a.mat }) };
}

impl Operator {
    // The operator with this matrix.
    pub(crate) fn of(modulus: u32, field: Field, mat: Mat) -> Operator
        requires { IsSomeOperator (record { level = modulus; characteristic = field; columns = mat }) }
        ensures { result ≡ record { level = modulus; characteristic = field; columns = mat } }
    {
        Operator {
            modulus,
            field,
            mat,
        }
    }

    /// The matrix. Times the coordinates of a combination it gives those of the combination's sum
    /// (`operators_give_sums`).
    pub fn mat(&self) -> &Mat
        ensures matrix { result.now ≡ self.now.columns }
        ensures operator { IsSomeOperator self.now }
        ensures square { IsMatrix self.now.characteristic result.now }
        ensures size { length result.now ≡ dimension self.now.level self.now.characteristic }
    {
        &self.mat
    }

    /// Gives the matrix back, which is moved and not copied.
    pub fn into_mat(self) -> Mat
        ensures matrix { result ≡ self.columns }
        ensures operator { IsSomeOperator self }
        ensures square { IsMatrix self.characteristic result }
        ensures size { length result ≡ dimension self.level self.characteristic }
    {
        let Operator { mat, .. } = self;
        mat
    }

    /// The trace of the matrix, modulo the characteristic: the sum of its d diagonal entries.
    pub fn trace(&self) -> u32
        ensures trace { result ≡ trace_of self.now.characteristic self.now.columns }
        ensures below { result < self.now.characteristic }
    {
        let _positive = self.field.characteristic();
        self.mat.trace(self.field)
    }
}
