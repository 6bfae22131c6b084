ghost use Rattle.commuting_operators.specs.Polynomials.{ColumnsArePolynomials, MatricesArePolynomials};

/// The matrix of T_n, for n coprime to the level, is a polynomial in the matrices of the T_q, for the
/// primes q that divide n, with integer coefficients that depend on n alone: at each vector, and so
/// column by column (Diamond and Shurman, A First Course in Modular Forms, 5.3).
pub fn matrices_are_polynomials()
    ensures values { MatricesArePolynomials }
    ensures columns { ColumnsArePolynomials }
{}
