ghost use Rattle.std.specs.Prelude.{◌≡◌, ◌≢◌, ◌<◌, ◌≤◌, ◌+◌, ◌*◌, ◌↔◌, ℕ, IfSome, IsNone, pos};
ghost use Rattle.p1_normal.specs.declared.matrix.TheConstants.{MAX_DET};
ghost use Rattle.heilbronn_sets.specs.Merel.{IsMerel};
ghost use Rattle.heilbronn_chains.specs.Chains.{Follows, degree};

use p1_normal::Matrix;

// The first column q (a, c) - (b, d) of the matrix after, by the least q with d <= q c.
fn first_column(a: u32, b: u32, c: u32, d: u32) -> (u32, u32)
    requires rows { (b < a) × (c < d) }
    requires some { 0 < c }
    requires few { (a ≤ MAX_DET) × (d ≤ MAX_DET) }
    ensures column { (q : ℕ) × (result.0 + b ≡ q * a) × (result.1 + d ≡ q * c) }
    ensures below { result.1 < c }
{
    let quotient = (d + c - 1) / c;
    (quotient * a - b, quotient * c - d)
}

/// The matrix after a matrix of Merel's set in its chain: [[q a - b, a], [q c - d, c]] with the
/// least integer q at which q c is at least d. None where the chain ends, at c = 0. Takes no memory
/// and one division.
pub fn next(matrix: &Matrix) -> Option<Matrix>
    requires limit { degree matrix.now ≤ MAX_DET }
    requires member { IsMerel (degree matrix.now) matrix.now }
    ensures last { IsNone result ↔ (matrix.now.c ≡ pos 0) }
    ensures next { IfSome result (λ m. Follows (degree matrix.now) matrix.now m) }
{
    if matrix.c == 0 {
        return None;
    }
    let (a, c) = first_column(
        matrix.a as u32,
        matrix.b as u32,
        matrix.c as u32,
        matrix.d as u32,
    );
    Some(Matrix::new(a as i32, matrix.a, c as i32, matrix.c))
}
