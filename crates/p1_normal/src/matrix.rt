ghost use Rattle.std.specs.Prelude.{◌≡◌};
ghost use Rattle.p1_normal.specs.Actions.{matrix};

/// The greatest magnitude of an entry of a matrix that acts on symbols.
pub const MAX_ENTRY: u32 = 1000;

/// The greatest determinant of the matrices of a Hecke operator.
pub const MAX_DET: u32 = 400;

/// The integer matrix [[a, b], [c, d]], which acts on rows from the right.
#[derive(Clone, Copy, Debug, PartialEq, Eq)]
pub struct Matrix {
    pub a: i32,
    pub b: i32,
    pub c: i32,
    pub d: i32,
}

impl Matrix {
    /// The matrix [[a, b], [c, d]].
    pub fn new(a: i32, b: i32, c: i32, d: i32) -> Matrix
        ensures { result ≡ matrix a b c d }
    {
        Matrix { a, b, c, d }
    }
}
