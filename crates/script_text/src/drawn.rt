use op_polynomials::OpName;

/// A term of a drawn command: a coefficient from 1 to 9, and the pair (1, v).
#[derive(Clone, Copy, Debug, PartialEq, Eq)]
pub struct DrawnTerm {
    pub coefficient: u32,
    pub v: u32,
}

/// A command of a script that is made from a number, with the numbers of its line.
#[derive(Clone, Copy, Debug, PartialEq, Eq)]
pub enum DrawnCommand {
    /// The normal form of (1:v).
    Normal {
        v: u32,
    },
    /// The coordinates of two terms.
    Reduce {
        first: DrawnTerm,
        second: DrawnTerm,
    },
    /// The coordinates of Merel's sum of one term or two.
    Image {
        n: u32,
        first: DrawnTerm,
        second: Option<DrawnTerm>,
    },
    /// The coordinates of star of a term.
    Star {
        term: DrawnTerm,
    },
    /// The boundary of two terms.
    Boundary {
        first: DrawnTerm,
        second: DrawnTerm,
    },
    /// The newest splitting.
    Show,
    /// A split by the operator less the constant.
    Split {
        op: OpName,
        constant: u32,
    },
}
