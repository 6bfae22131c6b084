/// What a token of a command is.
#[derive(Clone, Copy, Debug, PartialEq, Eq)]
pub enum Kind {
    /// Digits, with or without a minus before them.
    Integer,
    /// Digits.
    Natural,
    /// Digits: the n of Merel's set, from 1 to `MAX_DET`.
    Index,
    /// `T` directly followed by digits, or `star`.
    Operator,
    /// Integers between commas, from the constant up.
    Coefficients,
    /// A coefficient and a pair: three integers between colons.
    Term,
}
