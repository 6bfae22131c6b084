use thiserror::Error;

/// A pair (u, v), which names the point (u:v).
#[derive(Clone, Copy, Debug, PartialEq, Eq)]
pub struct Point {
    pub u: u32,
    pub v: u32,
}

/// The pair names no point: u, v and the level have the common divisor g, which is not 1.
#[derive(Clone, Copy, Debug, PartialEq, Eq, Error)]
#[error("the pair has the common divisor {g} with the level")]
pub struct NotASymbol {
    pub g: u32,
}
