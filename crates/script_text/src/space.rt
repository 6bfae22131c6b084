/// The level N and the characteristic p that a script's header names.
#[derive(Clone, Copy, Debug, PartialEq, Eq)]
pub struct SpaceLine {
    pub modulus: u32,
    pub characteristic: u32,
}
