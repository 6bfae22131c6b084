use std::alloc::AllocError;
use thiserror::Error;

/// A call of a source or a sink that moved nothing, and counted a fault.
#[derive(Clone, Copy, Debug, PartialEq, Eq, Error)]
#[error("the call failed")]
pub struct Failed;

/// Memory was refused.
#[derive(Clone, Copy, Debug, PartialEq, Eq, Error)]
#[error("out of memory")]
pub struct OutOfMemory;

impl From<AllocError> for OutOfMemory {
    fn from(_: AllocError) -> Self {
        OutOfMemory
    }
}

/// Why a source was not read to its end. The first of these that occurs decides.
#[derive(Clone, Copy, Debug, PartialEq, Eq, Error)]
pub enum ReadAllFault {
    #[error("out of memory")]
    OutOfMemory,
    #[error("the source failed")]
    ReadFault,
    #[error("the source has more bytes than the limit")]
    TooLong,
}
