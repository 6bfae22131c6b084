use field_table::OutOfMemory;
use op_polynomials::OpName;
use std::alloc::{AllocError, AllocFailed};
use thiserror::Error;

/// Why a splitting is not refined.
#[derive(Clone, Copy, Debug, PartialEq, Eq, Error)]
pub enum RefineFault {
    #[error("out of memory")]
    OutOfMemory,
    /// The products of the matrix and that of the listed operator `other` differ first in this
    /// column and row, both numbered from 0: `left` is the entry of matrix times listed, `right`
    /// that of listed times matrix.
    #[error("products with a listed one differ in row {row} of column {column}: {left}, {right}")]
    Commutator {
        other: OpName,
        row: u32,
        column: u32,
        left: u32,
        right: u32,
    },
}

impl From<OutOfMemory> for RefineFault {
    ghost use Rattle.std.specs.Prelude.{◌≡◌};
    ghost use Rattle.split_state.specs.declared.fault.RefineFault.TheVariants.{OutOfMemory as Memory};

    ghost from_gives = { λ _ e. e ≡ Memory };

    fn from(_error: OutOfMemory) -> RefineFault {
        RefineFault::OutOfMemory
    }
}

impl From<AllocError> for RefineFault {
    ghost use Rattle.std.specs.Prelude.{◌≡◌};
    ghost use Rattle.split_state.specs.declared.fault.RefineFault.TheVariants.{OutOfMemory as Memory};

    ghost from_gives = { λ _ e. e ≡ Memory };

    fn from(_error: AllocError) -> RefineFault {
        RefineFault::OutOfMemory
    }
}

impl<T: Drop> From<AllocFailed<T>> for RefineFault {
    ghost use Rattle.std.specs.Prelude.{◌≡◌};
    ghost use Rattle.split_state.specs.declared.fault.RefineFault.TheVariants.{OutOfMemory as Memory};

    ghost from_gives = { λ _ e. e ≡ Memory };

    fn from(_error: AllocFailed<T>) -> RefineFault {
        RefineFault::OutOfMemory
    }
}
