ghost use Rattle.std.specs.Prelude.{◌≡◌};
ghost use Rattle.script_text.specs.declared.command_fault.CommandFault.TheVariants.{OutOfMemory as Memory};

use std::alloc::{AllocError, AllocFailed};
use thiserror::Error;

/// A limit of a command. They are tried in this order.
#[derive(Clone, Copy, Debug, PartialEq, Eq)]
pub enum LimitWord {
    /// The n of `image`, `chains` or an operator T isn't 1 to `MAX_DET`.
    N,
    /// A polynomial has more than `MAX_COEFFICIENTS` coefficients.
    Degree,
    /// There are more than `MAX_TERMS` terms.
    Terms,
    /// Another number has a magnitude above `MAX_MAGNITUDE`.
    Number,
}

/// Why a line is no command that can be carried out. The grammar is judged before
/// any limit.
#[derive(Clone, Copy, Debug, PartialEq, Eq, Error)]
pub enum CommandFault {
    /// There is no memory for the command.
    #[error("out of memory")]
    OutOfMemory,
    /// The line has the form of no command: no form begins with its tokens up to this
    /// one, numbered from 1; one past the last where the line is unfinished.
    #[error("token {token} is that of no command")]
    Grammar { token: u32 },
    /// The line has a form and breaks a limit.
    #[error("a number is past its limit")]
    Limit { what: LimitWord },
}

impl From<AllocError> for CommandFault {
    ghost from_gives = { λ _ e. e ≡ Memory };

    fn from(_error: AllocError) -> CommandFault {
        CommandFault::OutOfMemory
    }
}

impl<T: Drop> From<AllocFailed<T>> for CommandFault {
    ghost from_gives = { λ _ e. e ≡ Memory };

    fn from(_error: AllocFailed<T>) -> CommandFault {
        CommandFault::OutOfMemory
    }
}
