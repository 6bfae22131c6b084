ghost use Rattle.std.specs.Prelude.{◌≡◌};
ghost use Rattle.script_text.specs.declared.script_fault.ScriptFault.TheVariants.{OutOfMemory as Memory};

use std::alloc::{AllocError, AllocFailed};
use thiserror::Error;

/// The rule that a line of a script breaks.
#[derive(Clone, Copy, Debug, PartialEq, Eq)]
pub enum ScriptCause {
    /// A byte other than a tab and those from the space to the tilde.
    Byte,
    /// The first significant line isn't `space`, N and p, or there is none.
    Header,
    /// N isn't 1 to `MAX_LEVEL`.
    Level,
    /// p isn't listed.
    Characteristic,
    /// Tokens after `session`.
    Session,
    /// One session line more than `MAX_SESSIONS`.
    Sessions,
    /// A command line before the first session line.
    NoSession,
    /// One command line more than `MAX_COMMANDS`.
    Commands,
}

/// Why a text is no script.
#[derive(Clone, Copy, Debug, PartialEq, Eq, Error)]
pub enum ScriptFault {
    /// There is no memory for the script.
    #[error("out of memory")]
    OutOfMemory,
    /// The first line that breaks a rule, numbered from 1 with the skipped lines, and
    /// the first rule that it breaks.
    #[error("line {line} of the script breaks a rule")]
    BadScript { line: u32, cause: ScriptCause },
}

impl From<AllocError> for ScriptFault {
    ghost from_gives = { λ _ e. e ≡ Memory };

    fn from(_error: AllocError) -> ScriptFault {
        ScriptFault::OutOfMemory
    }
}

impl<T: Drop> From<AllocFailed<T>> for ScriptFault {
    ghost from_gives = { λ _ e. e ≡ Memory };

    fn from(_error: AllocFailed<T>) -> ScriptFault {
        ScriptFault::OutOfMemory
    }
}
