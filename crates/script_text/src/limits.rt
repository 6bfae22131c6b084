ghost use Rattle.std.specs.Prelude.{◌≡◌};

/// The most sessions of a script.
pub const MAX_SESSIONS: usize = 8;

/// The most commands of a script, all its sessions together.
pub const MAX_COMMANDS: u32 = 2000;

/// The most terms of a command.
pub const MAX_TERMS: usize = 64;

/// The greatest magnitude of a number in a command.
pub const MAX_MAGNITUDE: u32 = 4_000_000_000;

/// Each magnitude above `MAX_MAGNITUDE` is read as this one: all are refused alike.
pub(crate) const PAST_MAGNITUDE: u32 = MAX_MAGNITUDE + 1;

/// The numbers of the limits.
pub fn limit_values()
    ensures sessions { MAX_SESSIONS ≡ 8 }
    ensures commands { MAX_COMMANDS ≡ 2000 }
    ensures terms { MAX_TERMS ≡ 64 }
    ensures magnitude { MAX_MAGNITUDE ≡ 4000000000 }
{}
