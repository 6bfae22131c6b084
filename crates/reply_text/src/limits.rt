ghost use Rattle.std.specs.Prelude.{◌≡◌};

/// How many entries a history has at most, and how many accepted splits a version counts.
pub const MAX_VERSIONS: u32 = 200;

/// The number of the limit.
pub fn limit_values()
    ensures versions { MAX_VERSIONS ≡ 200 }
{}
