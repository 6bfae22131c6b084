ghost use Rattle.std.specs.Prelude.{◌≡◌};

use crate::{BUFFER_SIZE, PIECE_SIZE};

/// The numbers of the limits.
pub fn limit_values()
    ensures buffer { BUFFER_SIZE ≡ 8192 }
    ensures piece { PIECE_SIZE ≡ 16384 }
{}
