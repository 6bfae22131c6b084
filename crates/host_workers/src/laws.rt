ghost use Rattle.std.specs.Prelude.{◌≡◌, ◌∷◌, []};
ghost use Rattle.field_table.specs.declared.table.TheConstants.{CHARACTERISTICS};
ghost use Rattle.host_workers.specs.Workers.{SharedRunsAreLegal};

use crate::status::MAX_INPUT;

/// The greatest input by its number of bytes, and the characteristics that a script may name, in the order of their
/// table.
pub fn limits()
    ensures input { MAX_INPUT ≡ 1048576 }
    ensures characteristics { CHARACTERISTICS
        ≡ 2 ∷ 3 ∷ 5 ∷ 7 ∷ 11 ∷ 13 ∷ 17 ∷ 101 ∷ 1009 ∷ 10007 ∷ 32003 ∷ 65521 ∷ 1000003 ∷ 16777213 ∷ [] }
{}

/// The works of all sessions of a script, over one legal list of events and one history, make a legal run of the script,
/// however their passes interleave: each session answers for what it has seen, and what it has seen begins the whole.
pub fn shared_runs_are_legal()
    ensures law { SharedRunsAreLegal }
{}
