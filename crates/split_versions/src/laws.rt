ghost use Rattle.std.specs.Prelude.{ℕ, ◌<◌, ◌≤◌, ◌+◌, List, length, take};
ghost use Rattle.field_table.specs.Table.{IsListed};
ghost use Rattle.op_polynomials.specs.declared.entry.SplitEntry.{SplitEntry};
ghost use Rattle.quotient_coords.specs.Quotient.{Ground};
ghost use Rattle.split_state.specs.Decomposition.{Decomposition, IsSplitting};
ghost use Rattle.split_state.specs.Refinement.{Refines};
ghost use Rattle.split_state.specs.Versions.{IsVersion};
ghost use Rattle.split_versions.specs.Histories.{AreVersions};

/// Where entries have a version, so have the first i of them for each i up to their number, and each
/// version refines the one of an entry less. Where the versions of a history are splittings, every
/// version of its first entries is one, since there is only one.
pub fn versions_of_prefixes()
    ensures law { (g : Ground) (entries : List SplitEntry) (s : Decomposition) →
        IsVersion g entries s → (i : ℕ) → i ≤ length entries →
        (r : Decomposition) × IsVersion g (take i entries) r }
    ensures refining { (g : Ground) (entries : List SplitEntry) → IsListed g.characteristic →
        (i : ℕ) → i < length entries → (s r : Decomposition) → IsVersion g (take i entries) s →
        IsVersion g (take (i + 1) entries) r → Refines r s }
    ensures splittings { (g : Ground) (entries : List SplitEntry) → AreVersions g entries →
        (i : ℕ) → i ≤ length entries → (s : Decomposition) → IsVersion g (take i entries) s →
        IsSplitting s }
{}
