//! Fitting's splitting and the refinement of direct sums.

ghost use Rattle.std.specs.Prelude.{◌≡◌, ℕ, List};
ghost use Rattle.linear_algebra.specs.Prime.{IsPrime};
ghost use Rattle.linear_algebra.specs.Vector.{Vector, EndsBefore, ◌⊞◌};
ghost use Rattle.linear_algebra.specs.Span.{Each, InSpan};
ghost use Rattle.stable_subspaces.specs.Operator.{apply, Commute, IsStable};
ghost use Rattle.stable_subspaces.specs.Fitting.{generalised_kernel, eventual_image, IsFittingPair};
ghost use Rattle.stable_subspaces.specs.Splitting.{IsDirectSum, IsSumOfTwo, Refined};

/// Each vector of a stable subspace is in exactly one way the sum of a vector of the generalised kernel and of one of the
/// eventual image (Fitting's lemma; Jacobson, Basic Algebra II, 3.4).
pub fn fitting_parts_are_unique()
    ensures splits { (p d : ℕ) (a rows : List (Vector p)) (w : Vector p) → IsPrime p → Each (EndsBefore d) a → Each (EndsBefore d) rows → IsStable a rows → InSpan rows w
        → (z : Vector p) × (u : Vector p) × generalised_kernel a rows z × eventual_image a rows u × (w ≡ z ⊞ u) }
    ensures once { (p d : ℕ) (a rows : List (Vector p)) (y z u v : Vector p) → IsPrime p → Each (EndsBefore d) a → Each (EndsBefore d) rows → IsStable a rows
        → generalised_kernel a rows y → generalised_kernel a rows z → eventual_image a rows u → eventual_image a rows v → y ⊞ u ≡ z ⊞ v → (y ≡ z) × (u ≡ v) }
{}

/// Where two spans are the generalised kernel and the eventual image, the subspace is their direct sum.
pub fn fitting_pairs_are_direct_sums()
    ensures law { (p d : ℕ) (a rows k i : List (Vector p)) → IsPrime p → Each (EndsBefore d) a → Each (EndsBefore d) rows → IsStable a rows → IsFittingPair a rows k i → IsSumOfTwo rows k i }
{}

/// An operator that commutes with another and keeps the subspace keeps both of its Fitting parts.
pub fn commuting_operators_keep_the_parts()
    ensures kernel { (p : ℕ) (a b rows : List (Vector p)) (v : Vector p) → Commute a b → IsStable b rows → generalised_kernel a rows v → generalised_kernel a rows (apply b v) }
    ensures image { (p : ℕ) (a b rows : List (Vector p)) (v : Vector p) → Commute a b → IsStable b rows → eventual_image a rows v → eventual_image a rows (apply b v) }
{}

/// A direct sum stays one where each part is replaced by two whose direct sum it is.
pub fn refined_sums_are_direct()
    ensures law { (p d : ℕ) (parts news : List (List (Vector p))) → Refined parts news → IsDirectSum d parts → IsDirectSum d news }
{}
