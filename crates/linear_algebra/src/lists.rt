//! Lists of numbers and lists of terms as vectors.

ghost use Rattle.std.specs.Prelude.{◌≡◌, ◌<◌, ℕ, List, length, All};
ghost use Rattle.linear_algebra.specs.Dense.{dense};
ghost use Rattle.linear_algebra.specs.Sparse.{sparse, IsCombo};

/// A list of residues is the only one of its length for its vector.
pub fn dense_lists_are_unique()
    ensures law { (p : ℕ) (xs ys : List ℕ) → length xs ≡ length ys → All (λ x. x < p) xs → All (λ x. x < p) ys → dense p xs ≡ dense p ys → xs ≡ ys }
{}

/// A list of terms with rising places and residues other than 0 is the only one for its vector.
pub fn sparse_lists_are_unique()
    ensures law { (p : ℕ) (xs ys : List (ℕ × ℕ)) → IsCombo xs → IsCombo ys → All (λ t. t.1 < p) xs → All (λ t. t.1 < p) ys → sparse p xs ≡ sparse p ys → xs ≡ ys }
{}
