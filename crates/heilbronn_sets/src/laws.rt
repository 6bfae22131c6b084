ghost use Rattle.std.specs.Prelude.{◌≡◌, ◌≢◌, ◌<◌, ◌≤◌, ◌+◌, ◌^◌, ◌↔◌, ◌++◌, [], ◌∷◌, ℕ, length, pos, ◌+ℤ◌, ◌≤ℤ◌};
ghost use Rattle.std.specs.List.{AllPairs, Contains};
ghost use Rattle.p1_normal.specs.declared.matrix.Matrix.{Matrix};
ghost use Rattle.p1_normal.specs.Actions.{matrix};
ghost use Rattle.heilbronn_sets.specs.Merel.{IsMerel, merel_matrices};
ghost use Rattle.heilbronn_sets.specs.Order.{IsBefore};

/// Merel's set of determinant n, of 1 or more, holds exactly the integer matrices with a > b >= 0,
/// d > c >= 0 and ad - bc = n: the bound n on the entries leaves none out. Their trace is at most n + 1,
/// and there are at most (n + 1)^3 of them, since a, b and c determine d.
pub fn merel_laws()
    ensures members { (n : ℕ) (m : Matrix) → Contains (merel_matrices n) m ↔ IsMerel n m }
    ensures trace { (n : ℕ) (m : Matrix) → IsMerel n m → (m.a +ℤ m.d) ≤ℤ pos (n + 1) }
    ensures many { (n : ℕ) → length (merel_matrices n) ≤ (n + 1) ^ 3 }
{}

/// Merel's set of each n is listed in rising lexicographic order, so that no matrix stands in it twice.
pub fn merel_order()
    ensures rising { (n : ℕ) → AllPairs IsBefore (merel_matrices n) }
    ensures once { (n : ℕ) → AllPairs (λ m k. m ≢ k) (merel_matrices n) }
{}

/// The sets of the determinants 1, 2 and 3.
pub fn small_sets()
    ensures one { merel_matrices 1 ≡ matrix (pos 1) (pos 0) (pos 0) (pos 1) ∷ [] }
    ensures two { merel_matrices 2 ≡ matrix (pos 1) (pos 0) (pos 0) (pos 2) ∷ matrix (pos 1) (pos 0) (pos 1) (pos 2)
        ∷ matrix (pos 2) (pos 0) (pos 0) (pos 1) ∷ matrix (pos 2) (pos 1) (pos 0) (pos 1) ∷ [] }
    ensures three { merel_matrices 3 ≡ matrix (pos 1) (pos 0) (pos 0) (pos 3) ∷ matrix (pos 1) (pos 0) (pos 1) (pos 3)
        ∷ matrix (pos 1) (pos 0) (pos 2) (pos 3) ∷ matrix (pos 2) (pos 1) (pos 1) (pos 2)
        ∷ matrix (pos 3) (pos 0) (pos 0) (pos 1) ∷ matrix (pos 3) (pos 1) (pos 0) (pos 1)
        ∷ matrix (pos 3) (pos 2) (pos 0) (pos 1) ∷ [] }
{}
