//! Congruence modulo rows of a width d: coordinates on the free places, and coefficients over the kept rows.

ghost use Rattle.std.specs.Prelude.{◌≡◌, ◌<◌, ◌+◌, ◌↔◌, ℕ, List, IsTrue, length};
ghost use Rattle.linear_algebra.specs.Prime.{IsPrime};
ghost use Rattle.linear_algebra.specs.Vector.{Vector, EndsBefore};
ghost use Rattle.linear_algebra.specs.Span.{Each, IsBasis};
ghost use Rattle.linear_algebra.specs.Echelon.{IsPivot, IsTopBasis};
ghost use Rattle.linear_algebra.specs.Coordinates.{IsBound, IsReduction, IsCoordinates, is_bound, free_places, IsKeptList, AreKeptCoefficients, rows_at};

/// A place is bound modulo rows where it is a pivot of them, and the test over all coefficients finds these places.
pub fn bound_places()
    ensures pivot { (p : ℕ) (rows : List (Vector p)) (k : ℕ) → IsPrime p → IsBound rows k ↔ IsPivot rows k }
    ensures test { (p d : ℕ) (rows : List (Vector p)) (k : ℕ) → IsPrime p → Each (EndsBefore d) rows → IsTrue (is_bound d rows k) ↔ IsBound rows k }
{}

/// Each vector is congruent to exactly one vector that is 0 at the bound places.
pub fn reductions_are_unique()
    ensures exist { (p d : ℕ) (rows : List (Vector p)) (x : Vector p) → IsPrime p → Each (EndsBefore d) rows → (y : Vector p) × IsReduction rows x y }
    ensures once { (p d : ℕ) (rows : List (Vector p)) (x y z : Vector p) → IsPrime p → Each (EndsBefore d) rows → IsReduction rows x y → IsReduction rows x z → y ≡ z }
{}

/// Each vector of length d has exactly one vector of coordinates on the free places.
pub fn coordinates_are_unique()
    ensures exist { (p d : ℕ) (rows : List (Vector p)) (x : Vector p) → IsPrime p → Each (EndsBefore d) rows → EndsBefore d x → (c : Vector p) × IsCoordinates d rows x c }
    ensures once { (p d : ℕ) (rows : List (Vector p)) (x b c : Vector p) → IsPrime p → Each (EndsBefore d) rows → IsCoordinates d rows x b → IsCoordinates d rows x c → b ≡ c }
{}

/// The difference of a vector and its reduction has exactly one list of coefficients over the kept rows.
pub fn kept_coefficients_are_unique()
    ensures exist { (p d : ℕ) (rows : List (Vector p)) (x y : Vector p) → IsPrime p → Each (EndsBefore d) rows → IsReduction rows x y → (c : Vector p) × AreKeptCoefficients rows x y c }
    ensures once { (p : ℕ) (rows : List (Vector p)) (x y b c : Vector p) → IsPrime p → AreKeptCoefficients rows x y b → AreKeptCoefficients rows x y c → b ≡ c }
{}

/// The kept rows are a basis of the span of all rows.
pub fn kept_rows_are_a_basis()
    ensures law { (p d : ℕ) (rows : List (Vector p)) (ks : List ℕ) → IsPrime p → Each (EndsBefore d) rows → IsKeptList rows (length rows) ks → IsBasis rows (rows_at rows ks) }
{}

/// The pivots of rows are the leads of each basis of their span that is reduced from the top.
pub fn pivots_are_leads()
    ensures pivot { (p : ℕ) (rows basis : List (Vector p)) (lead : ℕ → ℕ) (k : ℕ) → IsPrime p → IsTopBasis rows basis lead → IsPivot rows k → (j : ℕ) × (j < length basis) × (lead j ≡ k) }
    ensures lead { (p : ℕ) (rows basis : List (Vector p)) (lead : ℕ → ℕ) (j : ℕ) → IsPrime p → IsTopBasis rows basis lead → j < length basis → IsPivot rows (lead j) }
{}

/// The free places and the rows of a basis of the span are together as many as the width.
pub fn free_places_and_rank()
    ensures law { (p d : ℕ) (rows basis : List (Vector p)) → IsPrime p → Each (EndsBefore d) rows → IsBasis rows basis → length (free_places d rows) + length basis ≡ d }
{}
