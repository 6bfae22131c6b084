//! Spans as sets of vectors, and their sizes.

ghost use Rattle.std.specs.Prelude.{◌≡◌, ◌≤◌, ℕ, List, length};
ghost use Rattle.linear_algebra.specs.Prime.{IsPrime};
ghost use Rattle.linear_algebra.specs.Vector.{Vector};
ghost use Rattle.linear_algebra.specs.Span.{Each, InSpan, Independent, SameSpan, IsBasis};
ghost use Rattle.linear_algebra.specs.Echelon.{IsReducedEchelon};

/// Spans are transitive: a combination of rows that lie in a span lies in it.
pub fn spans_are_transitive()
    ensures law { (p : ℕ) (basis rows : List (Vector p)) (v : Vector p) → Each (InSpan basis) rows → InSpan rows v → InSpan basis v }
{}

/// Independent rows inside a span number at most the rows that span it (Axler, Linear Algebra Done Right, ch. 2).
pub fn independent_rows_are_few()
    ensures law { (p : ℕ) (basis rows : List (Vector p)) → IsPrime p → Independent rows → Each (InSpan basis) rows → length rows ≤ length basis }
{}

/// As many independent rows inside a span as rows that span it have the same span.
pub fn equal_size_is_equality()
    ensures law { (p : ℕ) (basis rows : List (Vector p)) → IsPrime p → Independent rows → Each (InSpan basis) rows → length rows ≡ length basis → SameSpan rows basis }
{}

/// Two bases of one span have one size (Axler, Linear Algebra Done Right, ch. 2).
pub fn bases_have_one_size()
    ensures law { (p : ℕ) (rows xs ys : List (Vector p)) → IsPrime p → IsBasis rows xs → IsBasis rows ys → length xs ≡ length ys }
{}

/// A span has at most one basis in reduced echelon form (Hoffman and Kunze, Linear Algebra, 2.5).
pub fn one_reduced_echelon_basis()
    ensures law { (p : ℕ) (xs ys : List (Vector p)) → IsPrime p → IsReducedEchelon xs → IsReducedEchelon ys → SameSpan xs ys → xs ≡ ys }
{}
