ghost use Rattle.std.specs.Prelude.{◌≡◌, ◌<◌, ◌*◌, ℕ, List, length};
ghost use Rattle.field_table.specs.Residues.{AreResidues};
ghost use Rattle.linear_algebra.specs.Coordinates.{IsCoordinates, unit};
ghost use Rattle.linear_algebra.specs.Dense.{dense, dense_rows};
ghost use Rattle.linear_algebra.specs.Prime.{IsPrime};
ghost use Rattle.linear_algebra.specs.Residue.{Residue};
ghost use Rattle.linear_algebra.specs.Span.{InSpan};
ghost use Rattle.linear_algebra.specs.Vector.{EndsBefore, Vector, ◌⊞◌, ◌⊡◌};
ghost use Rattle.manin_relations.specs.Relations.{Congruent, relation, relations};
ghost use Rattle.p1_normal.specs.Actions.{matrix_star, image_number};
ghost use Rattle.p1_normal.specs.Points.{symbols};
ghost use Rattle.quotient_coords.specs.Quotient.{AreCoordinates, dimension};
ghost use Rattle.stable_subspaces.specs.Operator.{apply};
ghost use Rattle.star_map.specs.Star.{IsStarMatrix, star};

/// Star is linear, takes the symbol (u:v) to (-u:v), and is its own inverse.
pub fn star_is_linear()
    ensures plus { (p N : ℕ) (x y : Vector p) → star N (x ⊞ y) ≡ star N x ⊞ star N y }
    ensures scale { (p N : ℕ) (a : Residue p) (x : Vector p) → star N (a ⊡ x) ≡ a ⊡ star N x }
    ensures symbol { (p N k : ℕ) → k < length (symbols N) →
        star {p = p} N (unit k) ≡ unit (image_number N k matrix_star) }
    ensures twice { (p N : ℕ) (x : Vector p) → EndsBefore (length (symbols N)) x →
        star N (star N x) ≡ x }
{}

/// Star of every relation, and of each combination of relations, is a combination of relations; so
/// congruent combinations have congruent stars.
pub fn star_keeps_congruence()
    ensures relation { (p N k : ℕ) → 0 < p → k < 2 * length (symbols N) →
        InSpan {p = p} (relations N) (star N (relation N k)) }
    ensures span { (p N : ℕ) (x : Vector p) → 0 < p →
        InSpan (relations N) x → InSpan (relations N) (star N x) }
    ensures congruent { (p N : ℕ) (x y : Vector p) → 0 < p →
        Congruent N x y → Congruent N (star N x) (star N y) }
{}

/// The matrix of star times the coordinates of a combination is the coordinates of its star, for every
/// combination; and there is one matrix of star.
pub fn star_matrix_gives_stars()
    ensures vectors { (N p : ℕ) (columns : List (List ℕ)) (x c : Vector p) → 0 < p →
        IsStarMatrix N p columns → IsCoordinates (length (symbols N)) (relations N) x c →
        IsCoordinates (length (symbols N)) (relations N) (star N x) (apply (dense_rows p columns) c) }
    ensures lists { (N p : ℕ) (columns : List (List ℕ)) (x : Vector p)
        (values images : List ℕ) → 0 < p → IsStarMatrix N p columns → AreCoordinates N x values →
        length images ≡ dimension N p → AreResidues p images →
        dense p images ≡ apply (dense_rows p columns) (dense p values) →
        AreCoordinates N (star N x) images }
    ensures one_matrix { (N p : ℕ) (columns others : List (List ℕ)) → IsPrime p →
        IsStarMatrix N p columns → IsStarMatrix N p others → columns ≡ others }
{}
