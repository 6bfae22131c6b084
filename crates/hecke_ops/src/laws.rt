ghost use Rattle.std.specs.Prelude.{◌≡◌, ◌<◌, ◌*◌, ℕ, List, [], ◌∷◌, length, replicate};
ghost use Rattle.linear_algebra.specs.Coordinates.{IsCoordinates, IsKept, unit};
ghost use Rattle.linear_algebra.specs.Dense.{dense, dense_rows};
ghost use Rattle.linear_algebra.specs.Prime.{IsPrime};
ghost use Rattle.linear_algebra.specs.Vector.{Vector, zeros};
ghost use Rattle.stable_subspaces.specs.Operator.{apply};
ghost use Rattle.field_table.specs.Residues.{AreResidues};
ghost use Rattle.p1_normal.specs.declared.matrix.Matrix.{Matrix};
ghost use Rattle.p1_normal.specs.Actions.{image_number};
ghost use Rattle.p1_normal.specs.Points.{symbols};
ghost use Rattle.manin_relations.specs.Relations.{Congruent, relations};
ghost use Rattle.quotient_coords.specs.Quotient.{AreCoordinates, dimension, ground_of};
ghost use Rattle.hecke_columns.specs.Hecke.{IsColumn, hecke_sum};
ghost use Rattle.hecke_ops.specs.Operators.{IsFirstFailing, IsHeckeMatrix, IsOperator, KeepsRelations};

/// An operator's matrix times the coordinates of a combination is the coordinates of the sum of that
/// combination, for every combination, and congruent combinations have congruent sums. A list of matrices
/// has one matrix on the quotient.
pub fn operators_give_sums()
    ensures vectors { (N p : ℕ) (L : List Matrix) (columns : List (List ℕ)) (x c : Vector p) → 0 < p →
        IsOperator N p L columns → IsCoordinates (length (symbols N)) (relations N) x c →
        IsCoordinates (length (symbols N)) (relations N) (hecke_sum N L x)
        (apply (dense_rows p columns) c) }
    ensures lists { (N p : ℕ) (L : List Matrix) (columns : List (List ℕ)) (x : Vector p)
        (values images : List ℕ) → 0 < p → IsOperator N p L columns → AreCoordinates N x values →
        length images ≡ dimension N p → AreResidues p images →
        dense p images ≡ apply (dense_rows p columns) (dense p values) →
        AreCoordinates N (hecke_sum N L x) images }
    ensures congruence { (N p : ℕ) (L : List Matrix) (x y : Vector p) → 0 < p → KeepsRelations N p L →
        Congruent N x y → Congruent N (hecke_sum N L x) (hecke_sum N L y) }
    ensures one_matrix { (N p : ℕ) (L : List Matrix) (columns others : List (List ℕ)) → IsPrime p →
        IsHeckeMatrix N p L columns → IsHeckeMatrix N p L others → columns ≡ others }
{}

/// At most one relation is the first that fails, with one list of coordinates, and none where sums keep
/// congruence. It is no combination of the relations before it, so only kept relations need a test. A
/// combination is congruent to 0 exactly where its coordinates are 0.
pub fn first_failing_relation_is_one()
    ensures number { (N p : ℕ) (L : List Matrix) (j k : ℕ) (values others : List ℕ) → IsPrime p →
        IsFirstFailing N p L j values → IsFirstFailing N p L k others → j ≡ k }
    ensures coords { (N p : ℕ) (L : List Matrix) (k : ℕ) (values others : List ℕ) → IsPrime p →
        IsFirstFailing N p L k values → IsFirstFailing N p L k others → values ≡ others }
    ensures none { (N p : ℕ) (L : List Matrix) (k : ℕ) (values : List ℕ) → IsPrime p →
        IsFirstFailing N p L k values → KeepsRelations N p L → ⊥ }
    ensures kept { (N p : ℕ) (L : List Matrix) (k : ℕ) (values : List ℕ) → IsPrime p →
        IsFirstFailing N p L k values → IsKept (relations {p = p} N) k }
    ensures zero { (N p : ℕ) (x : Vector p) → 0 < p →
        AreCoordinates N x (replicate (dimension N p) 0) → Congruent N x zeros }
    ensures coordinates_of_zero { (N p : ℕ) (x : Vector p) → 0 < p →
        Congruent N x zeros → AreCoordinates N x (replicate (dimension N p) 0) }
{}

/// The sum of a symbol over one matrix is the symbol times the matrix. So the column of a symbol over one
/// matrix is the coordinates of the symbol times the matrix.
pub fn one_matrix_moves_symbols()
    ensures symbol { (p N k : ℕ) (m : Matrix) → k < length (symbols N) →
        hecke_sum {p = p} N (m ∷ []) (unit k) ≡ unit (image_number N k m) }
    ensures column { (N p k : ℕ) (m : Matrix) (values : List ℕ) → k < length (symbols N) →
        AreCoordinates N (unit {p = p} (image_number N k m)) values →
        IsColumn (ground_of N p) (m ∷ []) k values }
{}
