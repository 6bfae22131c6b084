ghost use Rattle.std.specs.Prelude.{◌≡◌, ◌<◌, ◌*◌, ℕ, length};
ghost use Rattle.linear_algebra.specs.Vector.{◌⊞◌, zeros, EndsBefore};
ghost use Rattle.linear_algebra.specs.Span.{Each, row};
ghost use Rattle.linear_algebra.specs.Coordinates.{unit};
ghost use Rattle.p1_normal.specs.Points.{symbols};
ghost use Rattle.p1_normal.specs.Actions.{image_number, matrix_s, matrix_t};
ghost use Rattle.manin_relations.specs.Relations.{relation, relations, Congruent};

/// There are 2 m relations, each a vector of length m, and row k of them is relation k.
pub fn relations_have_length_m()
    ensures count { (p N : ℕ) → length (relations {p = p} N) ≡ 2 * length (symbols N) }
    ensures row { (p N k : ℕ) → k < 2 * length (symbols N) → row (relations {p = p} N) k ≡ relation N k }
    ensures width { (p N : ℕ) → Each (EndsBefore (length (symbols N))) (relations {p = p} N) }
{}

/// A symbol and its image by S are congruent to 0 together, and so are its images by 1, T and T twice.
pub fn relations_are_congruent_to_zero()
    ensures two_term { (p N k : ℕ) → 0 < p → k < length (symbols N) →
        Congruent N (unit {p = p} k ⊞ unit (image_number N k matrix_s)) zeros }
    ensures three_term { (p N k : ℕ) → 0 < p → k < length (symbols N) →
        let t = image_number N k matrix_t in
        Congruent N (unit {p = p} k ⊞ unit t ⊞ unit (image_number N t matrix_t)) zeros }
{}
