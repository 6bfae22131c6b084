ghost use Rattle.std.specs.Prelude.{◌≡◌, ◌<◌, ◌≤◌, ◌*◌, ◌↔◌, ℕ, [], ◌∷◌, length};
ghost use Rattle.std.specs.List.{Contains};
ghost use Rattle.std.specs.List.Sorted.{IsStrictlyIncreasing};
ghost use Rattle.linear_algebra.specs.Coordinates.{unit};
ghost use Rattle.linear_algebra.specs.Residue.{Residue};
ghost use Rattle.linear_algebra.specs.Span.{InSpan};
ghost use Rattle.linear_algebra.specs.Vector.{Vector, ◌⊞◌, ◌⊡◌, zeros};
ghost use Rattle.manin_relations.specs.Relations.{Congruent, relation, relations};
ghost use Rattle.p1_normal.specs.declared.point.Point.{Point};
ghost use Rattle.p1_normal.specs.Points.{common_divisor, symbol_at, symbols};
ghost use Rattle.cusps_boundary.specs.Boundary.{boundary, boundary_of};
ghost use Rattle.cusps_boundary.specs.Cusps.{cusp, cusp_number, cusps, least_symbol};
ghost use Rattle.cusps_boundary.specs.Keys.{IsCuspKey, IsShifted};

/// Each point has exactly one key, and two points have one key exactly where one is the other times
/// a power of U; so two symbols have one key exactly where they lie in one cusp.
pub fn cusp_key_laws()
    ensures exists { (N : ℕ) (p : Point) → 0 < N → (key : ℕ × ℕ) × IsCuspKey N p key }
    ensures once { (N : ℕ) (p : Point) (a b : ℕ × ℕ) → 0 < N →
        IsCuspKey N p a → IsCuspKey N p b → a ≡ b }
    ensures orbit { (N : ℕ) (p q : Point) (a b : ℕ × ℕ) → 0 < N →
        common_divisor N p ≡ 1 → common_divisor N q ≡ 1 →
        IsCuspKey N p a → IsCuspKey N q b → (a ≡ b) ↔ IsShifted N p q }
    ensures cusp { (N j k : ℕ) (a b : ℕ × ℕ) → j < length (symbols N) → k < length (symbols N) →
        IsCuspKey N (symbol_at N j) a → IsCuspKey N (symbol_at N k) b →
        (a ≡ b) ↔ Contains (cusp N j) k }
{}

/// The boundary map is linear.
pub fn boundaries_are_linear()
    ensures plus { (p N : ℕ) (x y : Vector p) → boundary N (x ⊞ y) ≡ boundary N x ⊞ boundary N y }
    ensures scale { (p N : ℕ) (a : Residue p) (x : Vector p) →
        boundary N (a ⊡ x) ≡ a ⊡ boundary N x }
    ensures symbol { (p N k : ℕ) → k < length (symbols N) →
        boundary {p = p} N (unit k) ≡ boundary_of N k }
{}

/// The boundary of every relation is 0, so congruent combinations have one boundary.
pub fn boundaries_of_relations_are_zero()
    ensures relation { (p N k : ℕ) → 0 < p → k < 2 * length (symbols N) →
        boundary {p = p} N (relation N k) ≡ zeros }
    ensures span { (p N : ℕ) (x : Vector p) → 0 < p →
        InSpan (relations N) x → boundary N x ≡ zeros }
    ensures congruent { (p N : ℕ) (x y : Vector p) → 0 < p →
        Congruent N x y → boundary N x ≡ boundary N y }
{}

/// Each symbol lies in exactly one cusp of the list, which stands there by its least symbol; two
/// symbols have one cusp exactly where one lies in the cusp of the other.
pub fn cusp_laws()
    ensures listed { (N k : ℕ) → k < length (symbols N) → cusp_number N k < length (cusps N) }
    ensures holds { (N k : ℕ) → k < length (symbols N) →
        Contains (cusp N (least_symbol N (cusp_number N k))) k }
    ensures same { (N j k : ℕ) → j < length (symbols N) → k < length (symbols N) →
        (cusp_number N j ≡ cusp_number N k) ↔ Contains (cusp N j) k }
    ensures number { (N c : ℕ) → c < length (cusps N) → cusp_number N (least_symbol N c) ≡ c }
    ensures least { (N c k : ℕ) → c < length (cusps N) →
        Contains (cusp N (least_symbol N c)) k → least_symbol N c ≤ k }
    ensures rising { (N : ℕ) → IsStrictlyIncreasing (cusps N) }
{}

/// The cusps of small levels by the numbers of their least symbols: 0 is (0:1) but at level 1, 1 is
/// (1:0), and 5 at level 4 is (2:1).
pub fn small_levels()
    ensures one { cusps 1 ≡ 0 ∷ [] }
    ensures four { cusps 4 ≡ 0 ∷ 1 ∷ 5 ∷ [] }
    ensures eleven { cusps 11 ≡ 0 ∷ 1 ∷ [] }
{}
