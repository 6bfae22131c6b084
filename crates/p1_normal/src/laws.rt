ghost use Rattle.std.specs.Prelude.{◌≡◌, ◌<◌, ◌*◌, ◌%◌, ◌↔◌, ℕ, ℤ, unsigned_abs, true, false, length, List, [], ◌∷◌, ◌++◌, map};
ghost use Rattle.std.specs.Fn.{iterate};
ghost use Rattle.std.specs.Int.{IsGcd};
ghost use Rattle.std.specs.List.{range_with_len};
ghost use Rattle.p1_normal.specs.declared.matrix.Matrix.{Matrix};
ghost use Rattle.p1_normal.specs.declared.point.Point.{Point};
ghost use Rattle.p1_normal.specs.declared.level.TheConstants.{MAX_LEVEL};
ghost use Rattle.p1_normal.specs.declared.matrix.TheConstants.{MAX_DET, MAX_ENTRY};
ghost use Rattle.p1_normal.specs.Units.{gcd, IsUnit};
ghost use Rattle.p1_normal.specs.Points.{
  point,
  reduced,
  common_divisor,
  is_before,
  normal_form,
  number,
  symbols,
  symbol_at,
  IsBelow,
  IsNumber,
  SamePoint,
};
ghost use Rattle.p1_normal.specs.Actions.{
  action,
  image,
  product,
  IsInvertible,
  image_number,
  matrix_s,
  matrix_t,
  matrix_u,
  matrix_star,
};

/// The limits: levels go up to 1000, determinants to 400, and entries of matrices to magnitude 1000.
pub fn limits()
    ensures level { MAX_LEVEL ≡ 1000 }
    ensures determinant { MAX_DET ≡ 400 }
    ensures entry { MAX_ENTRY ≡ 1000 }
{}

/// The greatest common divisor, and units modulo N: Bezout; a unit is what is coprime to N; products.
pub fn unit_laws()
    ensures divisor { (a b : ℕ) → IsGcd a b (gcd a b) }
    ensures bezout { (N s : ℕ) → 0 < N → (x : ℕ) × ((s * x) % N ≡ gcd s N % N) }
    ensures coprime { (N s : ℕ) → 0 < N → IsUnit N s ↔ (gcd s N ≡ 1) }
    ensures product { (N s t : ℕ) → IsUnit N s → IsUnit N t → IsUnit N (s * t) }
{}

/// To name one point is an equivalence. The common divisor with N is that of the point, and of any
/// integers with these residues.
pub fn point_laws()
    ensures reflexive { (N : ℕ) (p : Point) → SamePoint N p p }
    ensures symmetric { (N : ℕ) (p q : Point) → SamePoint N p q → SamePoint N q p }
    ensures transitive { (N : ℕ) (p q r : Point) → SamePoint N p q → SamePoint N q r → SamePoint N p r }
    ensures divisor { (N : ℕ) (p q : Point) → SamePoint N p q → common_divisor N p ≡ common_divisor N q }
    ensures integers { (N : ℕ) (u v : ℤ) → 0 < N →
        common_divisor N (reduced N u v) ≡ gcd (gcd (unsigned_abs u) (unsigned_abs v)) N }
{}

/// The normal form is the least pair below N that names the point, and tells points apart.
pub fn normal_form_laws()
    ensures names { (N : ℕ) (p : Point) → SamePoint N p (normal_form N p) }
    ensures below { (N : ℕ) (p : Point) → 0 < N → IsBelow N (normal_form N p) }
    ensures least { (N : ℕ) (p q : Point) → 0 < N → SamePoint N p q → IsBelow N q →
        is_before q (normal_form N p) ≡ false }
    ensures same { (N : ℕ) (p q : Point) → 0 < N → SamePoint N p q ↔ (normal_form N p ≡ normal_form N q) }
{}

/// The list of symbols rises, has each normal form of a point once, and nothing else.
pub fn symbol_laws()
    ensures rising { (N j k : ℕ) (p q : Point) → IsNumber N j p → IsNumber N k q → j < k →
        is_before p q ≡ true }
    ensures one_place { (N j k : ℕ) (p : Point) → IsNumber N j p → IsNumber N k p → j ≡ k }
    ensures all { (N : ℕ) (p : Point) → 0 < N → common_divisor N p ≡ 1 →
        IsNumber N (number N (normal_form N p)) (normal_form N p) }
    ensures points { (N k : ℕ) (p : Point) → IsNumber N k p → common_divisor N p ≡ 1 }
    ensures own { (N k : ℕ) (p : Point) → IsNumber N k p → normal_form N p ≡ p }
    ensures number { (N k : ℕ) → k < length (symbols N) → number N (symbol_at N k) ≡ k }
{}

/// A matrix that is invertible modulo N takes points to points; each takes names of one point to one
/// symbol; and a product acts as one factor after the other.
pub fn action_laws()
    ensures points { (N : ℕ) (p : Point) (m : Matrix) → 0 < N → IsInvertible N m → common_divisor N p ≡ 1 →
        common_divisor N (image N p m) ≡ 1 }
    ensures same { (N : ℕ) (p q : Point) (m : Matrix) → 0 < N → SamePoint N p q → action N p m ≡ action N q m }
    ensures product { (N : ℕ) (p : Point) (m k : Matrix) → 0 < N →
        action N (action N p m) k ≡ action N p (product m k) }
{}

/// What an invertible matrix does to the numbers of symbols.
pub fn number_laws()
    ensures below { (N k : ℕ) (m : Matrix) → k < length (symbols N) → IsInvertible N m →
        image_number N k m < length (symbols N) }
    ensures symbol { (N k : ℕ) (m : Matrix) → k < length (symbols N) → IsInvertible N m →
        symbol_at N (image_number N k m) ≡ action N (symbol_at N k) m }
    ensures product { (N k : ℕ) (m w : Matrix) → k < length (symbols N) → IsInvertible N m →
        image_number N (image_number N k m) w ≡ image_number N k (product m w) }
{}

/// S twice, T three times, U N times and star twice are the identity on symbols; star commutes with
/// S; and star, then T, then star is S, then T twice, then S.
pub fn order_laws()
    ensures s_twice { (N k : ℕ) → k < length (symbols N) → image_number N (image_number N k matrix_s) matrix_s ≡ k }
    ensures t_thrice { (N k : ℕ) → k < length (symbols N) →
        image_number N (image_number N (image_number N k matrix_t) matrix_t) matrix_t ≡ k }
    ensures u_round { (N k : ℕ) → k < length (symbols N) → iterate (λ j. image_number N j matrix_u) N k ≡ k }
    ensures star_twice { (N k : ℕ) → k < length (symbols N) → image_number N (image_number N k matrix_star) matrix_star ≡ k }
    ensures star_s { (N k : ℕ) → k < length (symbols N) →
        image_number N (image_number N k matrix_star) matrix_s ≡ image_number N (image_number N k matrix_s) matrix_star }
    ensures star_t { (N k : ℕ) → k < length (symbols N) →
        image_number N (image_number N (image_number N k matrix_star) matrix_t) matrix_star
        ≡ image_number N (image_number N (image_number N (image_number N k matrix_s) matrix_t) matrix_t) matrix_s }
{}

/// The symbols of small levels, written out: (0:1) and the (1:v) come first.
pub fn small_levels()
    ensures one { symbols 1 ≡ point 0 0 ∷ [] }
    ensures four { symbols 4 ≡ point 0 1 ∷ map (point 1) (range_with_len 0 4) ++ point 2 1 ∷ [] }
    ensures five { symbols 5 ≡ point 0 1 ∷ map (point 1) (range_with_len 0 5) }
    ensures eleven { symbols 11 ≡ point 0 1 ∷ map (point 1) (range_with_len 0 11) }
    ensures twelve { symbols 12 ≡ point 0 1 ∷ map (point 1) (range_with_len 0 12)
        ++ point 2 1 ∷ point 2 3 ∷ point 2 5 ∷ point 3 1 ∷ point 3 2 ∷ point 3 4
        ∷ point 3 7 ∷ point 4 1 ∷ point 4 3 ∷ point 4 5 ∷ point 6 1 ∷ [] }
{}
