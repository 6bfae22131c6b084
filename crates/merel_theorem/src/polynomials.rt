ghost use Rattle.std.specs.Prelude.{◌≡◌, ◌<◌, ◌^◌, ℕ, pos, neg_ℤ, [], ◌∷◌, length};
ghost use Rattle.linear_algebra.specs.Prime.{IsPrime};
ghost use Rattle.linear_algebra.specs.Vector.{Vector, EndsBefore};
ghost use Rattle.p1_normal.specs.Units.{gcd};
ghost use Rattle.p1_normal.specs.Points.{symbols};
ghost use Rattle.manin_relations.specs.Relations.{Congruent};
ghost use Rattle.hecke_columns.specs.Hecke.{merel_sum};
ghost use Rattle.merel_theorem.specs.PrimePowers.{IsFactorisation, IsPrimeDivisor, prime_powers};
ghost use Rattle.merel_theorem.specs.Polynomials.{
  HasPrimes,
  hecke_polynomial,
  polynomial_value,
  power_polynomial,
  term,
};

/// Hecke operators are polynomials in those of primes: at each level to which n is coprime, the value
/// of the polynomial of n in the sums over Merel's matrices of prime determinants is congruent to the
/// sum over those of determinant n. The polynomial depends on n alone; level and characteristic are
/// any. For a power of one prime it is a polynomial in the one operator (Diamond and Shurman, A First
/// Course in Modular Forms, 5.3).
pub fn merel_sums_are_polynomials()
    ensures all { (p N n : ℕ) (x : Vector p) → 0 < p → 0 < n → gcd n N ≡ 1 →
        EndsBefore (length (symbols N)) x →
        Congruent N (polynomial_value (merel_sum N) (hecke_polynomial n) x) (merel_sum N n x) }
    ensures powers { (p N q r : ℕ) (x : Vector p) → 0 < p → IsPrime q → gcd q N ≡ 1 →
        EndsBefore (length (symbols N)) x →
        Congruent N (polynomial_value (merel_sum N) (power_polynomial q r) x) (merel_sum N (q ^ r) x) }
{}

/// Each prime in the polynomial of n divides n: so the operators in it are those of primes that are
/// coprime to the level where n is.
pub fn hecke_polynomials_have_prime_divisors()
    ensures law { (n : ℕ) → 0 < n → HasPrimes (IsPrimeDivisor n) (hecke_polynomial n) }
{}

/// The powers of primes that the polynomial of n is made from are those of the factorisation of n.
pub fn prime_powers_are_the_factorisation()
    ensures law { (n : ℕ) → 0 < n → IsFactorisation n (prime_powers n) }
{}

/// The polynomials of small numbers: T_4 = T_2^2 - 2, T_8 = T_2^3 - 4 T_2, T_9 = T_3^2 - 3,
/// T_12 = T_2^2 T_3 - 2 T_3 and T_27 = T_3^3 - 6 T_3.
pub fn small_hecke_polynomials()
    ensures one { hecke_polynomial 1 ≡ term (pos 1) [] ∷ [] }
    ensures two { hecke_polynomial 2 ≡ term (pos 1) (2 ∷ []) ∷ [] }
    ensures four { hecke_polynomial 4 ≡ term (pos 1) (2 ∷ 2 ∷ []) ∷ term (neg_ℤ (pos 2)) [] ∷ [] }
    ensures six { hecke_polynomial 6 ≡ term (pos 1) (2 ∷ 3 ∷ []) ∷ [] }
    ensures eight { hecke_polynomial 8 ≡
        term (pos 1) (2 ∷ 2 ∷ 2 ∷ []) ∷ term (neg_ℤ (pos 4)) (2 ∷ []) ∷ [] }
    ensures nine { hecke_polynomial 9 ≡ term (pos 1) (3 ∷ 3 ∷ []) ∷ term (neg_ℤ (pos 3)) [] ∷ [] }
    ensures twelve { hecke_polynomial 12 ≡
        term (pos 1) (2 ∷ 2 ∷ 3 ∷ []) ∷ term (neg_ℤ (pos 2)) (3 ∷ []) ∷ [] }
    ensures twenty_seven { hecke_polynomial 27 ≡
        term (pos 1) (3 ∷ 3 ∷ 3 ∷ []) ∷ term (neg_ℤ (pos 6)) (3 ∷ []) ∷ [] }
{}
