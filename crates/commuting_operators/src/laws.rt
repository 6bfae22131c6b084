ghost use Rattle.std.specs.Prelude.{◌≡◌, ◌<◌, ℕ, List};
ghost use Rattle.linear_algebra.specs.Prime.{IsPrime};
ghost use Rattle.p1_normal.specs.Units.{gcd};
ghost use Rattle.heilbronn_sets.specs.Merel.{merel_matrices};
ghost use Rattle.hecke_ops.specs.Operators.{IsFirstFailing, KeepsRelations};
ghost use Rattle.commuting_operators.specs.Operators.{MatricesCommute, RelationsAreKept};

/// Merel's set keeps the relations at each level to which its determinant is coprime. So no relation
/// is the first that fails over such a set, and no test of it can refuse it.
pub fn merel_sets_are_never_refused()
    ensures keep { (N p n : ℕ) → 0 < p → 0 < n → gcd n N ≡ 1
        → KeepsRelations N p (merel_matrices n) }
    ensures none { (N p n k : ℕ) (values : List ℕ) → IsPrime p → 0 < n → gcd n N ≡ 1
        → IsFirstFailing N p (merel_matrices n) k values → ⊥ }
{}

/// The operators T_n with n coprime to the level, and star, keep congruence, and the matrices of any
/// two of them commute.
pub fn operators_commute()
    ensures keep { RelationsAreKept }
    ensures matrices { MatricesCommute }
{}
