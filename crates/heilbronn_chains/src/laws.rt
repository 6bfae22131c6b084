ghost use Rattle.std.specs.Prelude.{◌≡◌, ◌≢◌, ◌<◌, ◌↔◌, ℕ, ℤ, List, ◌+◌, length, map, pos, neg_ℤ, ◌-ℤ◌, ◌*ℤ◌, ◌<ℤ◌};
ghost use Rattle.std.specs.List.{Contains, flat_map};
ghost use Rattle.std.specs.List.Sorted.{IsPermutation};
ghost use Rattle.p1_normal.specs.declared.matrix.Matrix.{Matrix as TheMatrix};
ghost use Rattle.p1_normal.specs.Actions.{determinant, IsInvertible, matrix_s, matrix_u, image_number};
ghost use Rattle.linear_algebra.specs.Integers.{residue_of};
ghost use Rattle.p1_normal.specs.Points.{symbols};
ghost use Rattle.heilbronn_sets.specs.Merel.{IsMerel, merel_matrices, starts};
ghost use Rattle.heilbronn_chains.specs.Chains.{AreChains, Follows, HasNext, HasPlace, HasPrevious, IsChain, IsChainOf, IsPlace, member};
ghost use Rattle.heilbronn_chains.specs.Ends.{Entry, IsEnd, change, total, value_at};
ghost use Rattle.heilbronn_chains.specs.Lattice.{SameLattice};
ghost use Rattle.heilbronn_chains.specs.Turns.{StepsBack, StepsOn, shear, turn};
ghost use Rattle.heilbronn_chains.specs.Starts.{IsStart, divisor_sum};

/// The matrices that begin chains: the Hermite forms of the lattices of index n, as many as the
/// divisors of n add up to.
pub fn start_laws()
    ensures starts { (n : ℕ) (m : TheMatrix) → 0 < n → Contains (starts n) m ↔ IsStart n m }
    ensures count { (n : ℕ) → 0 < n → length (starts n) ≡ divisor_sum n }
{}

/// Each integer matrix of determinant n, with entries of any size, has the lattice of exactly one
/// chain; so chains that differ have different lattices.
pub fn lattice_laws()
    ensures chain { (n : ℕ) (m : TheMatrix) → 0 < n → determinant m ≡ pos n → IsChainOf n m }
    ensures one_chain { (n : ℕ) (ms ks : List TheMatrix) → 0 < n → IsChain n ms → IsChain n ks →
        SameLattice n (member ms 0) (member ks 0) → ms ≡ ks }
{}

/// Each member of Merel's set with c > 0 is followed by exactly one, and each with b > 0 follows
/// exactly one; both are given by a least quotient. c falls at each step, and b falls at each step
/// back.
pub fn step_laws()
    ensures next { (n : ℕ) (m : TheMatrix) → IsMerel n m → m.c ≢ pos 0 → HasNext n m }
    ensures one_next { (n : ℕ) (m k l : TheMatrix) → 0 < n → Follows n m k → Follows n m l → k ≡ l }
    ensures steps_on { (n : ℕ) (m k : TheMatrix) → 0 < n → IsMerel n m → Follows n m k →
        StepsOn m k }
    ensures falls { (n : ℕ) (m k : TheMatrix) → Follows n m k → k.c <ℤ m.c }
    ensures previous { (n : ℕ) (m : TheMatrix) → IsMerel n m → m.b ≢ pos 0 → HasPrevious n m }
    ensures one_previous { (n : ℕ) (m k l : TheMatrix) → 0 < n → IsMerel n k → IsMerel n l →
        Follows n k m → Follows n l m → k ≡ l }
    ensures steps_back { (n : ℕ) (m k : TheMatrix) → 0 < n → IsMerel n k → Follows n k m →
        StepsBack m k }
    ensures falls_back { (n : ℕ) (m k : TheMatrix) → IsMerel n k → Follows n k m → k.b <ℤ m.b }
{}

/// Each matrix of Merel's set stands at exactly one place of the chains, so that one chain behind
/// the other they are the set in another order; and there are as many chains as the divisors of n
/// add up to.
pub fn chain_laws()
    ensures place { (n : ℕ) (css : List (List TheMatrix)) (m : TheMatrix) → 0 < n →
        AreChains n css → IsMerel n m → HasPlace css m }
    ensures one_place { (n : ℕ) (css : List (List TheMatrix)) (m : TheMatrix) (i j k l : ℕ) →
        0 < n → AreChains n css → IsPlace css m i j → IsPlace css m k l → (i ≡ k) × (j ≡ l) }
    ensures members { (n : ℕ) (css : List (List TheMatrix)) (m : TheMatrix) (i j : ℕ) →
        AreChains n css → IsPlace css m i j → IsMerel n m }
    ensures all { (n : ℕ) (css : List (List TheMatrix)) → 0 < n → AreChains n css →
        IsPermutation (flat_map (λ ms. ms) css) (merel_matrices n) }
    ensures count { (n : ℕ) (css : List (List TheMatrix)) → 0 < n → AreChains n css →
        length css ≡ divisor_sum n }
{}

/// A step of a chain acts on symbols as a turn, of determinant 1, which is a shear and then S;
/// shears act as powers of U, by their remainders modulo N.
pub fn turn_laws()
    ensures step { (N n j : ℕ) (m k : TheMatrix) → 0 < n → j < length (symbols N) →
        IsInvertible N m → IsMerel n m → Follows n m k → (s : StepsOn m k) ×
        (image_number N j k ≡ image_number N (image_number N j m) (turn (pos s.quotient))) }
    ensures turn { (N j : ℕ) (q : ℤ) → j < length (symbols N) →
        image_number N j (turn q) ≡ image_number N (image_number N j (shear (neg_ℤ q))) matrix_s }
    ensures shear_none { (N j : ℕ) → j < length (symbols N) → image_number N j (shear (pos 0)) ≡ j }
    ensures shear_more { (N j k : ℕ) → j < length (symbols N) →
        image_number N j (shear (pos (k + 1))) ≡
        image_number N (image_number N j (shear (pos k))) matrix_u }
    ensures shear_residue { (N j : ℕ) (z w : ℤ) → residue_of N z ≡ residue_of N w →
        j < length (symbols N) → image_number N j (shear z) ≡ image_number N j (shear w) }
{}

/// A finite table gives an integer function g on ends: the value does not hang on the pair that
/// names the end. The sum of g(a/c) - g(b/d) over a chain is g(infinity) - g(0).
pub fn end_laws()
    ensures same_end { (g : List Entry) (x y z w : ℤ) → IsEnd x y → IsEnd z w →
        (x *ℤ w) ≡ (z *ℤ y) → value_at g x y ≡ value_at g z w }
    ensures telescopes { (n : ℕ) (g : List Entry) (ms : List TheMatrix) → IsChain n ms →
        total (map (change g) ms) ≡ value_at g (pos 1) (pos 0) -ℤ value_at g (pos 0) (pos 1) }
{}
