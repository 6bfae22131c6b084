ghost use Rattle.std.specs.Prelude.{◌≡◌, ◌≢◌, ◌<◌, ◌≤◌, ◌*◌, ◌^◌, ℕ};
ghost use Rattle.field_table.specs.Table.{IsListed};
ghost use Rattle.field_table.specs.declared.products.TheConstants.{STRETCH};
ghost use Rattle.field_table.specs.declared.table.TheConstants.{CHARACTERISTIC_LIMIT};
ghost use Rattle.linear_algebra.specs.Prime.{IsPrime};
ghost use Rattle.linear_algebra.specs.Residue.{Residue, residue, ◌⊗◌};

/// Each number of the table is a prime below the limit; the two greatest are 1000003, and 16777213, the greatest prime
/// below 2^24.
pub fn characteristics_are_primes()
    ensures prime { (p : ℕ) → IsListed p → IsPrime p }
    ensures limit { (p : ℕ) → IsListed p → p < CHARACTERISTIC_LIMIT }
    ensures prime_1000003 { IsListed 1000003 × IsPrime 1000003 }
    ensures prime_16777213 { IsListed 16777213 × IsPrime 16777213 }
{}

/// Each residue other than 0 of a listed characteristic has an inverse. No call tests it.
pub fn nonzero_residues_have_inverses()
    ensures law { (p : ℕ) → IsListed p → (a : Residue p) → a ≢ residue p 0
        → (b : Residue p) × (a ⊗ b ≡ residue p 1) }
{}

/// Sums of 64 bits take so many products of two residues of any characteristic below 2^24 with no reduction, and have room
/// for as much again.
pub fn stretches_fit()
    ensures law { STRETCH * (CHARACTERISTIC_LIMIT * CHARACTERISTIC_LIMIT) ≤ 2 ^ 63 }
{}
