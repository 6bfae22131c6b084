ghost use Rattle.std.specs.Prelude.{◌≡◌, ◌↔◌, ◌<◌, ◌+◌, ◌-◌, ◌*◌, ◌%◌, IsOk, IfOk, IsErrOf, IsNone, IfSome};
ghost use Rattle.linear_algebra.specs.Integers.{residue_of};
ghost use Rattle.field_table.specs.Table.{IsListed};
ghost use Rattle.linear_algebra.specs.Prime.{IsPrime};
ghost use Rattle.linear_algebra.specs.Residue.{residue, opposite, ◌⊕◌, ◌⊖◌, ◌⊗◌};

use crate::modulo::{inverse_modulo, reduced_once};
use crate::table::{CHARACTERISTIC_LIMIT, is_listed};
use std::marker::Model;
use thiserror::Error;

/// Why a field can't be opened.
#[derive(Clone, Copy, Debug, PartialEq, Eq, Error)]
pub enum FieldFault {
    /// p is no number of the table.
    #[error("{p} is no characteristic of the table")]
    NotListed { p: u32 },
}

/// A prime field of the table. Contracts see it as its characteristic.
#[derive(Clone, Copy, Debug, PartialEq, Eq)]
pub struct Field {
    p: u32,
}

impl Model for Field {
    ghost use Rattle.std.specs.Prelude.{ℕ};
    ghost use Rattle.field_table.specs.Table.{IsListed};

    ghost Value = { ℕ };

    ghost view = { λ f. f.p };

    ghost invariant = { λ f. IsListed f.p };

    ghost inverse = { λ n. record { p = n } };
}

impl Field {
    /// The field of characteristic p, or `NotListed` where p is no number of the table. Takes no memory.
    pub fn open(p: u32) -> Result<Field, FieldFault>
        ensures listed { IsOk result ↔ IsListed p }
        ensures field { IfOk result (λ f. f ≡ p) }
        ensures not_listed { IsErrOf result (FieldFault.NotListed p) ↔ ¬ IsListed p }
    {
        if is_listed(p) {
            Ok(Field { p })
        } else {
            Err(FieldFault::NotListed { p })
        }
    }

    /// The number of the field's elements.
    #[tactic(auto, using(crate::proofs::TableFacts::listed_prime, crate::proofs::TableFacts::listed_small))]
    pub fn characteristic(self) -> u32
        ensures value { result ≡ self }
        ensures listed { IsListed result }
        ensures prime { IsPrime result }
        ensures limit { result < CHARACTERISTIC_LIMIT }
    {
        self.p
    }

    /// The residue of an integer.
    pub fn residue(self, x: i64) -> u32
        ensures value { result ≡ residue_of self x }
        ensures below { result < self }
    {
        x.rem_euclid(i64::from(self.p)) as u32
    }

    /// The sum of two residues.
    #[tactic(auto, using(crate::proofs::TableFacts::listed_small, crate::proofs::Arithmetic::residue_sum))]
    pub fn add(self, a: u32, b: u32) -> u32
        requires left { a < self }
        requires right { b < self }
        ensures value { result ≡ (a + b) % self }
        ensures residue { residue self result ≡ residue self a ⊕ residue self b }
        ensures below { result < self }
    {
        reduced_once(a + b, self.p)
    }

    /// The difference of two residues.
    #[tactic(auto, using(crate::proofs::TableFacts::listed_small, crate::proofs::Arithmetic::residue_difference))]
    pub fn sub(self, a: u32, b: u32) -> u32
        requires left { a < self }
        requires right { b < self }
        ensures value { result ≡ (a + (self - b)) % self }
        ensures residue { residue self result ≡ residue self a ⊖ residue self b }
        ensures below { result < self }
    {
        reduced_once(a + (self.p - b), self.p)
    }

    /// The product of two residues, formed in 64 bits.
    #[tactic(auto, using(crate::proofs::Arithmetic::residue_product))]
    pub fn mul(self, a: u32, b: u32) -> u32
        requires left { a < self }
        requires right { b < self }
        ensures value { result ≡ (a * b) % self }
        ensures residue { residue self result ≡ residue self a ⊗ residue self b }
        ensures below { result < self }
    {
        (u64::from(a) * u64::from(b) % u64::from(self.p)) as u32
    }

    /// The residue that cancels a.
    #[tactic(auto, using(crate::proofs::TableFacts::listed_small, crate::proofs::Arithmetic::residue_opposite))]
    pub fn neg(self, a: u32) -> u32
        requires { a < self }
        ensures value { result ≡ (self - a) % self }
        ensures residue { residue self result ≡ opposite (residue self a) }
        ensures below { result < self }
    {
        reduced_once(self.p - a, self.p)
    }

    /// The inverse of a, or `None` where a is 0. Costs a division for each step of n to p % n from a
    /// down to 1.
    #[tactic(auto, using(crate::proofs::Arithmetic::residue_inverse))]
    pub fn inverse(self, a: u32) -> Option<u32>
        requires { a < self }
        ensures none { IsNone result ↔ (a ≡ 0) }
        ensures value { IfSome result (λ b. (a * b) % self ≡ 1) }
        ensures residue { IfSome result (λ b. residue self a ⊗ residue self b ≡ residue self 1) }
        ensures below { IfSome result (λ b. b < self) }
    {
        if a == 0 {
            None
        } else {
            Some(inverse_modulo(self.p, a))
        }
    }
}
