ghost use Rattle.std.specs.Prelude.{◌≡◌, ◌<◌, ◌≤◌, ◌+◌, ◌*◌, ◌/◌, ◌%◌};
ghost use Rattle.field_table.specs.Ratio.{ratio_of, word};

use crate::modulo::reduced_once;
use crate::table::CHARACTERISTIC_LIMIT;

// Up to a characteristic of this size the products of two residues fit 32 bits, and else 64.
const SHORT_WORD: u32 = 1 << 16;

const LONG_WORD: u64 = 1 << 32;

/// Multiplication by one factor with no division.
#[derive(Clone, Copy)]
pub struct Multiple<const P: u32> {
    factor: u32,
    ratio: u32,
    ghost below: { factor < P },
    ghost quotient: { ratio ≡ ratio_of P factor },
}

impl<const P: u32> Multiple<P> {
    #[inline(always)]
    pub fn of(factor: u32) -> Multiple<P>
        requires below { factor < P }
        requires range { P < CHARACTERISTIC_LIMIT }
        ensures { result.factor ≡ factor }
    {
        let ratio = if P <= SHORT_WORD {
            factor * SHORT_WORD / P
        } else {
            (u64::from(factor) * LONG_WORD / u64::from(P)) as u32
        };
        Multiple { factor, ratio }
    }

    // The factor times b by P, or one less than that.
    #[inline(always)]
    fn quotient(&self, b: u32) -> u32
        requires below { b < P }
        requires range { P < CHARACTERISTIC_LIMIT }
        ensures { result ≡ (ratio_of P self.now.factor * b) / word P }
    {
        if P <= SHORT_WORD {
            self.ratio * b / SHORT_WORD
        } else {
            (u64::from(self.ratio) * u64::from(b) / LONG_WORD) as u32
        }
    }

    /// The product with b. The two products below wrap alike, and their difference is below 2 P.
    #[inline(always)]
    pub fn times(&self, b: u32) -> u32
        requires below { b < P }
        requires range { P < CHARACTERISTIC_LIMIT }
        ensures { result ≡ (self.now.factor * b) % P }
    {
        let quotient = self.quotient(b);
        reduced_once(
            self.factor
                .wrapping_mul(b)
                .wrapping_sub(quotient.wrapping_mul(P)),
            P,
        )
    }

    /// a and the product with b.
    #[inline(always)]
    pub fn added(&self, a: u32, b: u32) -> u32
        requires start { a < P }
        requires below { b < P }
        requires range { P < CHARACTERISTIC_LIMIT }
        ensures { result ≡ (a + self.now.factor * b) % P }
    {
        reduced_once(a + self.times(b), P)
    }
}
