//! Decimal numbers.

ghost use Rattle.std.specs.Prelude.{◌≡◌, ◌≤◌, ◌<◌, ◌^◌, ◌⊎◌, ℕ, true, false, decimal, MatchOption};
ghost use Rattle.text_lines.specs.Numbers.{is_digit, is_natural, natural_of, is_integer, capped_natural, capped_integer, NumeralsRead, CapsLoseNothing};

use itoa::Buffer;

fn is_digit_byte(b: u8) -> bool
    ensures { result ≡ is_digit b }
{
    b'0' <= b && b <= b'9'
}

/// The number that digits stand for, or the cap where it is above the cap;
/// `None` where the token isn't one or more digits. Leading zeros and numbers of
/// any length are read.
pub fn natural(token: &[u8], cap: u32) -> Option<u32>
    ensures number { MatchOption result (is_natural token.now ≡ false)
        (λ n. (is_natural token.now ≡ true) × (n ≡ capped_natural cap token.now)) }
{
    if token.is_empty() {
        return None;
    }
    let mut value: u64 = 0;
    for b in token {
        if !is_digit_byte(*b) {
            return None;
        }
        value = (value * 10 + u64::from(*b - b'0')).min(u64::from(cap));
    }
    Some(value as u32)
}

/// The number of digits that may follow a minus, its magnitude taken for the cap
/// where it is above the cap; `None` for every other token. `-0` is 0, and no
/// plus is allowed.
pub fn integer(token: &[u8], cap: u32) -> Option<i64>
    ensures number { MatchOption result (is_integer token.now ≡ false)
        (λ z. (is_integer token.now ≡ true) × (z ≡ capped_integer cap token.now)) }
{
    match token {
        [b'-', digits @ ..] => Some(-i64::from(natural(digits, cap)?)),
        _ => Some(i64::from(natural(token, cap)?)),
    }
}

/// The number that digits stand for, below 2 to the 64; `None` where the token isn't
/// one or more digits, or they stand for more. Leading zeros are read.
pub fn exact_natural(token: &[u8]) -> Option<u64>
    ensures number { MatchOption result
        ((is_natural token.now ≡ false) ⊎ (2 ^ 64 ≤ natural_of token.now))
        (λ n. (is_natural token.now ≡ true) × (n ≡ natural_of token.now)) }
{
    if token.is_empty() {
        return None;
    }
    let mut value: u128 = 0;
    for b in token {
        if !is_digit_byte(*b) {
            return None;
        }
        value = (value * 10 + u128::from(*b - b'0')).min(0x1_0000_0000_0000_0000);
    }
    if 0xffff_ffff_ffff_ffff < value {
        return None;
    }
    Some(value as u64)
}

/// The number below 2 to the 64 whose printed form the token is: a decimal
/// without leading zeros.
pub fn decimal_of(token: &[u8]) -> Option<u64>
    ensures number { MatchOption result ((n : ℕ) → n < 2 ^ 64 → token.now ≡ decimal n → ⊥)
        (λ n. token.now ≡ decimal n) }
{
    let value = exact_natural(token)?;
    let mut buffer = Buffer::new();
    if buffer.format(value).as_bytes() == token {
        Some(value)
    } else {
        None
    }
}

/// The numeral of a number is read as that number.
pub fn numerals_read()
    ensures law { NumeralsRead }
{}

/// A cap changes no number of a magnitude up to it, and every other is read as one of
/// the cap's magnitude.
pub fn caps_lose_nothing()
    ensures law { CapsLoseNothing }
{}
