use text_lines::{decimal_of, integer, natural};

/// Naturals and integers as they are written, and the numerals of numbers.
#[test]
fn numbers(rt: HostRuntime) {
    assert_eq!(rt; natural(b"0042", 99), Some(42));
    assert_eq!(rt; natural(b"5000000000", 4_000_000_001), Some(4_000_000_001));
    assert_eq!(rt; natural(b"+1", 99), None);
    assert_eq!(rt; integer(b"-17", 99), Some(-17));
    assert_eq!(rt; integer(b"-0", 99), Some(0));
    assert_eq!(rt; integer(b"-", 99), None);
    assert_eq!(rt; decimal_of(b"18446744073709551615"), Some(u64::MAX));
    assert_eq!(rt; decimal_of(b"18446744073709551616"), None);
    assert_eq!(rt; decimal_of(b"00"), None);
}
