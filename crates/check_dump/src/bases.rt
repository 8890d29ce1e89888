// The base: a number below 2^64, in hex behind 0x and otherwise in decimal.
ghost use Rattle.std.specs.Prelude.{◌≤◌};

use text::is_same;

// The number with one more digit after it.
fn with_digit(number: u64, digit: u8, radix: u32) -> Option<u64>
    requires { (2 ≤ radix) × (radix ≤ 36) }
{
    let worth = char::from(digit).to_digit(radix)?;
    number
        .checked_mul(u64::from(radix))?
        .checked_add(u64::from(worth))
}

// The number that digits make. No digits make none.
fn from_digits(digits: &[u8], radix: u32) -> Option<u64>
    requires { (2 ≤ radix) × (radix ≤ 36) }
{
    if digits.is_empty() {
        return None;
    }
    digits
        .iter()
        .try_fold(0, |number, digit| with_digit(number, *digit, radix))
}

pub(crate) fn number(text: &[u8]) -> Option<u64> {
    match text.split_at_checked(2) {
        Some((mark, digits)) if is_same(mark, b"0x") => from_digits(digits, 16),
        _ => from_digits(text, 10),
    }
}
