// Numbers in decimal digits, and values with up to two decimals.
ghost use Rattle.std.specs.Prelude.{◌≡◌};
ghost use Rattle.text.specs.Numbers.{with_digit, with_digits, number_in, two_decimals_on, hundredths_in};

use crate::parts::split_once;

// One digit behind a number.
fn with_digit(value: u32, byte: u8) -> Option<u32>
    ensures { result ≡ with_digit value byte }
{
    let digit = char::from(byte).to_digit(10)?;
    value.checked_mul(10)?.checked_add(digit)
}

// The digits behind a number, one after the other.
fn with_digits(value: u32, digits: &[u8]) -> Option<u32>
    ensures { result ≡ with_digits value digits.now }
{
    digits
        .iter()
        .try_fold(value, |value, digit| with_digit(value, *digit))
}

// A number of 32 bits: decimal digits and nothing else.
pub fn number(text: &[u8]) -> Option<u32>
    ensures { result ≡ number_in text.now }
{
    if text.is_empty() {
        return None;
    }
    with_digits(0, text)
}

// The number with up to two decimals behind it, filled up with zeros.
fn with_decimals(value: u32, decimals: &[u8]) -> Option<u32>
    ensures { result ≡ two_decimals_on value decimals.now }
{
    match decimals {
        [tenths] => with_digits(value, &[*tenths, b'0']),
        [_, _] => with_digits(value, decimals),
        _ => None,
    }
}

// A value in hundredths: a number, or a number, a point and one or two digits.
pub fn hundredths(text: &[u8]) -> Option<u32>
    ensures { result ≡ hundredths_in text.now }
{
    match split_once(b'.', text) {
        Some((whole, decimals)) => with_decimals(number(whole)?, decimals),
        None => with_digits(number(text)?, b"00"),
    }
}
