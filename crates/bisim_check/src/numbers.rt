//! Decimal numbers without leading zeros.

ghost use Rattle.bisim_check.specs.LineTexts.{two_numbers, IsNoNumber, AreNoNumbers};
ghost use Rattle.std.specs.Prelude.{
  ◌≡◌,
  ◌<◌,
  ◌^◌,
  ◌==◌,
  MatchOption,
  decimal,
  position,
  true,
};
ghost use Rattle.std.specs.Str.{all_ascii_digits};
ghost use Rattle.std.specs.Str.Parse.{digits_value};

/// The two numbers that the bytes write with a space between them, or `None` exactly where they
/// write no two numbers.
pub fn read_two(bytes: &[u8]) -> Option<(u32, u32)>
    ensures { MatchOption result (AreNoNumbers bytes.now)
        (λ two. (bytes.now ≡ two_numbers two.0 two.1) × (two.0 < 2 ^ 32) × (two.1 < 2 ^ 32)) }
{
    let space = position_of(bytes, b' ')?;
    let first = read_number(&bytes[..space])?;
    let second = read_number(&bytes[space + 1..])?;
    Some((first, second))
}

/// The position of the first such byte.
pub fn position_of(bytes: &[u8], byte: u8) -> Option<usize>
    ensures { result ≡ position (λ b. b == byte) bytes.now }
{
    bytes.iter().position(|b| *b == byte)
}

/// The number that the bytes write in decimal digits without a leading zero, or `None` exactly
/// where they write no number or one above 4,294,967,295.
#[tactic(auto, using(crate::proofs::NumberTexts::no_digits, crate::proofs::NumberTexts::leading_zero, crate::proofs::NumberTexts::value_told, crate::proofs::NumberTexts::nought_read))]
pub fn read_number(bytes: &[u8]) -> Option<u32>
    ensures { MatchOption result (IsNoNumber bytes.now)
        (λ number. (bytes.now ≡ decimal number) × (number < 2 ^ 32)) }
{
    if bytes.is_empty() {
        return None;
    }
    if bytes[0] != b'0' {
        return value_of(bytes);
    }
    if bytes.len() > 1 {
        return None;
    }
    Some(0)
}

// The value of the digits, or `None` exactly where a byte is no digit or the value is too great.
fn value_of(bytes: &[u8]) -> Option<u32>
    ensures { MatchOption result
        (all_ascii_digits bytes.now ≡ true → digits_value 10 bytes.now < 2 ^ 32 → ⊥)
        (λ number. (all_ascii_digits bytes.now ≡ true) × (digits_value 10 bytes.now ≡ number)
        × (number < 2 ^ 32)) }
{
    let mut value = 0u64;
    for byte in bytes {
        if !byte.is_ascii_digit() {
            return None;
        }
        value = value * 10 + (*byte - b'0') as u64;
        if value > u32::MAX as u64 {
            return None;
        }
    }
    Some(value as u32)
}
