//! Numbers in lines.

ghost use Rattle.line_server.specs.Request as plain;
ghost use Rattle.std.specs.Char.{is_ascii_digit};
ghost use Rattle.std.specs.List.{list_all};
ghost use Rattle.std.specs.Prelude.{◌≡◌, ◌<◌, Some, length, true};
ghost use Rattle.std.specs.Str.Parse.{digits_value};

/// The number that the word is: one to ten decimal digits without a leading zero, or `0`.
pub fn number_in(word: &[u8]) -> Option<u64>
    ensures { result ≡ plain.number_in_word word.now }
{
    if !are_digits(word) {
        return None;
    }
    if !has_number_form(word) {
        return None;
    }
    Some(value_of(word))
}

/// The largest size of a term that a line may name.
pub const SIZE_LIMIT: u64 = 64;

/// The size of a term that the word is: a number from 1 to 64 without a leading zero.
pub fn size_in(word: &[u8]) -> Option<u32>
    ensures { result ≡ plain.size_in word.now }
{
    match number_in(word) {
        None => None,
        Some(number) => size_of(number),
    }
}

// The number, if it is from 1 to 64.
fn size_of(number: u64) -> Option<u32>
    ensures { result ≡ plain.list_size_of (Some number) }
{
    if number < 1 {
        return None;
    }
    if number > SIZE_LIMIT {
        return None;
    }
    Some(number as u32)
}

// Whether all bytes are decimal digits.
fn are_digits(word: &[u8]) -> bool
    ensures { result ≡ list_all is_ascii_digit word.now }
{
    for byte in word {
        if !byte.is_ascii_digit() {
            return false;
        }
    }
    true
}

// Whether there is at least one byte and at most ten, and no leading zero before another one.
fn has_number_form(word: &[u8]) -> bool
    ensures { result ≡ plain.has_number_form word.now }
{
    match word {
        [] => false,
        [_] => true,
        [first, ..] => *first != b'0' && word.len() < 11,
    }
}

// The number that the digits write.
#[tactic(auto, using(crate::proofs::NumberLemmas::digit_read, crate::proofs::NumberLemmas::fits_ten, lotos_base::proofs::Digits::one_digit_more))]
fn value_of(digits: &[u8]) -> u64
    requires digits { list_all is_ascii_digit digits.now ≡ true }
    requires short { length digits.now < 11 }
    ensures { result ≡ digits_value 10 digits.now }
{
    let mut value = 0u64;
    for digit in digits {
        value = value * 10 + (*digit - b'0') as u64;
    }
    value
}
