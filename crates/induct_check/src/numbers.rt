//! Numbers and paths as they are written.

ghost use Rattle.induct_check.specs.CertificateLines.{
  at_most,
  from_nought,
  is_certificate_number as is_a_number,
  most,
  number_of_word as number_in,
  numbers_of_words as numbers_in,
  path_of as path_in,
};
ghost use Rattle.std.specs.Char.{is_ascii_digit};
ghost use Rattle.std.specs.List.{list_all};
ghost use Rattle.std.specs.Option.{option_map};
ghost use Rattle.std.specs.Prelude.{◌≡◌, ◌≤◌, ◌+◌, ◌*◌, IfOk, map, true};
ghost use Rattle.std.specs.Str.Parse.{digits_value};

use crate::parts::parts_at;
use lotos_base::NoMemory;
use std::alloc::Global;

/// The number that the word writes in decimal digits without a leading zero, if it does; where it
/// is above 4,294,967,295, that one.
pub fn number_of(word: &[u8]) -> Option<u32>
    ensures { result ≡ number_in word.now }
{
    if !is_number(word) {
        return None;
    }
    Some(value_of(word))
}

// Whether the bytes are decimal digits without a leading zero, or `0`.
fn is_number(word: &[u8]) -> bool
    ensures { result ≡ is_a_number word.now }
{
    match word {
        [] => false,
        [digit] => digit.is_ascii_digit(),
        [digit, ..] => *digit != b'0' && are_digits(word),
    }
}

// Whether all bytes are decimal digits.
fn are_digits(word: &[u8]) -> bool
    ensures { result ≡ list_all is_ascii_digit word.now }
{
    for byte in word {
        if !byte.is_ascii_digit() {
            return false;
        }
    }
    true
}

// The number that the digits write, or the most.
fn value_of(digits: &[u8]) -> u32
    requires { list_all is_ascii_digit digits.now ≡ true }
    ensures { result ≡ at_most (digits_value 10 digits.now) }
{
    let mut value = 0u32;
    for digit in digits {
        value = next_value(value, *digit - b'0');
    }
    value
}

// The value with one digit more, or the most.
fn next_value(value: u32, digit: u8) -> u32
    requires { digit ≤ 9 }
    ensures { result ≡ at_most (value * 10 + digit) }
{
    let next = value as u64 * 10 + digit as u64;
    if next > u32::MAX as u64 {
        return u32::MAX;
    }
    next as u32
}

/// A number that is counted from 1 in the text, as one that is counted from 0. For 0, which nothing
/// has as its number, that is 4,294,967,295.
pub fn from_nought_on(number: u32) -> usize
    ensures { result ≡ from_nought number }
{
    if number == 0 {
        return u32::MAX as usize;
    }
    number as usize - 1
}

/// The path that the word writes, if it does: `-` for the root, or positions from 0 joined by
/// points.
pub fn path_of(alloc: Global, word: &[u8]) -> Result<Option<Vec<u32>>, NoMemory>
    ensures { IfOk result (λ path. option_map (λ p. p.items) path ≡ path_in word.now) }
{
    if word == b"-".as_slice() {
        return Ok(Some(Vec::new(alloc)));
    }
    let parts = parts_at(alloc, word, b'.')?;
    numbers_of(alloc, parts.as_slice())
}

// The numbers that the words write, if each writes one.
fn numbers_of(alloc: Global, words: &[&[u8]]) -> Result<Option<Vec<u32>>, NoMemory>
    ensures { IfOk result (λ path. option_map (λ p. p.items) path
        ≡ numbers_in (map (λ word. word.now) words.now)) }
{
    let mut path = Vec::new(alloc);
    for word in words {
        let Some(number) = number_of(word) else {
            return Ok(None);
        };
        path.push(number)?;
    }
    Ok(Some(path))
}
