//! Texts with escapes, and numbers, as the lines of a data file have them.

ghost use Rattle.std.specs.Prelude.{◌<◌, IfOk, IfSome, length};

use crate::faults::Fault;

/// Puts the bytes that a text with escapes stands for behind `into`.
pub fn expand(text: &[u8], into: &mut Vec<u8>) -> Result<(), Fault> {
    let mut rest = text;
    while let [first, behind @ ..] = rest {
        rest = if *first == b'{' {
            repeat(behind, into)?
        } else {
            take_unit(rest, None, into)?
        };
    }
    Ok(())
}

/// Puts the text of a repetition, `N*TEXT}` without its first brace, N times behind `into`, and
/// answers what follows it.
fn repeat<'a>(text: &'a [u8], into: &mut Vec<u8>) -> Result<&'a [u8], Fault>
    ensures { IfOk result (λ rest. length rest.now < length text.now) }
{
    let Some(star) = text.iter().position(|byte| *byte == b'*') else {
        return Err(Fault::Malformed("{N*TEXT} is wanted"));
    };
    let count = number(&text[..star])?;
    let body = &text[star + 1..];
    let Some(end) = closing(body) else {
        return Err(Fault::Malformed("a } is wanted"));
    };
    let (copied, rest) = (&body[..end], &body[end + 1..]);
    for copy in 0..count {
        expand_copy(copied, copy, into)?;
    }
    Ok(rest)
}

/// The index of the first closing brace that is not escaped.
fn closing(text: &[u8]) -> Option<usize>
    ensures { IfSome result (λ index. index < length text.now) }
{
    let mut escaped = false;
    for (index, byte) in text.iter().enumerate() {
        match *byte {
            _ if escaped => escaped = false,
            b'\\' => escaped = true,
            b'}' => return Some(index),
            _ => {}
        }
    }
    None
}

/// Puts a copy of the text of a repetition behind `into`.
fn expand_copy(text: &[u8], copy: u64, into: &mut Vec<u8>) -> Result<(), Fault> {
    let mut rest = text;
    while !rest.is_empty() {
        rest = take_unit(rest, Some(copy), into)?;
    }
    Ok(())
}

/// Puts what the first byte or escape stands for behind `into`, and answers what follows it.
fn take_unit<'a>(text: &'a [u8], copy: Option<u64>, into: &mut Vec<u8>) -> Result<&'a [u8], Fault>
    ensures { IfOk result (λ rest. length rest.now < length text.now) }
{
    match text {
        [b'\\', b'x', high, low, rest @ ..] => {
            into.push(16 * digit(*high)? + digit(*low)?)?;
            Ok(rest)
        }
        [b'\\', b'#', rest @ ..] => {
            push_number(copy, into)?;
            Ok(rest)
        }
        [b'\\', b'+', rest @ ..] => {
            push_number(copy.map(|copy| copy.saturating_add(1)), into)?;
            Ok(rest)
        }
        [b'\\', sign, rest @ ..] => {
            into.push(escaped(*sign)?)?;
            Ok(rest)
        }
        [b'\\' | b'{' | b'}', ..] | [] => Err(Fault::Malformed("a byte to be escaped")),
        [byte, rest @ ..] => {
            into.push(*byte)?;
            Ok(rest)
        }
    }
}

/// The byte that a backslash with this byte stands for.
fn escaped(sign: u8) -> Result<u8, Fault> {
    match sign {
        b't' => Ok(b'\t'),
        b'n' => Ok(b'\n'),
        b'r' => Ok(b'\r'),
        b'\\' | b'{' | b'}' => Ok(sign),
        _ => Err(Fault::Malformed("an unknown escape")),
    }
}

/// The value of a hexadecimal digit in lower case.
fn digit(byte: u8) -> Result<u8, Fault>
    ensures { IfOk result (λ value. value < 16) }
{
    match byte {
        b'0'..=b'9' => Ok(byte - b'0'),
        b'a'..=b'f' => Ok(byte - b'a' + 10),
        _ => Err(Fault::Malformed("two hexadecimal digits are wanted")),
    }
}

/// Puts the number of a copy behind `into`, in decimal.
fn push_number(copy: Option<u64>, into: &mut Vec<u8>) -> Result<(), Fault> {
    let Some(copy) = copy else {
        return Err(Fault::Malformed("\\# and \\+ stand in repetitions"));
    };
    let digits = format!(in *into.allocator(); "{copy}")?;
    into.extend_from_slice(digits.as_bytes())?;
    Ok(())
}

/// The number in decimal digits.
pub fn number(digits: &[u8]) -> Result<u64, Fault> {
    if digits.is_empty() || digits.len() > 18 {
        return Err(Fault::Malformed("a number is wanted"));
    }
    let mut value = 0u64;
    for byte in digits {
        let (b'0'..=b'9') = *byte else {
            return Err(Fault::Malformed("a number is wanted"));
        };
        value = value
            .saturating_mul(10)
            .saturating_add(u64::from(*byte - b'0'));
    }
    Ok(value)
}
