//! Pieces of texts: bytes, numbers, brackets and commas.

ghost use Rattle.printed_texts.specs.Brackets.{begins_with_sign, with_closing_bracket, opening, separator, spaced};
ghost use Rattle.std.specs.Prelude.{
  ◌≡◌,
  ◌++◌,
  ◌≤◌,
  IfOk,
  OnOk,
  decimal,
  drop,
  length,
  take,
  vec_len,
};

use itoa::Buffer;
use lotos_base::NoMemory;

/// Appends a text.
pub fn push_text(into: &mut Vec<u8>, text: &[u8]) -> Result<(), NoMemory>
    ensures { OnOk result (into.new.items ≡ into.old.items ++ text.now) }
{
    into.extend_from_slice(text)?;
    Ok(())
}

/// Appends a number in decimal.
pub fn push_number(into: &mut Vec<u8>, number: u128) -> Result<(), NoMemory>
    ensures { OnOk result (into.new.items ≡ into.old.items ++ decimal number) }
{
    let mut buffer = Buffer::new();
    push_text(into, buffer.format(number).as_bytes())
}

/// Appends a comma and a blank before each member of a list but the first.
pub fn push_separator(into: &mut Vec<u8>, index: usize) -> Result<(), NoMemory>
    ensures { OnOk result (into.new.items ≡ into.old.items ++ separator index) }
{
    if index == 0 {
        return Ok(());
    }
    push_text(into, b", ")
}

// Whether the text goes on with this character at the position.
fn begins(text: &[u8], position: usize, sign: u8) -> bool
    ensures { result ≡ begins_with_sign sign (drop position text.now) }
{
    match text.get(position) {
        None => false,
        Some(character) => *character == sign,
    }
}

/// Puts a blank before this character, if it stands at the position.
pub fn space_before(into: &mut Vec<u8>, position: usize, sign: u8) -> Result<(), NoMemory>
    requires { position ≤ vec_len into.old }
    ensures { OnOk result (into.new.items
        ≡ take position into.old.items ++ spaced sign (drop position into.old.items)) }
{
    space(into, position, sign)
}

// The same at any position. Nothing stands at one behind the end.
fn space(into: &mut Vec<u8>, position: usize, sign: u8) -> Result<(), NoMemory>
    ensures { OnOk result (into.new.items
        ≡ take position into.old.items ++ spaced sign (drop position into.old.items)) }
{
    if !begins(into.as_slice(), position, sign) {
        return Ok(());
    }
    into.insert(position, b' ')?;
    Ok(())
}

/// Opens a bracket where one is needed, and tells where the text in it begins.
pub fn open_bracket(into: &mut Vec<u8>, is_needed: bool) -> Result<usize, NoMemory>
    ensures opened { OnOk result (into.new.items ≡ into.old.items ++ opening is_needed) }
    ensures place { IfOk result (λ position. position ≡ length into.new.items) }
{
    if !is_needed {
        return Ok(into.len());
    }
    push_text(into, b"(")?;
    Ok(into.len())
}

/// Closes a bracket where one is open. The text in it begins at the position.
pub fn close_bracket(into: &mut Vec<u8>, is_needed: bool, position: usize) -> Result<(), NoMemory>
    requires { position ≤ vec_len into.old }
    ensures { OnOk result
        (into.new.items ≡ with_closing_bracket is_needed position into.old.items) }
{
    close(into, is_needed, position)
}

/// The same at any position.
pub fn close(into: &mut Vec<u8>, is_needed: bool, position: usize) -> Result<(), NoMemory>
    ensures { OnOk result
        (into.new.items ≡ with_closing_bracket is_needed position into.old.items) }
{
    if !is_needed {
        return Ok(());
    }
    space(into, position, b'*')?;
    push_text(into, b")")
}
