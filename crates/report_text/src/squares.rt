//! Square brackets.

ghost use Rattle.report_text.specs.Squares.{square_closed};
ghost use Rattle.std.specs.Prelude.{◌≡◌, ◌++◌, ◌≤◌, IfOk, OnOk, codes, length, vec_len};

use lotos_base::NoMemory;
use printed_texts::brackets::{push_text, space_before};

/// Opens a square bracket, and tells where the text in it begins.
pub fn open_square(into: &mut Vec<u8>) -> Result<usize, NoMemory>
    ensures opened { OnOk result (into.new.items ≡ into.old.items ++ codes "[") }
    ensures place { IfOk result (λ position. position ≡ length into.new.items) }
{
    push_text(into, b"[")?;
    Ok(into.len())
}

/// Closes the square bracket in which the text begins at the position.
pub fn close_square(into: &mut Vec<u8>, position: usize) -> Result<(), NoMemory>
    requires { position ≤ vec_len into.old }
    ensures { OnOk result (into.new.items ≡ square_closed position into.old.items) }
{
    space_before(into, position, b'>')?;
    push_text(into, b"]")
}
