//! The entries of a table that was made: for each part and token, or the end, a row.

ghost use Rattle.std.specs.Prelude.{◌≡◌, ◌+◌, ◌*◌, ◌<◌, length};
ghost use Rattle.ll_engine.specs.Table.{width_of, entry_at};

use crate::table::NO_ROW;

/// The row that the entries name for the part and the token.
pub fn entry_at(entries: &[u32], tokens: u16, part: u16, token: u16) -> Option<u32>
    requires { part * width_of tokens + token < length entries.now }
    ensures { result ≡ entry_at entries.now tokens part token }
{
    let width = usize::from(tokens) + 1;
    let row = entries[usize::from(part) * width + usize::from(token)];
    if row == NO_ROW { None } else { Some(row) }
}
