//! Tables that stand written in a program, so that nothing is made before a text is parsed.

ghost use Rattle.std.specs.Prelude.{◌≡◌, ◌+◌, ◌<◌, ◌≤◌, ◌^◌, length, drop};
ghost use Rattle.ll_engine.specs.WrittenTable.{is_named, row_among, row_at, first_row};

use crate::symbol::Symbol;

/// A row of a written table: the part `left` may be replaced by the symbols of `right`, and these
/// tokens predict it.
#[derive(Clone, Copy, Debug)]
pub struct WrittenRow {
    /// The part that the row replaces.
    pub left: u16,
    /// The symbols that replace it, in order. No symbols derive the empty list of tokens.
    pub right: &'static [Symbol],
    /// The tokens that predict the row, each by its bit. The bit behind those of the tokens is that
    /// of the end: it is set where the end predicts the row under some start part, so that one
    /// table serves several.
    pub predicted_by: u64,
}

/// A written table: rows that stand part by part. It has fewer than 64 tokens.
#[derive(Clone, Copy, Debug)]
pub struct WrittenTable {
    /// The rows.
    pub rows: &'static [WrittenRow],
    /// For each part the number of its first row.
    pub first_rows: &'static [u32],
    /// How many tokens there are.
    pub tokens: u16,
}

/// Whether the token predicts the row, or the end does.
fn is_predicted(row: &WrittenRow, token: u16) -> bool
    requires { token < 64 }
    ensures { result ≡ is_named row.now token }
{
    (row.predicted_by >> token) % 2 == 1
}

/// The row of the part that the token predicts, among these rows; the first of them has the number
/// `first`.
fn row_among(rows: &[WrittenRow], first: u32, part: u16, token: u16) -> Option<u32>
    requires token { token < 64 }
    requires few_rows { first + length rows.now < 2 ^ 32 }
    ensures { result ≡ row_among rows.now first part token }
{
    let mut number = first;
    for row in rows {
        if row.left != part {
            return None;
        }
        if is_predicted(row, token) {
            return Some(number);
        }
        number += 1;
    }
    None
}

impl WrittenTable {
    /// The row of the part that the token, or the end, predicts.
    pub(crate) fn row_at(&self, part: u16, token: u16) -> Option<u32>
        requires token { token < 64 }
        requires part { part < length self.now.first_rows.now }
        requires few_rows { length self.now.rows.now < 2 ^ 31 }
        requires first { first_row self.now part ≤ length self.now.rows.now }
        ensures { result ≡ row_at self.now part token }
    {
        let first = self.first_rows[usize::from(part)];
        row_among(&self.rows[first as usize..], first, part, token)
    }
}
