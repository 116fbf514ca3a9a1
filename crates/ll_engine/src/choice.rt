//! How many rows pass a test.

/// No row, one by its number, or more than one.
#[derive(Clone, Copy)]
pub enum Choice {
    /// No row passes.
    Nothing,
    /// One row passes.
    One(u32),
    /// Two or more rows pass.
    Several,
}
