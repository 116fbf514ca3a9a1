//! Places in the texts that a run reads.

/// A place in one of the texts of a run.
#[derive(Clone, Copy, Debug, PartialEq, Eq)]
pub struct Place {
    /// Which text: 0 the specification, 1 the order file, 2 and up the libraries in the order of
    /// reading, 66 the words after `with`.
    pub text: u32,
    /// The line, from 1. In the words after `with` it is the number of the word.
    pub line: u32,
    /// The column, from 1, in bytes.
    pub col: u32,
}
