//! How a session ends.

/// How a session ends.
#[derive(Clone, Copy, Debug, PartialEq, Eq)]
pub enum SessionEnd {
    /// The input has ended, or a line ended the session; the whole report is written.
    Finished,
    /// The input failed.
    InputFailed,
    /// The input has more than 16,777,216 bytes.
    InputTooLong,
    /// The output failed. What is written is a beginning of the report.
    OutputFailed,
    /// Memory was wanted and not there. What is written is a beginning of the report.
    NoMemory,
}

/// Why the serving of a line stopped.
#[derive(Clone, Copy, Debug, PartialEq, Eq)]
pub enum Stop {
    /// The output failed.
    OutputFailed,
    /// Memory was wanted and not there.
    NoMemory,
}
