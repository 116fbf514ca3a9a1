//! Why the cases of a data file cannot be run.

use std::alloc::{AllocError, AllocFailed};
use std::io;

/// Why a line could not be read or a case not be run.
#[derive(Clone, Copy, Debug)]
pub enum Fault {
    /// The line is not of the format, for this reason.
    Malformed(&'static str),
    /// Memory was wanted and not there.
    NoMemory,
    /// A data file could not be read, or the report not be printed.
    Outside,
}

impl From<AllocError> for Fault {
    fn from(_fault: AllocError) -> Fault {
        Fault::NoMemory
    }
}

impl<T: Drop> From<AllocFailed<T>> for Fault {
    fn from(_fault: AllocFailed<T>) -> Fault {
        Fault::NoMemory
    }
}

impl From<io::Error> for Fault {
    fn from(_fault: io::Error) -> Fault {
        Fault::Outside
    }
}
