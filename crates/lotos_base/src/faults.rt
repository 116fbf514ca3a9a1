//! Why a call on the outside did not do its work.

use std::alloc::{AllocError, AllocFailed};

/// Memory was wanted and not there.
#[derive(Clone, Copy, Debug, PartialEq, Eq)]
pub struct NoMemory;

impl From<AllocError> for NoMemory {
    fn from(_fault: AllocError) -> NoMemory {
        NoMemory
    }
}

impl<T: Drop> From<AllocFailed<T>> for NoMemory {
    fn from(_fault: AllocFailed<T>) -> NoMemory {
        NoMemory
    }
}

/// The device refused. The object that answers this counted a fault in the same call.
#[derive(Clone, Copy, Debug, PartialEq, Eq)]
pub struct Failed;

/// Why a text was not got from a shelf.
#[derive(Clone, Copy, Debug, PartialEq, Eq)]
pub enum GetFault {
    /// The shelf tells its texts and has none under the name.
    Missing,
    /// The device refused, and a fault was counted.
    Failed,
    /// Memory was wanted and not there.
    NoMemory,
}

/// Why a text was not put on a shelf.
#[derive(Clone, Copy, Debug, PartialEq, Eq)]
pub enum PutFault {
    /// The device refused, and a fault was counted. The name may have any bytes now, or none.
    Failed,
    /// Memory was wanted and not there. The shelf is as before.
    NoMemory,
}
