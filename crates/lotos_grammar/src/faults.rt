//! Why the libraries of a text were not all read.

ghost use Rattle.std.specs.Prelude.{◌≡◌};

use lotos_base::{Name, Place};
use std::alloc::{AllocError, AllocFailed};
use text_depth::ReadFault;

/// Why the libraries of a text were not all read.
#[derive(Debug, Drop)]
pub enum LibraryFault {
    /// 64 texts of libraries were read, and one more is mentioned.
    TooMany {
        /// The place of the mention.
        place: Place,
        /// The name of the library.
        name: Name,
    },
    /// The text of a library is not read.
    Misread {
        /// The number of the text: 2 for the first library that was read.
        text: u32,
        /// What is wrong with it; never want of memory.
        fault: ReadFault,
    },
    /// The file of a library could not be got from the shelf.
    Unread {
        /// The name of the file.
        file: String,
    },
    /// Memory was wanted and not there.
    NoMemory,
}

impl From<AllocError> for LibraryFault {
    ghost use Rattle.lotos_grammar.specs.declared.faults.LibraryFault.TheVariants.{NoMemory};

    ghost from_gives = { λ _ fault. fault ≡ NoMemory };

    fn from(_error: AllocError) -> LibraryFault {
        LibraryFault::NoMemory
    }
}

impl<T: Drop> From<AllocFailed<T>> for LibraryFault {
    ghost use Rattle.lotos_grammar.specs.declared.faults.LibraryFault.TheVariants.{NoMemory};

    ghost from_gives = { λ _ fault. fault ≡ NoMemory };

    fn from(_error: AllocFailed<T>) -> LibraryFault {
        LibraryFault::NoMemory
    }
}
