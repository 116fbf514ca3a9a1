//! Why a text is not read.

ghost use Rattle.std.specs.Prelude.{◌≡◌};
ghost use Rattle.tree_building.specs.LexedFault.{read_fault_of};

use lotos_base::Place;
use lotos_lexer::LexFault;
use std::alloc::{AllocError, AllocFailed};

/// Why a text is not read. The first of them that there is counts, in this order; want of memory
/// may come with any.
#[derive(Clone, Copy, Debug, PartialEq, Eq)]
pub enum ReadFault {
    /// It has more than 1,048,576 bytes.
    TooLong,
    /// At the place stands a byte, outside comments, with which no token and no blank begins.
    BadByte {
        /// The place of the byte.
        place: Place,
    },
    /// The comment that begins at the place is not closed.
    OpenComment {
        /// The place of its `(*`.
        place: Place,
    },
    /// With the token at the place no text can go on, or the text may not end there.
    Syntax {
        /// The place of the token, or the place just past the last byte.
        place: Place,
    },
    /// A node of a behaviour or of a term is deeper than 500.
    TooDeep {
        /// The place of the first such node in the text.
        place: Place,
    },
    /// Memory was wanted and not there.
    NoMemory,
}

impl From<AllocError> for ReadFault {
    ghost use Rattle.tree_building.specs.declared.fault.ReadFault.TheVariants.{NoMemory};

    ghost from_gives = { λ _ fault. fault ≡ NoMemory };

    fn from(_error: AllocError) -> ReadFault {
        ReadFault::NoMemory
    }
}

impl<T: Drop> From<AllocFailed<T>> for ReadFault {
    ghost use Rattle.tree_building.specs.declared.fault.ReadFault.TheVariants.{NoMemory};

    ghost from_gives = { λ _ fault. fault ≡ NoMemory };

    fn from(_error: AllocFailed<T>) -> ReadFault {
        ReadFault::NoMemory
    }
}

impl From<LexFault> for ReadFault {
    ghost from_gives = { λ lexical fault. fault ≡ read_fault_of lexical };

    fn from(error: LexFault) -> ReadFault {
        match error {
            LexFault::BadByte { place } => ReadFault::BadByte { place },
            LexFault::OpenComment { place } => ReadFault::OpenComment { place },
            LexFault::NoMemory => ReadFault::NoMemory,
        }
    }
}
