//! Why a grammar has no table, and why a list of tokens has no derivation.

ghost use Rattle.std.specs.Prelude.{◌≡◌};

use std::alloc::{AllocError, AllocFailed};

/// Why a grammar has no table. `Barren` comes before `LeftCycle`, and that before `Conflict`; the
/// least part comes first, and for a conflict then the least token.
#[derive(Clone, Copy, PartialEq, Eq, Debug)]
pub enum TableFault {
    /// The part derives no list of tokens.
    Barren {
        /// The least such part.
        part: u16,
    },
    /// The part derives, in one step or more, a list of symbols that begins with itself.
    LeftCycle {
        /// The least such part.
        part: u16,
    },
    /// Two rows of the part are predicted by one token.
    Conflict {
        /// The least part that has a conflict.
        part: u16,
        /// The least token of that part's conflicts; the number of the tokens stands for the end.
        token: u16,
    },
    /// Memory ran out.
    NoMemory,
}

impl From<AllocError> for TableFault {
    ghost use Rattle.ll_engine.specs.declared.fault.TableFault.TheVariants.{NoMemory};

    ghost from_gives = { λ _ e. e ≡ NoMemory };

    fn from(_e: AllocError) -> TableFault {
        TableFault::NoMemory
    }
}

impl<T: Drop> From<AllocFailed<T>> for TableFault {
    ghost use Rattle.ll_engine.specs.declared.fault.TableFault.TheVariants.{NoMemory};

    ghost from_gives = { λ _ e. e ≡ NoMemory };

    fn from(_e: AllocFailed<T>) -> TableFault {
        TableFault::NoMemory
    }
}

/// Why a list of tokens has no derivation.
#[derive(Clone, Copy, PartialEq, Eq, Debug)]
pub enum ParseFault {
    /// The list is no sentence.
    Unexpected {
        /// The first token with which the list stops being viable, or the number of tokens where
        /// all of it is viable.
        at: usize,
    },
    /// Memory ran out.
    NoMemory,
}

impl From<AllocError> for ParseFault {
    ghost use Rattle.ll_engine.specs.declared.fault.ParseFault.TheVariants.{NoMemory};

    ghost from_gives = { λ _ e. e ≡ NoMemory };

    fn from(_e: AllocError) -> ParseFault {
        ParseFault::NoMemory
    }
}

impl<T: Drop> From<AllocFailed<T>> for ParseFault {
    ghost use Rattle.ll_engine.specs.declared.fault.ParseFault.TheVariants.{NoMemory};

    ghost from_gives = { λ _ e. e ≡ NoMemory };

    fn from(_e: AllocFailed<T>) -> ParseFault {
        ParseFault::NoMemory
    }
}
