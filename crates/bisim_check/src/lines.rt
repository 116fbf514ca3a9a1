//! The lines of a certificate.

ghost use Rattle.std.specs.Prelude.{◌≡◌};

use lotos_base::NoMemory;

/// A line of a certificate. States are numbered in the order in which the lines of their side name
/// them, and state 0 is the start of its side. Entries of a menu are numbered from 1.
#[derive(Clone, Copy, Debug, Drop)]
pub enum PairLine {
    /// `l P N`: the next state on the left is the target of an entry of a left state.
    Left {
        /// The number of the state.
        from: u32,
        /// The number of the entry.
        entry: u32,
    },
    /// `r P N`: the same on the right.
    Right {
        /// The number of the state.
        from: u32,
        /// The number of the entry.
        entry: u32,
    },
    /// `p I J`: a left state and a right state are listed as a pair.
    Pair {
        /// The number of the left state.
        left: u32,
        /// The number of the right state.
        right: u32,
    },
}

/// Why a text is no certificate.
#[derive(Debug, Drop)]
pub enum PairTextFault {
    /// A line has none of the three forms, or a number above 4,294,967,295.
    BadLine {
        /// The number of the first such line, from 1.
        line: u32,
    },
    /// Memory was wanted and not there.
    NoMemory,
}

impl From<NoMemory> for PairTextFault {
    ghost use Rattle.bisim_check.specs.declared.lines.PairTextFault.TheVariants.{
      NoMemory as out_of_memory,
    };

    ghost from_gives = { λ _ fault. fault ≡ out_of_memory };

    fn from(_fault: NoMemory) -> PairTextFault {
        PairTextFault::NoMemory
    }
}
