//! Why a certificate is refused.

ghost use Rattle.std.specs.Prelude.{◌≡◌};

use lotos_base::NoMemory;

/// Why a certificate is refused. Lines are numbered from 1, and so are the entries of a menu.
#[derive(Debug, Drop)]
pub enum PairsFault {
    /// The line uses a state that no line before it names.
    NoState {
        /// The number of the line.
        line: u32,
    },
    /// The state of the line has no entry with the number of the line.
    NoEntry {
        /// The number of the line.
        line: u32,
    },
    /// The entry of the line has a variable, or a state of its pair has such an entry.
    OpenMenu {
        /// The number of the line.
        line: u32,
    },
    /// No line is `p 0 0`.
    NoStartPair,
    /// For the pair of the line an entry of one state has no entry of the other state with an
    /// agreeing label and a target that is listed with its own.
    Unmatched {
        /// The number of the line.
        line: u32,
        /// Whether the entry is one of the right state.
        right: bool,
        /// The number of the entry.
        entry: u64,
    },
    /// Memory was wanted and not there.
    NoMemory,
}

impl From<NoMemory> for PairsFault {
    ghost use Rattle.bisim_check.specs.declared.faults.PairsFault.TheVariants.{
      NoMemory as out_of_memory,
    };

    ghost from_gives = { λ _ fault. fault ≡ out_of_memory };

    fn from(_fault: NoMemory) -> PairsFault {
        PairsFault::NoMemory
    }
}
