//! Why rules are not joined.

ghost use Rattle.std.specs.Prelude.{◌≡◌};

use lotos_base::NoMemory;
use sort_terms::Sorted;

/// Why rules are not joined.
#[derive(Debug, Drop)]
pub enum PairFault {
    /// The two sides of a critical pair have different chosen forms. It is the first such pair.
    Unjoined {
        /// The number of the equation of the first rule.
        first: u32,
        /// The number of the equation of the second rule.
        second: u32,
        /// The peak of the pair.
        peak: Sorted,
        /// The chosen form of what the first rule makes of the peak.
        left: Sorted,
        /// The chosen form of what the second rule makes of the peak.
        right: Sorted,
    },
    /// Memory was wanted and not there.
    NoMemory,
}

impl From<NoMemory> for PairFault {
    ghost use Rattle.critical_pairs.specs.declared.pair_fault.PairFault.TheVariants.{
      NoMemory as out_of_memory,
    };

    ghost from_gives = { λ _ fault. fault ≡ out_of_memory };

    fn from(_fault: NoMemory) -> PairFault {
        PairFault::NoMemory
    }
}
