//! Why start values are refused.

ghost use Rattle.std.specs.Prelude.{◌≡◌};

use crate::SpecFault;
use lotos_base::NoMemory;
use std::alloc::{AllocError, AllocFailed};

/// Why start values are refused.
#[derive(Drop)]
pub enum StartFault {
    /// The first thing that is wrong with them.
    Refused(SpecFault),
    /// Memory was wanted and not there.
    NoMemory,
}

impl From<NoMemory> for StartFault {
    ghost use Rattle.refusal_lines.specs.declared.faults.StartFault.TheVariants.{
      NoMemory as out_of_memory,
    };

    ghost from_gives = { λ _ fault. fault ≡ out_of_memory };

    fn from(_fault: NoMemory) -> StartFault {
        StartFault::NoMemory
    }
}

impl From<AllocError> for StartFault {
    ghost use Rattle.refusal_lines.specs.declared.faults.StartFault.TheVariants.{
      NoMemory as out_of_memory,
    };

    ghost from_gives = { λ _ fault. fault ≡ out_of_memory };

    fn from(_fault: AllocError) -> StartFault {
        StartFault::NoMemory
    }
}

impl<T: Drop> From<AllocFailed<T>> for StartFault {
    ghost use Rattle.refusal_lines.specs.declared.faults.StartFault.TheVariants.{
      NoMemory as out_of_memory,
    };

    ghost from_gives = { λ _ fault. fault ≡ out_of_memory };

    fn from(_fault: AllocFailed<T>) -> StartFault {
        StartFault::NoMemory
    }
}
