//! Why a specification is not accepted.

ghost use Rattle.std.specs.Prelude.{◌≡◌};

use lotos_base::NoMemory;
use refusal_lines::Refused;
use std::alloc::{AllocError, AllocFailed};

/// Why a specification is not accepted.
#[derive(Drop)]
pub enum NotAccepted {
    /// A file could not be got: the shelf's count of faults rose, or it lacks the file.
    File {
        /// The name of the file.
        name: Vec<u8>,
    },
    /// It is refused.
    Spec(Refused),
    /// Memory was wanted and not there.
    NoMemory,
}

impl From<NoMemory> for NotAccepted {
    ghost use Rattle.spec_acceptance.specs.declared.not_accepted.NotAccepted.TheVariants.{
      NoMemory as out_of_memory,
    };

    ghost from_gives = { λ _ fault. fault ≡ out_of_memory };

    fn from(_fault: NoMemory) -> NotAccepted {
        NotAccepted::NoMemory
    }
}

impl From<AllocError> for NotAccepted {
    ghost use Rattle.spec_acceptance.specs.declared.not_accepted.NotAccepted.TheVariants.{
      NoMemory as out_of_memory,
    };

    ghost from_gives = { λ _ fault. fault ≡ out_of_memory };

    fn from(_fault: AllocError) -> NotAccepted {
        NotAccepted::NoMemory
    }
}

impl<T: Drop> From<AllocFailed<T>> for NotAccepted {
    ghost use Rattle.spec_acceptance.specs.declared.not_accepted.NotAccepted.TheVariants.{
      NoMemory as out_of_memory,
    };

    ghost from_gives = { λ _ fault. fault ≡ out_of_memory };

    fn from(_fault: AllocFailed<T>) -> NotAccepted {
        NotAccepted::NoMemory
    }
}
