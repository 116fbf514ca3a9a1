//! A fault with its line.

use crate::line_fault::LineFault;
use lotos_base::NoMemory;
use std::alloc::AllocFailed;

/// A fault with the number of the line where it stands. The number says nothing where memory was
/// wanted.
#[derive(Debug, Drop)]
pub struct AtLine {
    /// The number of the line.
    pub line: usize,
    /// What is wrong there.
    pub fault: LineFault,
}

impl From<NoMemory> for AtLine {
    ghost use Rattle.std.specs.Prelude.{◌≡◌};
    ghost use Rattle.induct_parts.specs.declared.line_fault.LineFault.TheVariants.{
      NoMemory as out_of_memory,
    };

    ghost from_gives = { λ _ at. at.fault ≡ out_of_memory };

    fn from(_fault: NoMemory) -> AtLine {
        AtLine {
            line: 0,
            fault: LineFault::NoMemory,
        }
    }
}

impl<T: Drop> From<AllocFailed<T>> for AtLine {
    ghost use Rattle.std.specs.Prelude.{◌≡◌};
    ghost use Rattle.induct_parts.specs.declared.line_fault.LineFault.TheVariants.{
      NoMemory as out_of_memory,
    };

    ghost from_gives = { λ _ at. at.fault ≡ out_of_memory };

    fn from(_fault: AllocFailed<T>) -> AtLine {
        AtLine {
            line: 0,
            fault: LineFault::NoMemory,
        }
    }
}
