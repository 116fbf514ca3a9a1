//! Why a line of a certificate is wrong.

ghost use Rattle.std.specs.Prelude.{◌≡◌};

use crate::statements::Statement;
use lotos_base::NoMemory;
use std::alloc::{AllocError, AllocFailed};

/// Why a line of a certificate is wrong.
#[derive(Debug, Drop)]
pub enum LineFault {
    /// The line may not stand there, or is missing: a second cover of a sort or tree of an
    /// operation, a cover with an operation of another result or with one twice, a line where
    /// nothing is left to be shown, none where something is left.
    BadLine,
    /// A split of what is no variable of the pattern or in the scope of the goal.
    NoVariable,
    /// A split of a variable whose sort has no cover.
    NoCover,
    /// The operation with this number has the result of a cover, and neither stands in it nor has a
    /// tree.
    NoTree(u32),
    /// A leaf that no rule rewrites.
    NotReducible,
    /// A use that has no result.
    BadUse,
    /// The end of a case whose two sides, which are these, differ.
    NotSame(Statement),
    /// Memory was wanted and not there.
    NoMemory,
}

impl From<NoMemory> for LineFault {
    ghost use Rattle.induct_parts.specs.declared.line_fault.LineFault.TheVariants.{
      NoMemory as out_of_memory,
    };

    ghost from_gives = { λ _ fault. fault ≡ out_of_memory };

    fn from(_fault: NoMemory) -> LineFault {
        LineFault::NoMemory
    }
}

impl From<AllocError> for LineFault {
    ghost use Rattle.induct_parts.specs.declared.line_fault.LineFault.TheVariants.{
      NoMemory as out_of_memory,
    };

    ghost from_gives = { λ _ fault. fault ≡ out_of_memory };

    fn from(_fault: AllocError) -> LineFault {
        LineFault::NoMemory
    }
}

impl<T: Drop> From<AllocFailed<T>> for LineFault {
    ghost use Rattle.induct_parts.specs.declared.line_fault.LineFault.TheVariants.{
      NoMemory as out_of_memory,
    };

    ghost from_gives = { λ _ fault. fault ≡ out_of_memory };

    fn from(_fault: AllocFailed<T>) -> LineFault {
        LineFault::NoMemory
    }
}
