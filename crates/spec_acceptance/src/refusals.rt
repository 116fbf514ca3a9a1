//! What the faults of the layers come to: a refusal, or want of memory.

ghost use Rattle.refusal_lines.specs.HandedOn.book_faults as book;
ghost use Rattle.refusal_lines.specs.HandedOn.read_faults as read;
ghost use Rattle.refusal_lines.specs.HandedOn.exit_faults as exit;
ghost use Rattle.refusal_lines.specs.HandedOn.rank_faults as rank;
ghost use Rattle.spec_acceptance.specs.Doing.{
  RefusesAs,
  with_data_refused,
  with_libraries_refused,
  with_spec_refused,
};
ghost use Rattle.refusal_lines.specs.declared.spec_fault.SpecFault.TheVariants as fault_of;
ghost use Rattle.refusal_lines.specs.HandedOn.scope_faults as scope;
ghost use Rattle.std.specs.Prelude.{◌≡◌};
ghost use Rattle.type_definitions.specs.declared.type_faults.TypeFault.TheVariants as type;

use crate::not_accepted::NotAccepted;
use crate::stages::{WithData, WithSpec, refused_early};
use lotos_base::Name;
use refusal_lines::{BookFault, ExitFault, RankFault, ReadFault, ScopeFault, SpecFault};
use type_definitions::TypeFault;

/// A text that is not read, where these libraries were read.
pub fn read_refusal(libraries: Vec<Name>, text: u32, fault: ReadFault) -> NotAccepted
    ensures { RefusesAs (fault ≡ read.NoMemory)
        (with_libraries_refused libraries (fault_of.Read text fault)) result }
{
    match fault {
        ReadFault::NoMemory => NotAccepted::NoMemory,
        fault => NotAccepted::Spec(refused_early(libraries, SpecFault::Read { text, fault })),
    }
}

/// Types that are refused.
pub fn types_refusal(libraries: Vec<Name>, fault: TypeFault) -> NotAccepted
    ensures { RefusesAs (fault ≡ type.NoMemory)
        (with_libraries_refused libraries (fault_of.Types fault)) result }
{
    match fault {
        TypeFault::NoMemory => NotAccepted::NoMemory,
        fault => NotAccepted::Spec(refused_early(libraries, SpecFault::Types(fault))),
    }
}

/// Names, counts or terms that are refused.
pub fn scope_refusal(known: WithData, fault: ScopeFault) -> NotAccepted
    ensures { RefusesAs (fault ≡ scope.NoMemory)
        (with_data_refused known (fault_of.Scope fault)) result }
{
    match fault {
        ScopeFault::NoMemory => NotAccepted::NoMemory,
        fault => NotAccepted::Spec(known.refused(SpecFault::Scope(fault))),
    }
}

/// Functionalities that disagree.
pub fn exit_refusal(known: WithSpec, fault: ExitFault) -> NotAccepted
    ensures { RefusesAs (fault ≡ exit.NoMemory)
        (with_spec_refused known (fault_of.Exit fault)) result }
{
    match fault {
        ExitFault::NoMemory => NotAccepted::NoMemory,
        fault => NotAccepted::Spec(known.refused(SpecFault::Exit(fault))),
    }
}

/// Recursion that is not guarded.
pub fn rank_refusal(known: WithSpec, fault: RankFault) -> NotAccepted
    ensures { RefusesAs (fault ≡ rank.NoMemory)
        (with_spec_refused known (fault_of.Rank fault)) result }
{
    match fault {
        RankFault::NoMemory => NotAccepted::NoMemory,
        fault => NotAccepted::Spec(known.refused(SpecFault::Rank(fault))),
    }
}

/// An order file that is not read.
pub fn order_refusal(known: WithSpec, fault: ReadFault) -> NotAccepted
    ensures { RefusesAs (fault ≡ read.NoMemory)
        (with_spec_refused known (fault_of.Read 1 fault)) result }
{
    match fault {
        ReadFault::NoMemory => NotAccepted::NoMemory,
        fault => NotAccepted::Spec(known.refused(SpecFault::Read { text: 1, fault })),
    }
}

/// Data that make no book.
pub fn book_refusal(known: WithSpec, fault: BookFault) -> NotAccepted
    ensures { RefusesAs (fault ≡ book.NoMemory)
        (with_spec_refused known (fault_of.Book fault)) result }
{
    match fault {
        BookFault::NoMemory => NotAccepted::NoMemory,
        fault => NotAccepted::Spec(known.refused(SpecFault::Book(fault))),
    }
}
