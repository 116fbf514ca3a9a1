//! Why a line of a session is refused.

ghost use Rattle.session_lines.specs.Refusal.{bad_term, question_refusal_text};
ghost use Rattle.session_lines.specs.View.{AddsRefusal};
ghost use Rattle.std.specs.Prelude.{◌≡◌, ◌++◌, OnOk};

use lotos_base::NoMemory;
use lotos_grammar::ReadFault;
use printed_texts::brackets::{push_number, push_text};
use sort_terms::SortFault;

/// Why a line is refused.
#[derive(Clone, Copy, Debug, PartialEq, Eq)]
pub enum Refusal {
    /// It has no form, or not the number of terms that its word wants.
    BadCommand,
    /// Its terms are refused.
    BadTerm {
        /// The number of their fault.
        number: u32,
    },
    /// Memory was wanted and not there.
    NoMemory,
}

impl From<ReadFault> for Refusal {
    ghost use Rattle.session_lines.specs.View.{refused_for_text};

    ghost from_gives = { λ fault refusal. refusal ≡ refused_for_text fault };

    fn from(fault: ReadFault) -> Refusal {
        match fault {
            ReadFault::BadByte { .. } => Refusal::BadTerm { number: 101 },
            ReadFault::OpenComment { .. } => Refusal::BadTerm { number: 102 },
            ReadFault::TooLong => Refusal::BadTerm { number: 103 },
            ReadFault::Syntax { .. } => Refusal::BadTerm { number: 104 },
            ReadFault::TooDeep { .. } => Refusal::BadTerm { number: 105 },
            ReadFault::NoMemory => Refusal::NoMemory,
        }
    }
}

impl From<SortFault> for Refusal {
    ghost use Rattle.session_lines.specs.View.{refused_for_term};

    ghost from_gives = { λ fault refusal. refusal ≡ refused_for_term fault };

    fn from(fault: SortFault) -> Refusal {
        match fault {
            SortFault::UnknownSort { .. } => Refusal::BadTerm { number: 205 },
            SortFault::UnknownName { .. } => Refusal::BadTerm { number: 211 },
            SortFault::NoReading { .. } => Refusal::BadTerm { number: 212 },
            SortFault::TwoReadings { .. } => Refusal::BadTerm { number: 213 },
            SortFault::NoMemory => Refusal::NoMemory,
        }
    }
}

impl From<NoMemory> for Refusal {
    ghost use Rattle.session_lines.specs.declared.refusals.Refusal.TheVariants.{
      NoMemory as out_of_memory,
    };

    ghost from_gives = { λ _ refusal. refusal ≡ out_of_memory };

    fn from(_fault: NoMemory) -> Refusal {
        Refusal::NoMemory
    }
}

/// Appends the line of a refusal.
pub fn push_refusal(refusal: Refusal, into: &mut Vec<u8>) -> Result<(), NoMemory>
    ensures { OnOk result (AddsRefusal refusal into.old.items into.new.items) }
{
    match refusal {
        Refusal::BadCommand => push_text(into, b"refused 801 BadCommand\n"),
        Refusal::BadTerm { number } => push_bad_term(number, into),
        Refusal::NoMemory => Err(NoMemory),
    }
}

// Appends the line of terms with the fault of this number.
fn push_bad_term(number: u32, into: &mut Vec<u8>) -> Result<(), NoMemory>
    ensures { OnOk result (into.new.items ≡ into.old.items
        ++ question_refusal_text (bad_term number)) }
{
    push_text(into, b"refused 804 BadTerm ")?;
    push_number(into, number as u128)?;
    push_text(into, b"\n")
}
