//! Why a line of a session is refused, and the line that is printed for it.

ghost use Rattle.history_lines.specs.RefusalView.{AddsDecline, AddsFault, AddsStep, code_for};
ghost use Rattle.session_log.specs.HandedOn.{written_value};
ghost use Rattle.sort_terms.specs.SignatureView.{signature_of};
ghost use Rattle.std.specs.Prelude.{◌≡◌, ◌++◌, OnOk, codes, decimal, option_map};

use lotos_base::NoMemory;
use session_log::{
    ReadFault, Refusal, ReplayFault, StepRefusal, push_number, push_refusal, push_text, push_value,
};
use sort_terms::{Signature, Sorted};
use value_lists::refusals::push_no_entry;

/// Why the line of a step is refused.
#[derive(Debug, Drop)]
pub enum Decline {
    /// The terms of the line are refused, or memory was wanted.
    Terms(Refusal),
    /// The step is refused, or memory was wanted.
    Step(StepRefusal),
}

impl From<ReadFault> for Decline {
    ghost use Rattle.history_lines.specs.RefusalView.{declined_for_text};

    ghost from_gives = { λ fault decline. decline ≡ declined_for_text fault };

    fn from(fault: ReadFault) -> Decline {
        Decline::Terms(Refusal::from(fault))
    }
}

impl From<Refusal> for Decline {
    ghost use Rattle.history_lines.specs.declared.refusals.Decline.TheVariants.{
      Terms as declined_terms,
    };

    ghost from_gives = { λ refusal decline. decline ≡ declined_terms refusal };

    fn from(refusal: Refusal) -> Decline {
        Decline::Terms(refusal)
    }
}

impl From<StepRefusal> for Decline {
    ghost use Rattle.history_lines.specs.declared.refusals.Decline.TheVariants.{
      Step as declined_step,
    };

    ghost from_gives = { λ refusal decline. decline ≡ declined_step refusal };

    fn from(refusal: StepRefusal) -> Decline {
        Decline::Step(refusal)
    }
}

/// Appends the line of a refusal. Want of memory has none.
pub fn push_decline(
    signature: &Signature,
    decline: &Decline,
    into: &mut Vec<u8>,
) -> Result<(), NoMemory>
    ensures { OnOk result (AddsDecline (signature_of signature.now) decline.now into.old.items
        into.new.items) }
{
    match decline {
        Decline::Terms(refusal) => push_refusal(*refusal, into),
        Decline::Step(refusal) => push_step(signature, refusal, into),
    }
}

// Appends the line of a step that is refused.
fn push_step(
    signature: &Signature,
    refusal: &StepRefusal,
    into: &mut Vec<u8>,
) -> Result<(), NoMemory>
    ensures { OnOk result (AddsStep (signature_of signature.now) refusal.now into.old.items
        into.new.items) }
{
    match refusal {
        StepRefusal::NoEntry { number, length } => push_no_entry(*number, *length, into),
        StepRefusal::ValueCount { wanted, given } => push_value_count(*wanted, *given, into),
        StepRefusal::ValueSort { .. } => push_text(into, b"refused 805 ValueSort\n"),
        StepRefusal::Unmet { left, right } => push_unmet(signature, left, right, into),
        StepRefusal::NoMemory => Err(NoMemory),
    }
}

// Appends the line for another number of values.
#[tactic(auto, using(crate::proofs::TextPieces::in_five))]
fn push_value_count(wanted: usize, given: usize, into: &mut Vec<u8>) -> Result<(), NoMemory>
    ensures { OnOk result (into.new.items ≡ into.old.items
        ++ codes "refused 803 ValueCount wanted " ++ decimal wanted ++ codes " given "
        ++ decimal given ++ codes "\n") }
{
    push_text(into, b"refused 803 ValueCount wanted ")?;
    push_number(into, wanted as u128)?;
    push_text(into, b" given ")?;
    push_number(into, given as u128)?;
    push_text(into, b"\n")
}

// Appends the line for a condition that does not hold.
#[tactic(auto, using(crate::proofs::TextPieces::in_five))]
fn push_unmet(
    signature: &Signature,
    left: &Sorted,
    right: &Sorted,
    into: &mut Vec<u8>,
) -> Result<(), NoMemory>
    ensures { OnOk result (into.new.items ≡ into.old.items ++ codes "refused 806 Unmet "
        ++ written_value signature.now left.now ++ codes " is not "
        ++ written_value signature.now right.now ++ codes "\n") }
{
    push_text(into, b"refused 806 Unmet ")?;
    push_value(signature, left, into)?;
    push_text(into, b" is not ")?;
    push_value(signature, right, into)?;
    push_text(into, b"\n")
}

/// Appends the line of a trace that is refused in a session of the specification with this name.
/// Want of memory has none.
pub fn push_fault(name: &[u8], fault: &ReplayFault, into: &mut Vec<u8>) -> Result<(), NoMemory>
    ensures { OnOk result (AddsFault name.now fault.now into.old.items into.new.items) }
{
    match fault {
        ReplayFault::BadLine { line } => push_bad_line(*line, into),
        ReplayFault::OtherSpecification { kept } => push_other(kept.as_slice(), name, into),
        ReplayFault::StateDiffers { line, kept, found } => {
            push_state_differs(*line, kept.as_slice(), found.as_slice(), into)
        }
        ReplayFault::LabelDiffers { line, kept, found } => {
            push_label_differs(*line, kept.as_slice(), found.as_slice(), into)
        }
        ReplayFault::Step { line, why } => match code_of(why) {
            None => Err(NoMemory),
            Some(code) => push_step_refused(*line, code, into),
        },
        ReplayFault::NoMemory => Err(NoMemory),
    }
}

// The number of the refusal of a step. Want of memory has none.
fn code_of(why: &StepRefusal) -> Option<&'static [u8]>
    ensures { option_map (λ code. code.now) result ≡ code_for why.now }
{
    match why {
        StepRefusal::NoEntry { .. } => Some(b"802".as_slice()),
        StepRefusal::ValueCount { .. } => Some(b"803".as_slice()),
        StepRefusal::ValueSort { .. } => Some(b"805".as_slice()),
        StepRefusal::Unmet { .. } => Some(b"806".as_slice()),
        StepRefusal::NoMemory => None,
    }
}

// Appends the line for a line of another form.
#[tactic(auto, using(lotos_base::proofs::Pieces::in_three))]
fn push_bad_line(line: u32, into: &mut Vec<u8>) -> Result<(), NoMemory>
    ensures { OnOk result (into.new.items ≡ into.old.items
        ++ codes "refused 810 BadLine line " ++ decimal line ++ codes "\n") }
{
    push_text(into, b"refused 810 BadLine line ")?;
    push_number(into, line as u128)?;
    push_text(into, b"\n")
}

// Appends the line for another label.
#[tactic(auto, using(crate::proofs::TextPieces::in_seven))]
fn push_label_differs(
    line: u32,
    kept: &[u8],
    found: &[u8],
    into: &mut Vec<u8>,
) -> Result<(), NoMemory>
    ensures { OnOk result (into.new.items ≡ into.old.items
        ++ codes "refused 811 LabelDiffers line " ++ decimal line ++ codes " kept " ++ kept.now
        ++ codes " found " ++ found.now ++ codes "\n") }
{
    push_text(into, b"refused 811 LabelDiffers line ")?;
    push_number(into, line as u128)?;
    push_text(into, b" kept ")?;
    push_text(into, kept)?;
    push_text(into, b" found ")?;
    push_text(into, found)?;
    push_text(into, b"\n")
}

// Appends the line for another state.
fn push_state_differs(
    line: u32,
    kept: &[u8],
    found: &[u8],
    into: &mut Vec<u8>,
) -> Result<(), NoMemory>
    ensures { OnOk result (into.new.items ≡ into.old.items
        ++ codes "refused 814 StateDiffers line " ++ decimal line ++ codes " kept " ++ kept.now
        ++ codes " found " ++ found.now ++ codes "\n") }
{
    push_text(into, b"refused 814 StateDiffers line ")?;
    push_number(into, line as u128)?;
    push_text(into, b" kept ")?;
    push_text(into, kept)?;
    push_text(into, b" found ")?;
    push_text(into, found)?;
    push_text(into, b"\n")
}

// Appends the line for a trace of another specification.
#[tactic(auto, using(crate::proofs::TextPieces::in_five))]
fn push_other(kept: &[u8], name: &[u8], into: &mut Vec<u8>) -> Result<(), NoMemory>
    ensures { OnOk result (into.new.items ≡ into.old.items
        ++ codes "refused 813 OtherSpecification kept " ++ kept.now ++ codes " found "
        ++ name.now ++ codes "\n") }
{
    push_text(into, b"refused 813 OtherSpecification kept ")?;
    push_text(into, kept)?;
    push_text(into, b" found ")?;
    push_text(into, name)?;
    push_text(into, b"\n")
}

// Appends the line for a step that is refused with this number.
#[tactic(auto, using(crate::proofs::TextPieces::in_five))]
fn push_step_refused(line: u32, code: &[u8], into: &mut Vec<u8>) -> Result<(), NoMemory>
    ensures { OnOk result (into.new.items ≡ into.old.items ++ codes "refused 812 Step line "
        ++ decimal line ++ codes " " ++ code.now ++ codes "\n") }
{
    push_text(into, b"refused 812 Step line ")?;
    push_number(into, line as u128)?;
    push_text(into, b" ")?;
    push_text(into, code)?;
    push_text(into, b"\n")
}
