//! The text of a trace.

ghost use Rattle.lotos_base.specs.Name.{spelling};
ghost use Rattle.behaviour_tree.specs.Closed.{IsClosedNode};
ghost use Rattle.behaviour_tree.specs.DefinitionView.{specification_of};
ghost use Rattle.behaviour_tree.specs.StateView.{state_of};
ghost use Rattle.session_histories.specs.TraceText.{
  ended,
  line_of_state,
  step_text,
  trace_heading,
};
ghost use Rattle.session_log.specs.CourseView.{past_item_of};
ghost use Rattle.session_log.specs.Courses.{AreClosedStates, written_trace};
ghost use Rattle.session_log.specs.RefusalView.{TellsLength};
ghost use Rattle.sort_terms.specs.SignatureView.{signature_of};
ghost use Rattle.std.specs.Prelude.{◌≡◌, ◌++◌, ◌≤◌, MatchResult, OnOk, length, map};

use crate::courses::{Course, Past};
use crate::refusals::TraceFault;
use behaviour_tree::{Spec, State};
use lotos_base::{Name, NoMemory};
use session_lines::{push_given, push_label, push_number, push_text};
use sort_terms::Signature;
use std::alloc::Global;

/// The trace of the course: the line `lotos-trace 2 NAME` with the name of the specification, and
/// for each step its line and that of the state behind it. Answers `TooLong` exactly where it has
/// more bytes than the limit; then no more of it is written than the first lines that have.
pub fn trace_within(
    alloc: Global,
    signature: &Signature,
    spec: &Spec,
    course: &Course,
    limit: usize,
) -> Result<Vec<u8>, TraceFault>
    requires { AreClosedStates course.now }
    ensures { MatchResult result
        (λ text. (text.items ≡ written_trace signature.now spec.now course.now)
        × (length text.items ≤ limit))
        (TellsLength limit (length (written_trace signature.now spec.now course.now))) }
{
    let mut text = Vec::new(alloc);
    push_heading(spec, &mut text)?;
    for (index, past) in course.history().iter().enumerate() {
        keeps_within(&text, limit)?;
        push_step(signature, spec.gate_names.as_slice(), past, &mut text)?;
        push_state(signature, spec, course.state_behind(index), &mut text)?;
    }
    keeps_within(&text, limit)?;
    Ok(text)
}

// Whether the text has not more bytes than the limit.
fn keeps_within(text: &Vec<u8>, limit: usize) -> Result<(), TraceFault>
    ensures { MatchResult result
        (λ _. length text.now.items ≤ limit)
        (TellsLength limit (length text.now.items)) }
{
    if text.len() > limit {
        return Err(TraceFault::TooLong);
    }
    Ok(())
}

// Appends the first line.
fn push_heading(spec: &Spec, into: &mut Vec<u8>) -> Result<(), NoMemory>
    ensures { OnOk result (into.new.items ≡ into.old.items
        ++ ended (trace_heading (spelling spec.now.name))) }
{
    push_text(into, b"lotos-trace 2 ")?;
    push_text(into, spec.name.spelled())?;
    push_text(into, b"\n")
}

// Appends the line of a state.
fn push_state(
    signature: &Signature,
    spec: &Spec,
    state: &State,
    into: &mut Vec<u8>,
) -> Result<(), NoMemory>
    requires { IsClosedNode state.now.node }
    ensures { OnOk result (into.new.items ≡ into.old.items
        ++ ended (line_of_state (signature_of signature.now) (specification_of spec.now)
        (state_of state.now))) }
{
    push_text(into, b"at ")?;
    report_text::calls::push_state(signature, spec, state.node(), into)?;
    push_text(into, b"\n")
}

// Appends the line of a step.
#[tactic(auto, using(session_histories::proofs::StepLineLemmas::line_written))]
fn push_step(
    signature: &Signature,
    gates: &[Name],
    past: &Past,
    into: &mut Vec<u8>,
) -> Result<(), NoMemory>
    ensures { OnOk result (into.new.items ≡ into.old.items
        ++ ended (step_text (signature_of signature.now) (map spelling gates.now)
        (past_item_of past.now))) }
{
    push_number(into, past.number as u128)?;
    push_given(signature, &past.values, into)?;
    push_text(into, b" => ")?;
    push_label(signature, gates, &past.label, into)?;
    push_text(into, b"\n")
}
