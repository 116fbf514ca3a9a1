//! The replay of a trace.

ghost use Rattle.behaviour_tree.specs.Closed.{IsClosedNode};
ghost use Rattle.lotos_base.specs.Equation.{Data};
ghost use Rattle.lotos_base.specs.Name.{spelling};
ghost use Rattle.lotos_base.specs.Signature.{Signature as PlainSignature};
ghost use Rattle.lotos_base.specs.Term.{Term};
ghost use Rattle.lotos_base.specs.WrittenView.{written_term_of};
ghost use Rattle.menu_builder.specs.HandedOn.{KeepsData};
ghost use Rattle.session_histories.specs.Replay.{
  bad_line,
  goes_on,
  label_differs,
  state_differs,
  ComeBehindName,
  LineComesTo,
  LinesComeTo,
  ReplayIs,
  StateComesTo,
  StatedLinesComeTo,
  first_line as line_ahead,
  stops,
};
ghost use Rattle.session_histories.specs.TraceLine as plain;
ghost use Rattle.session_histories.specs.TraceLine.{lines_of};
ghost use Rattle.session_lines.specs.HandedOn.{IsTermsFault, IsTermsReading, written_label};
ghost use Rattle.session_lines.specs.HandedOn.read_fault;
ghost use Rattle.session_lines.specs.HandedOn.read_faults as read_cause;
ghost use Rattle.session_log.specs.CourseView.{basis_over, progress_of, situation_of};
ghost use Rattle.session_log.specs.Kept.{AreSuited, IsKeptCourse};
ghost use Rattle.session_log.specs.Lines.{said_by};
ghost use Rattle.session_log.specs.RefusalView.{IsInLine, TellsLine, TellsReplay};
ghost use Rattle.session_log.specs.Replayed.{
  AreReadAt,
  IsGroundOver,
  IsOfOther,
  IsReadRefusal,
  IsStateRefusal,
  IsStatedBehind,
  written_state,
};
ghost use Rattle.sort_terms.specs.ReadingOutcome.{one_name};
ghost use Rattle.std.specs.Prelude.{
  ◌≡◌,
  ◌≢◌,
  ◌+◌,
  ◌<◌,
  ◌≤◌,
  ◌^◌,
  [],
  IfOk,
  MatchResult,
  None,
  OnOk,
  Some,
  length,
  map,
};

use crate::courses::Course;
use crate::entries::counted_entry;
use crate::lines::{Heading, StepLine, first_line, kept_state, read_heading, step_line};
use crate::refusals::{LineFault, ReplayFault};
use crate::values::values_at;
use behaviour_tree::{Label, Spec, State};
use lotos_base::{NoMemory, Written};
use menu_builder::{Menu, MenuMaker, Ranks};
use report_text::calls::push_state;
use session_lines::{label_text, read_terms};
use sort_terms::{Deciding, Reader, Signature, Sorted};
use std::alloc::Global;

/// What a trace is replayed over.
#[derive(Drop)]
pub struct TraceGround<'a> {
    /// The specification.
    pub spec: &'a Spec,
    /// Its ranks.
    pub ranks: &'a Ranks,
    /// The signature of the data, by which labels are printed.
    pub signature: &'a Signature,
    /// What reads terms over it.
    pub reader: Reader<'a>,
}

/// Replays the trace in the course, which has taken no step.
pub fn replay_text<M: MenuMaker, D: Deciding>(
    alloc: Global,
    base: &TraceGround<'_>,
    maker: &mut M,
    course: &mut Course,
    text: &[u8],
    data: &mut D,
) -> Result<(), ReplayFault>
    requires suited { AreSuited M.suits (D.known_data data.old) (D.canon data.old)
        base.now.spec.now base.now.ranks.now maker.old }
    requires over { IsGroundOver (D.known_data data.old).signature base.now }
    requires kept { IsKeptCourse (D.known_data data.old) (D.canon data.old) base.now.spec.now
        course.old }
    requires opened { course.old.history.items ≡ [] }
    requires short { length text.now < 2 ^ 32 }
    ensures answered { MatchResult result
        (λ _. ReplayIs (basis_over (D.known_data data.old) (D.canon data.old) base.now.spec.now)
        (situation_of course.old.state course.old.menu) text.now
        (goes_on (progress_of course.new)))
        (TellsReplay (λ why. ReplayIs
        (basis_over (D.known_data data.old) (D.canon data.old) base.now.spec.now)
        (situation_of course.old.state course.old.menu) text.now (stops why))) }
    ensures kept_after { OnOk result (IsKeptCourse (D.known_data data.old) (D.canon data.old)
        base.now.spec.now course.new) }
    ensures suited_after { AreSuited M.suits (D.known_data data.old) (D.canon data.old)
        base.now.spec.now base.now.ranks.now maker.new }
    ensures same_known { KeepsData D.known_data D.canon data.old data.new }
{
    let head = first_line(text);
    match read_heading(head.0) {
        Heading::NoHeading => Err(ReplayFault::BadLine { line: 1 }),
        Heading::OfSteps => replay_steps(alloc, base, maker, course, head.1, data),
        Heading::OfStates(name) => replay_named(alloc, base, maker, course, name, head.1, data),
    }
}

// Replays the lines behind a first one that has this name.
fn replay_named<M: MenuMaker, D: Deciding>(
    alloc: Global,
    base: &TraceGround<'_>,
    maker: &mut M,
    course: &mut Course,
    name: &[u8],
    steps: &[u8],
    data: &mut D,
) -> Result<(), ReplayFault>
    requires suited { AreSuited M.suits (D.known_data data.old) (D.canon data.old)
        base.now.spec.now base.now.ranks.now maker.old }
    requires over { IsGroundOver (D.known_data data.old).signature base.now }
    requires kept { IsKeptCourse (D.known_data data.old) (D.canon data.old) base.now.spec.now
        course.old }
    requires opened { course.old.history.items ≡ [] }
    requires short { length steps.now + 2 < 2 ^ 32 }
    ensures answered { MatchResult result
        (λ _. ComeBehindName (basis_over (D.known_data data.old) (D.canon data.old)
        base.now.spec.now) (situation_of course.old.state course.old.menu)
        (one_name name.now (spelling base.now.spec.now.name)) name.now (lines_of steps.now)
        (goes_on (progress_of course.new)))
        (TellsReplay (λ why. ComeBehindName (basis_over (D.known_data data.old)
        (D.canon data.old) base.now.spec.now) (situation_of course.old.state course.old.menu)
        (one_name name.now (spelling base.now.spec.now.name)) name.now (lines_of steps.now)
        (stops why))) }
    ensures kept_after { OnOk result (IsKeptCourse (D.known_data data.old) (D.canon data.old)
        base.now.spec.now course.new) }
    ensures suited_after { AreSuited M.suits (D.known_data data.old) (D.canon data.old)
        base.now.spec.now base.now.ranks.now maker.new }
    ensures same_known { KeepsData D.known_data D.canon data.old data.new }
{
    if !is_named(base.spec, name) {
        return Err(other_specification(alloc, name)?);
    }
    replay_stated(alloc, base, maker, course, steps, data)
}

// Whether the specification has the name, letter case aside.
fn is_named(spec: &Spec, name: &[u8]) -> bool
    ensures { result ≡ one_name name.now (spelling spec.now.name) }
{
    name.eq_ignore_ascii_case(spec.name.spelled())
}

// The fault of a trace of the specification with this name.
fn other_specification(alloc: Global, name: &[u8]) -> Result<ReplayFault, NoMemory>
    ensures { IfOk result (IsOfOther name.now) }
{
    let kept = bytes_copy(alloc, name)?;
    Ok(ReplayFault::OtherSpecification { kept })
}

// Replays lines of steps, each with the line of its state behind it.
fn replay_stated<M: MenuMaker, D: Deciding>(
    alloc: Global,
    base: &TraceGround<'_>,
    maker: &mut M,
    course: &mut Course,
    steps: &[u8],
    data: &mut D,
) -> Result<(), ReplayFault>
    requires suited { AreSuited M.suits (D.known_data data.old) (D.canon data.old)
        base.now.spec.now base.now.ranks.now maker.old }
    requires over { IsGroundOver (D.known_data data.old).signature base.now }
    requires kept { IsKeptCourse (D.known_data data.old) (D.canon data.old) base.now.spec.now
        course.old }
    requires short { length steps.now + 2 < 2 ^ 32 }
    ensures answered { MatchResult result
        (λ _. StatedLinesComeTo (basis_over (D.known_data data.old) (D.canon data.old)
        base.now.spec.now) 2 (progress_of course.old) (lines_of steps.now)
        (goes_on (progress_of course.new)))
        (TellsReplay (λ why. StatedLinesComeTo (basis_over (D.known_data data.old)
        (D.canon data.old) base.now.spec.now) 2 (progress_of course.old) (lines_of steps.now)
        (stops why))) }
    ensures kept_after { OnOk result (IsKeptCourse (D.known_data data.old) (D.canon data.old)
        base.now.spec.now course.new) }
    ensures suited_after { AreSuited M.suits (D.known_data data.old) (D.canon data.old)
        base.now.spec.now base.now.ranks.now maker.new }
    ensures same_known { KeepsData D.known_data D.canon data.old data.new }
{
    let mut number = 1u32;
    let mut rest = steps;
    while let [_, ..] = rest {
        let cut = first_line(rest);
        replay_at(alloc, base, maker, course, cut.0, number + 1, data)?;
        rest = state_at(alloc, base, course, cut.1, number + 2)?;
        number += 2;
    }
    Ok(())
}

// What is left behind the line of the state where the course stands: it is the first line, with
// this number, and is missing where there is none.
fn state_at<'a>(
    alloc: Global,
    base: &TraceGround<'_>,
    course: &Course,
    rest: &'a [u8],
    number: u32,
) -> Result<&'a [u8], ReplayFault>
    requires { IsClosedNode course.now.state.node }
    ensures answered { (data_ : Data) (canon : Term → Term) → IsGroundOver data_.signature base.now
        → MatchResult result
        (λ more. IsStatedBehind (basis_over data_ canon base.now.spec.now) (progress_of course.now)
        rest.now more.now)
        (TellsReplay (IsInLine number (λ why. StateComesTo
        (basis_over data_ canon base.now.spec.now) (progress_of course.now)
        (line_ahead (lines_of rest.now)) (stops why)))) }
    ensures shorter { IfOk result (λ more. length more.now < length rest.now) }
{
    if rest.is_empty() {
        return Err(ReplayFault::BadLine { line: number });
    }
    let cut = first_line(rest);
    match same_state(alloc, base, course.state(), cut.0) {
        Ok(()) => Ok(cut.1),
        Err(why) => Err(why.at(number)),
    }
}

// Compares the state that a line keeps with this one.
fn same_state(
    alloc: Global,
    base: &TraceGround<'_>,
    state: &State,
    line: &[u8],
) -> Result<(), LineFault>
    requires { IsClosedNode state.now.node }
    ensures { MatchResult result
        (λ _. plain.kept_state line.now ≡ Some (written_state base.now.signature.now
        base.now.spec.now state.now))
        (TellsLine (IsStateRefusal line.now (written_state base.now.signature.now
        base.now.spec.now state.now))) }
{
    let kept = state_on(line)?;
    let found = found_state(alloc, base, state)?;
    same_text(alloc, kept, found)
}

// The state that the line keeps.
fn state_on(line: &[u8]) -> Result<&[u8], LineFault>
    ensures { MatchResult result
        (λ kept. plain.kept_state line.now ≡ Some kept.now)
        (TellsLine (λ why. (why ≡ bad_line) × (plain.kept_state line.now ≡ None))) }
{
    match kept_state(line) {
        Some(kept) => Ok(kept),
        None => Err(LineFault::BadLine),
    }
}

// The text of the state.
fn found_state(alloc: Global, base: &TraceGround<'_>, state: &State) -> Result<Vec<u8>, NoMemory>
    requires { IsClosedNode state.now.node }
    ensures { IfOk result (λ text. text.items ≡ written_state base.now.signature.now
        base.now.spec.now state.now) }
{
    let mut text = Vec::new(alloc);
    push_state(base.signature, base.spec, state.node(), &mut text)?;
    Ok(text)
}

// Compares the text of a line with what was found.
fn same_text(alloc: Global, kept: &[u8], found: Vec<u8>) -> Result<(), LineFault>
    ensures { MatchResult result
        (λ _. kept.now ≡ found.items)
        (TellsLine (λ why. (kept.now ≢ found.items)
        × (why ≡ state_differs kept.now found.items))) }
{
    if found.as_slice() == kept {
        Ok(())
    } else {
        let kept = bytes_copy(alloc, kept)?;
        Err(LineFault::StateDiffers { kept, found })
    }
}

// Replays lines of steps.
fn replay_steps<M: MenuMaker, D: Deciding>(
    alloc: Global,
    base: &TraceGround<'_>,
    maker: &mut M,
    course: &mut Course,
    steps: &[u8],
    data: &mut D,
) -> Result<(), ReplayFault>
    requires suited { AreSuited M.suits (D.known_data data.old) (D.canon data.old)
        base.now.spec.now base.now.ranks.now maker.old }
    requires over { IsGroundOver (D.known_data data.old).signature base.now }
    requires kept { IsKeptCourse (D.known_data data.old) (D.canon data.old) base.now.spec.now
        course.old }
    requires short { length steps.now + 1 < 2 ^ 32 }
    ensures answered { MatchResult result
        (λ _. LinesComeTo (basis_over (D.known_data data.old) (D.canon data.old)
        base.now.spec.now) 2 (progress_of course.old) (lines_of steps.now)
        (goes_on (progress_of course.new)))
        (TellsReplay (λ why. LinesComeTo (basis_over (D.known_data data.old)
        (D.canon data.old) base.now.spec.now) 2 (progress_of course.old) (lines_of steps.now)
        (stops why))) }
    ensures kept_after { OnOk result (IsKeptCourse (D.known_data data.old) (D.canon data.old)
        base.now.spec.now course.new) }
    ensures suited_after { AreSuited M.suits (D.known_data data.old) (D.canon data.old)
        base.now.spec.now base.now.ranks.now maker.new }
    ensures same_known { KeepsData D.known_data D.canon data.old data.new }
{
    let mut number = 1u32;
    let mut rest = steps;
    while let [_, ..] = rest {
        let cut = first_line(rest);
        number += 1;
        replay_at(alloc, base, maker, course, cut.0, number, data)?;
        rest = cut.1;
    }
    Ok(())
}

// Replays the line with this number.
fn replay_at<M: MenuMaker, D: Deciding>(
    alloc: Global,
    base: &TraceGround<'_>,
    maker: &mut M,
    course: &mut Course,
    line: &[u8],
    number: u32,
    data: &mut D,
) -> Result<(), ReplayFault>
    requires suited { AreSuited M.suits (D.known_data data.old) (D.canon data.old)
        base.now.spec.now base.now.ranks.now maker.old }
    requires over { IsGroundOver (D.known_data data.old).signature base.now }
    requires kept { IsKeptCourse (D.known_data data.old) (D.canon data.old) base.now.spec.now
        course.old }
    requires short { length line.now + 1 < 2 ^ 32 }
    ensures answered { MatchResult result
        (λ _. LineComesTo (basis_over (D.known_data data.old) (D.canon data.old) base.now.spec.now)
        (progress_of course.old) line.now (goes_on (progress_of course.new)))
        (TellsReplay (IsInLine number (λ why. LineComesTo
        (basis_over (D.known_data data.old) (D.canon data.old) base.now.spec.now)
        (progress_of course.old) line.now (stops why)))) }
    ensures kept_after { OnOk result (IsKeptCourse (D.known_data data.old) (D.canon data.old)
        base.now.spec.now course.new) }
    ensures suited_after { AreSuited M.suits (D.known_data data.old) (D.canon data.old)
        base.now.spec.now base.now.ranks.now maker.new }
    ensures same_known { KeepsData D.known_data D.canon data.old data.new }
{
    match replay_line(alloc, base, maker, course, line, data) {
        Ok(()) => Ok(()),
        Err(fault) => Err(fault.at(number)),
    }
}

// Replays a line.
fn replay_line<M: MenuMaker, D: Deciding>(
    alloc: Global,
    base: &TraceGround<'_>,
    maker: &mut M,
    course: &mut Course,
    line: &[u8],
    data: &mut D,
) -> Result<(), LineFault>
    requires suited { AreSuited M.suits (D.known_data data.old) (D.canon data.old)
        base.now.spec.now base.now.ranks.now maker.old }
    requires over { IsGroundOver (D.known_data data.old).signature base.now }
    requires kept { IsKeptCourse (D.known_data data.old) (D.canon data.old) base.now.spec.now
        course.old }
    requires short { length line.now + 1 < 2 ^ 32 }
    ensures answered { MatchResult result
        (λ _. LineComesTo (basis_over (D.known_data data.old) (D.canon data.old) base.now.spec.now)
        (progress_of course.old) line.now (goes_on (progress_of course.new)))
        (TellsLine (λ why. LineComesTo
        (basis_over (D.known_data data.old) (D.canon data.old) base.now.spec.now)
        (progress_of course.old) line.now (stops why))) }
    ensures kept_after { OnOk result (IsKeptCourse (D.known_data data.old) (D.canon data.old)
        base.now.spec.now course.new) }
    ensures suited_after { AreSuited M.suits (D.known_data data.old) (D.canon data.old)
        base.now.spec.now base.now.ranks.now maker.new }
    ensures same_known { KeepsData D.known_data D.canon data.old data.new }
{
    let said = said_on(line)?;
    let terms = terms_of_line(alloc, said.terms)?;
    let values = values_of_line(alloc, base, course.menu(), said.number, terms.as_slice())?;
    let label = course.step(base.spec, base.ranks, maker, said.number, values, data)?;
    same_label(alloc, base, &label, said.label)
}

// What the line says.
fn said_on(line: &[u8]) -> Result<StepLine<'_>, LineFault>
    ensures answered { MatchResult result
        (λ said. plain.step_line line.now ≡ Some (said_by said))
        (TellsLine (λ why. (why ≡ bad_line) × (plain.step_line line.now ≡ None))) }
    ensures within { IfOk result (λ said. length said.terms.now ≤ length line.now) }
{
    match step_line(line) {
        Some(said) => Ok(said),
        None => Err(LineFault::BadLine),
    }
}

// The terms of a line.
fn terms_of_line(alloc: Global, text: &[u8]) -> Result<Vec<Written>, LineFault>
    requires { length text.now + 1 < 2 ^ 32 }
    ensures { MatchResult result
        (λ terms. IsTermsReading 0 text.now (map written_term_of terms.items))
        (TellsLine (λ why. (why ≡ bad_line) × (fault : read_fault.ReadFault)
        × IsTermsFault 0 text.now fault × (fault ≢ read_cause.NoMemory))) }
{
    Ok(read_terms(alloc, text, 0)?)
}

// The readings of the terms at the sorts of the variables of the entry with this number.
fn values_of_line(
    alloc: Global,
    base: &TraceGround<'_>,
    menu: &Menu,
    number: u64,
    terms: &[Written],
) -> Result<Vec<Sorted>, LineFault>
    ensures { (signature : PlainSignature) → IsGroundOver signature base.now → MatchResult result
        (λ values. AreReadAt signature menu.now number (map written_term_of terms.now)
        values.items)
        (TellsLine (IsReadRefusal signature menu.now number
        (map written_term_of terms.now))) }
{
    let entry = counted_entry(menu, number, terms.len())?;
    Ok(values_at(alloc, &base.reader, &entry.vars, terms)?)
}

// Compares the label of a line with that of its step.
fn same_label(
    alloc: Global,
    base: &TraceGround<'_>,
    label: &Label,
    kept: &[u8],
) -> Result<(), LineFault>
    ensures { MatchResult result
        (λ _. kept.now ≡ written_label base.now.signature.now
        base.now.spec.now.gate_names.items label.now)
        (TellsLine (λ why. (kept.now ≢ written_label base.now.signature.now
        base.now.spec.now.gate_names.items label.now) × (why ≡ label_differs kept.now
        (written_label base.now.signature.now base.now.spec.now.gate_names.items
        label.now)))) }
{
    let mut found = Vec::new(alloc);
    label_text(base.signature, base.spec, label, &mut found)?;
    if found.as_slice() == kept {
        Ok(())
    } else {
        let kept = bytes_copy(alloc, kept)?;
        Err(LineFault::LabelDiffers { kept, found })
    }
}

// The same bytes.
fn bytes_copy(alloc: Global, bytes: &[u8]) -> Result<Vec<u8>, NoMemory>
    ensures { IfOk result (λ made. made.items ≡ bytes.now) }
{
    Ok(Vec::from_slice(alloc, bytes)?)
}
