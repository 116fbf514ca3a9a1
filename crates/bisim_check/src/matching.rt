//! Whether the events of one state have answers among those of another state.

ghost use Rattle.bisim_check.specs.Events.{event_of, IsUnanswered};
ghost use Rattle.bisim_check.specs.Faults.{TellsPairs};
ghost use Rattle.bisim_check.specs.Matching.{AllAnswered, HasAnswer, IsAnswer, ListedTowards};
ghost use Rattle.bisim_check.specs.PairIndex.{PairStandsAt, IsSearchable};
ghost use Rattle.bisim_check.specs.Readings.{behaviour_at, listed_pairs_in, ArePlaced, IsPlacedPair};
ghost use Rattle.certificate_theory.specs.Agreement.{AreOneGate, IdenticalLabels};
ghost use Rattle.certificate_theory.specs.Certificate.{AreListed};
ghost use Rattle.behaviour_tree.specs.DefinitionView.{specification_of};
ghost use Rattle.behaviour_tree.specs.MoveView.{label_of};
ghost use Rattle.behaviour_tree.specs.StateView.{state_of};
ghost use Rattle.sort_terms.specs.SortedView.{term_in};
ghost use Rattle.std.specs.Prelude.{◌≡◌, ◌↔◌, ◌<◌, IsTrue, MatchResult, Some, length, map, slice_get};

use crate::agreeing::all_agree;
use crate::events::Event;
use crate::faults::PairsFault;
use crate::pair_index::bucket;
use crate::readings::{Listed, Reading};
use crate::surveys::Surveyed;
use behaviour_tree::{Label, Spec, State};
use path_order::head_index::HeadIndex;
use sort_terms::Sorted;

/// Answers nothing where each event has an answer, or else the first one that has none. Targets
/// are listed as left and right states, or, where `right` says so, the other way round.
pub fn check_events(
    one: &Spec,
    events: &Vec<Event>,
    other: &Spec,
    answers: &Vec<Event>,
    reading: &Reading,
    index: &HeadIndex,
    right: bool,
    line: u32,
) -> Result<(), PairsFault>
    requires { IsSearchable reading.now index.now }
    ensures { MatchResult result
        (λ _. AllAnswered (specification_of one.now) (specification_of other.now)
        (ListedTowards right (listed_pairs_in reading.now)) (map event_of events.now.items)
        (map event_of answers.now.items))
        (TellsPairs (IsUnanswered (specification_of one.now) (specification_of other.now)
        (ListedTowards right (listed_pairs_in reading.now)) right line
        (map event_of events.now.items) (map event_of answers.now.items))) }
{
    for position in 0..events.len() {
        if !has_answer(
            one,
            &events[position],
            other,
            answers,
            reading,
            index,
            right,
        ) {
            return Err(PairsFault::Unmatched {
                line,
                right,
                entry: position as u64 + 1,
            });
        }
    }
    Ok(())
}

// Whether one of the events answers the event.
fn has_answer(
    one: &Spec,
    event: &Event,
    other: &Spec,
    answers: &Vec<Event>,
    reading: &Reading,
    index: &HeadIndex,
    right: bool,
) -> bool
    requires { IsSearchable reading.now index.now }
    ensures { IsTrue result ↔ HasAnswer (specification_of one.now) (specification_of other.now)
        (ListedTowards right (listed_pairs_in reading.now)) (map event_of answers.now.items)
        (event_of event.now) }
{
    for position in 0..answers.len() {
        if is_answer(one, event, other, &answers[position], reading, index, right) {
            return true;
        }
    }
    false
}

// Whether the labels of the events are identical and their targets are listed.
fn is_answer(
    one: &Spec,
    event: &Event,
    other: &Spec,
    answer: &Event,
    reading: &Reading,
    index: &HeadIndex,
    right: bool,
) -> bool
    requires { IsSearchable reading.now index.now }
    ensures { IsTrue result ↔ IsAnswer (specification_of one.now) (specification_of other.now)
        (ListedTowards right (listed_pairs_in reading.now)) (event_of event.now)
        (event_of answer.now) }
{
    if !same_labels(one, &event.label, other, &answer.label) {
        return false;
    }
    are_listed(reading, index, right, &event.target, &answer.target)
}

// Whether the labels are identical: of one kind, at gates of one name, with identical values.
#[tactic(auto, using(crate::proofs::LabelLemmas::gates_differ, crate::proofs::LabelLemmas::gates_same, crate::proofs::LabelLemmas::exits_same))]
fn same_labels(one: &Spec, label: &Label, other: &Spec, answer: &Label) -> bool
    ensures { IsTrue result ↔ IdenticalLabels (specification_of one.now)
        (specification_of other.now) (label_of label.now) (label_of answer.now) }
{
    match (label, answer) {
        (Label::Inner, Label::Inner) => true,
        (Label::Gate(gate, values), Label::Gate(other_gate, others)) => {
            if !is_one_gate(one, *gate, other, *other_gate) {
                return false;
            }
            same_values(values, others)
        }
        (Label::Exit(values), Label::Exit(others)) => same_values(values, others),
        (Label::Inner, Label::Gate(..))
        | (Label::Inner, Label::Exit(_))
        | (Label::Gate(..), Label::Inner)
        | (Label::Gate(..), Label::Exit(_))
        | (Label::Exit(_), Label::Inner)
        | (Label::Exit(_), Label::Gate(..)) => false,
    }
}

// Whether the values are identical one by one.
fn same_values(values: &Vec<Sorted>, others: &Vec<Sorted>) -> bool
    ensures { IsTrue result ↔ (map term_in values.now.items ≡ map term_in others.now.items) }
{
    all_agree(values.as_slice(), others.as_slice())
}

// Whether the gates have one name.
#[tactic(auto, using(crate::proofs::GateLemmas::no_gate, crate::proofs::GateLemmas::no_other_gate, crate::proofs::GateLemmas::gates_told))]
fn is_one_gate(one: &Spec, gate: u32, other: &Spec, other_gate: u32) -> bool
    ensures { IsTrue result ↔ AreOneGate (specification_of one.now) (specification_of other.now)
        gate other_gate }
{
    let Some(name) = one.gate_names.get(gate as usize) else {
        return false;
    };
    let Some(other_name) = other.gate_names.get(other_gate as usize) else {
        return false;
    };
    name.same(other_name)
}

// Whether the states are listed as left and right states, or the other way round.
fn are_listed(
    reading: &Reading,
    index: &HeadIndex,
    right: bool,
    state: &State,
    other: &State,
) -> bool
    requires { IsSearchable reading.now index.now }
    ensures { IsTrue result ↔ ListedTowards right (listed_pairs_in reading.now)
        (state_of state.now) (state_of other.now) }
{
    if right {
        return is_listed(reading, index, other, state);
    }
    is_listed(reading, index, state, other)
}

// Whether some pair has the one state on the left and the other one on the right.
fn is_listed(reading: &Reading, index: &HeadIndex, left: &State, right: &State) -> bool
    requires { IsSearchable reading.now index.now }
    ensures { IsTrue result ↔ AreListed (listed_pairs_in reading.now) (state_of left.now)
        (state_of right.now) }
{
    for number in index.under(bucket(left, right)) {
        if is_numbered(reading, *number, left, right) {
            return true;
        }
    }
    false
}

// Whether the pair with this number has the one state on the left and the other one on the right.
fn is_numbered(reading: &Reading, number: usize, left: &State, right: &State) -> bool
    requires { ArePlaced reading.now }
    ensures { IsTrue result ↔ PairStandsAt (listed_pairs_in reading.now) (state_of left.now)
        (state_of right.now) number }
{
    match reading.pairs.get(number) {
        None => false,
        Some(pair) => is_pair(reading, pair, left, right),
    }
}

// Whether the pair has the one state on the left and the other one on the right.
fn is_pair(reading: &Reading, pair: &Listed, left: &State, right: &State) -> bool
    requires { IsPlacedPair reading.now pair.now }
    ensures { IsTrue result ↔ ((behaviour_at reading.now.lefts.items pair.now.left
        ≡ state_of left.now)
        × (behaviour_at reading.now.rights.items pair.now.right ≡ state_of right.now)) }
{
    if !is_state(&reading.lefts, pair.left, left) {
        return false;
    }
    is_state(&reading.rights, pair.right, right)
}

// Whether the state with this number is the same as the other one.
fn is_state(states: &Vec<Surveyed>, number: u32, state: &State) -> bool
    requires { number < length states.now.items }
    ensures { IsTrue result ↔ (behaviour_at states.now.items number ≡ state_of state.now) }
{
    state_at(states, number).state.node().same(state.node())
}

/// The state with this number.
pub fn state_at(states: &Vec<Surveyed>, number: u32) -> &Surveyed
    requires { number < length states.now.items }
    ensures { slice_get states.now.items number ≡ Some result.now }
{
    &states[number as usize]
}
