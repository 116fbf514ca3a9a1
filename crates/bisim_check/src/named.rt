//! The states and the pairs that the lines of a certificate name.

ghost use Rattle.behaviour_semantics.specs.Behaviour.{Behaviour};
ghost use Rattle.behaviour_tree.specs.StateView.{state_of};
ghost use Rattle.behaviour_tree.specs.declared.definitions.Spec.{Spec};
ghost use Rattle.bisim_check.specs.Faults.{TellsPairs};
ghost use Rattle.bisim_check.specs.LineView.{line_of};
ghost use Rattle.bisim_check.specs.NamedOnes.{HasNewState};
ghost use Rattle.bisim_check.specs.Readings.{
  comparison_of,
  reading_of,
  HasClosedEntries,
  IsClosedOne,
  IsKeptReading,
  IsEntryNumbered,
  IsOpenFault,
};
ghost use Rattle.bisim_check.specs.Surveys.{
  AreSurveyed,
  behaviours_in,
  IsSideOf,
  IsStateIn,
  side_over,
};
ghost use Rattle.certificate_theory.specs.Certificate.{lists_pair, no_entry, no_state};
ghost use Rattle.certificate_theory.specs.NamedStates.{
  LineFails,
  LineIsRead,
  NamesNoState,
  NamesState,
  numbered_entry,
};
ghost use Rattle.lotos_base.specs.Equation.{Data};
ghost use Rattle.lotos_base.specs.Term.{Term};
ghost use Rattle.menu_builder.specs.HandedOn.{AreRanksOf, Entry, KeepsData, menu_entries};
ghost use Rattle.menu_builder.specs.Menus.{entries_in};
ghost use Rattle.std.specs.Prelude.{
  ◌≡◌,
  ◌++◌,
  ◌∷◌,
  [],
  IfOk,
  MatchResult,
  None,
  OnOk,
  Some,
  slice_get,
};

use crate::faults::PairsFault;
use crate::lines::PairLine;
use crate::readings::{Listed, Reading};
use crate::surveys::{Surveyed, survey, target};
use behaviour_tree::{Spec, State};
use lotos_base::NoMemory;
use menu_builder::{Entry, Menu, Ranks};
use sort_terms::Deciding;
use std::alloc::Global;

/// One side of a comparison: a specification with its ranks.
#[derive(Clone, Copy)]
pub struct Side<'a> {
    /// The specification.
    pub spec: &'a Spec,
    /// Its ranks.
    pub ranks: &'a Ranks,
}

/// Reads the line with this number: a state on its side, or a pair.
pub fn read_line<D: Deciding>(
    alloc: Global,
    left: &Side<'_>,
    right: &Side<'_>,
    reading: &mut Reading,
    line: &PairLine,
    number: u32,
    data: &mut D,
) -> Result<(), PairsFault>
    requires left { IsSideOf (D.known_data data.old).signature left.now.spec.now }
    requires left_ranked { AreRanksOf left.now.spec.now left.now.ranks.now }
    requires right { IsSideOf (D.known_data data.old).signature right.now.spec.now }
    requires right_ranked { AreRanksOf right.now.spec.now right.now.ranks.now }
    requires kept { IsKeptReading (D.known_data data.old) (D.canon data.old) left.now.spec.now
        right.now.spec.now reading.old }
    ensures read { (b c : Behaviour) → MatchResult result
        (λ _. LineIsRead (comparison_of (D.known_data data.old) (D.canon data.old)
        left.now.spec.now right.now.spec.now b c) (reading_of reading.old) number
        (line_of line.now) (reading_of reading.new))
        (TellsPairs (LineFails (comparison_of (D.known_data data.old) (D.canon data.old)
        left.now.spec.now right.now.spec.now b c) (reading_of reading.old) number
        (line_of line.now))) }
    ensures kept_after { OnOk result (IsKeptReading (D.known_data data.old) (D.canon data.old)
        left.now.spec.now right.now.spec.now reading.new) }
    ensures same_known { KeepsData D.known_data D.canon data.old data.new }
{
    match line {
        PairLine::Left { from, entry } => {
            add_state(alloc, left, &mut reading.lefts, *from, *entry, number, data)
        }
        PairLine::Right { from, entry } => {
            add_state(
                alloc,
                right,
                &mut reading.rights,
                *from,
                *entry,
                number,
                data,
            )
        }
        PairLine::Pair {
            left: left_number,
            right: right_number,
        } => add_pair(reading, *left_number, *right_number, number),
    }
}

// Puts the target of the entry of a state behind the states.
fn add_state<D: Deciding>(
    alloc: Global,
    side: &Side<'_>,
    states: &mut Vec<Surveyed>,
    from: u32,
    number: u32,
    line: u32,
    data: &mut D,
) -> Result<(), PairsFault>
    requires side { IsSideOf (D.known_data data.old).signature side.now.spec.now }
    requires ranked { AreRanksOf side.now.spec.now side.now.ranks.now }
    requires surveyed { AreSurveyed (D.known_data data.old) (D.canon data.old) side.now.spec.now
        states.old.items }
    ensures added { MatchResult result
        (λ _. HasNewState (side_over (D.known_data data.old) (D.canon data.old) side.now.spec.now)
        from number states.old.items states.new.items)
        (TellsPairs (NamesNoState
        (side_over (D.known_data data.old) (D.canon data.old) side.now.spec.now)
        (behaviours_in states.old.items) from number line)) }
    ensures surveyed_after { OnOk result (AreSurveyed (D.known_data data.old) (D.canon data.old)
        side.now.spec.now states.new.items) }
    ensures same_known { KeepsData D.known_data D.canon data.old data.new }
{
    let state = named_target(side.spec, states, from, number, line, data)?;
    let surveyed = survey(alloc, side.spec, side.ranks, state, data)?;
    Ok(push_state(states, surveyed)?)
}

/// The states with one more.
pub fn push_state(states: &mut Vec<Surveyed>, state: Surveyed) -> Result<(), NoMemory>
    ensures { OnOk result (states.new.items ≡ states.old.items ++ state ∷ []) }
{
    Ok(states.push(state)?)
}

// The target of the entry of a state.
fn named_target<D: Deciding>(
    spec: &Spec,
    states: &Vec<Surveyed>,
    from: u32,
    number: u32,
    line: u32,
    data: &mut D,
) -> Result<State, PairsFault>
    requires side { IsSideOf (D.known_data data.old).signature spec.now }
    requires surveyed { AreSurveyed (D.known_data data.old) (D.canon data.old) spec.now
        states.now.items }
    ensures named { MatchResult result
        (λ made. NamesState (side_over (D.known_data data.old) (D.canon data.old) spec.now)
        (behaviours_in states.now.items) from number (state_of made))
        (TellsPairs (NamesNoState (side_over (D.known_data data.old) (D.canon data.old) spec.now)
        (behaviours_in states.now.items) from number line)) }
    ensures state { IfOk result (IsStateIn (D.known_data data.old).signature spec.now) }
    ensures same_known { KeepsData D.known_data D.canon data.old data.new }
{
    let surveyed = state_named(states, from, line)?;
    let entry = entry_numbered(&surveyed.menu, number, line)?;
    if !entry.vars.is_empty() {
        return Err(PairsFault::OpenMenu { line });
    }
    Ok(target(spec, surveyed, entry, data)?)
}

// The state with this number.
#[tactic(auto, using(crate::proofs::SurveyLemmas::no_state_past))]
fn state_named(states: &Vec<Surveyed>, number: u32, line: u32) -> Result<&Surveyed, PairsFault>
    ensures { MatchResult result
        (λ found. slice_get states.now.items number ≡ Some found.now)
        (TellsPairs (λ fault. (fault ≡ no_state line)
        × (slice_get (behaviours_in states.now.items) number ≡ None))) }
{
    match states.get(number as usize) {
        Some(found) => Ok(found),
        None => Err(PairsFault::NoState { line }),
    }
}

// The entry with this number in the menu, from 1.
#[tactic(auto, using(crate::proofs::SurveyLemmas::found_at, crate::proofs::SurveyLemmas::no_entry_at_zero, crate::proofs::SurveyLemmas::no_entry_past))]
fn entry_numbered(menu: &Menu, number: u32, line: u32) -> Result<&Entry, PairsFault>
    ensures { MatchResult result (λ entry. IsEntryNumbered menu.now number entry.now)
        (TellsPairs (λ fault. (fault ≡ no_entry line)
        × (numbered_entry (entries_in menu.now) number ≡ None))) }
{
    if number == 0 {
        return Err(PairsFault::NoEntry { line });
    }
    match menu.entry(number as usize - 1) {
        Some(entry) => Ok(entry),
        None => Err(PairsFault::NoEntry { line }),
    }
}

// Lists the states with these numbers as a pair.
fn add_pair(reading: &mut Reading, left: u32, right: u32, line: u32) -> Result<(), PairsFault>
    ensures { (data_ : Data) (canon : Term → Term) (one other : Spec) (b c : Behaviour)
        → IsKeptReading data_ canon one other reading.old → MatchResult result
        (λ _. LineIsRead (comparison_of data_ canon one other b c) (reading_of reading.old) line
        (lists_pair left right) (reading_of reading.new)
        × IsKeptReading data_ canon one other reading.new)
        (TellsPairs (LineFails (comparison_of data_ canon one other b c) (reading_of reading.old)
        line (lists_pair left right))) }
{
    let one = state_named(&reading.lefts, left, line)?;
    let other = state_named(&reading.rights, right, line)?;
    closed_menu(&one.menu, line)?;
    closed_menu(&other.menu, line)?;
    Ok(push_pair(&mut reading.pairs, Listed { line, left, right })?)
}

// Answers nothing where no entry of the menu has a variable.
fn closed_menu(menu: &Menu, line: u32) -> Result<(), PairsFault>
    ensures { MatchResult result (λ _. HasClosedEntries menu.now)
        (TellsPairs (IsOpenFault menu.now line)) }
{
    for position in 0..menu.len() {
        closed_at(menu, position, line)?;
    }
    Ok(())
}

// Answers nothing where the entry at the position, if there is one, has no variable.
fn closed_at(menu: &Menu, position: usize, line: u32) -> Result<(), PairsFault>
    ensures { MatchResult result
        (λ _. (entry : Entry) → slice_get (menu_entries menu.now) position ≡ Some entry
        → IsClosedOne entry)
        (TellsPairs (IsOpenFault menu.now line)) }
{
    match menu.entry(position) {
        None => Ok(()),
        Some(entry) => {
            if !entry.vars.is_empty() {
                return Err(PairsFault::OpenMenu { line });
            }
            Ok(())
        }
    }
}

// The pairs with one more.
fn push_pair(pairs: &mut Vec<Listed>, listed: Listed) -> Result<(), NoMemory>
    ensures { OnOk result (pairs.new.items ≡ pairs.old.items ++ listed ∷ []) }
{
    Ok(pairs.push(listed)?)
}
