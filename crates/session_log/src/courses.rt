//! How far a session has come.

ghost use Rattle.behaviour_semantics.specs.Fault.{fault_of};
ghost use Rattle.behaviour_semantics.specs.Menu.{Meets};
ghost use Rattle.behaviour_tree.specs.BehaviourView.{terms_of};
ghost use Rattle.behaviour_tree.specs.Closed.{IsClosedNode};
ghost use Rattle.behaviour_tree.specs.DefinitionView.{specification_of};
ghost use Rattle.behaviour_tree.specs.MoveView.{derivation_of, label_of};
ghost use Rattle.behaviour_tree.specs.Over.{IsSpecOver, IsStateOf};
ghost use Rattle.behaviour_tree.specs.StateView.{state_of};
ghost use Rattle.behaviour_tree.specs.declared.definitions.Spec.{Spec};
ghost use Rattle.lotos_base.specs.Equation.{Data};
ghost use Rattle.lotos_base.specs.Term.{Term};
ghost use Rattle.menu_builder.specs.HandedOn.{IsEntryOf, KeepsData, plain_entry};
ghost use Rattle.menu_builder.specs.Menus.{entries_in};
ghost use Rattle.session_histories.specs.Lawful.{HasStepped};
ghost use Rattle.session_histories.specs.Refusal.{step_refusal, value_refusal};
ghost use Rattle.session_log.specs.CourseView.{basis_over, progress_of};
ghost use Rattle.session_log.specs.Courses.{
  behind_state,
  IsGoneOn,
  IsSameCourse,
  IsUndone,
  first_state_of,
};
ghost use Rattle.session_log.specs.Entries.{AreGiven, IsDerivationFor};
ghost use Rattle.session_log.specs.Kept.{AreSuited, IsKeptCourse, IsKeptState};
ghost use Rattle.session_log.specs.RefusalView.{TellsStep};
ghost use Rattle.std.specs.Prelude.{
  ◌≡◌,
  ◌<◌,
  IfOk,
  MatchResult,
  None,
  OnErr,
  OnOk,
  Some,
  [],
  length,
};
ghost use Rattle.step_taker.specs.Taken.{IsTaken, ground_of};

use crate::entries::{counted_entry, derivation_for, unmet_refusal};
use crate::refusals::StepRefusal;
use behaviour_tree::{Derivation, Label, Spec, State};
use lotos_base::NoMemory;
use menu_builder::{Entry, Menu, MenuMaker, Ranks, label_copy};
use sort_terms::{Deciding, Sorted};
use std::alloc::Global;
use std::mem;
use step_taker::{StepFault, take};

/// A step that was taken, with the state and the menu before it.
#[derive(Debug, Drop)]
pub struct Past {
    pub(crate) derivation: Derivation,
    pub(crate) label: Label,
    pub(crate) number: u64,
    pub(crate) values: Vec<Sorted>,
    state: State,
    menu: Menu,
}

/// A state with its menu, and the steps that led there, the first one first.
#[derive(Debug, Drop)]
pub struct Course {
    state: State,
    menu: Menu,
    history: Vec<Past>,
}

impl Course {
    /// The course that begins in the state.
    pub fn open<M: MenuMaker, D: Deciding>(
        alloc: Global,
        spec: &Spec,
        ranks: &Ranks,
        maker: &mut M,
        start: State,
        data: &mut D,
    ) -> Result<Course, NoMemory>
        requires suited { AreSuited M.suits (D.known_data data.old) (D.canon data.old) spec.now
            ranks.now maker.old }
        requires kept { IsKeptState (D.known_data data.old).signature spec.now start }
        ensures kept_after { IfOk result
            (IsKeptCourse (D.known_data data.old) (D.canon data.old) spec.now) }
        ensures begins { IfOk result
            (λ course. (course.state ≡ start) × (course.history.items ≡ [])) }
        ensures suited_after { AreSuited M.suits (D.known_data data.old) (D.canon data.old) spec.now
            ranks.now maker.new }
        ensures same_known { KeepsData D.known_data D.canon data.old data.new }
    {
        let menu = maker.make(alloc, spec, ranks, &start, data)?;
        Ok(Course {
            state: start,
            menu,
            history: Vec::new(alloc),
        })
    }

    /// The state.
    pub fn state(&self) -> &State
        ensures { result.now ≡ self.now.state }
    {
        &self.state
    }

    /// Its menu.
    pub fn menu(&self) -> &Menu
        ensures { result.now ≡ self.now.menu }
    {
        &self.menu
    }

    /// The steps.
    pub fn history(&self) -> &[Past]
        ensures { result.now ≡ self.now.history.items }
    {
        self.history.as_slice()
    }

    /// Where its memory comes from.
    pub fn allocator(&self) -> Global {
        *self.history.allocator()
    }

    /// The oldest state that is kept.
    pub fn first_state(&self) -> &State
        ensures { result.now ≡ first_state_of self.now }
    {
        match self.history.first() {
            None => &self.state,
            Some(past) => &past.state,
        }
    }

    /// The state behind the step at this position: the one in which the next step was taken, or the
    /// present one.
    pub fn state_behind(&self, index: usize) -> &State
        requires { index < length self.now.history.items }
        ensures { result.now ≡ behind_state self.now index }
    {
        match self.history.get(index + 1) {
            None => &self.state,
            Some(next) => &next.state,
        }
    }

    /// Takes the step by the entry with this number and these values. A refusal leaves the course
    /// as it was.
    pub fn step<M: MenuMaker, D: Deciding>(
        &mut self,
        spec: &Spec,
        ranks: &Ranks,
        maker: &mut M,
        number: u64,
        values: Vec<Sorted>,
        data: &mut D,
    ) -> Result<Label, StepRefusal>
        requires suited { AreSuited M.suits (D.known_data data.old) (D.canon data.old) spec.now
            ranks.now maker.old }
        requires kept { IsKeptCourse (D.known_data data.old) (D.canon data.old) spec.now self.old }
        requires given { AreGiven (D.known_data data.old).signature values.items }
        ensures answered { MatchResult result
            (λ label. HasStepped (basis_over (D.known_data data.old) (D.canon data.old) spec.now)
            (progress_of self.old) number (terms_of values.items) (label_of label)
            (progress_of self.new))
            (λ refusal. (progress_of self.new ≡ progress_of self.old)
            × TellsStep (step_refusal
            (basis_over (D.known_data data.old) (D.canon data.old) spec.now)
            (entries_in self.old.menu) number (terms_of values.items)) refusal) }
        ensures kept_after { IsKeptCourse (D.known_data data.old) (D.canon data.old) spec.now
            self.new }
        ensures suited_after { AreSuited M.suits (D.known_data data.old) (D.canon data.old) spec.now
            ranks.now maker.new }
        ensures same_known { KeepsData D.known_data D.canon data.old data.new }
    {
        let given = values.as_slice();
        let entry = counted_entry(&self.menu, number, given.len())?;
        let derivation = derivation_for(entry, given, data)?;
        let taken = moved(spec, &self.state, entry, given, &derivation, data)?;
        let (label, state) = taken;
        let alloc = self.allocator();
        let kept = label_copy(alloc, &label)?;
        let menu = maker.make(alloc, spec, ranks, &state, data)?;
        self.keep(Past {
            derivation,
            label: kept,
            number,
            values,
            state,
            menu,
        })?;
        Ok(label)
    }

    // Goes on to the state and the menu of the step, which is kept with the present ones in their
    // place.
    fn keep(&mut self, next: Past) -> Result<(), NoMemory>
        ensures kept { OnOk result (IsGoneOn self.old next self.new) }
        ensures unchanged { OnErr result (IsSameCourse self.old self.new) }
    {
        let mut past = next;
        self.history.reserve(1)?;
        mem::swap(&mut self.state, &mut past.state);
        mem::swap(&mut self.menu, &mut past.menu);
        self.history.push(past)?;
        Ok(())
    }

    /// Drops the last step, if there is one.
    pub fn undo(&mut self) -> bool
        ensures undone { IsUndone result (progress_of self.old) (progress_of self.new) }
        ensures kept_after { (data_ : Data) (canon : Term → Term) (spec : Spec)
            → IsKeptCourse data_ canon spec self.old → IsKeptCourse data_ canon spec self.new }
    {
        match self.history.pop() {
            None => false,
            Some(past) => {
                self.state = past.state;
                self.menu = past.menu;
                true
            }
        }
    }
}

// The move of the derivation of the entry with these values, which has no fault where they meet the
// entry. Where it has one, the first condition that does not hold is looked for.
fn moved<D: Deciding>(
    spec: &Spec,
    state: &State,
    entry: &Entry,
    values: &[Sorted],
    derivation: &Derivation,
    data: &mut D,
) -> Result<(Label, State), StepRefusal>
    requires over { IsSpecOver (D.known_data data.old).signature spec.now }
    requires state { IsStateOf (D.known_data data.old).signature spec.now state.now }
    requires closed { IsClosedNode state.now.node }
    requires entry { IsEntryOf (D.known_data data.old).signature entry.now }
    requires given { AreGiven (D.known_data data.old).signature values.now }
    requires derived { IsDerivationFor (D.known_data data.old) (D.canon data.old) entry.now
        values.now derivation.now }
    requires free { Meets (D.known_data data.old) (plain_entry entry.now) (terms_of values.now)
        → fault_of (D.known_data data.old) (D.canon data.old)
        (specification_of spec.now).processes (state_of state.now) (derivation_of derivation.now)
        ≡ None }
    ensures answer { MatchResult result
        (λ made. IsTaken (ground_of (D.known_data data.old) (D.canon data.old) spec.now)
        state.now derivation.now made.0 made.1)
        (TellsStep (value_refusal (D.known_data data.old).signature (D.canon data.old)
        (Some (plain_entry entry.now)) (terms_of values.now))) }
    ensures same_known { KeepsData D.known_data D.canon data.old data.new }
{
    match take(spec, state, derivation, data) {
        Ok(moved) => Ok(moved),
        Err(fault) => match fault {
            StepFault::NoMemory => Err(StepRefusal::NoMemory),
            _ => Err(unmet_refusal(entry, values, data)?),
        },
    }
}
