//! States with their menus, and where the entries of a menu lead.

ghost use Rattle.behaviour_semantics.specs.Fault.{fault_of};
ghost use Rattle.behaviour_semantics.specs.Menu.{IsEntry};
ghost use Rattle.behaviour_tree.specs.BehaviourTerms.{profiles_of};
ghost use Rattle.behaviour_tree.specs.DefinitionView.{specification_of};
ghost use Rattle.behaviour_tree.specs.MoveView.{derivation_of};
ghost use Rattle.behaviour_tree.specs.Over.{AreTermsOf};
ghost use Rattle.behaviour_tree.specs.StateView.{state_of};
ghost use Rattle.bisim_check.specs.Surveys.{IsSideOf, IsStateIn, IsSurveyed, side_over};
ghost use Rattle.certificate_theory.specs.NamedStates.{EntryLeads};
ghost use Rattle.menu_builder.specs.HandedOn.{AreRanksOf, IsEntryOf, KeepsData, plain_entry};
ghost use Rattle.menu_builder.specs.Menus.{entries_in};
ghost use Rattle.std.specs.Prelude.{◌≡◌, [], IfOk, None};
ghost use Rattle.step_taker.specs.Taken.{IsTaken, ground_of};

use behaviour_semantics::faults::faultless_where_kept;
use behaviour_tree::{Derivation, Label, Spec, State};
use certificate_theory::agreement::closed_entries_are_events;
use lotos_base::NoMemory;
use menu_builder::{Entry, Menu, Ranks, menu};
use sort_terms::Deciding;
use std::alloc::Global;
use step_taker::{StepFault, take};

/// A state with its menu.
#[derive(Drop)]
pub struct Surveyed {
    /// The state.
    pub state: State,
    /// Its menu.
    pub menu: Menu,
}

/// The state with its menu.
pub fn survey<D: Deciding>(
    alloc: Global,
    spec: &Spec,
    ranks: &Ranks,
    state: State,
    data: &mut D,
) -> Result<Surveyed, NoMemory>
    requires side { IsSideOf (D.known_data data.old).signature spec.now }
    requires ranked { AreRanksOf spec.now ranks.now }
    requires state { IsStateIn (D.known_data data.old).signature spec.now state }
    ensures surveyed { IfOk result
        (IsSurveyed (D.known_data data.old) (D.canon data.old) spec.now) }
    ensures same { IfOk result (λ surveyed. surveyed.state ≡ state) }
    ensures same_known { KeepsData D.known_data D.canon data.old data.new }
{
    let entries = menu(alloc, spec, ranks, &state, data)?;
    Ok(Surveyed {
        state,
        menu: entries,
    })
}

/// The state that an entry without variables of the menu leads to.
pub fn target<D: Deciding>(
    spec: &Spec,
    surveyed: &Surveyed,
    entry: &Entry,
    data: &mut D,
) -> Result<State, NoMemory>
    requires side { IsSideOf (D.known_data data.old).signature spec.now }
    requires surveyed { IsSurveyed (D.known_data data.old) (D.canon data.old) spec.now
        surveyed.now }
    requires there { IsEntry (entries_in surveyed.now.menu) (plain_entry entry.now) }
    requires over { IsEntryOf (D.known_data data.old).signature entry.now }
    requires closed { entry.now.vars.items ≡ [] }
    ensures leads { IfOk result (λ made.
        EntryLeads (side_over (D.known_data data.old) (D.canon data.old) spec.now)
        (state_of surveyed.now.state) (plain_entry entry.now) (state_of made)) }
    ensures state { IfOk result (IsStateIn (D.known_data data.old).signature spec.now) }
    ensures same_known { KeepsData D.known_data D.canon data.old data.new }
{
    closed_entries_are_events();
    faultless_where_kept();
    let derivation = entry.derivation(&[], data)?;
    let taken = moved(spec, &surveyed.state, &derivation, data)?;
    Ok(taken.1)
}

// The move of a derivation that has no fault.
#[tactic(auto, using(crate::proofs::TargetLemmas::no_fault))]
fn moved<D: Deciding>(
    spec: &Spec,
    state: &State,
    derivation: &Derivation,
    data: &mut D,
) -> Result<(Label, State), NoMemory>
    requires side { IsSideOf (D.known_data data.old).signature spec.now }
    requires state { IsStateIn (D.known_data data.old).signature spec.now state.now }
    requires leaves { AreTermsOf (D.known_data data.old).signature
        (profiles_of derivation.now.leaves.items) }
    requires free { fault_of (D.known_data data.old) (D.canon data.old)
        (specification_of spec.now).processes (state_of state.now) (derivation_of derivation.now)
        ≡ None }
    ensures answer { IfOk result (λ made.
        IsTaken (ground_of (D.known_data data.old) (D.canon data.old) spec.now)
        state.now derivation.now made.0 made.1) }
    ensures same_known { KeepsData D.known_data D.canon data.old data.new }
{
    match take(spec, state, derivation, data) {
        Ok(moved) => Ok(moved),
        Err(StepFault::NoMemory) => Err(NoMemory),
        Err(StepFault::NotFitting { .. }) => unreachable!(),
        Err(StepFault::BadValue { .. }) => unreachable!(),
        Err(StepFault::Unmet { .. }) => unreachable!(),
    }
}
