//! Strong bisimulations. Each function carries a law as its contract and does nothing.

ghost use Rattle.certificate_theory.specs.BisimulationLaws.{
  AlikeBehavioursMoveAlike,
  PairsUpToAlikeGiveABisimulation,
};

use behaviour_semantics::instances::drafts_are_derivations;
use behaviour_semantics::order::at_most_one_menu_is_exact;
use behaviour_semantics::solving::entries_are_solved;
use behaviour_semantics::targets::targets_are_well_formed;
use behaviour_semantics::transition::{moves_are_determined, transitions_are_derived};

/// Behaviours that are alike, with terms of one sort at the same places, have the same transitions
/// up to equal values and alike targets.
pub fn alike_behaviours_move_alike()
    ensures { AlikeBehavioursMoveAlike }
{
    transitions_are_derived();
    moves_are_determined();
    drafts_are_derivations();
    entries_are_solved();
    targets_are_well_formed();
    at_most_one_menu_is_exact();
}

/// Pairs that are a strong bisimulation up to 'alike' give a strong bisimulation without 'alike':
/// that of all behaviours that chains of alike behaviours join to them.
pub fn pairs_up_to_alike_give_a_bisimulation()
    ensures { PairsUpToAlikeGiveABisimulation }
{
    transitions_are_derived();
    moves_are_determined();
    drafts_are_derivations();
    entries_are_solved();
    targets_are_well_formed();
    at_most_one_menu_is_exact();
}
