//! Labels that agree. Each function carries a law as its contract and does nothing.

ghost use Rattle.certificate_theory.specs.AgreementLaws.{
  AgreementIsMutual,
  ClosedEntriesAreEvents,
  ClosedLabelsAgreeWhereIdentical,
};

use behaviour_semantics::instances::drafts_are_derivations;
use behaviour_semantics::order::at_most_one_menu_is_exact;
use behaviour_semantics::solving::entries_are_solved;
use behaviour_semantics::targets::targets_are_well_formed;
use behaviour_semantics::transition::{moves_are_determined, transitions_are_derived};

/// Labels that agree agree the other way round too.
pub fn agreement_is_mutual()
    ensures { AgreementIsMutual }
{}

/// An entry without variables is one event: it has no conditions, its leaves are canonical, and it
/// leads to one behaviour.
pub fn closed_entries_are_events()
    ensures { ClosedEntriesAreEvents }
{
    transitions_are_derived();
    moves_are_determined();
    drafts_are_derivations();
    entries_are_solved();
    targets_are_well_formed();
    at_most_one_menu_is_exact();
}

/// Labels of entries without variables agree exactly where their values are identical, if the two
/// sides of each equation have one sort.
pub fn closed_labels_agree_where_identical()
    ensures { ClosedLabelsAgreeWhereIdentical }
{
    transitions_are_derived();
    moves_are_determined();
    drafts_are_derivations();
    entries_are_solved();
    targets_are_well_formed();
    at_most_one_menu_is_exact();
}
