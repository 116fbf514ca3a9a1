//! What rules ask of the labels below them.

ghost use Rattle.behaviour_semantics.specs.Behaviour.{sorts_of};
ghost use Rattle.behaviour_semantics.specs.Rule.{
  have_sorts as sorts_had,
  is_exit,
  move_together,
};
ghost use Rattle.behaviour_tree.specs.BehaviourTerms.{profiles_of};
ghost use Rattle.behaviour_tree.specs.BehaviourView.{meet_of, terms_of, variables_of};
ghost use Rattle.behaviour_tree.specs.MoveView.{label_of};
ghost use Rattle.behaviour_tree.specs.Over.{AreTermsOf};
ghost use Rattle.draft_parts.specs.HandedOn.{label_profiles};
ghost use Rattle.lotos_base.specs.Signature.{Signature};
ghost use Rattle.std.specs.Prelude.{◌≡◌};

use behaviour_tree::{Label, Meet};
use draft_parts::meeting;
use draft_parts::meeting::may_meet;
use sort_terms::{Sorted, Variable};

/// Whether both sides of a parallel move together with these labels.
pub fn may_move_together(meet: &Meet, left: &Label, right: &Label) -> bool
    ensures { (signature : Signature) → AreTermsOf signature (label_profiles left.now)
        → AreTermsOf signature (label_profiles right.now)
        → result ≡ move_together signature (meet_of meet.now) (label_of left.now)
        (label_of right.now) }
{
    may_meet(meet, left, right)
}

/// Whether the label is that of an end.
pub fn ends(label: &Label) -> bool
    ensures { result ≡ is_exit (label_of label.now) }
{
    match label {
        Label::Exit(_) => true,
        Label::Gate(_, _) => false,
        Label::Inner => false,
    }
}

/// Whether the values have the sorts of the variables, one by one.
pub fn have_sorts(values: &Vec<Sorted>, variables: &Vec<Variable>) -> bool
    ensures { (signature : Signature) → AreTermsOf signature (profiles_of values.now.items)
        → result ≡ sorts_had signature (terms_of values.now.items)
        (sorts_of (variables_of variables.now.items)) }
{
    meeting::have_sorts(values, variables)
}
