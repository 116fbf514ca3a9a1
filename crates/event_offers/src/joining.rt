//! The draft of both sides of a parallel.

ghost use Rattle.behaviour_semantics.specs.Draft.{draft_with};
ghost use Rattle.behaviour_semantics.specs.Join.{both_drafts, join_of_drafts};
ghost use Rattle.behaviour_semantics.specs.Replacement.{test_with};
ghost use Rattle.behaviour_semantics.specs.Draft.{label_with};
ghost use Rattle.behaviour_semantics.specs.Rule.{label_values, pairwise};
ghost use Rattle.behaviour_semantics.specs.Shape.{both_sides as both_shape};
ghost use Rattle.behaviour_tree.specs.BehaviourTerms.{profiles_of};
ghost use Rattle.behaviour_tree.specs.BehaviourView.{terms_of};
ghost use Rattle.behaviour_tree.specs.MoveView.{label_of, shape_of};
ghost use Rattle.behaviour_tree.specs.Over.{AreTermsOf};
ghost use Rattle.event_offers.specs.OfferView.{
  condition_profiles,
  conditions_of,
  label_profiles,
  plain_draft,
};
ghost use Rattle.event_offers.specs.Offers.{IsDraftOver};
ghost use Rattle.event_offers.specs.Renaming.{
  pair_instance,
  profiled_renaming_of,
  renaming_of,
};
ghost use Rattle.std.specs.Option.{option_map};
ghost use Rattle.std.specs.Prelude.{◌≡◌, ◌++◌, IfOk, IfSome, map, zip};
ghost use Rattle.lotos_base.specs.Signature.{Signature};
ghost use Rattle.lotos_base.specs.Substitution.{substituted};
ghost use Rattle.term_match.specs.ProfiledInstance.{profiled_instance};

use crate::copies::draft_copy;
use crate::drafts::Draft;
use crate::labels::{alike, equations, values};
use crate::lists::appended;
use crate::renaming::Renaming;
use behaviour_tree::boxes::shared;
use behaviour_tree::{Label, Shape};
use lotos_base::NoMemory;
use sort_terms::Sorted;
use std::alloc::Global;

/// The draft of both sides of a parallel, or `None` exactly where their labels differ in kind,
/// gate, number of values or a value's sort, or are inner events. It has the shape `Both`, the
/// label of the left side, its leaves and then those of the right, and as conditions those of the
/// left side, those of the right, and one equation for each pair of values. The numbers of the
/// right variables are raised by the number of left leaves.
pub fn join_offers(left: &Draft, right: &Draft) -> Result<Option<Draft>, NoMemory>
    ensures joined { IfOk result (λ o. (signature : Signature)
        → AreTermsOf signature (label_profiles left.now.label)
        → AreTermsOf signature (label_profiles right.now.label)
        → option_map plain_draft o
        ≡ join_of_drafts signature (plain_draft left.now) (plain_draft right.now)) }
    ensures over { IfOk result (λ o. IfSome o (λ made. (signature : Signature)
        → IsDraftOver signature left.now → IsDraftOver signature right.now
        → IsDraftOver signature made)) }
{
    if !alike(&left.label, &right.label) {
        return Ok(None);
    }
    let renaming = Renaming::Raised {
        from: 0,
        by: left.leaves.len() as u64,
    };
    let made = both_sides(left, right, &renaming)?;
    Ok(Some(made))
}

/// The draft of both sides, with other numbers for the right variables.
pub fn both_sides(left: &Draft, right: &Draft, renaming: &Renaming) -> Result<Draft, NoMemory>
    ensures same { IfOk result (λ made. plain_draft made ≡ both_drafts (plain_draft left.now)
        (draft_with (renaming_of renaming.now) (plain_draft right.now))) }
    ensures values { IfOk result
        (λ made. label_profiles made.label ≡ label_profiles left.now.label) }
    ensures leaves { IfOk result (λ made. profiles_of made.leaves.items
        ≡ profiles_of left.now.leaves.items
        ++ map (profiled_instance (profiled_renaming_of renaming.now))
        (profiles_of right.now.leaves.items)) }
    ensures conditions { IfOk result (λ made. condition_profiles made.conditions.items
        ≡ condition_profiles left.now.conditions.items
        ++ map (pair_instance (profiled_renaming_of renaming.now))
        (condition_profiles right.now.conditions.items)
        ++ zip (label_profiles left.now.label)
        (map (profiled_instance (profiled_renaming_of renaming.now))
        (label_profiles right.now.label))) }
{
    let first = draft_copy(left)?;
    let second = draft_copy(right)?;
    both_taken(first, second, renaming)
}

/// The draft of both sides, which are taken, with other numbers for the right variables. What the
/// left side has stays where it is.
pub fn both_taken(left: Draft, right: Draft, renaming: &Renaming) -> Result<Draft, NoMemory>
    ensures same { IfOk result (λ made. plain_draft made ≡ both_drafts (plain_draft left)
        (draft_with (renaming_of renaming.now) (plain_draft right))) }
    ensures values { IfOk result
        (λ made. label_profiles made.label ≡ label_profiles left.label) }
    ensures leaves { IfOk result (λ made. profiles_of made.leaves.items
        ≡ profiles_of left.leaves.items
        ++ map (profiled_instance (profiled_renaming_of renaming.now))
        (profiles_of right.leaves.items)) }
    ensures conditions { IfOk result (λ made. condition_profiles made.conditions.items
        ≡ condition_profiles left.conditions.items
        ++ map (pair_instance (profiled_renaming_of renaming.now))
        (condition_profiles right.conditions.items)
        ++ zip (label_profiles left.label)
        (map (profiled_instance (profiled_renaming_of renaming.now))
        (label_profiles right.label))) }
{
    let alloc = *left.leaves.allocator();
    let met = met_values(alloc, &left.label, &right.label, renaming)?;
    let shape = both_shapes(alloc, left.shape, right.shape)?;
    let leaves = both_leaves(left.leaves, right.leaves, renaming)?;
    let conditions = both_conditions(left.conditions, right.conditions, met, renaming)?;
    Ok(Draft {
        shape,
        label: left.label,
        leaves,
        conditions,
    })
}

// The shape of both sides.
fn both_shapes(alloc: Global, left: Shape, right: Shape) -> Result<Shape, NoMemory>
    ensures { IfOk result (λ s. shape_of s ≡ both_shape (shape_of left) (shape_of right)) }
{
    let first = shared(alloc, left)?;
    let second = shared(alloc, right)?;
    Ok(Shape::Both(first, second))
}

// The leaves of the left side and then those of the right.
fn both_leaves(
    left: Vec<Sorted>,
    right: Vec<Sorted>,
    renaming: &Renaming,
) -> Result<Vec<Sorted>, NoMemory>
    ensures same { IfOk result (λ made. terms_of made.items ≡ terms_of left.items
        ++ map (substituted (renaming_of renaming.now)) (terms_of right.items)) }
    ensures profiles { IfOk result (λ made. profiles_of made.items ≡ profiles_of left.items
        ++ map (profiled_instance (profiled_renaming_of renaming.now))
        (profiles_of right.items)) }
{
    let second = renaming.all_changed(right)?;
    appended(left, second)
}

// One equation for each pair of values.
fn met_values(
    alloc: Global,
    left: &Label,
    right: &Label,
    renaming: &Renaming,
) -> Result<Vec<(Sorted, Sorted)>, NoMemory>
    ensures same { IfOk result (λ made. conditions_of made.items
        ≡ pairwise (label_values (label_of left.now))
        (label_values (label_with (renaming_of renaming.now) (label_of right.now)))) }
    ensures profiles { IfOk result (λ made. condition_profiles made.items
        ≡ zip (label_profiles left.now)
        (map (profiled_instance (profiled_renaming_of renaming.now))
        (label_profiles right.now))) }
{
    let label = renaming.label(right)?;
    equations(alloc, values(left), values(&label))
}

// The conditions of the left side, those of the right, and those that are met.
fn both_conditions(
    left: Vec<(Sorted, Sorted)>,
    right: Vec<(Sorted, Sorted)>,
    met: Vec<(Sorted, Sorted)>,
    renaming: &Renaming,
) -> Result<Vec<(Sorted, Sorted)>, NoMemory>
    ensures same { IfOk result (λ made. conditions_of made.items ≡ conditions_of left.items
        ++ map (test_with (renaming_of renaming.now)) (conditions_of right.items)
        ++ conditions_of met.items) }
    ensures profiles { IfOk result (λ made. condition_profiles made.items
        ≡ condition_profiles left.items
        ++ map (pair_instance (profiled_renaming_of renaming.now)) (condition_profiles right.items)
        ++ condition_profiles met.items) }
{
    let second = renaming.changed_conditions(right)?;
    let sides = appended(left, second)?;
    appended(sides, met)
}
