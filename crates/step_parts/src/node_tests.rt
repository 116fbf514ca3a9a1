//! Tests of nodes, and the values that a node matches.

ghost use Rattle.behaviour_instances.specs.Suited.{SuitsWhere};
ghost use Rattle.behaviour_semantics.specs.Fault.{first_unmet};
ghost use Rattle.behaviour_semantics.specs.Rule.{pairwise, tests_of};
ghost use Rattle.behaviour_tree.specs.BehaviourTerms.{option_profiles, profiles_of};
ghost use Rattle.behaviour_tree.specs.BehaviourView.{terms_of, test_of};
ghost use Rattle.behaviour_tree.specs.Closed.{OccursInTestOption};
ghost use Rattle.behaviour_tree.specs.Over.{AreTermsOf};
ghost use Rattle.behaviour_tree.specs.StateView.{environment_of, pair_profile};
ghost use Rattle.draft_parts.specs.HandedOn.{KeepsData};
ghost use Rattle.lotos_base.specs.Substitution.{binding};
ghost use Rattle.sort_terms.specs.ProfiledTerm.{IsOf};
ghost use Rattle.sort_terms.specs.SortedView.{profiled_in, term_in};
ghost use Rattle.std.specs.Prelude.{◌≡◌, ◌∷◌, [], ℕ, IfOk, map, option_map};
ghost use Rattle.step_parts.specs.StepFaults.{IsStepChecked, kept_number};
ghost use Rattle.term_match.specs.SubstView.{profiled_pairs};

use crate::faults::{At, StepFault};
use behaviour_instances::terms::placed_test;
use behaviour_tree::Test;
use sort_terms::{Deciding, Sorted};

/// Answers nothing where the two terms have one canonical form, or else these forms.
pub fn checked_pair<D: Deciding>(
    left: &Sorted,
    right: &Sorted,
    at: At,
    data: &mut D,
) -> Result<(), StepFault>
    requires left { IsOf (D.known_data data.old).signature (profiled_in left.now) }
    requires right { IsOf (D.known_data data.old).signature (profiled_in right.now) }
    ensures checked { (n : ℕ) → at.node ≡ kept_number n
        → IsStepChecked n (first_unmet (D.canon data.old)
        (record { left = term_in left.now; right = term_in right.now } ∷ [])) result }
    ensures equal { IfOk result (λ _. D.canon data.old (term_in left.now)
        ≡ D.canon data.old (term_in right.now)) }
    ensures same_known { KeepsData D.known_data D.canon data.old data.new }
{
    let left = data.normal(left)?;
    let right = data.normal(right)?;
    if left.same(&right) {
        return Ok(());
    }
    Err(StepFault::Unmet {
        node: at.node,
        left,
        right,
    })
}

/// Answers nothing where there is no test, or it holds with these values for the variables that
/// offers ask for; or else the canonical forms of its sides.
pub fn checked_test<D: Deciding>(
    pairs: &Vec<(u64, Sorted)>,
    test: &Option<Test>,
    at: At,
    data: &mut D,
) -> Result<(), StepFault>
    requires terms { AreTermsOf (D.known_data data.old).signature (option_profiles test.now) }
    requires values { AreTermsOf (D.known_data data.old).signature
        (map pair_profile pairs.now.items) }
    requires suited { SuitsWhere (profiled_pairs pairs.now.items)
        (λ n s. OccursInTestOption n s (option_map test_of test.now)) }
    ensures checked { (n : ℕ) → at.node ≡ kept_number n
        → IsStepChecked n (first_unmet (D.canon data.old)
        (tests_of (binding (environment_of pairs.now.items)) (option_map test_of test.now)))
        result }
    ensures same_known { KeepsData D.known_data D.canon data.old data.new }
{
    match test {
        None => Ok(()),
        Some(test) => {
            let asked = placed_test(pairs, test)?;
            checked_pair(&asked.left, &asked.right, at, data)
        }
    }
}

/// Answers nothing where the values are pairwise equal, or else the canonical forms of the first
/// pair that differs.
pub fn checked_pairs<D: Deciding>(
    left: &[Sorted],
    right: &[Sorted],
    at: At,
    data: &mut D,
) -> Result<(), StepFault>
    requires left { AreTermsOf (D.known_data data.old).signature (profiles_of left.now) }
    requires right { AreTermsOf (D.known_data data.old).signature (profiles_of right.now) }
    ensures checked { (n : ℕ) → at.node ≡ kept_number n
        → IsStepChecked n (first_unmet (D.canon data.old)
        (pairwise (terms_of left.now) (terms_of right.now))) result }
    ensures same_known { KeepsData D.known_data D.canon data.old data.new }
{
    for i in 0..left.len() {
        if i >= right.len() {
            return Ok(());
        }
        checked_pair(&left[i], &right[i], at, data)?;
    }
    Ok(())
}
