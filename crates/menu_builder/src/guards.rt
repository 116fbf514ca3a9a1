//! The drafts below a guard.

ghost use Rattle.draft_parts.specs.Environments.{IsReadyForPairs, SuitsPairs};
ghost use Rattle.behaviour_semantics.specs.Replacement.{test_with};
ghost use Rattle.behaviour_semantics.specs.WellFormed.{Every};
ghost use Rattle.behaviour_tree.specs.BehaviourView.{test_of};
ghost use Rattle.draft_parts.specs.Lists.{plain_drafts};
ghost use Rattle.draft_parts.specs.Made.{AreThese};
ghost use Rattle.draft_parts.specs.DraftRules.{guarded_draft};
ghost use Rattle.draft_parts.specs.DraftTerms.{HasTermsOf};
ghost use Rattle.sort_terms.specs.SortedView.{profiled_in};
ghost use Rattle.std.specs.Prelude.{◌≡◌, IfOk, Some, filter_map};
ghost use Rattle.lotos_base.specs.Signature.{Signature};
ghost use Rattle.lotos_base.specs.Substitution.{binding};
ghost use Rattle.term_match.specs.ProfiledInstance.{bare_pairs};
ghost use Rattle.term_match.specs.SubstView.{profiled_pairs};

use behaviour_tree::Test;
use draft_parts::environments::placed;
use draft_parts::{Draft, Rule};
use lotos_base::NoMemory;
use sort_terms::Sorted;

/// The drafts of a part below its guard, whose terms get those of the environment.
pub fn guarded_drafts(
    test: &Test,
    environment: &Vec<(u64, Sorted)>,
    parts: Vec<Draft>,
) -> Result<Vec<Draft>, NoMemory>
    requires left { SuitsPairs (profiled_pairs environment.now.items) (profiled_in test.now.left) }
    requires right { SuitsPairs (profiled_pairs environment.now.items)
        (profiled_in test.now.right) }
    ensures { IfOk result (λ made. (signature : Signature)
        → IsReadyForPairs signature (profiled_pairs environment.now.items)
        (profiled_in test.now.left)
        → IsReadyForPairs signature (profiled_pairs environment.now.items)
        (profiled_in test.now.right)
        → Every (HasTermsOf signature) parts.items
        → AreThese signature (filter_map (λ d. Some (guarded_draft
        (test_with (binding (bare_pairs (profiled_pairs environment.now.items)))
        (test_of test.now)) d))
        (plain_drafts parts.items)) made.items) }
{
    let left = placed(environment, &test.left)?;
    let right = placed(environment, &test.right)?;
    Rule::Guarded(&left, &right).apply_to_all(parts)
}
