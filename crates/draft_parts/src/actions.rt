//! The draft of an action.

ghost use Rattle.draft_parts.specs.Environments.{AreOffersReady, ArePairsOf, SuitsTest};
ghost use Rattle.draft_parts.specs.Offered.{asked_pairs};
ghost use Rattle.draft_parts.specs.OpenDrafts.{acted, HasTests};
ghost use Rattle.behaviour_semantics.specs.Rule.{tests_of};
ghost use Rattle.behaviour_tree.specs.BehaviourView.{test_of};
ghost use Rattle.behaviour_tree.specs.StateView.{environment_of};
ghost use Rattle.event_offers.specs.Keeping.{KeepsData};
ghost use Rattle.event_offers.specs.OfferView.{condition_profiles, conditions_of, plain_draft};
ghost use Rattle.event_offers.specs.Offers.{AreConditionsOf};
ghost use Rattle.draft_parts.specs.DraftTerms.{HasTermsOf};
ghost use Rattle.std.specs.Option.{option_map};
ghost use Rattle.std.specs.Prelude.{◌≡◌, ◌++◌, IfOk};
ghost use Rattle.lotos_base.specs.Signature.{Signature};
ghost use Rattle.lotos_base.specs.Substitution.{binding};
ghost use Rattle.term_match.specs.ProfiledInstance.{bare_pairs};
ghost use Rattle.term_match.specs.SubstView.{profiled_pairs};

use crate::environments::{extended, paired_terms, placed};
use crate::offers::{asked, offered};
use behaviour_tree::{Label, Offer, Shape, Test};
use event_offers::Draft;
use lotos_base::NoMemory;
use sort_terms::{Deciding, Sorted};

/// The draft of an action at a gate under the environment, whose leaves are numbered from a first
/// one on.
pub fn action_draft<D: Deciding>(
    gate: u32,
    offers: &Vec<Offer>,
    test: &Option<Test>,
    environment: &Vec<(u64, Sorted)>,
    first: u64,
    decider: &mut D,
) -> Result<Draft, NoMemory>
    requires offers { AreOffersReady (D.known_data decider.old).signature
        (profiled_pairs environment.now.items) offers.now.items }
    requires test { SuitsTest (asked_pairs first offers.now.items
        ++ profiled_pairs environment.now.items) test.now }
    ensures same { IfOk result (λ made. plain_draft made ≡ acted (D.canon decider.old) gate
        offers.now.items test.now (profiled_pairs environment.now.items) first) }
    ensures over { IfOk result (λ made.
        ArePairsOf (D.known_data decider.old).signature (asked_pairs first offers.now.items
        ++ profiled_pairs environment.now.items)
        → HasTests (D.known_data decider.old).signature test.now
        → HasTermsOf (D.known_data decider.old).signature made) }
    ensures same_known { KeepsData D.known_data D.canon decider.old decider.new }
{
    let bound = asked(*environment.allocator(), offers, first)?;
    let leaves = paired_terms(&bound)?;
    let values = offered(offers, environment, first, decider)?;
    let conditions = asked_conditions(test, bound, environment)?;
    Ok(Draft {
        shape: Shape::Act,
        label: Label::Gate(gate, values),
        leaves,
        conditions,
    })
}

// The condition that a test asks under the environment with these pairs before it, if there is a
// test. Without a test the values stay where they are.
fn asked_conditions(
    test: &Option<Test>,
    pairs: Vec<(u64, Sorted)>,
    environment: &Vec<(u64, Sorted)>,
) -> Result<Vec<(Sorted, Sorted)>, NoMemory>
    requires { SuitsTest (profiled_pairs pairs.items ++ profiled_pairs environment.now.items)
        test.now }
    ensures same { IfOk result (λ made. conditions_of made.items ≡ tests_of (binding (bare_pairs
        (profiled_pairs pairs.items ++ profiled_pairs environment.now.items)))
        (option_map test_of test.now)) }
    ensures over { IfOk result (λ made. (signature : Signature)
        → ArePairsOf signature (profiled_pairs pairs.items
        ++ profiled_pairs environment.now.items)
        → HasTests signature test.now
        → AreConditionsOf signature (condition_profiles made.items)) }
{
    match test {
        None => Ok(Vec::new(*environment.allocator())),
        Some(_) => {
            let inner = extended(pairs, environment)?;
            conditions_under(test, &inner)
        }
    }
}

// The condition that a test asks under the environment, if there is a test.
fn conditions_under(
    test: &Option<Test>,
    environment: &Vec<(u64, Sorted)>,
) -> Result<Vec<(Sorted, Sorted)>, NoMemory>
    requires { SuitsTest (profiled_pairs environment.now.items) test.now }
    ensures same { IfOk result (λ made. conditions_of made.items
        ≡ tests_of (binding (environment_of environment.now.items))
        (option_map test_of test.now)) }
    ensures over { IfOk result (λ made. (signature : Signature)
        → ArePairsOf signature (profiled_pairs environment.now.items)
        → HasTests signature test.now
        → AreConditionsOf signature (condition_profiles made.items)) }
{
    let mut made = Vec::new(*environment.allocator());
    match test {
        None => Ok(made),
        Some(test) => {
            let left = placed(environment, &test.left)?;
            let right = placed(environment, &test.right)?;
            made.push((left, right))?;
            Ok(made)
        }
    }
}
