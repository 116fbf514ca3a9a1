//! The draft of an `exit`.

ghost use Rattle.draft_parts.specs.Environments.{AreResultsReady, IsResultReady};
ghost use Rattle.draft_parts.specs.Offered.{open_leaves, results_at};
ghost use Rattle.draft_parts.specs.OpenDrafts.{ended_with};
ghost use Rattle.behaviour_tree.specs.BehaviourTerms.{profiles_of};
ghost use Rattle.behaviour_tree.specs.BehaviourView.{terms_of};
ghost use Rattle.behaviour_tree.specs.Over.{AreTermsOf};
ghost use Rattle.behaviour_tree.specs.StateView.{environment_of};
ghost use Rattle.behaviour_tree.specs.declared.behaviours.ExitValue.{ExitValue as ExitResult};
ghost use Rattle.event_offers.specs.Keeping.{KeepsData};
ghost use Rattle.event_offers.specs.OfferView.{plain_draft};
ghost use Rattle.draft_parts.specs.DraftTerms.{HasTermsOf};
ghost use Rattle.std.specs.Prelude.{◌≡◌, ◌++◌, ◌∷◌, IfOk, List};
ghost use Rattle.lotos_base.specs.Substitution.{binding};
ghost use Rattle.term_match.specs.SubstView.{profiled_pairs};

use crate::environments::{canonical, following, leaf};
use behaviour_tree::{ExitValue, Label, Shape};
use event_offers::Draft;
use lotos_base::NoMemory;
use sort_terms::{Deciding, Sorted};
use std::alloc::Global;

/// The draft of an `exit` with these values under the environment, whose leaves are numbered from a
/// first one on.
pub fn exit_draft<D: Deciding>(
    results: &Vec<ExitValue>,
    environment: &Vec<(u64, Sorted)>,
    first: u64,
    decider: &mut D,
) -> Result<Draft, NoMemory>
    requires { AreResultsReady (D.known_data decider.old).signature
        (profiled_pairs environment.now.items) results.now.items }
    ensures same { IfOk result (λ made. plain_draft made ≡ ended_with (D.canon decider.old)
        results.now.items (profiled_pairs environment.now.items) first) }
    ensures over { IfOk result (λ made. HasTermsOf (D.known_data decider.old).signature made) }
    ensures same_known { KeepsData D.known_data D.canon decider.old decider.new }
{
    let alloc = *environment.allocator();
    let leaves = left_open(alloc, results, first)?;
    let values = resulting(results, environment, first, decider)?;
    Ok(Draft {
        shape: Shape::Quit,
        label: Label::Exit(values),
        leaves,
        conditions: Vec::new(alloc),
    })
}

// The leaves of the values that are left open, numbered from a first one on.
fn left_open(alloc: Global, results: &Vec<ExitValue>, first: u64) -> Result<Vec<Sorted>, NoMemory>
    ensures { IfOk result
        (λ made. profiles_of made.items ≡ open_leaves first results.now.items) }
{
    let mut made = Vec::new(alloc);
    let mut number = first;
    for result in results {
        number = push_open(&mut made, result, number)?;
    }
    Ok(made)
}

// The leaves with that of one more value, and the number of the next one.
fn push_open(leaves: &mut Vec<Sorted>, value: &ExitValue, number: u64) -> Result<u64, NoMemory>
    ensures { IfOk result (λ n. (rest : List ExitResult)
        → profiles_of leaves.new.items ++ open_leaves n rest
        ≡ profiles_of leaves.old.items ++ open_leaves number (value.now ∷ rest)) }
{
    match value {
        ExitValue::Give(_) => Ok(number),
        ExitValue::Any(sort) => {
            leaves.push(leaf(number, *sort))?;
            following(number)
        }
    }
}

// The values under the environment, in canonical form; for each that is left open its leaf.
fn resulting<D: Deciding>(
    results: &Vec<ExitValue>,
    environment: &Vec<(u64, Sorted)>,
    first: u64,
    decider: &mut D,
) -> Result<Vec<Sorted>, NoMemory>
    requires { AreResultsReady (D.known_data decider.old).signature
        (profiled_pairs environment.now.items) results.now.items }
    ensures same { IfOk result (λ made. terms_of made.items ≡ results_at (D.canon decider.old)
        (binding (environment_of environment.now.items)) first results.now.items) }
    ensures is_of { IfOk result
        (λ made. AreTermsOf (D.known_data decider.old).signature (profiles_of made.items)) }
    ensures same_known { KeepsData D.known_data D.canon decider.old decider.new }
{
    let mut made = Vec::with_capacity(*environment.allocator(), results.len())?;
    let mut number = first;
    for result in results {
        number = push_result(&mut made, result, environment, number, decider)?;
    }
    Ok(made)
}

// The values with one more, and the number of the next leaf.
fn push_result<D: Deciding>(
    values: &mut Vec<Sorted>,
    value: &ExitValue,
    environment: &Vec<(u64, Sorted)>,
    number: u64,
    decider: &mut D,
) -> Result<u64, NoMemory>
    requires { IsResultReady (D.known_data decider.old).signature
        (profiled_pairs environment.now.items) value.now }
    ensures same { IfOk result (λ n. (rest : List ExitResult) → terms_of values.new.items
        ++ results_at (D.canon decider.old) (binding (environment_of environment.now.items)) n rest
        ≡ terms_of values.old.items ++ results_at (D.canon decider.old)
        (binding (environment_of environment.now.items)) number (value.now ∷ rest)) }
    ensures is_of { IfOk result
        (λ _. AreTermsOf (D.known_data decider.old).signature (profiles_of values.old.items)
        → AreTermsOf (D.known_data decider.old).signature (profiles_of values.new.items)) }
    ensures same_known { KeepsData D.known_data D.canon decider.old decider.new }
{
    match value {
        ExitValue::Give(term) => {
            let made = canonical(environment, term, decider)?;
            values.push(made)?;
            Ok(number)
        }
        ExitValue::Any(sort) => {
            values.push(leaf(number, *sort))?;
            following(number)
        }
    }
}
