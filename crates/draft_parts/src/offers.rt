//! The offers of actions: the leaves that they ask for, and their values.

ghost use Rattle.draft_parts.specs.Environments.{AreOffersReady, IsOfferReady};
ghost use Rattle.draft_parts.specs.Offered.{asked_pairs, offered_at};
ghost use Rattle.behaviour_tree.specs.BehaviourTerms.{profiles_of};
ghost use Rattle.behaviour_tree.specs.BehaviourView.{terms_of};
ghost use Rattle.behaviour_tree.specs.Over.{AreTermsOf};
ghost use Rattle.behaviour_tree.specs.StateView.{environment_of};
ghost use Rattle.behaviour_tree.specs.declared.behaviours.Offer.{Offer as OfferValue};
ghost use Rattle.event_offers.specs.Keeping.{KeepsData};
ghost use Rattle.std.specs.Prelude.{◌≡◌, ◌++◌, ◌∷◌, IfOk, List};
ghost use Rattle.lotos_base.specs.Substitution.{binding};
ghost use Rattle.term_match.specs.SubstView.{profiled_pairs};

use crate::environments::{canonical, following, leaf};
use behaviour_tree::Offer;
use lotos_base::NoMemory;
use sort_terms::{Deciding, Sorted};
use std::alloc::Global;

/// The variables that the offers ask for, each with a leaf, numbered from a first one on.
pub fn asked(alloc: Global, offers: &Vec<Offer>, first: u64) -> Result<Vec<(u64, Sorted)>, NoMemory>
    ensures { IfOk result
        (λ made. profiled_pairs made.items ≡ asked_pairs first offers.now.items) }
{
    let mut made = Vec::new(alloc);
    let mut number = first;
    for offer in offers {
        number = push_asked(&mut made, offer, number)?;
    }
    Ok(made)
}

// The pairs with that of one more offer, and the number of the next leaf.
fn push_asked(pairs: &mut Vec<(u64, Sorted)>, offer: &Offer, number: u64) -> Result<u64, NoMemory>
    ensures { IfOk result (λ n. (rest : List OfferValue)
        → profiled_pairs pairs.new.items ++ asked_pairs n rest
        ≡ profiled_pairs pairs.old.items ++ asked_pairs number (offer.now ∷ rest)) }
{
    match offer {
        Offer::Give(_) => Ok(number),
        Offer::Ask(variable) => {
            pairs.push((variable.number, leaf(number, variable.sort)))?;
            following(number)
        }
    }
}

/// The values of the offers under the environment, in canonical form; for each variable that is
/// asked for its leaf.
pub fn offered<D: Deciding>(
    offers: &Vec<Offer>,
    environment: &Vec<(u64, Sorted)>,
    first: u64,
    decider: &mut D,
) -> Result<Vec<Sorted>, NoMemory>
    requires { AreOffersReady (D.known_data decider.old).signature
        (profiled_pairs environment.now.items) offers.now.items }
    ensures same { IfOk result (λ made. terms_of made.items ≡ offered_at (D.canon decider.old)
        (binding (environment_of environment.now.items)) first offers.now.items) }
    ensures is_of { IfOk result
        (λ made. AreTermsOf (D.known_data decider.old).signature (profiles_of made.items)) }
    ensures same_known { KeepsData D.known_data D.canon decider.old decider.new }
{
    let mut made = Vec::with_capacity(*environment.allocator(), offers.len())?;
    let mut number = first;
    for offer in offers {
        number = push_offered(&mut made, offer, environment, number, decider)?;
    }
    Ok(made)
}

// The values with that of one more offer, and the number of the next leaf.
fn push_offered<D: Deciding>(
    values: &mut Vec<Sorted>,
    offer: &Offer,
    environment: &Vec<(u64, Sorted)>,
    number: u64,
    decider: &mut D,
) -> Result<u64, NoMemory>
    requires { IsOfferReady (D.known_data decider.old).signature
        (profiled_pairs environment.now.items) offer.now }
    ensures same { IfOk result (λ n. (rest : List OfferValue) → terms_of values.new.items
        ++ offered_at (D.canon decider.old) (binding (environment_of environment.now.items)) n rest
        ≡ terms_of values.old.items ++ offered_at (D.canon decider.old)
        (binding (environment_of environment.now.items)) number (offer.now ∷ rest)) }
    ensures is_of { IfOk result
        (λ _. AreTermsOf (D.known_data decider.old).signature (profiles_of values.old.items)
        → AreTermsOf (D.known_data decider.old).signature (profiles_of values.new.items)) }
    ensures same_known { KeepsData D.known_data D.canon decider.old decider.new }
{
    match offer {
        Offer::Give(term) => {
            let value = canonical(environment, term, decider)?;
            values.push(value)?;
            Ok(number)
        }
        Offer::Ask(variable) => {
            values.push(leaf(number, variable.sort))?;
            following(number)
        }
    }
}
