//! What values for the variables of an entry make of it.

ghost use Rattle.behaviour_semantics.specs.Behaviour.{Test};
ghost use Rattle.behaviour_semantics.specs.Derives.{leaves_in};
ghost use Rattle.behaviour_semantics.specs.Replacement.{test_with};
ghost use Rattle.behaviour_semantics.specs.Rule.{AllHold};
ghost use Rattle.behaviour_semantics.specs.WellFormed.{Every};
ghost use Rattle.behaviour_tree.specs.BehaviourTerms.{profiles_of};
ghost use Rattle.behaviour_tree.specs.BehaviourView.{terms_of};
ghost use Rattle.behaviour_tree.specs.MoveView.{derivation_of};
ghost use Rattle.behaviour_tree.specs.Over.{AreTermsOf};
ghost use Rattle.event_offers.specs.Instances.{
  AreValuesOver,
  canonical_derivation,
  IsValued,
  IsValuedPair,
  unmet_among,
};
ghost use Rattle.event_offers.specs.Keeping.{KeepsData};
ghost use Rattle.event_offers.specs.OfferView.{
  condition_of,
  condition_profiles,
  conditions_of,
  plain_entry,
};
ghost use Rattle.event_offers.specs.Offers.{HaveOneSort, IsEntryOf};
ghost use Rattle.sort_terms.specs.ProfiledTerm.{IsOf};
ghost use Rattle.sort_terms.specs.SortedView.{profiled_in, term_in};
ghost use Rattle.std.specs.Option.{option_map};
ghost use Rattle.std.specs.Prelude.{◌≡◌, ◌⊎◌, IfOk, None, map};
ghost use Rattle.lotos_base.specs.Equation.{HasSortedSides};
ghost use Rattle.lotos_base.specs.Substitution.{substituted};

use crate::drafts::Entry;
use crate::valued::Values;
use behaviour_tree::Derivation;
use lotos_base::NoMemory;
use sort_terms::{Deciding, Sorted};

impl Entry {
    /// The canonical forms of the two sides of the first condition that fails with these values for
    /// the variables, by their numbers, or `None` exactly where all conditions hold. (That it is
    /// `None` where all hold is told of data whose equations have sides of one sort, and of an
    /// entry whose conditions have.)
    pub fn unmet<D: Deciding>(
        &self,
        values: &[Sorted],
        decider: &mut D,
    ) -> Result<Option<(Sorted, Sorted)>, NoMemory>
        requires over { IsEntryOf (D.known_data decider.old).signature self.now }
        requires values { AreValuesOver (D.known_data decider.old).signature self.now.vars.items
            values.now }
        ensures first { IfOk result (λ o. option_map condition_of o
            ≡ unmet_among (D.canon decider.old) (leaves_in (terms_of values.now))
            (conditions_of self.now.conditions.items)) }
        ensures met { IfOk result (λ o. o ≡ None → AllHold (D.known_data decider.old)
            (map (test_with (leaves_in (terms_of values.now)))
            (conditions_of self.now.conditions.items))) }
        ensures none { IfOk result (λ o. HasSortedSides (D.known_data decider.old)
            ⊎ HaveOneSort (condition_profiles self.now.conditions.items)
            → AllHold (D.known_data decider.old)
            (map (test_with (leaves_in (terms_of values.now)))
            (conditions_of self.now.conditions.items)) → o ≡ None) }
        ensures same_known { KeepsData D.known_data D.canon decider.old decider.new }
    {
        first_unmet(&self.conditions, values, decider)
    }

    /// The entry's derivation with these values for its variables, its leaves in canonical form.
    pub fn derivation<D: Deciding>(
        &self,
        values: &[Sorted],
        decider: &mut D,
    ) -> Result<Derivation, NoMemory>
        requires over { IsEntryOf (D.known_data decider.old).signature self.now }
        requires values { AreValuesOver (D.known_data decider.old).signature self.now.vars.items
            values.now }
        ensures same { IfOk result (λ d. derivation_of d
            ≡ canonical_derivation (D.canon decider.old) (plain_entry self.now)
            (terms_of values.now)) }
        ensures is_of { IfOk result
            (λ d. AreTermsOf (D.known_data decider.old).signature (profiles_of d.leaves.items)) }
        ensures same_known { KeepsData D.known_data D.canon decider.old decider.new }
    {
        let shape = self.shape.copy()?;
        let leaves = instances(&self.leaves, values, decider)?;
        Ok(Derivation { shape, leaves })
    }
}

// The canonical form of the term with the values put in.
fn instance<D: Deciding>(
    term: &Sorted,
    values: &[Sorted],
    decider: &mut D,
) -> Result<Sorted, NoMemory>
    requires { IsValued (D.known_data decider.old).signature values.now (profiled_in term.now) }
    ensures same { IfOk result (λ t. term_in t
        ≡ D.canon decider.old (substituted (leaves_in (terms_of values.now)) (term_in term.now))) }
    ensures is_of { IfOk result (λ t. IsOf (D.known_data decider.old).signature (profiled_in t)) }
    ensures same_known { KeepsData D.known_data D.canon decider.old decider.new }
{
    let made = Values::Listed(values).put_into(term)?;
    decider.normal(&made)
}

// The same of each term of a list.
fn instances<D: Deciding>(
    terms: &Vec<Sorted>,
    values: &[Sorted],
    decider: &mut D,
) -> Result<Vec<Sorted>, NoMemory>
    requires { Every (IsValued (D.known_data decider.old).signature values.now)
        (profiles_of terms.now.items) }
    ensures same { IfOk result (λ made. terms_of made.items
        ≡ map (λ t. D.canon decider.old (substituted (leaves_in (terms_of values.now)) t))
        (terms_of terms.now.items)) }
    ensures is_of { IfOk result
        (λ made. AreTermsOf (D.known_data decider.old).signature (profiles_of made.items)) }
    ensures same_known { KeepsData D.known_data D.canon decider.old decider.new }
{
    let mut made = Vec::with_capacity(*terms.allocator(), terms.len())?;
    for term in terms {
        made.push(instance(term, values, decider)?)?;
    }
    Ok(made)
}

// The canonical forms of the two sides of the first condition that fails with the values.
fn first_unmet<D: Deciding>(
    conditions: &Vec<(Sorted, Sorted)>,
    values: &[Sorted],
    decider: &mut D,
) -> Result<Option<(Sorted, Sorted)>, NoMemory>
    requires { Every (IsValuedPair (D.known_data decider.old).signature values.now)
        (condition_profiles conditions.now.items) }
    ensures first { IfOk result (λ o. option_map condition_of o
        ≡ unmet_among (D.canon decider.old) (leaves_in (terms_of values.now))
        (conditions_of conditions.now.items)) }
    ensures same_known { KeepsData D.known_data D.canon decider.old decider.new }
{
    for condition in conditions {
        let left = instance(&condition.0, values, decider)?;
        let right = instance(&condition.1, values, decider)?;
        if !left.same(&right) {
            return Ok(Some((left, right)));
        }
    }
    Ok(None)
}
