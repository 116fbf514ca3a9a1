//! The label of an instance of an entry.

ghost use Rattle.behaviour_semantics.specs.Derives.{leaves_in};
ghost use Rattle.behaviour_semantics.specs.Menu.{label_at};
ghost use Rattle.behaviour_semantics.specs.Solving.{label_in};
ghost use Rattle.behaviour_semantics.specs.WellFormed.{Every};
ghost use Rattle.behaviour_tree.specs.BehaviourTerms.{profiles_of};
ghost use Rattle.behaviour_tree.specs.BehaviourView.{terms_of};
ghost use Rattle.behaviour_tree.specs.MoveView.{label_of};
ghost use Rattle.event_offers.specs.Instances.{AreValuesOver, IsValued};
ghost use Rattle.event_offers.specs.Keeping.{KeepsData};
ghost use Rattle.event_offers.specs.OfferView.{plain_entry};
ghost use Rattle.event_offers.specs.Offers.{IsEntryOf};
ghost use Rattle.lotos_base.specs.Substitution.{substituted};
ghost use Rattle.sort_terms.specs.SortedView.{profiled_in, term_in};
ghost use Rattle.std.specs.Prelude.{◌≡◌, IfOk, map};

use behaviour_tree::Label;
use event_offers::Entry;
use event_offers::valued::Values;
use lotos_base::NoMemory;
use sort_terms::{Deciding, Sorted};

/// The label of the entry with these values for its variables, in canonical form.
pub fn instance_label<D: Deciding>(
    entry: &Entry,
    values: &[Sorted],
    decider: &mut D,
) -> Result<Label, NoMemory>
    requires over { IsEntryOf (D.known_data decider.old).signature entry.now }
    requires values { AreValuesOver (D.known_data decider.old).signature entry.now.vars.items
        values.now }
    ensures same { IfOk result (λ label. label_of label
        ≡ label_in (D.canon decider.old) (label_at (plain_entry entry.now) (terms_of values.now))) }
    ensures same_known { KeepsData D.known_data D.canon decider.old decider.new }
{
    match &entry.label {
        Label::Inner => Ok(Label::Inner),
        Label::Gate(gate, terms) => Ok(Label::Gate(*gate, instances(terms, values, decider)?)),
        Label::Exit(terms) => Ok(Label::Exit(instances(terms, values, decider)?)),
    }
}

// The canonical form of each of the terms with the values put in.
fn instances<D: Deciding>(
    terms: &Vec<Sorted>,
    values: &[Sorted],
    decider: &mut D,
) -> Result<Vec<Sorted>, NoMemory>
    requires { Every (IsValued (D.known_data decider.old).signature values.now)
        (profiles_of terms.now.items) }
    ensures same { IfOk result (λ made. terms_of made.items
        ≡ map (λ t. D.canon decider.old (substituted (leaves_in (terms_of values.now)) t))
        (terms_of terms.now.items)) }
    ensures same_known { KeepsData D.known_data D.canon decider.old decider.new }
{
    let mut made = Vec::with_capacity(*terms.allocator(), terms.len())?;
    for term in terms {
        made.push(instance(term, values, decider)?)?;
    }
    Ok(made)
}

// The canonical form of the term with the values put in.
fn instance<D: Deciding>(
    term: &Sorted,
    values: &[Sorted],
    decider: &mut D,
) -> Result<Sorted, NoMemory>
    requires { IsValued (D.known_data decider.old).signature values.now (profiled_in term.now) }
    ensures same { IfOk result (λ t. term_in t
        ≡ D.canon decider.old (substituted (leaves_in (terms_of values.now)) (term_in term.now))) }
    ensures same_known { KeepsData D.known_data D.canon decider.old decider.new }
{
    let made = Values::Listed(values).put_into(term)?;
    decider.normal(&made)
}
