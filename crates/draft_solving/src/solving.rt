//! Solving: conditions that fix a variable are used up, and the rest is an entry of a menu.

ghost use Rattle.behaviour_semantics.specs.Draft.{label_with};
ghost use Rattle.behaviour_semantics.specs.DraftOrder.{LeavesMeet};
ghost use Rattle.behaviour_semantics.specs.Solving.{canonical, entry_of as left_entry, SolvesTo};
ghost use Rattle.behaviour_tree.specs.Over.{AreTermsOf};
ghost use Rattle.behaviour_tree.specs.BehaviourTerms.{profiles_of};
ghost use Rattle.behaviour_tree.specs.MoveView.{label_of};
ghost use Rattle.draft_solving.specs.Conditions.{AreOpen, GiveNoneBefore};
ghost use Rattle.draft_solving.specs.Putting.{tests_in};
ghost use Rattle.draft_solving.specs.Way.{IsUnderWay};
ghost use Rattle.lotos_base.specs.Canon.{IsCanon};
ghost use Rattle.lotos_base.specs.Equation.{Data};
ghost use Rattle.event_offers.specs.Keeping.{KeepsData};
ghost use Rattle.event_offers.specs.OfferView.{
  condition_profiles,
  conditions_of,
  label_profiles,
  plain_draft,
  plain_entry,
};
ghost use Rattle.event_offers.specs.Offers.{AreConditionsOf, IsDraftOver, IsEntryOver};
ghost use Rattle.event_offers.specs.Renaming.{profiled_renaming_of, renaming_of};
ghost use Rattle.std.specs.Option.{option_map};
ghost use Rattle.std.specs.Prelude.{
  ◌≡◌,
  IfNone,
  IfOk,
  IfSome,
  IsFalse,
  IsTrue,
  length,
  List,
  map,
  None,
  Some,
};
ghost use Rattle.lotos_base.specs.Signature.{Signature};
ghost use Rattle.lotos_base.specs.Term.{Term};
ghost use Rattle.term_match.specs.ProfiledInstance.{profiled_instance};

use crate::changing::canonical_draft;
use crate::naming::{own_names, turned};
use crate::places::Places;
use crate::putting::{Work, put_everywhere};
use crate::replacements::{given_at, has_closed, next_place};
use crate::spreading::{gathered, spread};
use crate::variables::{places, sorts_by_number, sorts_left};
use behaviour_tree::Label;
use event_offers::drafts::{Draft, Entry};
use event_offers::renaming::Renaming;
use lotos_base::NoMemory;
use sort_terms::Deciding;

/// The entry that solving leaves of the draft, or `None` exactly where it meets a condition
/// without variables whose sides differ. All terms are put in canonical form, and conditions with
/// identical sides are dropped. The first condition with a bare variable that its other side lacks
/// is used: of two bare variables the later is replaced by the earlier, otherwise a bare left side
/// before a bare right one, everywhere, and the work begins again. The variables that are left are
/// numbered from 0 in the order of their numbers.
pub fn solve<D: Deciding>(draft: Draft, decider: &mut D) -> Result<Option<Entry>, NoMemory>
    requires { IsDraftOver (D.known_data decider.old).signature draft }
    ensures solved { IfOk result
        (λ o. SolvesTo (D.canon decider.old) (plain_draft draft) (option_map plain_entry o)) }
    ensures nothing { IfOk result (λ o. IfNone o ((leaves : List Term)
        → LeavesMeet (D.known_data decider.old) (plain_draft draft) leaves → ⊥)) }
    ensures over { IfOk result (λ o. IfSome o
        (λ entry. IsEntryOver (D.known_data decider.old).signature entry)) }
    ensures same_known { KeepsData D.known_data D.canon decider.old decider.new }
{
    let now = canonical_draft(draft, decider)?;
    if has_closed(&now.conditions) {
        return Ok(None);
    }
    if next_place(&now.conditions, 0) < now.conditions.len() {
        return solve_by_steps(now, decider);
    }
    let entry = entry_left(now)?;
    Ok(Some(entry))
}

// The same of a draft in canonical form: one replacement after another is put in where its variable
// stands.
fn solve_by_steps<D: Deciding>(draft: Draft, decider: &mut D) -> Result<Option<Entry>, NoMemory>
    requires over { IsDraftOver (D.known_data decider.old).signature draft }
    requires settled { canonical (D.canon decider.old) (plain_draft draft) ≡ plain_draft draft }
    requires none_unmet { AreOpen (conditions_of draft.conditions.items) }
    ensures solved { IfOk result
        (λ o. SolvesTo (D.canon decider.old) (plain_draft draft) (option_map plain_entry o)) }
    ensures over { IfOk result (λ o. IfSome o
        (λ entry. IsEntryOver (D.known_data decider.old).signature entry)) }
    ensures same_known { KeepsData D.known_data D.canon decider.old decider.new }
{
    let mut work = begun(draft)?;
    if !used_up(&mut work, decider)? {
        return Ok(None);
    }
    let entry = entry_left(finished(work)?)?;
    Ok(Some(entry))
}

// The terms of the draft, each variable named by its own number.
fn begun(draft: Draft) -> Result<Work, NoMemory>
    ensures draft { IfOk result (λ work. work.draft ≡ draft) }
    ensures begun { IfOk result (λ work. (data_ : Data) (canon : Term → Term)
        → IsCanon data_ canon → IsDraftOver data_.signature draft
        → canonical canon (plain_draft draft) ≡ plain_draft draft
        → AreOpen (conditions_of draft.conditions.items) → IsUnderWay data_ canon work) }
{
    let alloc = *draft.leaves.allocator();
    let spread = spread(&draft)?;
    let names = own_names(alloc, draft.leaves.len())?;
    let places = Places::of(alloc, draft.leaves.len(), &spread)?;
    Ok(Work {
        draft,
        spread,
        names,
        places,
        next: 0,
    })
}

// Puts in what the conditions give, one replacement after another. `false` where a condition is
// left without variables whose sides differ.
fn used_up<D: Deciding>(work: &mut Work, decider: &mut D) -> Result<bool, NoMemory>
    requires { IsUnderWay (D.known_data decider.old) (D.canon decider.old) work.old }
    ensures way { IfOk result (λ b. IsTrue b
        → IsUnderWay (D.known_data decider.old) (D.canon decider.old) work.new) }
    ensures nothing_left { IfOk result (λ b. IsTrue b
        → GiveNoneBefore (length (tests_in work.new)) (tests_in work.new)) }
    ensures nothing { IfOk result (λ b. IsFalse b
        → SolvesTo (D.canon decider.old) (plain_draft work.old.draft) None) }
    ensures draft { work.new.draft ≡ work.old.draft }
    ensures same_known { KeepsData D.known_data D.canon decider.old decider.new }
{
    'solving: loop {
        work.next = next_place(&work.spread, work.next);
        let given = given_at(&work.spread, work.next)?;
        match given {
            None => return Ok(true),
            Some(given) => {
                let found = turned(given, &mut work.names, &work.places);
                if !put_everywhere(work, &found, decider)? {
                    return Ok(false);
                }
            }
        }
    }
}

// The draft with the terms that are left, its variables by their names.
fn finished(work: Work) -> Result<Draft, NoMemory>
    ensures finished { IfOk result (λ made. (data_ : Data) (canon : Term → Term)
        → IsCanon data_ canon → IsUnderWay data_ canon work
        → GiveNoneBefore (length (tests_in work)) (tests_in work)
        → SolvesTo canon (plain_draft work.draft) (Some (left_entry (plain_draft made)))) }
    ensures values { IfOk result (λ made. (signature : Signature)
        → AreConditionsOf signature (condition_profiles work.spread.items)
        → AreTermsOf signature (label_profiles made.label)) }
    ensures leaves { IfOk result (λ made. (signature : Signature)
        → AreConditionsOf signature (condition_profiles work.spread.items)
        → AreTermsOf signature (profiles_of made.leaves.items)) }
    ensures conditions { IfOk result (λ made. (signature : Signature)
        → AreConditionsOf signature (condition_profiles work.spread.items)
        → AreConditionsOf signature (condition_profiles made.conditions.items)) }
{
    let spread = Renaming::Placed(work.names).changed_conditions(work.spread)?;
    gathered(work.draft, spread)
}

/// The entry of a draft on which nothing is left to do: its variables are numbered from 0.
pub fn entry_left(draft: Draft) -> Result<Entry, NoMemory>
    ensures same { IfOk result (λ entry. plain_entry entry ≡ left_entry (plain_draft draft)) }
    ensures values { IfOk result (λ entry. (signature : Signature)
        → AreTermsOf signature (label_profiles draft.label)
        → AreTermsOf signature (label_profiles entry.label)) }
    ensures leaves { IfOk result (λ entry. (signature : Signature)
        → AreTermsOf signature (profiles_of draft.leaves.items)
        → AreTermsOf signature (profiles_of entry.leaves.items)) }
    ensures conditions { IfOk result (λ entry. (signature : Signature)
        → AreConditionsOf signature (condition_profiles draft.conditions.items)
        → AreConditionsOf signature (condition_profiles entry.conditions.items)) }
{
    let sorts = sorts_by_number(&draft.leaves)?;
    let vars = sorts_left(&sorts)?;
    let renaming = Renaming::Placed(places(&sorts)?);
    let label = label_left(&renaming, draft.label)?;
    let leaves = renaming.all_changed(draft.leaves)?;
    let conditions = renaming.changed_conditions(draft.conditions)?;
    Ok(Entry {
        shape: draft.shape,
        label,
        vars,
        leaves,
        conditions,
    })
}

/// The label with other numbers for its variables. Values without variables stay where they are.
pub fn label_left(renaming: &Renaming, label: Label) -> Result<Label, NoMemory>
    ensures same { IfOk result
        (λ made. label_of made ≡ label_with (renaming_of renaming.now) (label_of label)) }
    ensures profiles { IfOk result (λ made. label_profiles made
        ≡ map (profiled_instance (profiled_renaming_of renaming.now)) (label_profiles label)) }
{
    match label {
        Label::Inner => Ok(Label::Inner),
        Label::Gate(gate, values) => Ok(Label::Gate(gate, renaming.all_changed(values)?)),
        Label::Exit(values) => Ok(Label::Exit(renaming.all_changed(values)?)),
    }
}
