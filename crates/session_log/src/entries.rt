//! The entry of a step, the derivation that values make of it, and whether they fit it.

ghost use Rattle.behaviour_semantics.specs.Menu.{Meets};
ghost use Rattle.behaviour_semantics.specs.Rule.{AreValues};
ghost use Rattle.behaviour_tree.specs.BehaviourTerms.{profiles_of};
ghost use Rattle.behaviour_tree.specs.BehaviourView.{terms_of};
ghost use Rattle.behaviour_tree.specs.Over.{AreTermsOf};
ghost use Rattle.lotos_base.specs.Signature.{Signature};
ghost use Rattle.menu_builder.specs.HandedOn.{IsEntryOf, KeepsData, plain_entry};
ghost use Rattle.menu_builder.specs.Menus.{entries_in};
ghost use Rattle.session_histories.specs.Refusal.{
  number_refusal,
  sort_refusal,
  value_refusal,
};
ghost use Rattle.session_log.specs.Entries.{AreGiven, IsDerivationFor, IsEntryAt, sort_told};
ghost use Rattle.session_log.specs.RefusalView.{TellsStep};
ghost use Rattle.std.specs.Prelude.{◌≡◌, ℕ, IfOk, MatchResult, Some, length};

use crate::refusals::StepRefusal;
use behaviour_tree::Derivation;
use lotos_base::NoMemory;
use menu_builder::{Entry, Menu};
use sort_terms::{Deciding, Sorted};

/// The entry with this number from 1, for which so many values are given.
#[tactic(auto, using(crate::proofs::EntryLemmas::miscounted, crate::proofs::EntryLemmas::well_counted))]
pub fn counted_entry(menu: &Menu, number: u64, given: usize) -> Result<&Entry, StepRefusal>
    ensures { MatchResult result
        (λ entry. IsEntryAt menu.now number entry.now × (given ≡ length entry.now.vars.items))
        (TellsStep (number_refusal (entries_in menu.now) number given)) }
{
    let entry = numbered_entry(menu, number)?;
    let wanted = entry.vars.len();
    if given == wanted {
        Ok(entry)
    } else {
        Err(StepRefusal::ValueCount { wanted, given })
    }
}

// The entry with this number from 1. Where there is none, so it is for any number of values.
#[tactic(auto, using(crate::proofs::EntryLemmas::refused_at_zero, crate::proofs::EntryLemmas::refused_past, crate::proofs::EntryLemmas::refused_without, crate::proofs::EntryLemmas::found_at))]
fn numbered_entry(menu: &Menu, number: u64) -> Result<&Entry, StepRefusal>
    ensures { MatchResult result
        (λ entry. IsEntryAt menu.now number entry.now)
        (λ refusal. (given : ℕ) → TellsStep (number_refusal (entries_in menu.now) number given)
        refusal) }
{
    let length = menu.len();
    if number == 0 {
        return Err(StepRefusal::NoEntry { number, length });
    }
    if number > length as u64 {
        return Err(StepRefusal::NoEntry { number, length });
    }
    match menu.entry(number as usize - 1) {
        Some(entry) => Ok(entry),
        None => Err(StepRefusal::NoEntry { number, length }),
    }
}

/// The derivation of the entry with these values, of which there are as many as it has variables.
/// Refuses the first value of another sort. Whether the values meet the entry is not asked.
pub fn derivation_for<D: Deciding>(
    entry: &Entry,
    values: &[Sorted],
    data: &mut D,
) -> Result<Derivation, StepRefusal>
    requires over { IsEntryOf (D.known_data data.old).signature entry.now }
    requires given { AreGiven (D.known_data data.old).signature values.now }
    requires counted { length values.now ≡ length entry.now.vars.items }
    ensures derived { MatchResult result
        (IsDerivationFor (D.known_data data.old) (D.canon data.old) entry.now values.now)
        (TellsStep (value_refusal (D.known_data data.old).signature (D.canon data.old)
        (Some (plain_entry entry.now)) (terms_of values.now))) }
    ensures same_known { KeepsData D.known_data D.canon data.old data.new }
{
    if let Some(variable) = other_sort(&entry.vars, values) {
        return Err(StepRefusal::ValueSort { variable });
    }
    Ok(entry.derivation(values, data)?)
}

/// Why values of the sorts of the variables that do not meet the entry are refused: the first
/// condition that does not hold.
pub fn unmet_refusal<D: Deciding>(
    entry: &Entry,
    values: &[Sorted],
    data: &mut D,
) -> Result<StepRefusal, NoMemory>
    requires over { IsEntryOf (D.known_data data.old).signature entry.now }
    requires given { AreGiven (D.known_data data.old).signature values.now }
    requires sorted { AreValues (D.known_data data.old).signature entry.now.vars.items
        (terms_of values.now) }
    requires unmet { Meets (D.known_data data.old) (plain_entry entry.now) (terms_of values.now)
        → ⊥ }
    ensures told { IfOk result (TellsStep (value_refusal (D.known_data data.old).signature
        (D.canon data.old) (Some (plain_entry entry.now)) (terms_of values.now))) }
    ensures same_known { KeepsData D.known_data D.canon data.old data.new }
{
    match entry.unmet(values, data)? {
        Some((left, right)) => Ok(StepRefusal::Unmet { left, right }),
        None => unreachable!(),
    }
}

// The number of the first value that has not the sort at its place.
#[tactic(auto, using(crate::proofs::EntryLemmas::sort_here, crate::proofs::EntryLemmas::sort_after))]
fn other_sort(sorts: &Vec<u32>, values: &[Sorted]) -> Option<usize>
    requires counted { length values.now ≡ length sorts.now.items }
    ensures { (signature : Signature) → AreTermsOf signature (profiles_of values.now)
        → sort_refusal signature 0 sorts.now.items (terms_of values.now) ≡ sort_told result }
{
    for (variable, value) in values.iter().enumerate() {
        if value.sort() != sorts[variable] {
            return Some(variable);
        }
    }
    None
}
