//! What both sides of a parallel make together, and the entries of a parallel.

ghost use Rattle.behaviour_semantics.specs.DraftOrder.{as_draft};
ghost use Rattle.behaviour_semantics.specs.Join.{join_of_drafts};
ghost use Rattle.behaviour_semantics.specs.Listing.{AllSolveTo};
ghost use Rattle.behaviour_semantics.specs.WellFormed.{Every};
ghost use Rattle.behaviour_tree.specs.BehaviourView.{meet_of};
ghost use Rattle.event_offers.specs.Keeping.{KeepsData};
ghost use Rattle.event_offers.specs.OfferView.{plain_draft, plain_entry};
ghost use Rattle.event_offers.specs.Offers.{IsDraftOver};
ghost use Rattle.shared_entries.specs.PartMenus.{
  joins as plain_joins,
  joins_of,
  parallel_menu,
  sides_menu,
};
ghost use Rattle.lotos_base.specs.Signature.{Signature};
ghost use Rattle.shared_entries.specs.Items.{
  HasEntryTerms,
  HasItemTerms,
  IsItemOver,
  plain_item,
};
ghost use Rattle.shared_entries.specs.Joined.{AreBeside, SolvesMore};
ghost use Rattle.std.specs.Option.{option_map};
ghost use Rattle.std.specs.Prelude.{◌≡◌, ◌++◌, IfOk, IfSome, map, option_to_list};

use crate::items::Item;
use crate::labels::meets;
use crate::rules::PartRule;
use behaviour_tree::Meet;
use event_offers::labels::alike;
use event_offers::lists::appended;
use event_offers::{Draft, Entry, join_offers};
use lotos_base::NoMemory;
use menu_builder::{Variant, solve};
use sort_terms::Deciding;

/// The entries of a parallel, from those of its sides: what each side makes alone, and what both
/// make together.
pub fn beside<D: Deciding>(
    meet: &Meet,
    lefts: &Vec<Item>,
    rights: &Vec<Item>,
    decider: &mut D,
) -> Result<Vec<Item>, NoMemory>
    requires lefts { Every (IsItemOver (D.known_data decider.old).signature) lefts.now.items }
    requires rights { Every (IsItemOver (D.known_data decider.old).signature) rights.now.items }
    ensures beside { IfOk result (λ made. AreBeside (D.known_data decider.old)
        (D.canon decider.old) (meet_of meet.now) lefts.now.items rights.now.items made.items) }
    ensures same_known { KeepsData D.known_data D.canon decider.old decider.new }
{
    let boths = joins(meet, lefts, rights, decider)?;
    let made = with_sides(meet, lefts, rights, boths)?;
    Ok(made)
}

// What each side makes alone, and then what both make together.
fn with_sides(
    meet: &Meet,
    lefts: &Vec<Item>,
    rights: &Vec<Item>,
    boths: Vec<Item>,
) -> Result<Vec<Item>, NoMemory>
    ensures same { IfOk result (λ made. (signature : Signature)
        → Every (HasItemTerms signature) lefts.now.items
        → Every (HasItemTerms signature) rights.now.items
        → map plain_item made.items ≡ parallel_menu (meet_of meet.now)
        (map plain_item lefts.now.items) (map plain_item rights.now.items)
        (map plain_item boths.items)) }
    ensures terms { IfOk result (λ made. (signature : Signature)
        → Every (HasItemTerms signature) lefts.now.items
        → Every (HasItemTerms signature) rights.now.items
        → Every (HasItemTerms signature) boths.items
        → Every (HasItemTerms signature) made.items) }
{
    let second = PartRule::Alone(meet, Variant::Right).apply_to_all(rights)?;
    let behind = appended(second, boths)?;
    let first = PartRule::Alone(meet, Variant::Left).apply_to_all(lefts)?;
    let made = appended(first, behind)?;
    Ok(made)
}

/// The entries of `[>`, from those of its sides.
pub fn either(lefts: &Vec<Item>, rights: &Vec<Item>) -> Result<Vec<Item>, NoMemory>
    ensures same { IfOk result (λ made. (signature : Signature)
        → Every (HasItemTerms signature) lefts.now.items
        → Every (HasItemTerms signature) rights.now.items
        → map plain_item made.items
        ≡ sides_menu (map plain_item lefts.now.items) (map plain_item rights.now.items)) }
    ensures terms { IfOk result (λ made. (signature : Signature)
        → Every (HasItemTerms signature) lefts.now.items
        → Every (HasItemTerms signature) rights.now.items
        → Every (HasItemTerms signature) made.items) }
{
    let second = PartRule::Below(Variant::Right).apply_to_all(rights)?;
    let first = PartRule::Below(Variant::Left).apply_to_all(lefts)?;
    let made = appended(first, second)?;
    Ok(made)
}

// What both sides make together: for each entry of the left one those of the right one that it
// meets, each solved.
fn joins<D: Deciding>(
    meet: &Meet,
    lefts: &Vec<Item>,
    rights: &Vec<Item>,
    decider: &mut D,
) -> Result<Vec<Item>, NoMemory>
    requires lefts { Every (IsItemOver (D.known_data decider.old).signature) lefts.now.items }
    requires rights { Every (IsItemOver (D.known_data decider.old).signature) rights.now.items }
    ensures solved { IfOk result (λ made. AllSolveTo (D.canon decider.old)
        (plain_joins (D.known_data decider.old) (meet_of meet.now)
        (map plain_item lefts.now.items) (map plain_item rights.now.items))
        (map plain_item made.items)) }
    ensures terms { IfOk result
        (λ made. Every (HasItemTerms (D.known_data decider.old).signature) made.items) }
    ensures same_known { KeepsData D.known_data D.canon decider.old decider.new }
{
    let mut made = Vec::new(*lefts.allocator());
    for left in lefts {
        push_joins(&mut made, meet, left, rights, decider)?;
    }
    Ok(made)
}

// The entries with those that a left one makes with the right ones that it meets.
fn push_joins<D: Deciding>(
    items: &mut Vec<Item>,
    meet: &Meet,
    left: &Item,
    rights: &Vec<Item>,
    decider: &mut D,
) -> Result<(), NoMemory>
    requires left { IsItemOver (D.known_data decider.old).signature left.now }
    requires rights { Every (IsItemOver (D.known_data decider.old).signature) rights.now.items }
    ensures solved { IfOk result (λ _. SolvesMore (D.canon decider.old) items.old.items
        items.new.items (joins_of (D.known_data decider.old) (meet_of meet.now)
        (plain_item left.now) (map plain_item rights.now.items))) }
    ensures terms { IfOk result (λ _.
        Every (HasItemTerms (D.known_data decider.old).signature) items.old.items
        → Every (HasItemTerms (D.known_data decider.old).signature) items.new.items) }
    ensures same_known { KeepsData D.known_data D.canon decider.old decider.new }
{
    if !meets(meet, &left.label) {
        return Ok(());
    }
    let first = left.draft()?;
    for right in rights {
        push_join(items, &first, right, decider)?;
    }
    Ok(())
}

// The entries with the one that a left draft makes with a right entry, if they meet.
fn push_join<D: Deciding>(
    items: &mut Vec<Item>,
    left: &Draft,
    right: &Item,
    decider: &mut D,
) -> Result<(), NoMemory>
    requires left { IsDraftOver (D.known_data decider.old).signature left.now }
    requires right { IsItemOver (D.known_data decider.old).signature right.now }
    ensures solved { IfOk result (λ _. SolvesMore (D.canon decider.old) items.old.items
        items.new.items (option_to_list (join_of_drafts (D.known_data decider.old).signature
        (plain_draft left.now) (as_draft (plain_item right.now))))) }
    ensures terms { IfOk result (λ _.
        Every (HasItemTerms (D.known_data decider.old).signature) items.old.items
        → Every (HasItemTerms (D.known_data decider.old).signature) items.new.items) }
    ensures same_known { KeepsData D.known_data D.canon decider.old decider.new }
{
    if !alike(&left.label, &right.label) {
        return Ok(());
    }
    let other = right.draft()?;
    let both = join_offers(left, &other)?;
    push_solved(items, both, decider)
}

// The entries with the solved form of a draft, if there is one.
fn push_solved<D: Deciding>(
    items: &mut Vec<Item>,
    draft: Option<Draft>,
    decider: &mut D,
) -> Result<(), NoMemory>
    requires { IfSome draft (λ d. IsDraftOver (D.known_data decider.old).signature d) }
    ensures solved { IfOk result (λ _. SolvesMore (D.canon decider.old) items.old.items
        items.new.items (option_to_list (option_map plain_draft draft))) }
    ensures terms { IfOk result (λ _.
        Every (HasItemTerms (D.known_data decider.old).signature) items.old.items
        → Every (HasItemTerms (D.known_data decider.old).signature) items.new.items) }
    ensures same_known { KeepsData D.known_data D.canon decider.old decider.new }
{
    match draft {
        None => Ok(()),
        Some(draft) => {
            let entry = solve(draft, decider)?;
            push_entry(items, entry)
        }
    }
}

// The entries with one more, where there is one.
fn push_entry(items: &mut Vec<Item>, entry: Option<Entry>) -> Result<(), NoMemory>
    ensures same { IfOk result (λ _. map plain_item items.new.items
        ≡ map plain_item items.old.items ++ option_to_list (option_map plain_entry entry)) }
    ensures terms { IfOk result (λ _. (signature : Signature)
        → IfSome entry (λ e. HasEntryTerms signature e)
        → Every (HasItemTerms signature) items.old.items
        → Every (HasItemTerms signature) items.new.items) }
{
    match entry {
        None => Ok(()),
        Some(entry) => {
            let item = Item::of(entry)?;
            Ok(items.push(item)?)
        }
    }
}
