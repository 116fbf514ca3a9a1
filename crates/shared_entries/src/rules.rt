//! Rules with one moving part, over the entries of that part.

ghost use Rattle.behaviour_semantics.specs.Behaviour.{sorts_of};
ghost use Rattle.behaviour_semantics.specs.Label.{inner_event};
ghost use Rattle.behaviour_semantics.specs.Shape.{enabled as enabled_shape};
ghost use Rattle.behaviour_semantics.specs.WellFormed.{Every};
ghost use Rattle.behaviour_tree.specs.BehaviourView.{meet_of, variables_of};
ghost use Rattle.behaviour_tree.specs.MoveView.{label_of};
ghost use Rattle.event_offers.specs.OfferView.{label_profiles};
ghost use Rattle.lotos_base.specs.Signature.{Signature};
ghost use Rattle.menu_builder.specs.HandedOn.{variant_of};
ghost use Rattle.shared_entries.specs.Items.{HasItemTerms, item_terms, plain_item, values_changed};
ghost use Rattle.shared_entries.specs.PartRule.{
  alone_rule,
  by_rule,
  changed,
  enable_entry,
  hide_rule,
  under_rule,
};
ghost use Rattle.shared_entries.specs.Rules.{AreEntriesMadeBy, entry_below, entry_made_by};
ghost use Rattle.std.specs.Option.{option_map};
ghost use Rattle.std.specs.Prelude.{◌≡◌, ◌++◌, IfOk, IfSome, option_to_list};

use crate::items::Item;
use crate::labels::{hidden, relabelled};
use behaviour_tree::boxes::{owner, shared};
use behaviour_tree::{Label, Meet};
use lotos_base::NoMemory;
use menu_builder::{Variant, have_sorts, may_move_alone};
use sort_terms::Variable;
use std::alloc::Global;
use std::rc::Rc;

/// A rule that makes an entry, or none, of an entry of one part.
#[derive(Drop)]
pub enum PartRule<'a> {
    /// The entry itself.
    Same,
    /// Each entry, below a variant of shapes.
    Below(Variant),
    /// A side of a parallel that moves alone, below the variant.
    Alone(&'a Meet, Variant),
    /// Under `hide`, with these gates.
    Hidden(&'a [u32]),
    /// Under a relabelling, below the variant.
    Relabelled(Vec<(u32, u32)>, Variant),
    /// Under the relabelling of a node.
    Under(&'a Vec<(u32, u32)>),
    /// A left side of `>>`, which ends with values for these variables or goes on.
    Enabled(&'a Vec<Variable>),
}

impl PartRule<'_> {
    /// What the rule makes of an entry.
    pub fn apply(&self, alloc: Global, item: &Item) -> Result<Option<Item>, NoMemory>
        ensures same { IfOk result (λ o. (signature : Signature)
            → HasItemTerms signature item.now
            → option_map plain_item o ≡ entry_made_by signature self.now (plain_item item.now)) }
        ensures terms { IfOk result (λ o. IfSome o (λ made. (signature : Signature)
            → HasItemTerms signature item.now → HasItemTerms signature made)) }
    {
        match self {
            PartRule::Same => Ok(Some(copied(item)?)),
            PartRule::Below(variant) => Ok(Some(below_variant(alloc, item, *variant)?)),
            PartRule::Alone(meet, variant) => alone(alloc, item, meet, *variant),
            PartRule::Hidden(gates) => Ok(Some(under_hide(alloc, item, gates)?)),
            PartRule::Relabelled(pairs, variant) => {
                Ok(Some(under_pairs(alloc, item, pairs, *variant)?))
            }
            PartRule::Under(pairs) => {
                Ok(Some(under_pairs(alloc, item, pairs, Variant::Relabelled)?))
            }
            PartRule::Enabled(variables) => enabled(alloc, item, variables),
        }
    }

    /// What the rule makes of each of the entries, in order.
    pub fn apply_to_all(&self, items: &Vec<Item>) -> Result<Vec<Item>, NoMemory>
        ensures { IfOk result (λ made. (signature : Signature)
            → Every (HasItemTerms signature) items.now.items
            → AreEntriesMadeBy signature (entry_made_by signature self.now)
            items.now.items made.items) }
    {
        let alloc = *items.allocator();
        let mut made = Vec::with_capacity(alloc, items.len())?;
        for item in items {
            let next = self.apply(alloc, item)?;
            push_made(&mut made, next)?;
        }
        Ok(made)
    }
}

// The items with one more, where there is one.
fn push_made(items: &mut Vec<Item>, item: Option<Item>) -> Result<(), NoMemory>
    ensures { IfOk result (λ _. items.new.items ≡ items.old.items ++ option_to_list item) }
{
    match item {
        None => Ok(()),
        Some(item) => Ok(items.push(item)?),
    }
}

// The same entry.
fn copied(item: &Item) -> Result<Item, NoMemory>
    ensures same { IfOk result (λ made. plain_item made ≡ plain_item item.now) }
    ensures terms { IfOk result (λ made. item_terms made ≡ item_terms item.now) }
{
    let shape = owner(&item.shape)?;
    let label = owner(&item.label)?;
    let solved = owner(&item.solved)?;
    Ok(Item {
        shape,
        label,
        solved,
    })
}

// The entry below a variant of shapes, with another label.
fn with_label(
    alloc: Global,
    item: &Item,
    variant: Variant,
    label: Rc<Label>,
) -> Result<Item, NoMemory>
    ensures same { IfOk result (λ made. plain_item made
        ≡ entry_below (variant_of variant) (label_of label.value) (plain_item item.now)) }
    ensures terms { IfOk result (λ made. item_terms made
        ≡ values_changed (label_profiles label.value) (item_terms item.now)) }
{
    let inner = owner(&item.shape)?;
    let shape = shared(alloc, variant.around(inner))?;
    let solved = owner(&item.solved)?;
    Ok(Item {
        shape,
        label,
        solved,
    })
}

// The entry below a variant of shapes.
fn below_variant(alloc: Global, item: &Item, variant: Variant) -> Result<Item, NoMemory>
    ensures same { IfOk result (λ made. plain_item made
        ≡ entry_below (variant_of variant) (plain_item item.now).label (plain_item item.now)) }
    ensures terms { IfOk result (λ made. item_terms made ≡ item_terms item.now) }
{
    let label = owner(&item.label)?;
    let made = with_label(alloc, item, variant, label)?;
    Ok(made)
}

// The entry of a side of a parallel that moves alone, or `None` where it may not.
fn alone(
    alloc: Global,
    item: &Item,
    meet: &Meet,
    variant: Variant,
) -> Result<Option<Item>, NoMemory>
    ensures same { IfOk result (λ o. option_map plain_item o
        ≡ by_rule (alone_rule (meet_of meet.now) (variant_of variant)) (plain_item item.now)) }
    ensures terms { IfOk result (λ o. IfSome o (λ made. (signature : Signature)
        → HasItemTerms signature item.now → HasItemTerms signature made)) }
{
    if !may_move_alone(meet, &item.label) {
        return Ok(None);
    }
    let made = below_variant(alloc, item, variant)?;
    Ok(Some(made))
}

// The entry under `hide`.
fn under_hide(alloc: Global, item: &Item, gates: &[u32]) -> Result<Item, NoMemory>
    ensures same { IfOk result
        (λ made. plain_item made ≡ changed (hide_rule gates.now) (plain_item item.now)) }
    ensures terms { IfOk result (λ made. (signature : Signature)
        → HasItemTerms signature item.now → HasItemTerms signature made) }
{
    let label = hidden(alloc, &item.label, gates)?;
    let made = with_label(alloc, item, Variant::Hidden, label)?;
    Ok(made)
}

// The entry under a relabelling, below a variant of shapes.
fn under_pairs(
    alloc: Global,
    item: &Item,
    pairs: &Vec<(u32, u32)>,
    variant: Variant,
) -> Result<Item, NoMemory>
    ensures same { IfOk result (λ made. plain_item made
        ≡ changed (under_rule (variant_of variant) pairs.now.items) (plain_item item.now)) }
    ensures terms { IfOk result (λ made. (signature : Signature)
        → HasItemTerms signature item.now → HasItemTerms signature made) }
{
    let label = relabelled(alloc, &item.label, pairs)?;
    let made = with_label(alloc, item, variant, label)?;
    Ok(made)
}

// The entry of a left side of `>>` that ends with values for these variables or goes on, or `None`
// where it ends with other values.
fn enabled(alloc: Global, item: &Item, variables: &Vec<Variable>) -> Result<Option<Item>, NoMemory>
    ensures same { IfOk result (λ o. (signature : Signature) → HasItemTerms signature item.now
        → option_map plain_item o
        ≡ enable_entry signature (sorts_of (variables_of variables.now.items))
        (plain_item item.now)) }
    ensures terms { IfOk result (λ o. IfSome o (λ made. (signature : Signature)
        → HasItemTerms signature item.now → HasItemTerms signature made)) }
{
    if let Label::Exit(values) = &*item.label {
        if !have_sorts(values, variables) {
            return Ok(None);
        }
        let made = ended(alloc, item)?;
        return Ok(Some(made));
    }
    let made = below_variant(alloc, item, Variant::Passed)?;
    Ok(Some(made))
}

// The entry of a left side of `>>` that ended.
fn ended(alloc: Global, item: &Item) -> Result<Item, NoMemory>
    ensures same { IfOk result
        (λ made. plain_item made ≡ entry_below enabled_shape inner_event (plain_item item.now)) }
    ensures terms { IfOk result (λ made. (signature : Signature)
        → HasItemTerms signature item.now → HasItemTerms signature made) }
{
    let label = shared(alloc, Label::Inner)?;
    let made = with_label(alloc, item, Variant::Enabled, label)?;
    Ok(made)
}
