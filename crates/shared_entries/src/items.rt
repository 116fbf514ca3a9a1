//! Entries that share what they have.

ghost use Rattle.behaviour_semantics.specs.DraftOrder.{as_draft};
ghost use Rattle.event_offers.specs.OfferView.{plain_draft, plain_entry};
ghost use Rattle.shared_entries.specs.Items.{
  draft_terms,
  entry_terms,
  item_terms,
  plain_item,
};
ghost use Rattle.std.specs.Prelude.{◌≡◌, IfOk, map};

use behaviour_tree::boxes::shared;
use behaviour_tree::copies::term_copies;
use behaviour_tree::{Label, Shape};
use event_offers::labels::{condition_copies, label_copy};
use event_offers::{Draft, Entry};
use lotos_base::NoMemory;
use sort_terms::Sorted;
use std::alloc::Global;
use std::rc::Rc;

/// What an entry has beside its shape and its label.
#[derive(Drop)]
pub struct Solved {
    /// The sorts of its variables, by their numbers.
    pub vars: Vec<u32>,
    /// The leaves.
    pub leaves: Vec<Sorted>,
    /// The conditions that are left, in order.
    pub conditions: Vec<(Sorted, Sorted)>,
}

/// An entry of a menu that shares what it has with others.
#[derive(Drop)]
pub struct Item {
    /// The shape.
    pub shape: Rc<Shape>,
    /// The label.
    pub label: Rc<Label>,
    /// All else.
    pub solved: Rc<Solved>,
}

impl Item {
    /// The entry.
    pub fn of(entry: Entry) -> Result<Item, NoMemory>
        ensures same { IfOk result (λ made. plain_item made ≡ plain_entry entry) }
        ensures terms { IfOk result (λ made. item_terms made ≡ entry_terms entry) }
    {
        let alloc = *entry.leaves.allocator();
        let solved = Solved {
            vars: entry.vars,
            leaves: entry.leaves,
            conditions: entry.conditions,
        };
        let solved = shared(alloc, solved)?;
        let label = shared(alloc, entry.label)?;
        Ok(Item {
            shape: shared(alloc, entry.shape)?,
            label,
            solved,
        })
    }

    /// The entry as a draft.
    pub fn draft(&self) -> Result<Draft, NoMemory>
        ensures same { IfOk result (λ made. plain_draft made ≡ as_draft (plain_item self.now)) }
        ensures terms { IfOk result (λ made. draft_terms made ≡ item_terms self.now) }
    {
        let alloc = *self.solved.leaves.allocator();
        let shape = self.shape.copy()?;
        let label = label_copy(alloc, &self.label)?;
        let leaves = term_copies(alloc, &self.solved.leaves)?;
        let conditions = condition_copies(alloc, &self.solved.conditions)?;
        Ok(Draft {
            shape,
            label,
            leaves,
            conditions,
        })
    }

    /// The entry, which shares nothing.
    pub fn entry(&self) -> Result<Entry, NoMemory>
        ensures same { IfOk result (λ made. plain_entry made ≡ plain_item self.now) }
        ensures terms { IfOk result (λ made. entry_terms made ≡ item_terms self.now) }
    {
        let vars = Vec::from_slice(*self.solved.vars.allocator(), &self.solved.vars)?;
        let draft = self.draft()?;
        Ok(Entry {
            shape: draft.shape,
            label: draft.label,
            vars,
            leaves: draft.leaves,
            conditions: draft.conditions,
        })
    }
}

/// The entries, each taken.
pub fn items_of(entries: Vec<Entry>) -> Result<Vec<Item>, NoMemory>
    ensures same { IfOk result
        (λ made. map plain_item made.items ≡ map plain_entry entries.items) }
    ensures terms { IfOk result
        (λ made. map item_terms made.items ≡ map entry_terms entries.items) }
{
    let mut made = Vec::with_capacity(*entries.allocator(), entries.len())?;
    for entry in entries {
        let item = Item::of(entry)?;
        made.push(item)?;
    }
    Ok(made)
}

/// The entries, which share nothing.
pub fn entries_of(items: &Vec<Item>) -> Result<Vec<Entry>, NoMemory>
    ensures same { IfOk result
        (λ made. map plain_entry made.items ≡ map plain_item items.now.items) }
    ensures terms { IfOk result
        (λ made. map entry_terms made.items ≡ map item_terms items.now.items) }
{
    let mut made = Vec::with_capacity(*items.allocator(), items.len())?;
    for item in items {
        let entry = item.entry()?;
        made.push(entry)?;
    }
    Ok(made)
}
