//! Parts of menus, whose entries several menus share.

ghost use Rattle.event_offers.specs.EntryTrees.{are_counted, entries_among};
ghost use Rattle.std.specs.Prelude.{◌≡◌, ◌++◌, IfOk, true};

use crate::drafts::Entry;
use crate::entry_trees::EntryTree;
use lotos_base::NoMemory;
use std::alloc::Global;
use std::rc::Rc;

/// Entries that several menus share.
#[derive(Debug, Drop)]
pub struct MenuPart {
    entries: Rc<EntryTree>,
    pub ghost counted: { are_counted entries.value ≡ true },
}

impl MenuPart {
    ghost use Rattle.event_offers.specs.Parts.{part_entries};

    /// The part that has these entries.
    pub fn of(alloc: Global, entries: Vec<Entry>) -> Result<MenuPart, NoMemory>
        ensures { IfOk result (λ made. part_entries made ≡ entries.items) }
    {
        Ok(MenuPart {
            entries: Rc::new(alloc, EntryTree::Leaf(entries))?,
        })
    }

    /// The part that has the entries of the first one and behind them those of the second.
    pub fn joined(alloc: Global, first: &MenuPart, second: &MenuPart) -> Result<MenuPart, NoMemory>
        ensures { IfOk result (λ made. part_entries made
            ≡ part_entries first.now ++ part_entries second.now) }
    {
        let Some(count) = first.entries.len().checked_add(second.entries.len()) else {
            return Err(NoMemory);
        };
        let one = first.entries.clone()?;
        let other = second.entries.clone()?;
        Ok(MenuPart {
            entries: Rc::new(alloc, EntryTree::Joined(count, one, other))?,
        })
    }

    /// One more owner of the entries.
    pub fn owner(&self) -> Result<MenuPart, NoMemory>
        ensures { IfOk result (λ made. part_entries made ≡ part_entries self.now) }
    {
        Ok(MenuPart {
            entries: self.entries.clone()?,
        })
    }

    /// The entries.
    pub fn entries(&self) -> &EntryTree
        ensures same { entries_among result.now ≡ part_entries self.now }
        ensures counted { are_counted result.now ≡ true }
    {
        &self.entries
    }
}
