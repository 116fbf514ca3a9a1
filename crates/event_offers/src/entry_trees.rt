//! Trees of entries, whose parts may have several owners.

ghost use Rattle.event_offers.specs.EntryTrees.{are_counted, entries_among};
ghost use Rattle.std.specs.Option.{option_map};
ghost use Rattle.std.specs.Prelude.{◌≡◌, length, slice_get, true};

use crate::drafts::Entry;
use std::rc::Rc;

/// Entries of a menu in order: a list, or those of two trees one behind the other. A tree may have
/// several owners, so menus that differ in a part share the others.
#[derive(Debug, Drop)]
pub enum EntryTree {
    /// A list.
    Leaf(Vec<Entry>),
    /// Those of the first tree and behind them those of the second, and how many they are together.
    Joined(usize, Rc<EntryTree>, Rc<EntryTree>),
}

impl EntryTree {
    /// How many entries there are.
    pub fn len(&self) -> usize
        requires { are_counted self.now ≡ true }
        ensures { result ≡ length (entries_among self.now) }
    {
        match self {
            EntryTree::Leaf(entries) => entries.len(),
            EntryTree::Joined(count, _, _) => *count,
        }
    }

    /// The entry at a position from 0, or `None` where there is none.
    pub fn entry(&self, position: usize) -> Option<&Entry>
        requires { are_counted self.now ≡ true }
        ensures { option_map (λ entry. entry.now) result
            ≡ slice_get (entries_among self.now) position }
    {
        match self {
            EntryTree::Leaf(entries) => entries.get(position),
            EntryTree::Joined(_, first, second) => {
                let before = first.len();
                if position < before {
                    first.entry(position)
                } else {
                    second.entry(position - before)
                }
            }
        }
    }
}
