//! Menus.

ghost use Rattle.event_offers.specs.Parts.{menu_entries, part_entries};
ghost use Rattle.std.specs.Option.{option_map};
ghost use Rattle.std.specs.Prelude.{◌≡◌, length, slice_get};

use crate::drafts::Entry;
use crate::parts::MenuPart;

/// A menu: entries in the order of their shapes.
#[derive(Debug, Drop)]
pub enum Menu {
    /// Its own.
    Own(Vec<Entry>),
    /// Those of a part that other menus share.
    Shared(MenuPart),
}

impl Menu {
    /// The menu of these entries.
    pub fn of(entries: Vec<Entry>) -> Menu
        ensures { menu_entries result ≡ entries.items }
    {
        Menu::Own(entries)
    }

    /// The menu that has the entries of the part.
    pub fn sharing(part: MenuPart) -> Menu
        ensures { menu_entries result ≡ part_entries part }
    {
        Menu::Shared(part)
    }

    /// How many entries there are.
    pub fn len(&self) -> usize
        ensures { result ≡ length (menu_entries self.now) }
    {
        match self {
            Menu::Own(entries) => entries.len(),
            Menu::Shared(part) => part.entries().len(),
        }
    }

    /// The entry at a position from 0, or `None` exactly where the position is not below the number
    /// of entries.
    pub fn entry(&self, position: usize) -> Option<&Entry>
        ensures { option_map (λ entry. entry.now) result
            ≡ slice_get (menu_entries self.now) position }
    {
        match self {
            Menu::Own(entries) => entries.get(position),
            Menu::Shared(part) => part.entries().entry(position),
        }
    }
}
