//! Entries of menus that share their shapes, labels and terms, and what each rule of the dynamic
//! semantics makes of the entries of the parts (ISO 8807:1989, behaviour expressions). So the menu
//! of a behaviour is made from the menus of its parts without copying these. Laws say what a user
//! reads off a menu, and that the exact menu of a behaviour is made from those of its parts.
#![tactic(auto)]

pub mod items;
pub mod joins;
pub mod labels;
pub mod menu_laws;
pub mod rules;

pub use event_offers::MenuPart;
pub use items::{Item, entries_of, items_of};
pub use joins::{beside, either};
pub use menu_builder::menus::node_entries;
pub use menu_builder::numbers::above_processes;
pub use menu_builder::{Call, Levels, Menu, MenuMaker, Ranks, Variant, menu};
pub use rules::PartRule;
