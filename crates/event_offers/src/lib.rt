//! Drafts and entries of menus, their variables numbered anew or with values put for them, and
//! joining the drafts of two sides of a parallel (ISO 8807:1989, behaviour expressions:
//! synchronisation of value offers).
#![tactic(auto)]

pub mod copies;
pub mod drafts;
pub mod entries;
pub mod entry_trees;
pub mod joining;
pub mod labels;
pub mod lists;
pub mod menus;
pub mod parts;
pub mod rebuilding;
pub mod renaming;
pub mod valued;

pub use behaviour_tree::{Label, Spec};
pub use drafts::{Draft, Entry};
pub use entry_trees::EntryTree;
pub use joining::join_offers;
pub use menus::Menu;
pub use parts::MenuPart;
