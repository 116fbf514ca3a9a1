//! The menu of a state: the drafts of its moves, listed part by part under environments, and each
//! solved (ISO 8807:1989, dynamic semantics of behaviour expressions).
#![tactic(auto)]

pub mod behaviours;
pub mod binders;
pub mod choices;
pub mod events;
pub mod guards;
pub mod laws;
pub mod levels;
pub mod makers;
pub mod menus;
pub mod nodes;
pub mod numbers;
pub mod shared_shapes;

pub use behaviours::{behaviour_moves, call_moves};
pub use draft_parts::meeting::have_sorts;
pub use draft_parts::rules::{hide_label, may_move_alone, meet_at, relabel};
pub use draft_parts::{Call, Entry, Menu, Variant, label_copy};
pub use draft_solving::solve;
pub use levels::Levels;
pub use makers::{FreshMenus, MenuMaker};
pub use menus::menu;
pub use process_checks::Ranks;
