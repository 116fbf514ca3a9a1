//! A maker of menus that keeps the menus of components between steps: where a part of the state is
//! the same as before, its menu is used again (ISO 8807:1989, dynamic semantics of behaviour
//! expressions).
#![tactic(auto)]

pub mod components;
pub mod forms;
pub mod kept;
pub mod makers;
pub mod making;
pub mod moving;
pub mod opening;
pub mod parts;
pub mod rooms;
pub mod spreading;
pub mod spreads;
pub mod ways;
pub mod widths;

pub use makers::PartMenus;
pub use shared_entries::{Call, Menu, Variant};
