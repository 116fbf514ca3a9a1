//! What the rows of behaviours build.
#![tactic(auto)]

pub mod behaviours;
mod choices;
mod declarations;
mod flat_lists;
mod prefixes;
mod word_forms;

pub use flat_lists::grouped;
