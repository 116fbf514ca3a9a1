//! What the rows of behaviours, processes and whole texts build, the actions of all rows, and the
//! tree of a whole text.
#![tactic(auto)]

mod builder;
mod definitions;
mod starts;
pub mod text_trees;
mod texts;

pub use builder::Builder;
pub use text_trees::{items_trees, order_items, specification_tree, terms_trees};
pub use texts::{built_items, built_order, built_specification, built_terms};
