//! The first node of a text that is too deep, from the derivation of its tokens and before any tree
//! is made. The work is linear in the text, and nothing recurses over it.
#![tactic(auto)]

mod depth;
mod forms;
pub mod laws;
mod lists;
pub mod part;
mod rows;

pub use depth::{items_depth, specification_depth, terms_depth};
pub use tree_building::reading_laws::texts_have_one_outcome;
pub use tree_building::{Derived, ReadFault, TextKind, derive};
