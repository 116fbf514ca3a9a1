//! Behaviours, specifications, moves and states as the crates above keep them, each with the plain
//! value of the dynamic semantics that it stands for (ISO 8807:1989, behaviour expressions); whether
//! two closed behaviours are identical, places aside, and numbers that identical ones have in common.
#![tactic(auto)]

pub mod behaviours;
pub mod binders;
pub mod boxes;
pub mod copies;
pub mod definitions;
pub mod list_equality;
pub mod mixing;
pub mod moves;
pub mod node_digests;
pub mod node_equality;
pub mod order;
pub mod part_digests;
pub mod part_equality;
pub mod placing;
pub mod shapes;
pub mod states;
pub mod term_digests;
pub mod term_equality;

pub use behaviours::{Beh, ExitValue, Meet, Offer, Test};
pub use definitions::{Process, Spec};
pub use moves::{Derivation, Label, Shape};
pub use node_digests::node_digest;
pub use order::Standing;
pub use states::{Node, State};
