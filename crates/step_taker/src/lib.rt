//! Steps of states: the label and the target of the move that a derivation gives, or what is wrong
//! with the derivation, at its first faulty node (ISO 8807:1989, dynamic semantics of behaviour
//! expressions).
#![tactic(auto)]

pub mod bodies;
pub mod depths;
pub mod enablings;
pub mod events;
pub mod moved;
pub mod parallels;
pub mod sides;
pub mod taking;
pub mod targets;
pub mod walks;

pub use step_parts::targets::{part, side_by_side};
pub use step_parts::{StepFault, instance};
pub use taking::take;
