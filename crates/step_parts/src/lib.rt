//! The parts of a step: the leaves of a node, its test, the values of its label and of its
//! variables, what rules ask of labels, and targets (ISO 8807:1989, dynamic semantics of behaviour
//! expressions).
#![tactic(auto)]

pub mod faults;
pub mod labels;
pub mod laws;
pub mod leaves;
pub mod node_tests;
pub mod offers;
pub mod targets;

pub use behaviour_instances::instance;
pub use draft_parts::rules::{hide_label, may_move_alone, relabel};
pub use draft_parts::values;
pub use faults::StepFault;
