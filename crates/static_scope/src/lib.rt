//! Definitions of a text with their names, counts and sorts resolved, and the
//! specification that a text stands for (ISO 8807:1989, static semantics).
#![tactic(auto)]

pub mod declaring;
pub mod definitions;
pub mod formal;
pub mod frames;
pub mod heading_parts;
pub mod headings;
pub mod own_processes;
pub mod resolving;
pub mod sizes;
pub mod walk;

pub use resolving::resolve;
pub use scope_parts::ScopeFault;
