//! Behaviours of a text with their names, counts and sorts resolved (ISO 8807:1989, static
//! semantics).
#![tactic(auto)]

pub mod behaviours;
pub mod bound_variables;
pub mod calls;
pub mod nested;
pub mod resolver;

pub use resolver::Resolver;
