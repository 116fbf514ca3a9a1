//! Behaviours with the values of an environment put for their free variables (ISO 8807:1989,
//! behaviour expressions).
#![tactic(auto)]

pub mod environments;
pub mod instances;
pub mod laws;
pub mod terms;

pub use instances::instance;
