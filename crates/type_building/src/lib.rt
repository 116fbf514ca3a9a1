//! What the rows of types, of their equations and of renamings build.
#![tactic(auto)]

pub mod equations;
pub mod renamings;
pub mod types;
