//! The rewriter (Baader and Nipkow, "Term Rewriting and All That", 4.2).
#![tactic(auto)]

pub mod filling;
pub mod first_index;
pub mod first_match;
pub mod forms;
pub mod normal;
pub mod oriented;
pub mod taking;
pub mod wanting;

pub use normal::normalise;
