//! Drafts solved: the conditions of a draft tell values for its variables, which are put in one
//! after another until the entry of a menu is left, or a condition that nothing meets (ISO
//! 8807:1989, behaviour expressions: value matching and value generation).
#![tactic(auto)]

pub mod changing;
pub mod naming;
pub mod places;
pub mod putting;
pub mod replacements;
pub mod solving;
pub mod spreading;
pub mod variables;

pub use solving::solve;
