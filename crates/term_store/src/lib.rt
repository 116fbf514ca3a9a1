//! Terms kept once, with their chosen forms (Baader and Nipkow, "Term Rewriting and All That",
//! 4.2).
#![tactic(auto)]

pub mod canonical;
pub mod deciding;
pub mod first_rule;
pub mod forms;
pub mod heads;
pub mod instances;
pub mod key;
pub mod matching;
pub mod numbering;
pub mod reading;
pub mod shared;
pub mod steps;
pub mod store;
pub mod tasks;
pub mod turns;
pub mod wholes;

pub use store::Store;
pub use term_rewriter::first_index::{FirstIndex, first_operation, indexed};
pub use term_rewriter::normalise;
