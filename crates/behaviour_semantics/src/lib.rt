//! The dynamic semantics of LOTOS behaviours (ISO 8807:1989): moves, drafts and exact menus, over
//! plain values.
#![tactic(auto)]

pub mod alike;
pub mod closing;
pub mod faults;
pub mod instances;
pub mod listing;
pub mod menus;
pub mod numbering;
pub mod order;
pub mod ranks;
pub mod relabelling;
pub mod replacement;
pub mod solving;
pub mod targets;
pub mod transition;
