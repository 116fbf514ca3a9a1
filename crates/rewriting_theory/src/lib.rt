//! The theory of rewriting: rules, rewriting, matching, chosen forms, unification, critical pairs,
//! confluence, the lexicographic path order with statuses, orientation, termination, and the canon
//! of oriented data (Baader and Nipkow, "Term Rewriting and All That", chapters 2 and 4 to 6). The
//! definitions stand in `specs/`. The functions here carry laws about them as their contracts and
//! do nothing.
#![tactic(auto)]

pub mod cases;
pub mod chosen_canon;
pub mod chosen_forms;
pub mod confluence;
pub mod matching;
pub mod measures;
pub mod normal_forms;
pub mod orientation;
pub mod pair_lists;
pub mod path_order;
pub mod rewriting;
pub mod termination;
