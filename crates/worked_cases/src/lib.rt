//! Worked cases of rewriting, of the dynamic semantics of behaviours and of certificates of
//! bisimulation, computed from the definitions. Nothing stands on this crate.
#![tactic(auto)]

pub mod bisimulation_cases;
pub mod cases;
pub mod comparison_cases;
pub mod fault_cases;
pub mod pair_cases;
pub mod solving_cases;
pub mod value_cases;
pub mod well_formed_cases;
