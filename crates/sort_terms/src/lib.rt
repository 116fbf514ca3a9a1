//! Sorts, signatures, terms and equations as the crates above keep them, and what a written term
//! means over a signature (ISO 8807:1989, data part).
#![tactic(auto)]

pub mod asked;
mod building;
mod checking;
pub mod choices;
pub mod copying;
pub mod counted;
mod counting;
pub mod deciding;
mod discarding;
pub mod equations;
pub mod examples;
pub mod facts;
pub mod laws;
pub mod name_index;
pub mod no_equations;
pub mod occurrences;
pub mod operations;
pub mod reader;
pub mod reading;
pub mod reading_once;
pub mod scope;
pub mod signatures;
pub mod sort_faults;
pub mod sorted;
pub mod terms;
mod unknown;

pub use deciding::Deciding;
pub use equations::{Equation, Flat, Variable};
pub use facts::Facts;
pub use no_equations::NoEquations;
pub use occurrences::has_variable;
pub use operations::{Op, Sort};
pub use reader::Reader;
pub use reading_once::{read_in, read_pair};
pub use scope::Scope;
pub use signatures::Signature;
pub use sort_faults::SortFault;
pub use sorted::Sorted;
pub use terms::{Arguments, Parts, Term};
