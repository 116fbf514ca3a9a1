//! Parts of behaviours and definitions with their names, counts and sorts resolved: gates,
//! variables, offers, terms (ISO 8807:1989, static semantics); and which faults a text has, each
//! with its place, with the law that the one that is answered comes first of them.
#![tactic(auto)]

pub mod bindings;
pub mod bound;
pub mod callable;
pub mod callables;
pub mod constants;
pub mod doubles;
pub mod exits;
pub mod fault_laws;
pub mod fault_order;
pub mod gate_choices;
pub mod gate_table;
pub mod gates;
pub mod laws;
pub mod lets;
pub mod offers;
pub mod premisses;
pub mod scope_faults;
pub mod signs;
pub mod sorts;
pub mod terms;
pub mod truth;
pub mod values;
pub mod visible;

pub use scope_faults::ScopeFault;
