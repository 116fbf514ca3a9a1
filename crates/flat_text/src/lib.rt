//! The flat text of a specification: a text of LOTOS that says the same with one type, and without
//! renamings, actualisations, libraries and processes inside processes.
#![tactic(auto)]

pub mod cases;
pub mod data_lines;
pub mod equation_names;
pub mod free_names;
pub mod given_names;
pub mod headings;
pub mod laws;
pub mod texts;

pub use texts::write_flat;
