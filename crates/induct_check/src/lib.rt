//! Certificates of induction read from their texts and checked (ISO 8807:1989, data part; Baader
//! and Nipkow, "Term Rewriting and All That", 4.2).
#![tactic(auto)]

pub mod books;
pub mod cases;
pub mod checking;
pub mod fault_texts;
pub mod forms;
pub mod known;
pub mod laws;
pub mod names;
pub mod numbers;
pub mod operations;
pub mod parts;
pub mod patterns;
pub mod pieces;
pub mod reading;
pub mod sides;
pub mod variables;

pub use books::check_text;
pub use fault_texts::fault_line;
pub use induct_parts::at_line::AtLine;
pub use induct_parts::certificates::StatedLemma;
pub use induct_parts::meeting::met_by;
pub use induct_parts::{first_faults_are_one, met_requirements_hold, right_certificates_hold};
