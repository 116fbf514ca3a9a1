//! What is printed of terms, labels, menus and behaviours.
#![tactic(auto)]

pub mod brackets;
pub mod calls;
pub mod cases;
pub mod functionalities;
pub mod labels;
pub mod menus;
pub mod operations;
pub mod terms;
pub mod twins;
pub mod values;

pub use calls::{label_text, menu_text, term_text};
