//! The questions of a session on its data, and their answers: normal forms and equality.
#![tactic(auto)]

pub mod laws;
pub mod questions;
pub mod refusals;

pub use equation_book::Book;
pub use lotos_grammar::{ReadFault, read_terms, texts_have_one_outcome};
pub use printed_texts::brackets::{push_number, push_text};
pub use printed_texts::labels::{push_label, push_value};
pub use printed_texts::values::push_given;
pub use printed_texts::{label_text, menu_text, term_text};
pub use refusals::Refusal;
