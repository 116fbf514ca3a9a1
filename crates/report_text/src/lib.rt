//! What is printed of behaviours, and of states, which are closed ones: one line (ISO 8807:1989,
//! behaviour expressions).
#![tactic(auto)]

pub mod behaviours;
pub mod calls;
pub mod heads;
pub mod lists;
pub mod members;
pub mod naming;
pub mod nodes;
pub mod premisses;
pub mod scopes;
pub mod signs;
pub mod squares;

pub use calls::state_text;
pub use naming::{Naming, ProcessNames};
pub use printed_texts::brackets::{
    close_bracket, open_bracket, push_number, push_separator, push_text,
};
pub use printed_texts::functionalities::push_functionality;
pub use printed_texts::operations::{operation_at, push_sort};
pub use printed_texts::terms::push_phrase;
pub use printed_texts::{label_text, menu_text, term_text};
