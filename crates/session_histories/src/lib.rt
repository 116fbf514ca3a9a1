//! Sessions over plain values: the steps that were taken and the states that they lead to, why a
//! step is refused, the text of a trace, and what a trace comes to when it is replayed. What is
//! printed of a state is one line, since the names in a state that a session reaches are those of
//! its specification and of the state in which it began. The crate has definitions and their laws,
//! and no other code.
#![tactic(auto)]

pub mod cases;
pub mod laws;
pub mod state_laws;

pub use printed_texts::brackets::{push_number, push_text};
pub use printed_texts::labels::{push_label, push_value};
pub use printed_texts::values::push_given;
pub use tree_building::laws::texts_are_unambiguous;
