//! The lines of a session and their answers: steps, undo, the trace and its texts on a shelf, the
//! behaviour and the menu, questions on the data; over plain values, what each line comes to, the
//! states that lines lead to, and the report of a whole session.
#![tactic(auto)]

pub mod cases;
pub mod laws;
pub mod lines;
pub mod listing;
pub mod outcome_laws;
pub mod refusals;
pub mod replaying;
pub mod saving;
pub mod served;
pub mod serving;
pub mod sessions;
pub mod stepping;
pub mod texts;

pub use lines::HistoryLines;
pub use served::{Served, serve};
pub use session_log::{
    Book, FreshMenus, Label, MenuMaker, Ranks, Session, Spec, StepFault, StepRefusal, label_text,
    menu_text, push_number, push_text, read_terms, take, term_text,
};
pub use sessions::serve_input;
