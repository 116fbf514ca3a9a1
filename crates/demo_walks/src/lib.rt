//! The text of a specification that is made from a number of cells, the walk through its session,
//! and its summary.
#![tactic(auto)]

pub mod cases;
pub mod summaries;
pub mod tallies;
pub mod texts;
pub mod values;
pub mod walking;

pub use history_lines::laws::{lines_lead_on, served_lines_are_answered};
pub use history_lines::{
    Book, FreshMenus, HistoryLines, MenuMaker, Ranks, Served, Session, Spec, StepFault,
    StepRefusal, menu_text, push_number, push_text, read_terms, serve, serve_input, take,
    term_text,
};
pub use summaries::write_summary;
pub use texts::demo_text;
