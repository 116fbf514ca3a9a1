//! Sessions: a state with its menu, steps by the entries of the menu, undo, and traces that are
//! written and replayed.
#![tactic(auto)]

pub mod courses;
pub mod entries;
pub mod lines;
pub mod refusals;
pub mod replaying;
pub mod sessions;
pub mod traces;
pub mod values;

pub use behaviour_tree::{Label, Spec};
pub use menu_builder::{Entry, FreshMenus, Menu, MenuMaker, Ranks};
pub use refusals::{ReplayFault, StepRefusal, TraceFault};
pub use report_text::state_text;
pub use session_histories::laws::{
    replay_is_exact, sessions_follow_derivations, sessions_stay_lawful, steps_are_exact,
};
pub use session_lines::laws::questions_have_one_answer;
pub use session_lines::questions::{push_comparison, push_normal};
pub use session_lines::refusals::push_refusal;
pub use session_lines::{
    Book, ReadFault, Refusal, label_text, menu_text, push_number, push_text, push_value,
    read_terms, term_text, texts_have_one_outcome,
};
pub use sessions::Session;
pub use step_taker::{StepFault, take};
