//! Nothing executable: laws of specifications and of whole runs. Tokens are the longest that fit;
//! behaviours end by their functionality; what is printed of terms, labels, traces and flat texts is
//! read back as what it was. A trace that a run saves is replayed by a later run to the session that
//! was saved; a session shows events at gates that its specification declares; specifications that
//! are the same do the same; and a flat text that stands for an accepted specification is accepted
//! too, with the same report and sessions.
#![tactic(auto)]

pub mod behaviour_meanings;
pub mod data_examples;
pub mod data_laws;
pub mod exit_laws;
pub mod flat_laws;
pub mod functionalities;
pub mod label_laws;
pub mod labels;
pub mod laws;
pub mod meaning_examples;
pub mod namings;
pub mod pieces;
pub mod readings;
pub mod same_laws;
pub mod sentences;
pub mod specification_meanings;
pub mod state_laws;
pub mod term_text_laws;
pub mod text_forms;
pub mod texts;
pub mod tokens;
pub mod trace_laws;
pub mod written_laws;
