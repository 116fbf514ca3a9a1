//! The words that check certificates, of bisimulation and of induction, and how a run ends that
//! prints one text.
#![tactic(auto)]

pub mod comparing;
pub mod ended;
pub mod inducing;
pub mod printing;

pub use certificate_theory::certificates::{
    accepted_certificates_show_bisimilarity, accepted_starts_do_the_same,
    certificates_come_to_one_thing,
};
pub use command_words::{
    Accepted, Book, Command, NotAccepted, Refused, SpecFault, USAGE, WORD_BYTES_LIMIT, WORDS_LIMIT,
    WithBook, data_are_well_formed, founded_under, parse_command, start_values_are_ground,
};
pub use comparing::bisim;
pub use demo_walks::{
    HistoryLines, Served, Session, Spec, demo_text, lines_lead_on, menu_text, push_number,
    push_text, serve, serve_input, served_lines_are_answered, write_summary,
};
pub use ended::Ended;
pub use inducing::induct;
pub use induct_check::{first_faults_are_one, met_requirements_hold};
pub use printing::{Alone, failed_alone};
