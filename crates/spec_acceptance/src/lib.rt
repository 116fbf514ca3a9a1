//! The acceptance of a specification: the order of faults as one definition, which files are got
//! for it, and what is found in them; and the law that by the texts that a shelf tells there is one
//! answer.
#![tactic(auto)]

pub mod accepted;
pub mod again;
pub mod books;
pub mod copies;
pub mod decided_laws;
pub mod definitions;
pub mod files;
pub mod founded;
pub mod laws;
pub mod not_accepted;
pub mod outcome_laws;
pub mod refusals;
pub mod required;
pub mod stages;
pub mod starts;
pub mod texts;
pub mod types;

pub use accepted::Accepted;
pub use books::WithBook;
pub use founded::founded_under;
pub use not_accepted::NotAccepted;
pub use refusal_lines::text_names::{TextNames, push_place};
pub use refusal_lines::{
    Book, Refused, SpecFault, WORD_BYTES_LIMIT, WORDS_LIMIT, are_within_limits, read_terms,
    refusal_line, start_values_are_ground,
};
