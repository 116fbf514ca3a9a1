//! The words of a command line: the table of the verbs, the line of the usage, and what the words
//! ask for.
#![tactic(auto)]

pub mod commands;

pub use commands::{Command, USAGE, parse_command};
pub use spec_acceptance::again::{Begun, WithText, over_data, read_with_text};
pub use spec_acceptance::files::file;
pub use spec_acceptance::outcome_laws::data_are_well_formed;
pub use spec_acceptance::required::{Required, WithRequirements, read_with_requirements};
pub use spec_acceptance::{
    Accepted, Book, NotAccepted, Refused, SpecFault, TextNames, WORD_BYTES_LIMIT, WORDS_LIMIT,
    WithBook, founded_under, push_place, refusal_line, start_values_are_ground,
};
