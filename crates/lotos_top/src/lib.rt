//! The program over any outside: its words, what it does, what it prints and how it ends.
#![tactic(auto)]

mod certificates;
mod flattening;
mod opening;
mod running;

pub use certificate_verbs::{
    Accepted, Command, Ended, HistoryLines, NotAccepted, Refused, Served, SpecFault,
    WORD_BYTES_LIMIT, WORDS_LIMIT, data_are_well_formed, lines_lead_on, parse_command, serve,
    start_values_are_ground,
};
pub use running::run;
