//! Why a specification is refused, with the printed line of each refusal; and start values, of
//! which a refusal may speak: what the words behind `with` are for the parameters of a
//! specification.
#![tactic(auto)]

pub mod details;
pub mod evidence;
pub mod faults;
pub mod limits;
pub mod lines;
pub mod normal;
pub mod places;
pub mod refused;
pub mod spec_fault;
pub mod start_laws;
pub mod start_words;
pub mod text_names;
pub mod values;
pub mod words;

pub use equation_book::{Book, BookFault, NotOpened};
pub use faults::StartFault;
pub use limits::{WORD_BYTES_LIMIT, WORDS_LIMIT, are_within_limits};
pub use lines::refusal_line;
pub use lotos_grammar::{
    Gathered, LibraryFault, ReadFault, gather_types, read_order, read_spec, read_terms,
};
pub use normal::normal_values;
pub use process_checks::ranking::ranks;
pub use process_checks::{ExitFault, RankFault, Ranks, exits};
pub use refused::Refused;
pub use scope_parts::ScopeFault;
pub use spec_fault::SpecFault;
pub use start_laws::start_values_are_ground;
pub use values::start_values;
