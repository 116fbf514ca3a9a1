//! The fault for which a specification is refused.

use equation_book::BookFault;
use lotos_base::{Name, Place};
use lotos_grammar::ReadFault;
use process_checks::{ExitFault, RankFault};
use scope_parts::ScopeFault;
use sort_terms::SortFault;
use type_definitions::TypeFault;

/// Why a specification is refused. Want of memory does not stand in any of them.
#[derive(Debug, Drop)]
pub enum SpecFault {
    /// A text is not read.
    Read {
        /// The number of the text: 0 for the specification, 1 for the order file, from 2 on the
        /// libraries in the order of reading, 66 for the words behind `with`.
        text: u32,
        /// What is wrong with it.
        fault: ReadFault,
    },
    /// One text of a library too many is mentioned.
    Libraries {
        /// The place of the mention.
        place: Place,
        /// The name of the library.
        name: Name,
    },
    /// The types are refused (ISO 8807:1989, data part).
    Types(TypeFault),
    /// Names, counts, `Bool` or terms of definitions and behaviours are refused (ISO 8807:1989,
    /// static semantics).
    Scope(ScopeFault),
    /// Functionalities disagree (ISO 8807:1989, functionality of behaviour expressions).
    Exit(ExitFault),
    /// Recursion is unguarded.
    Rank(RankFault),
    /// The order file's items, the orientation of an equation or a critical pair is refused (Baader
    /// and Nipkow, "Term Rewriting and All That", chapters 5 and 6).
    Book(BookFault),
    /// Another number of start values is given than the specification has parameters.
    StartValues {
        /// How many parameters it has.
        wanted: u32,
        /// How many terms are given.
        given: u32,
    },
    /// A start value is refused.
    StartTerm(SortFault),
}
