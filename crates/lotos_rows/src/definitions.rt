//! The rows of definitions of processes and the heading of a specification.

use crate::{behaviours, names, types};
use ll_engine::{Symbol, WrittenRow};
use lotos_lexer::kinds;

/// The number of the first part here.
pub const FIRST_PART: u16 = behaviours::FIRST_PART + behaviours::PARTS;
/// How many parts there are here.
pub const PARTS: u16 = 7;
/// The number of the first row here.
pub const FIRST_ROW: u32 = behaviours::FIRST_ROW + behaviours::ROWS;
/// How many rows there are here.
pub const ROWS: u32 = 13;

/// The name, gates, parameters and functionality of a definition.
pub const HEADING: u16 = FIRST_PART;
/// Parameters in brackets, or nothing.
pub const PARAMETERS: u16 = FIRST_PART + 1;
/// A functionality.
pub const FUNCTIONALITY: u16 = FIRST_PART + 2;
/// The sorts of `exit`, or nothing.
pub const EXIT_SORTS: u16 = FIRST_PART + 3;
/// The inner definitions, or nothing.
pub const WHERE: u16 = FIRST_PART + 4;
/// Items and processes.
pub const INNER: u16 = FIRST_PART + 5;
/// A process.
pub const PROCESS: u16 = FIRST_PART + 6;

/// The rows here, by their names.
#[derive(Clone, Copy, Debug, PartialEq, Eq)]
pub enum DefinitionsRow {
    /// `heading = name optional_gates parameters ":" functionality`
    Heading,
    /// `parameters =`
    NoParameters,
    /// `parameters = "(" variables ")"`
    Parameters,
    /// `functionality = "noexit"`
    NoExit,
    /// `functionality = "exit" exit_sorts`
    ExitFunctionality,
    /// `exit_sorts =`
    NoExitSorts,
    /// `exit_sorts = "(" names ")"`
    ExitSorts,
    /// `where =`
    NoWhere,
    /// `where = "where" inner`
    Where,
    /// `inner =`
    NothingInner,
    /// `inner = item inner`
    InnerItem,
    /// `inner = process inner`
    InnerProcess,
    /// `process = "process" heading ":=" behaviour where "endproc"`
    Process,
}

/// `heading = name optional_gates parameters ":" functionality`
pub const HEADING_ROW: WrittenRow = WrittenRow {
    left: HEADING,
    right: &[
        Symbol::Part(names::NAME),
        Symbol::Part(names::OPTIONAL_GATES),
        Symbol::Part(PARAMETERS),
        Symbol::Token(kinds::COLON),
        Symbol::Part(FUNCTIONALITY),
    ],
    predicted_by: 1 << kinds::NAME,
};

/// `parameters =`
pub const NO_PARAMETERS_ROW: WrittenRow = WrittenRow {
    left: PARAMETERS,
    right: &[],
    predicted_by: 1 << kinds::COLON,
};

/// `parameters = "(" variables ")"`
pub const PARAMETERS_ROW: WrittenRow = WrittenRow {
    left: PARAMETERS,
    right: &[
        Symbol::Token(kinds::LEFT_PARENTHESIS),
        Symbol::Part(names::VARIABLES),
        Symbol::Token(kinds::RIGHT_PARENTHESIS),
    ],
    predicted_by: 1 << kinds::LEFT_PARENTHESIS,
};

/// `functionality = "noexit"`
pub const NO_EXIT_ROW: WrittenRow = WrittenRow {
    left: FUNCTIONALITY,
    right: &[Symbol::Token(kinds::NOEXIT)],
    predicted_by: 1 << kinds::NOEXIT,
};

/// `functionality = "exit" exit_sorts`
pub const EXIT_FUNCTIONALITY_ROW: WrittenRow = WrittenRow {
    left: FUNCTIONALITY,
    right: &[Symbol::Token(kinds::EXIT), Symbol::Part(EXIT_SORTS)],
    predicted_by: 1 << kinds::EXIT,
};

/// `exit_sorts =`
pub const NO_EXIT_SORTS_ROW: WrittenRow = WrittenRow {
    left: EXIT_SORTS,
    right: &[],
    predicted_by: 1 << kinds::BEHAVIOR
        | 1 << kinds::BEHAVIOUR
        | 1 << kinds::LIBRARY
        | 1 << kinds::TYPE
        | 1 << kinds::DEFINITION,
};

/// `exit_sorts = "(" names ")"`
pub const EXIT_SORTS_ROW: WrittenRow = WrittenRow {
    left: EXIT_SORTS,
    right: &[
        Symbol::Token(kinds::LEFT_PARENTHESIS),
        Symbol::Part(names::NAMES),
        Symbol::Token(kinds::RIGHT_PARENTHESIS),
    ],
    predicted_by: 1 << kinds::LEFT_PARENTHESIS,
};

/// `where =`
pub const NO_WHERE_ROW: WrittenRow = WrittenRow {
    left: WHERE,
    right: &[],
    predicted_by: 1 << kinds::ENDPROC | 1 << kinds::ENDSPEC,
};

/// `where = "where" inner`
pub const WHERE_ROW: WrittenRow = WrittenRow {
    left: WHERE,
    right: &[Symbol::Token(kinds::WHERE), Symbol::Part(INNER)],
    predicted_by: 1 << kinds::WHERE,
};

/// `inner =`
pub const NOTHING_INNER_ROW: WrittenRow = WrittenRow {
    left: INNER,
    right: &[],
    predicted_by: 1 << kinds::ENDPROC | 1 << kinds::ENDSPEC,
};

/// `inner = item inner`
pub const INNER_ITEM_ROW: WrittenRow = WrittenRow {
    left: INNER,
    right: &[Symbol::Part(types::ITEM), Symbol::Part(INNER)],
    predicted_by: 1 << kinds::LIBRARY | 1 << kinds::TYPE,
};

/// `inner = process inner`
pub const INNER_PROCESS_ROW: WrittenRow = WrittenRow {
    left: INNER,
    right: &[Symbol::Part(PROCESS), Symbol::Part(INNER)],
    predicted_by: 1 << kinds::PROCESS,
};

/// `process = "process" heading ":=" behaviour where "endproc"`
pub const PROCESS_ROW: WrittenRow = WrittenRow {
    left: PROCESS,
    right: &[
        Symbol::Token(kinds::PROCESS),
        Symbol::Part(HEADING),
        Symbol::Token(kinds::DEFINITION),
        Symbol::Part(behaviours::BEHAVIOUR),
        Symbol::Part(WHERE),
        Symbol::Token(kinds::ENDPROC),
    ],
    predicted_by: 1 << kinds::PROCESS,
};
