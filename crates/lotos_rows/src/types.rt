//! The rows of types.

use crate::{equations, names, renamings, terms};
use ll_engine::{Symbol, WrittenRow};
use lotos_lexer::kinds;

/// The number of the first part here.
pub const FIRST_PART: u16 = terms::FIRST_PART + terms::PARTS;
/// How many parts there are here.
pub const PARTS: u16 = 12;
/// The number of the first row here.
pub const FIRST_ROW: u32 = terms::FIRST_ROW + terms::ROWS;
/// How many rows there are here.
pub const ROWS: u32 = 24;

/// A mention of libraries or a type.
pub const ITEM: u16 = FIRST_PART;
/// The body of a type.
pub const BODY: u16 = FIRST_PART + 1;
/// What follows the first name of a body.
pub const AFTER_BASE: u16 = FIRST_PART + 2;
/// The sections of a type.
pub const SECTIONS: u16 = FIRST_PART + 3;
/// The formal sorts, or nothing.
pub const FORMAL_SORTS: u16 = FIRST_PART + 4;
/// The formal operations, or nothing.
pub const FORMAL_OPERATIONS: u16 = FIRST_PART + 5;
/// The formal equations, or nothing.
pub const FORMAL_EQUATIONS: u16 = FIRST_PART + 6;
/// The sorts, or nothing.
pub const SORTS: u16 = FIRST_PART + 7;
/// The operations, or nothing.
pub const OPERATIONS: u16 = FIRST_PART + 8;
/// The equations, or nothing.
pub const EQUATIONS: u16 = FIRST_PART + 9;
/// Lines of operations, each with one profile.
pub const OPERATION_LINES: u16 = FIRST_PART + 10;
/// Further operations of a line.
pub const MORE_OPERATIONS: u16 = FIRST_PART + 11;

/// The rows here, by their names.
#[derive(Clone, Copy, Debug, PartialEq, Eq)]
pub enum TypesRow {
    /// `item = "library" names "endlib"`
    LibraryItem,
    /// `item = "type" name "is" body "endtype"`
    TypeItem,
    /// `body = name after_base`
    NamedBody,
    /// `body = sections`
    SectionsBody,
    /// `after_base = "renamedby" renames`
    Renaming,
    /// `after_base = "actualizedby" names "using" renames`
    Actualisation,
    /// `after_base = more_names sections`
    Extension,
    /// `sections = formal_sorts formal_operations formal_equations sorts operations equations`
    Sections,
    /// `formal_sorts =`
    NoFormalSorts,
    /// `formal_sorts = "formalsorts" loose_names`
    FormalSorts,
    /// `formal_operations =`
    NoFormalOperations,
    /// `formal_operations = "formalopns" operation_lines`
    FormalOperations,
    /// `formal_equations =`
    NoFormalEquations,
    /// `formal_equations = "formaleqns" variables_for_all equation_groups`
    FormalEquations,
    /// `sorts =`
    NoSorts,
    /// `sorts = "sorts" loose_names`
    Sorts,
    /// `operations =`
    NoOperations,
    /// `operations = "opns" operation_lines`
    Operations,
    /// `equations =`
    NoEquations,
    /// `equations = "eqns" variables_for_all equation_groups`
    Equations,
    /// `operation_lines =`
    NoOperationLines,
    /// `operation_lines = operation more_operations profile operation_lines`
    OperationLines,
    /// `more_operations =`
    NoMoreOperations,
    /// `more_operations = "," operation more_operations`
    MoreOperations,
}

/// `item = "library" names "endlib"`
pub const LIBRARY_ITEM_ROW: WrittenRow = WrittenRow {
    left: ITEM,
    right: &[
        Symbol::Token(kinds::LIBRARY),
        Symbol::Part(names::NAMES),
        Symbol::Token(kinds::ENDLIB),
    ],
    predicted_by: 1 << kinds::LIBRARY,
};

/// `item = "type" name "is" body "endtype"`
pub const TYPE_ITEM_ROW: WrittenRow = WrittenRow {
    left: ITEM,
    right: &[
        Symbol::Token(kinds::TYPE),
        Symbol::Part(names::NAME),
        Symbol::Token(kinds::IS),
        Symbol::Part(BODY),
        Symbol::Token(kinds::ENDTYPE),
    ],
    predicted_by: 1 << kinds::TYPE,
};

/// `body = name after_base`
pub const NAMED_BODY_ROW: WrittenRow = WrittenRow {
    left: BODY,
    right: &[Symbol::Part(names::NAME), Symbol::Part(AFTER_BASE)],
    predicted_by: 1 << kinds::NAME,
};

/// `body = sections`
pub const SECTIONS_BODY_ROW: WrittenRow = WrittenRow {
    left: BODY,
    right: &[Symbol::Part(SECTIONS)],
    predicted_by: 1 << kinds::ENDTYPE
        | 1 << kinds::EQNS
        | 1 << kinds::FORMALEQNS
        | 1 << kinds::FORMALOPNS
        | 1 << kinds::FORMALSORTS
        | 1 << kinds::OPNS
        | 1 << kinds::SORTS,
};

/// `after_base = "renamedby" renames`
pub const RENAMING_ROW: WrittenRow = WrittenRow {
    left: AFTER_BASE,
    right: &[
        Symbol::Token(kinds::RENAMEDBY),
        Symbol::Part(renamings::RENAMES),
    ],
    predicted_by: 1 << kinds::RENAMEDBY,
};

/// `after_base = "actualizedby" names "using" renames`
pub const ACTUALISATION_ROW: WrittenRow = WrittenRow {
    left: AFTER_BASE,
    right: &[
        Symbol::Token(kinds::ACTUALIZEDBY),
        Symbol::Part(names::NAMES),
        Symbol::Token(kinds::USING),
        Symbol::Part(renamings::RENAMES),
    ],
    predicted_by: 1 << kinds::ACTUALIZEDBY,
};

/// `after_base = more_names sections`
pub const EXTENSION_ROW: WrittenRow = WrittenRow {
    left: AFTER_BASE,
    right: &[Symbol::Part(names::MORE_NAMES), Symbol::Part(SECTIONS)],
    predicted_by: 1 << kinds::ENDTYPE
        | 1 << kinds::EQNS
        | 1 << kinds::FORMALEQNS
        | 1 << kinds::FORMALOPNS
        | 1 << kinds::FORMALSORTS
        | 1 << kinds::OPNS
        | 1 << kinds::SORTS
        | 1 << kinds::COMMA,
};

/// `sections = formal_sorts formal_operations formal_equations sorts operations equations`
pub const SECTIONS_ROW: WrittenRow = WrittenRow {
    left: SECTIONS,
    right: &[
        Symbol::Part(FORMAL_SORTS),
        Symbol::Part(FORMAL_OPERATIONS),
        Symbol::Part(FORMAL_EQUATIONS),
        Symbol::Part(SORTS),
        Symbol::Part(OPERATIONS),
        Symbol::Part(EQUATIONS),
    ],
    predicted_by: 1 << kinds::ENDTYPE
        | 1 << kinds::EQNS
        | 1 << kinds::FORMALEQNS
        | 1 << kinds::FORMALOPNS
        | 1 << kinds::FORMALSORTS
        | 1 << kinds::OPNS
        | 1 << kinds::SORTS,
};

/// `formal_sorts =`
pub const NO_FORMAL_SORTS_ROW: WrittenRow = WrittenRow {
    left: FORMAL_SORTS,
    right: &[],
    predicted_by: 1 << kinds::ENDTYPE
        | 1 << kinds::EQNS
        | 1 << kinds::FORMALEQNS
        | 1 << kinds::FORMALOPNS
        | 1 << kinds::OPNS
        | 1 << kinds::SORTS,
};

/// `formal_sorts = "formalsorts" loose_names`
pub const FORMAL_SORTS_ROW: WrittenRow = WrittenRow {
    left: FORMAL_SORTS,
    right: &[
        Symbol::Token(kinds::FORMALSORTS),
        Symbol::Part(names::LOOSE_NAMES),
    ],
    predicted_by: 1 << kinds::FORMALSORTS,
};

/// `formal_operations =`
pub const NO_FORMAL_OPERATIONS_ROW: WrittenRow = WrittenRow {
    left: FORMAL_OPERATIONS,
    right: &[],
    predicted_by: 1 << kinds::ENDTYPE
        | 1 << kinds::EQNS
        | 1 << kinds::FORMALEQNS
        | 1 << kinds::OPNS
        | 1 << kinds::SORTS,
};

/// `formal_operations = "formalopns" operation_lines`
pub const FORMAL_OPERATIONS_ROW: WrittenRow = WrittenRow {
    left: FORMAL_OPERATIONS,
    right: &[
        Symbol::Token(kinds::FORMALOPNS),
        Symbol::Part(OPERATION_LINES),
    ],
    predicted_by: 1 << kinds::FORMALOPNS,
};

/// `formal_equations =`
pub const NO_FORMAL_EQUATIONS_ROW: WrittenRow = WrittenRow {
    left: FORMAL_EQUATIONS,
    right: &[],
    predicted_by: 1 << kinds::ENDTYPE | 1 << kinds::EQNS | 1 << kinds::OPNS | 1 << kinds::SORTS,
};

/// `formal_equations = "formaleqns" variables_for_all equation_groups`
pub const FORMAL_EQUATIONS_ROW: WrittenRow = WrittenRow {
    left: FORMAL_EQUATIONS,
    right: &[
        Symbol::Token(kinds::FORMALEQNS),
        Symbol::Part(equations::VARIABLES_FOR_ALL),
        Symbol::Part(equations::EQUATION_GROUPS),
    ],
    predicted_by: 1 << kinds::FORMALEQNS,
};

/// `sorts =`
pub const NO_SORTS_ROW: WrittenRow = WrittenRow {
    left: SORTS,
    right: &[],
    predicted_by: 1 << kinds::ENDTYPE | 1 << kinds::EQNS | 1 << kinds::OPNS,
};

/// `sorts = "sorts" loose_names`
pub const SORTS_ROW: WrittenRow = WrittenRow {
    left: SORTS,
    right: &[
        Symbol::Token(kinds::SORTS),
        Symbol::Part(names::LOOSE_NAMES),
    ],
    predicted_by: 1 << kinds::SORTS,
};

/// `operations =`
pub const NO_OPERATIONS_ROW: WrittenRow = WrittenRow {
    left: OPERATIONS,
    right: &[],
    predicted_by: 1 << kinds::ENDTYPE | 1 << kinds::EQNS,
};

/// `operations = "opns" operation_lines`
pub const OPERATIONS_ROW: WrittenRow = WrittenRow {
    left: OPERATIONS,
    right: &[Symbol::Token(kinds::OPNS), Symbol::Part(OPERATION_LINES)],
    predicted_by: 1 << kinds::OPNS,
};

/// `equations =`
pub const NO_EQUATIONS_ROW: WrittenRow = WrittenRow {
    left: EQUATIONS,
    right: &[],
    predicted_by: 1 << kinds::ENDTYPE,
};

/// `equations = "eqns" variables_for_all equation_groups`
pub const EQUATIONS_ROW: WrittenRow = WrittenRow {
    left: EQUATIONS,
    right: &[
        Symbol::Token(kinds::EQNS),
        Symbol::Part(equations::VARIABLES_FOR_ALL),
        Symbol::Part(equations::EQUATION_GROUPS),
    ],
    predicted_by: 1 << kinds::EQNS,
};

/// `operation_lines =`
pub const NO_OPERATION_LINES_ROW: WrittenRow = WrittenRow {
    left: OPERATION_LINES,
    right: &[],
    predicted_by: 1 << kinds::ENDTYPE
        | 1 << kinds::EQNS
        | 1 << kinds::FORMALEQNS
        | 1 << kinds::OPNS
        | 1 << kinds::SORTS,
};

/// `operation_lines = operation more_operations profile operation_lines`
pub const OPERATION_LINES_ROW: WrittenRow = WrittenRow {
    left: OPERATION_LINES,
    right: &[
        Symbol::Part(names::OPERATION),
        Symbol::Part(MORE_OPERATIONS),
        Symbol::Part(names::PROFILE),
        Symbol::Part(OPERATION_LINES),
    ],
    predicted_by: 1 << kinds::NAME
        | 1 << kinds::DIGIT_NAME
        | 1 << kinds::SIGN_NAME
        | 1 << kinds::UNDERSCORE,
};

/// `more_operations =`
pub const NO_MORE_OPERATIONS_ROW: WrittenRow = WrittenRow {
    left: MORE_OPERATIONS,
    right: &[],
    predicted_by: 1 << kinds::COLON,
};

/// `more_operations = "," operation more_operations`
pub const MORE_OPERATIONS_ROW: WrittenRow = WrittenRow {
    left: MORE_OPERATIONS,
    right: &[
        Symbol::Token(kinds::COMMA),
        Symbol::Part(names::OPERATION),
        Symbol::Part(MORE_OPERATIONS),
    ],
    predicted_by: 1 << kinds::COMMA,
};
