//! The rows of equations.

use crate::{names, terms, types};
use ll_engine::{Symbol, WrittenRow};
use lotos_lexer::kinds;

/// The number of the first part here.
pub const FIRST_PART: u16 = types::FIRST_PART + types::PARTS;
/// How many parts there are here.
pub const PARTS: u16 = 10;
/// The number of the first row here.
pub const FIRST_ROW: u32 = types::FIRST_ROW + types::ROWS;
/// How many rows there are here.
pub const ROWS: u32 = 18;

/// Variables behind `forall`, or nothing.
pub const VARIABLES_FOR_ALL: u16 = FIRST_PART;
/// Groups of equations, each of one sort.
pub const EQUATION_GROUPS: u16 = FIRST_PART + 1;
/// Equations with semicolons between or behind.
pub const EQUATION_LIST: u16 = FIRST_PART + 2;
/// What follows an equation.
pub const AFTER_EQUATION: u16 = FIRST_PART + 3;
/// An equation.
pub const EQUATION: u16 = FIRST_PART + 4;
/// What follows the first term of an equation.
pub const AFTER_FIRST_TERM: u16 = FIRST_PART + 5;
/// What follows the first pair of terms.
pub const AFTER_FIRST_PAIR: u16 = FIRST_PART + 6;
/// The further premisses and the conclusion.
pub const CONCLUSION: u16 = FIRST_PART + 7;
/// A premiss: a pair of terms or one term.
pub const PREMISS: u16 = FIRST_PART + 8;
/// The right side of a premiss, or nothing.
pub const PREMISS_RIGHT: u16 = FIRST_PART + 9;

/// The rows here, by their names.
#[derive(Clone, Copy, Debug, PartialEq, Eq)]
pub enum EquationsRow {
    /// `variables_for_all =`
    NoVariablesForAll,
    /// `variables_for_all = "forall" variables`
    VariablesForAll,
    /// `equation_groups =`
    NoEquationGroups,
    /// `equation_groups = "ofsort" name variables_for_all equation_list equation_groups`
    EquationGroups,
    /// `equation_list =`
    NoEquationList,
    /// `equation_list = equation after_equation`
    EquationList,
    /// `after_equation =`
    NoAfterEquation,
    /// `after_equation = ";" equation_list`
    AfterEquation,
    /// `equation = term after_first_term`
    Equation,
    /// `after_first_term = "=" term after_first_pair`
    EqualsAfterTerm,
    /// `after_first_term = conclusion`
    ConclusionAfterTerm,
    /// `after_first_pair =`
    NoAfterFirstPair,
    /// `after_first_pair = conclusion`
    AfterFirstPair,
    /// `conclusion = "," premiss conclusion`
    PremissAndConclusion,
    /// `conclusion = "=>" term "=" term`
    Conclusion,
    /// `premiss = term premiss_right`
    Premiss,
    /// `premiss_right =`
    NoPremissRight,
    /// `premiss_right = "=" term`
    PremissRight,
}

/// `variables_for_all =`
pub const NO_VARIABLES_FOR_ALL_ROW: WrittenRow = WrittenRow {
    left: VARIABLES_FOR_ALL,
    right: &[],
    predicted_by: 1 << kinds::ENDTYPE
        | 1 << kinds::EQNS
        | 1 << kinds::OFSORT
        | 1 << kinds::OPNS
        | 1 << kinds::SORTS
        | 1 << kinds::NAME
        | 1 << kinds::DIGIT_NAME
        | 1 << kinds::SIGN_NAME
        | 1 << kinds::LEFT_PARENTHESIS,
};

/// `variables_for_all = "forall" variables`
pub const VARIABLES_FOR_ALL_ROW: WrittenRow = WrittenRow {
    left: VARIABLES_FOR_ALL,
    right: &[Symbol::Token(kinds::FORALL), Symbol::Part(names::VARIABLES)],
    predicted_by: 1 << kinds::FORALL,
};

/// `equation_groups =`
pub const NO_EQUATION_GROUPS_ROW: WrittenRow = WrittenRow {
    left: EQUATION_GROUPS,
    right: &[],
    predicted_by: 1 << kinds::ENDTYPE | 1 << kinds::EQNS | 1 << kinds::OPNS | 1 << kinds::SORTS,
};

/// `equation_groups = "ofsort" name variables_for_all equation_list equation_groups`
pub const EQUATION_GROUPS_ROW: WrittenRow = WrittenRow {
    left: EQUATION_GROUPS,
    right: &[
        Symbol::Token(kinds::OFSORT),
        Symbol::Part(names::NAME),
        Symbol::Part(VARIABLES_FOR_ALL),
        Symbol::Part(EQUATION_LIST),
        Symbol::Part(EQUATION_GROUPS),
    ],
    predicted_by: 1 << kinds::OFSORT,
};

/// `equation_list =`
pub const NO_EQUATION_LIST_ROW: WrittenRow = WrittenRow {
    left: EQUATION_LIST,
    right: &[],
    predicted_by: 1 << kinds::ENDTYPE
        | 1 << kinds::EQNS
        | 1 << kinds::OFSORT
        | 1 << kinds::OPNS
        | 1 << kinds::SORTS,
};

/// `equation_list = equation after_equation`
pub const EQUATION_LIST_ROW: WrittenRow = WrittenRow {
    left: EQUATION_LIST,
    right: &[Symbol::Part(EQUATION), Symbol::Part(AFTER_EQUATION)],
    predicted_by: 1 << kinds::NAME
        | 1 << kinds::DIGIT_NAME
        | 1 << kinds::SIGN_NAME
        | 1 << kinds::LEFT_PARENTHESIS,
};

/// `after_equation =`
pub const NO_AFTER_EQUATION_ROW: WrittenRow = WrittenRow {
    left: AFTER_EQUATION,
    right: &[],
    predicted_by: 1 << kinds::ENDTYPE
        | 1 << kinds::EQNS
        | 1 << kinds::OFSORT
        | 1 << kinds::OPNS
        | 1 << kinds::SORTS,
};

/// `after_equation = ";" equation_list`
pub const AFTER_EQUATION_ROW: WrittenRow = WrittenRow {
    left: AFTER_EQUATION,
    right: &[Symbol::Token(kinds::SEMICOLON), Symbol::Part(EQUATION_LIST)],
    predicted_by: 1 << kinds::SEMICOLON,
};

/// `equation = term after_first_term`
pub const EQUATION_ROW: WrittenRow = WrittenRow {
    left: EQUATION,
    right: &[Symbol::Part(terms::TERM), Symbol::Part(AFTER_FIRST_TERM)],
    predicted_by: 1 << kinds::NAME
        | 1 << kinds::DIGIT_NAME
        | 1 << kinds::SIGN_NAME
        | 1 << kinds::LEFT_PARENTHESIS,
};

/// `after_first_term = "=" term after_first_pair`
pub const EQUALS_AFTER_TERM_ROW: WrittenRow = WrittenRow {
    left: AFTER_FIRST_TERM,
    right: &[
        Symbol::Token(kinds::EQUALS),
        Symbol::Part(terms::TERM),
        Symbol::Part(AFTER_FIRST_PAIR),
    ],
    predicted_by: 1 << kinds::EQUALS,
};

/// `after_first_term = conclusion`
pub const CONCLUSION_AFTER_TERM_ROW: WrittenRow = WrittenRow {
    left: AFTER_FIRST_TERM,
    right: &[Symbol::Part(CONCLUSION)],
    predicted_by: 1 << kinds::IMPLIES | 1 << kinds::COMMA,
};

/// `after_first_pair =`
pub const NO_AFTER_FIRST_PAIR_ROW: WrittenRow = WrittenRow {
    left: AFTER_FIRST_PAIR,
    right: &[],
    predicted_by: 1 << kinds::ENDTYPE
        | 1 << kinds::EQNS
        | 1 << kinds::OFSORT
        | 1 << kinds::OPNS
        | 1 << kinds::SORTS
        | 1 << kinds::SEMICOLON,
};

/// `after_first_pair = conclusion`
pub const AFTER_FIRST_PAIR_ROW: WrittenRow = WrittenRow {
    left: AFTER_FIRST_PAIR,
    right: &[Symbol::Part(CONCLUSION)],
    predicted_by: 1 << kinds::IMPLIES | 1 << kinds::COMMA,
};

/// `conclusion = "," premiss conclusion`
pub const PREMISS_AND_CONCLUSION_ROW: WrittenRow = WrittenRow {
    left: CONCLUSION,
    right: &[
        Symbol::Token(kinds::COMMA),
        Symbol::Part(PREMISS),
        Symbol::Part(CONCLUSION),
    ],
    predicted_by: 1 << kinds::COMMA,
};

/// `conclusion = "=>" term "=" term`
pub const CONCLUSION_ROW: WrittenRow = WrittenRow {
    left: CONCLUSION,
    right: &[
        Symbol::Token(kinds::IMPLIES),
        Symbol::Part(terms::TERM),
        Symbol::Token(kinds::EQUALS),
        Symbol::Part(terms::TERM),
    ],
    predicted_by: 1 << kinds::IMPLIES,
};

/// `premiss = term premiss_right`
pub const PREMISS_ROW: WrittenRow = WrittenRow {
    left: PREMISS,
    right: &[Symbol::Part(terms::TERM), Symbol::Part(PREMISS_RIGHT)],
    predicted_by: 1 << kinds::NAME
        | 1 << kinds::DIGIT_NAME
        | 1 << kinds::SIGN_NAME
        | 1 << kinds::LEFT_PARENTHESIS,
};

/// `premiss_right =`
pub const NO_PREMISS_RIGHT_ROW: WrittenRow = WrittenRow {
    left: PREMISS_RIGHT,
    right: &[],
    predicted_by: 1 << kinds::IMPLIES | 1 << kinds::RIGHT_BRACKET | 1 << kinds::COMMA,
};

/// `premiss_right = "=" term`
pub const PREMISS_RIGHT_ROW: WrittenRow = WrittenRow {
    left: PREMISS_RIGHT,
    right: &[Symbol::Token(kinds::EQUALS), Symbol::Part(terms::TERM)],
    predicted_by: 1 << kinds::EQUALS,
};
