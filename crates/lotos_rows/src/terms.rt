//! The rows of terms.

use crate::{END, names};
use ll_engine::{Symbol, WrittenRow};
use lotos_lexer::kinds;

/// The number of the first part here.
pub const FIRST_PART: u16 = names::FIRST_PART + names::PARTS;
/// How many parts there are here.
pub const PARTS: u16 = 7;
/// The number of the first row here.
pub const FIRST_ROW: u32 = names::FIRST_ROW + names::ROWS;
/// How many rows there are here.
pub const ROWS: u32 = 12;

/// A term.
pub const TERM: u16 = FIRST_PART;
/// Further factors, each behind an infix operation.
pub const MORE_FACTORS: u16 = FIRST_PART + 1;
/// A factor of a term.
pub const FACTOR: u16 = FIRST_PART + 2;
/// Terms in brackets, or nothing.
pub const ARGUMENTS: u16 = FIRST_PART + 3;
/// The sort of a factor, or nothing.
pub const SORT_MARK: u16 = FIRST_PART + 4;
/// Terms with commas between.
pub const TERM_LIST: u16 = FIRST_PART + 5;
/// Further terms, behind a comma.
pub const MORE_TERMS: u16 = FIRST_PART + 6;

/// The rows here, by their names.
#[derive(Clone, Copy, Debug, PartialEq, Eq)]
pub enum TermsRow {
    /// `term = factor more_factors`
    Term,
    /// `more_factors =`
    NoMoreFactors,
    /// `more_factors = operation_name factor more_factors`
    MoreFactors,
    /// `factor = operation_name arguments sort_mark`
    AppliedFactor,
    /// `factor = "(" term ")" sort_mark`
    BracketedFactor,
    /// `arguments =`
    NoArguments,
    /// `arguments = "(" term_list ")"`
    Arguments,
    /// `sort_mark =`
    NoSortMark,
    /// `sort_mark = "of" name`
    SortMark,
    /// `term_list = term more_terms`
    TermList,
    /// `more_terms =`
    NoMoreTerms,
    /// `more_terms = "," term_list`
    MoreTerms,
}

/// `term = factor more_factors`
pub const TERM_ROW: WrittenRow = WrittenRow {
    left: TERM,
    right: &[Symbol::Part(FACTOR), Symbol::Part(MORE_FACTORS)],
    predicted_by: 1 << kinds::NAME
        | 1 << kinds::DIGIT_NAME
        | 1 << kinds::SIGN_NAME
        | 1 << kinds::LEFT_PARENTHESIS,
};

/// `more_factors =`
pub const NO_MORE_FACTORS_ROW: WrittenRow = WrittenRow {
    left: MORE_FACTORS,
    right: &[],
    predicted_by: 1 << kinds::ENDTYPE
        | 1 << kinds::EQNS
        | 1 << kinds::IN
        | 1 << kinds::OFSORT
        | 1 << kinds::OPNS
        | 1 << kinds::SORTS
        | 1 << kinds::EQUALS
        | 1 << kinds::IMPLIES
        | 1 << kinds::RIGHT_PARENTHESIS
        | 1 << kinds::LEFT_BRACKET
        | 1 << kinds::RIGHT_BRACKET
        | 1 << kinds::COMMA
        | 1 << kinds::SEMICOLON
        | 1 << kinds::EXCLAMATION
        | 1 << kinds::QUESTION
        | END,
};

/// `more_factors = operation_name factor more_factors`
pub const MORE_FACTORS_ROW: WrittenRow = WrittenRow {
    left: MORE_FACTORS,
    right: &[
        Symbol::Part(names::OPERATION_NAME),
        Symbol::Part(FACTOR),
        Symbol::Part(MORE_FACTORS),
    ],
    predicted_by: 1 << kinds::NAME | 1 << kinds::DIGIT_NAME | 1 << kinds::SIGN_NAME,
};

/// `factor = operation_name arguments sort_mark`
pub const APPLIED_FACTOR_ROW: WrittenRow = WrittenRow {
    left: FACTOR,
    right: &[
        Symbol::Part(names::OPERATION_NAME),
        Symbol::Part(ARGUMENTS),
        Symbol::Part(SORT_MARK),
    ],
    predicted_by: 1 << kinds::NAME | 1 << kinds::DIGIT_NAME | 1 << kinds::SIGN_NAME,
};

/// `factor = "(" term ")" sort_mark`
pub const BRACKETED_FACTOR_ROW: WrittenRow = WrittenRow {
    left: FACTOR,
    right: &[
        Symbol::Token(kinds::LEFT_PARENTHESIS),
        Symbol::Part(TERM),
        Symbol::Token(kinds::RIGHT_PARENTHESIS),
        Symbol::Part(SORT_MARK),
    ],
    predicted_by: 1 << kinds::LEFT_PARENTHESIS,
};

/// `arguments =`
pub const NO_ARGUMENTS_ROW: WrittenRow = WrittenRow {
    left: ARGUMENTS,
    right: &[],
    predicted_by: 1 << kinds::ENDPROC
        | 1 << kinds::ENDSPEC
        | 1 << kinds::ENDTYPE
        | 1 << kinds::EQNS
        | 1 << kinds::IN
        | 1 << kinds::OF
        | 1 << kinds::OFSORT
        | 1 << kinds::OPNS
        | 1 << kinds::SORTS
        | 1 << kinds::WHERE
        | 1 << kinds::NAME
        | 1 << kinds::DIGIT_NAME
        | 1 << kinds::SIGN_NAME
        | 1 << kinds::INTERLEAVING
        | 1 << kinds::FULL_SYNCHRONISATION
        | 1 << kinds::GATES_OPEN
        | 1 << kinds::CHOICE_SIGN
        | 1 << kinds::DISABLING
        | 1 << kinds::EQUALS
        | 1 << kinds::IMPLIES
        | 1 << kinds::ENABLING
        | 1 << kinds::RIGHT_PARENTHESIS
        | 1 << kinds::LEFT_BRACKET
        | 1 << kinds::RIGHT_BRACKET
        | 1 << kinds::COMMA
        | 1 << kinds::SEMICOLON
        | 1 << kinds::EXCLAMATION
        | 1 << kinds::QUESTION
        | END,
};

/// `arguments = "(" term_list ")"`
pub const ARGUMENTS_ROW: WrittenRow = WrittenRow {
    left: ARGUMENTS,
    right: &[
        Symbol::Token(kinds::LEFT_PARENTHESIS),
        Symbol::Part(TERM_LIST),
        Symbol::Token(kinds::RIGHT_PARENTHESIS),
    ],
    predicted_by: 1 << kinds::LEFT_PARENTHESIS,
};

/// `sort_mark =`
pub const NO_SORT_MARK_ROW: WrittenRow = WrittenRow {
    left: SORT_MARK,
    right: &[],
    predicted_by: 1 << kinds::ENDTYPE
        | 1 << kinds::EQNS
        | 1 << kinds::IN
        | 1 << kinds::OFSORT
        | 1 << kinds::OPNS
        | 1 << kinds::SORTS
        | 1 << kinds::NAME
        | 1 << kinds::DIGIT_NAME
        | 1 << kinds::SIGN_NAME
        | 1 << kinds::EQUALS
        | 1 << kinds::IMPLIES
        | 1 << kinds::RIGHT_PARENTHESIS
        | 1 << kinds::LEFT_BRACKET
        | 1 << kinds::RIGHT_BRACKET
        | 1 << kinds::COMMA
        | 1 << kinds::SEMICOLON
        | 1 << kinds::EXCLAMATION
        | 1 << kinds::QUESTION
        | END,
};

/// `sort_mark = "of" name`
pub const SORT_MARK_ROW: WrittenRow = WrittenRow {
    left: SORT_MARK,
    right: &[Symbol::Token(kinds::OF), Symbol::Part(names::NAME)],
    predicted_by: 1 << kinds::OF,
};

/// `term_list = term more_terms`
pub const TERM_LIST_ROW: WrittenRow = WrittenRow {
    left: TERM_LIST,
    right: &[Symbol::Part(TERM), Symbol::Part(MORE_TERMS)],
    predicted_by: 1 << kinds::NAME
        | 1 << kinds::DIGIT_NAME
        | 1 << kinds::SIGN_NAME
        | 1 << kinds::LEFT_PARENTHESIS,
};

/// `more_terms =`
pub const NO_MORE_TERMS_ROW: WrittenRow = WrittenRow {
    left: MORE_TERMS,
    right: &[],
    predicted_by: 1 << kinds::RIGHT_PARENTHESIS | END,
};

/// `more_terms = "," term_list`
pub const MORE_TERMS_ROW: WrittenRow = WrittenRow {
    left: MORE_TERMS,
    right: &[Symbol::Token(kinds::COMMA), Symbol::Part(TERM_LIST)],
    predicted_by: 1 << kinds::COMMA,
};
