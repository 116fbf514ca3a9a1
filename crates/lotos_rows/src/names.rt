//! The rows of names and lists of them.

use ll_engine::{Symbol, WrittenRow};
use lotos_lexer::kinds;

/// The number of the first part here.
pub const FIRST_PART: u16 = 0;
/// How many parts there are here.
pub const PARTS: u16 = 13;
/// The number of the first row here.
pub const FIRST_ROW: u32 = 0;
/// How many rows there are here.
pub const ROWS: u32 = 22;

/// A name.
pub const NAME: u16 = FIRST_PART;
/// Names with commas between.
pub const NAMES: u16 = FIRST_PART + 1;
/// Further names, each behind a comma.
pub const MORE_NAMES: u16 = FIRST_PART + 2;
/// Names or nothing.
pub const OPTIONAL_NAMES: u16 = FIRST_PART + 3;
/// Gates in brackets.
pub const GATES: u16 = FIRST_PART + 4;
/// Gates in brackets, or nothing.
pub const OPTIONAL_GATES: u16 = FIRST_PART + 5;
/// Names whose commas may be left out.
pub const LOOSE_NAMES: u16 = FIRST_PART + 6;
/// Further names whose commas may be left out.
pub const MORE_LOOSE_NAMES: u16 = FIRST_PART + 7;
/// Variables with their sorts.
pub const VARIABLES: u16 = FIRST_PART + 8;
/// Further variables, behind a comma.
pub const MORE_VARIABLES: u16 = FIRST_PART + 9;
/// The name of an operation.
pub const OPERATION_NAME: u16 = FIRST_PART + 10;
/// An operation, with its underscores where it is infix.
pub const OPERATION: u16 = FIRST_PART + 11;
/// The argument sorts and the result sort of an operation.
pub const PROFILE: u16 = FIRST_PART + 12;

/// The rows here, by their names.
#[derive(Clone, Copy, Debug, PartialEq, Eq)]
pub enum NamesRow {
    /// `name = NAME`
    Name,
    /// `names = name more_names`
    Names,
    /// `more_names =`
    NoMoreNames,
    /// `more_names = "," names`
    MoreNames,
    /// `optional_names =`
    NoOptionalNames,
    /// `optional_names = names`
    OptionalNames,
    /// `gates = "[" names "]"`
    Gates,
    /// `optional_gates =`
    NoOptionalGates,
    /// `optional_gates = gates`
    OptionalGates,
    /// `loose_names = name more_loose_names`
    LooseNames,
    /// `more_loose_names =`
    NoMoreLooseNames,
    /// `more_loose_names = "," loose_names`
    MoreLooseNamesAfterComma,
    /// `more_loose_names = loose_names`
    MoreLooseNames,
    /// `variables = names ":" name more_variables`
    Variables,
    /// `more_variables =`
    NoMoreVariables,
    /// `more_variables = "," variables`
    MoreVariables,
    /// `operation_name = name`
    NameOfOperation,
    /// `operation_name = DIGIT_NAME`
    DigitName,
    /// `operation_name = SIGN_NAME`
    SignName,
    /// `operation = operation_name`
    PrefixOperation,
    /// `operation = "_" operation_name "_"`
    InfixOperation,
    /// `profile = ":" optional_names "->" name`
    Profile,
}

/// `name = NAME`
pub const NAME_ROW: WrittenRow = WrittenRow {
    left: NAME,
    right: &[Symbol::Token(kinds::NAME)],
    predicted_by: 1 << kinds::NAME,
};

/// `names = name more_names`
pub const NAMES_ROW: WrittenRow = WrittenRow {
    left: NAMES,
    right: &[Symbol::Part(NAME), Symbol::Part(MORE_NAMES)],
    predicted_by: 1 << kinds::NAME,
};

/// `more_names =`
pub const NO_MORE_NAMES_ROW: WrittenRow = WrittenRow {
    left: MORE_NAMES,
    right: &[],
    predicted_by: 1 << kinds::ENDLIB
        | 1 << kinds::ENDTYPE
        | 1 << kinds::EQNS
        | 1 << kinds::FORMALEQNS
        | 1 << kinds::FORMALOPNS
        | 1 << kinds::FORMALSORTS
        | 1 << kinds::IN
        | 1 << kinds::OPNS
        | 1 << kinds::SORTS
        | 1 << kinds::USING
        | 1 << kinds::GATES_CLOSE
        | 1 << kinds::ARROW
        | 1 << kinds::RIGHT_PARENTHESIS
        | 1 << kinds::RIGHT_BRACKET
        | 1 << kinds::COLON,
};

/// `more_names = "," names`
pub const MORE_NAMES_ROW: WrittenRow = WrittenRow {
    left: MORE_NAMES,
    right: &[Symbol::Token(kinds::COMMA), Symbol::Part(NAMES)],
    predicted_by: 1 << kinds::COMMA,
};

/// `optional_names =`
pub const NO_OPTIONAL_NAMES_ROW: WrittenRow = WrittenRow {
    left: OPTIONAL_NAMES,
    right: &[],
    predicted_by: 1 << kinds::GATES_CLOSE | 1 << kinds::ARROW,
};

/// `optional_names = names`
pub const OPTIONAL_NAMES_ROW: WrittenRow = WrittenRow {
    left: OPTIONAL_NAMES,
    right: &[Symbol::Part(NAMES)],
    predicted_by: 1 << kinds::NAME,
};

/// `gates = "[" names "]"`
pub const GATES_ROW: WrittenRow = WrittenRow {
    left: GATES,
    right: &[
        Symbol::Token(kinds::LEFT_BRACKET),
        Symbol::Part(NAMES),
        Symbol::Token(kinds::RIGHT_BRACKET),
    ],
    predicted_by: 1 << kinds::LEFT_BRACKET,
};

/// `optional_gates =`
pub const NO_OPTIONAL_GATES_ROW: WrittenRow = WrittenRow {
    left: OPTIONAL_GATES,
    right: &[],
    predicted_by: 1 << kinds::ENDPROC
        | 1 << kinds::ENDSPEC
        | 1 << kinds::WHERE
        | 1 << kinds::INTERLEAVING
        | 1 << kinds::FULL_SYNCHRONISATION
        | 1 << kinds::GATES_OPEN
        | 1 << kinds::CHOICE_SIGN
        | 1 << kinds::DISABLING
        | 1 << kinds::ENABLING
        | 1 << kinds::LEFT_PARENTHESIS
        | 1 << kinds::RIGHT_PARENTHESIS
        | 1 << kinds::COLON,
};

/// `optional_gates = gates`
pub const OPTIONAL_GATES_ROW: WrittenRow = WrittenRow {
    left: OPTIONAL_GATES,
    right: &[Symbol::Part(GATES)],
    predicted_by: 1 << kinds::LEFT_BRACKET,
};

/// `loose_names = name more_loose_names`
pub const LOOSE_NAMES_ROW: WrittenRow = WrittenRow {
    left: LOOSE_NAMES,
    right: &[Symbol::Part(NAME), Symbol::Part(MORE_LOOSE_NAMES)],
    predicted_by: 1 << kinds::NAME,
};

/// `more_loose_names =`
pub const NO_MORE_LOOSE_NAMES_ROW: WrittenRow = WrittenRow {
    left: MORE_LOOSE_NAMES,
    right: &[],
    predicted_by: 1 << kinds::ENDTYPE
        | 1 << kinds::EQNS
        | 1 << kinds::FORMALEQNS
        | 1 << kinds::FORMALOPNS
        | 1 << kinds::OPNS
        | 1 << kinds::SORTS,
};

/// `more_loose_names = "," loose_names`
pub const MORE_LOOSE_NAMES_AFTER_COMMA_ROW: WrittenRow = WrittenRow {
    left: MORE_LOOSE_NAMES,
    right: &[Symbol::Token(kinds::COMMA), Symbol::Part(LOOSE_NAMES)],
    predicted_by: 1 << kinds::COMMA,
};

/// `more_loose_names = loose_names`
pub const MORE_LOOSE_NAMES_ROW: WrittenRow = WrittenRow {
    left: MORE_LOOSE_NAMES,
    right: &[Symbol::Part(LOOSE_NAMES)],
    predicted_by: 1 << kinds::NAME,
};

/// `variables = names ":" name more_variables`
pub const VARIABLES_ROW: WrittenRow = WrittenRow {
    left: VARIABLES,
    right: &[
        Symbol::Part(NAMES),
        Symbol::Token(kinds::COLON),
        Symbol::Part(NAME),
        Symbol::Part(MORE_VARIABLES),
    ],
    predicted_by: 1 << kinds::NAME,
};

/// `more_variables =`
pub const NO_MORE_VARIABLES_ROW: WrittenRow = WrittenRow {
    left: MORE_VARIABLES,
    right: &[],
    predicted_by: 1 << kinds::ENDTYPE
        | 1 << kinds::EQNS
        | 1 << kinds::IN
        | 1 << kinds::OFSORT
        | 1 << kinds::OPNS
        | 1 << kinds::SORTS
        | 1 << kinds::NAME
        | 1 << kinds::DIGIT_NAME
        | 1 << kinds::SIGN_NAME
        | 1 << kinds::CHOICE_SIGN
        | 1 << kinds::LEFT_PARENTHESIS
        | 1 << kinds::RIGHT_PARENTHESIS,
};

/// `more_variables = "," variables`
pub const MORE_VARIABLES_ROW: WrittenRow = WrittenRow {
    left: MORE_VARIABLES,
    right: &[Symbol::Token(kinds::COMMA), Symbol::Part(VARIABLES)],
    predicted_by: 1 << kinds::COMMA,
};

/// `operation_name = name`
pub const NAME_OF_OPERATION_ROW: WrittenRow = WrittenRow {
    left: OPERATION_NAME,
    right: &[Symbol::Part(NAME)],
    predicted_by: 1 << kinds::NAME,
};

/// `operation_name = DIGIT_NAME`
pub const DIGIT_NAME_ROW: WrittenRow = WrittenRow {
    left: OPERATION_NAME,
    right: &[Symbol::Token(kinds::DIGIT_NAME)],
    predicted_by: 1 << kinds::DIGIT_NAME,
};

/// `operation_name = SIGN_NAME`
pub const SIGN_NAME_ROW: WrittenRow = WrittenRow {
    left: OPERATION_NAME,
    right: &[Symbol::Token(kinds::SIGN_NAME)],
    predicted_by: 1 << kinds::SIGN_NAME,
};

/// `operation = operation_name`
pub const PREFIX_OPERATION_ROW: WrittenRow = WrittenRow {
    left: OPERATION,
    right: &[Symbol::Part(OPERATION_NAME)],
    predicted_by: 1 << kinds::NAME | 1 << kinds::DIGIT_NAME | 1 << kinds::SIGN_NAME,
};

/// `operation = "_" operation_name "_"`
pub const INFIX_OPERATION_ROW: WrittenRow = WrittenRow {
    left: OPERATION,
    right: &[
        Symbol::Token(kinds::UNDERSCORE),
        Symbol::Part(OPERATION_NAME),
        Symbol::Token(kinds::UNDERSCORE),
    ],
    predicted_by: 1 << kinds::UNDERSCORE,
};

/// `profile = ":" optional_names "->" name`
pub const PROFILE_ROW: WrittenRow = WrittenRow {
    left: PROFILE,
    right: &[
        Symbol::Token(kinds::COLON),
        Symbol::Part(OPTIONAL_NAMES),
        Symbol::Token(kinds::ARROW),
        Symbol::Part(NAME),
    ],
    predicted_by: 1 << kinds::COLON,
};
