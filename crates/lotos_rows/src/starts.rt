//! The rows of the four texts.

use crate::{END, behaviours, definitions, names, specification, terms};
use ll_engine::{Symbol, WrittenRow};
use lotos_lexer::kinds;

/// The number of the first part here.
pub const FIRST_PART: u16 = specification::FIRST_PART + specification::PARTS;
/// How many parts there are here.
pub const PARTS: u16 = 6;
/// The number of the first row here.
pub const FIRST_ROW: u32 = specification::FIRST_ROW + specification::ROWS;
/// How many rows there are here.
pub const ROWS: u32 = 10;

/// A specification.
pub const SPEC: u16 = FIRST_PART;
/// A text of types.
pub const TYPETEXT: u16 = FIRST_PART + 1;
/// An order file.
pub const ORDER: u16 = FIRST_PART + 2;
/// A profile or nothing.
pub const OPTIONAL_PROFILE: u16 = FIRST_PART + 3;
/// Terms with commas between, or nothing.
pub const TERMS: u16 = FIRST_PART + 4;
/// The name of a status or nothing.
pub const OPTIONAL_STATUS: u16 = FIRST_PART + 5;

/// The rows here, by their names.
#[derive(Clone, Copy, Debug, PartialEq, Eq)]
pub enum StartsRow {
    /// `spec = "specification" heading items behaviour_word behaviour where "endspec"`
    Spec,
    /// `typetext = items`
    Typetext,
    /// `order =`
    NoOrder,
    /// `order = operation optional_profile optional_status ";" order`
    Order,
    /// `optional_profile =`
    NoOptionalProfile,
    /// `optional_profile = profile`
    OptionalProfile,
    /// `terms =`
    NoTerms,
    /// `terms = term_list`
    Terms,
    /// `optional_status =`
    NoOptionalStatus,
    /// `optional_status = name`
    OptionalStatus,
}

/// `spec = "specification" heading items behaviour_word behaviour where "endspec"`
pub const SPEC_ROW: WrittenRow = WrittenRow {
    left: SPEC,
    right: &[
        Symbol::Token(kinds::SPECIFICATION),
        Symbol::Part(definitions::HEADING),
        Symbol::Part(specification::ITEMS),
        Symbol::Part(specification::BEHAVIOUR_WORD),
        Symbol::Part(behaviours::BEHAVIOUR),
        Symbol::Part(definitions::WHERE),
        Symbol::Token(kinds::ENDSPEC),
    ],
    predicted_by: 1 << kinds::SPECIFICATION,
};

/// `typetext = items`
pub const TYPETEXT_ROW: WrittenRow = WrittenRow {
    left: TYPETEXT,
    right: &[Symbol::Part(specification::ITEMS)],
    predicted_by: 1 << kinds::LIBRARY | 1 << kinds::TYPE | END,
};

/// `order =`
pub const NO_ORDER_ROW: WrittenRow = WrittenRow {
    left: ORDER,
    right: &[],
    predicted_by: END,
};

/// `order = operation optional_profile optional_status ";" order`
pub const ORDER_ROW: WrittenRow = WrittenRow {
    left: ORDER,
    right: &[
        Symbol::Part(names::OPERATION),
        Symbol::Part(OPTIONAL_PROFILE),
        Symbol::Part(OPTIONAL_STATUS),
        Symbol::Token(kinds::SEMICOLON),
        Symbol::Part(ORDER),
    ],
    predicted_by: 1 << kinds::NAME
        | 1 << kinds::DIGIT_NAME
        | 1 << kinds::SIGN_NAME
        | 1 << kinds::UNDERSCORE,
};

/// `optional_profile =`
pub const NO_OPTIONAL_PROFILE_ROW: WrittenRow = WrittenRow {
    left: OPTIONAL_PROFILE,
    right: &[],
    predicted_by: 1 << kinds::NAME | 1 << kinds::SEMICOLON,
};

/// `optional_profile = profile`
pub const OPTIONAL_PROFILE_ROW: WrittenRow = WrittenRow {
    left: OPTIONAL_PROFILE,
    right: &[Symbol::Part(names::PROFILE)],
    predicted_by: 1 << kinds::COLON,
};

/// `terms =`
pub const NO_TERMS_ROW: WrittenRow = WrittenRow {
    left: TERMS,
    right: &[],
    predicted_by: END,
};

/// `terms = term_list`
pub const TERMS_ROW: WrittenRow = WrittenRow {
    left: TERMS,
    right: &[Symbol::Part(terms::TERM_LIST)],
    predicted_by: 1 << kinds::NAME
        | 1 << kinds::DIGIT_NAME
        | 1 << kinds::SIGN_NAME
        | 1 << kinds::LEFT_PARENTHESIS,
};

/// `optional_status =`
pub const NO_OPTIONAL_STATUS_ROW: WrittenRow = WrittenRow {
    left: OPTIONAL_STATUS,
    right: &[],
    predicted_by: 1 << kinds::SEMICOLON,
};

/// `optional_status = name`
pub const OPTIONAL_STATUS_ROW: WrittenRow = WrittenRow {
    left: OPTIONAL_STATUS,
    right: &[Symbol::Part(names::NAME)],
    predicted_by: 1 << kinds::NAME,
};
