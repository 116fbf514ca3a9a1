//! The rows of renamings.

use crate::{equations, names};
use ll_engine::{Symbol, WrittenRow};
use lotos_lexer::kinds;

/// The number of the first part here.
pub const FIRST_PART: u16 = equations::FIRST_PART + equations::PARTS;
/// How many parts there are here.
pub const PARTS: u16 = 7;
/// The number of the first row here.
pub const FIRST_ROW: u32 = equations::FIRST_ROW + equations::ROWS;
/// How many rows there are here.
pub const ROWS: u32 = 13;

/// What a type renames.
pub const RENAMES: u16 = FIRST_PART;
/// The pairs of sorts, or nothing.
pub const SORT_RENAMES: u16 = FIRST_PART + 1;
/// Pairs of sorts.
pub const SORT_PAIRS: u16 = FIRST_PART + 2;
/// Further pairs of sorts; a comma may be left out.
pub const MORE_SORT_PAIRS: u16 = FIRST_PART + 3;
/// The pairs of operations, or nothing.
pub const OPERATION_RENAMES: u16 = FIRST_PART + 4;
/// Pairs of operations.
pub const OPERATION_PAIRS: u16 = FIRST_PART + 5;
/// Further pairs of operations; a comma may be left out.
pub const MORE_OPERATION_PAIRS: u16 = FIRST_PART + 6;

/// The rows here, by their names.
#[derive(Clone, Copy, Debug, PartialEq, Eq)]
pub enum RenamingsRow {
    /// `renames = sort_renames operation_renames`
    Renames,
    /// `sort_renames =`
    NoSortRenames,
    /// `sort_renames = "sortnames" sort_pairs`
    SortRenames,
    /// `sort_pairs = name "for" name more_sort_pairs`
    SortPairs,
    /// `more_sort_pairs =`
    NoMoreSortPairs,
    /// `more_sort_pairs = "," sort_pairs`
    MoreSortPairsAfterComma,
    /// `more_sort_pairs = sort_pairs`
    MoreSortPairs,
    /// `operation_renames =`
    NoOperationRenames,
    /// `operation_renames = "opnnames" operation_pairs`
    OperationRenames,
    /// `operation_pairs = operation "for" operation more_operation_pairs`
    OperationPairs,
    /// `more_operation_pairs =`
    NoMoreOperationPairs,
    /// `more_operation_pairs = "," operation_pairs`
    MoreOperationPairsAfterComma,
    /// `more_operation_pairs = operation_pairs`
    MoreOperationPairs,
}

/// `renames = sort_renames operation_renames`
pub const RENAMES_ROW: WrittenRow = WrittenRow {
    left: RENAMES,
    right: &[Symbol::Part(SORT_RENAMES), Symbol::Part(OPERATION_RENAMES)],
    predicted_by: 1 << kinds::ENDTYPE | 1 << kinds::OPNNAMES | 1 << kinds::SORTNAMES,
};

/// `sort_renames =`
pub const NO_SORT_RENAMES_ROW: WrittenRow = WrittenRow {
    left: SORT_RENAMES,
    right: &[],
    predicted_by: 1 << kinds::ENDTYPE | 1 << kinds::OPNNAMES,
};

/// `sort_renames = "sortnames" sort_pairs`
pub const SORT_RENAMES_ROW: WrittenRow = WrittenRow {
    left: SORT_RENAMES,
    right: &[Symbol::Token(kinds::SORTNAMES), Symbol::Part(SORT_PAIRS)],
    predicted_by: 1 << kinds::SORTNAMES,
};

/// `sort_pairs = name "for" name more_sort_pairs`
pub const SORT_PAIRS_ROW: WrittenRow = WrittenRow {
    left: SORT_PAIRS,
    right: &[
        Symbol::Part(names::NAME),
        Symbol::Token(kinds::FOR),
        Symbol::Part(names::NAME),
        Symbol::Part(MORE_SORT_PAIRS),
    ],
    predicted_by: 1 << kinds::NAME,
};

/// `more_sort_pairs =`
pub const NO_MORE_SORT_PAIRS_ROW: WrittenRow = WrittenRow {
    left: MORE_SORT_PAIRS,
    right: &[],
    predicted_by: 1 << kinds::ENDTYPE | 1 << kinds::OPNNAMES,
};

/// `more_sort_pairs = "," sort_pairs`
pub const MORE_SORT_PAIRS_AFTER_COMMA_ROW: WrittenRow = WrittenRow {
    left: MORE_SORT_PAIRS,
    right: &[Symbol::Token(kinds::COMMA), Symbol::Part(SORT_PAIRS)],
    predicted_by: 1 << kinds::COMMA,
};

/// `more_sort_pairs = sort_pairs`
pub const MORE_SORT_PAIRS_ROW: WrittenRow = WrittenRow {
    left: MORE_SORT_PAIRS,
    right: &[Symbol::Part(SORT_PAIRS)],
    predicted_by: 1 << kinds::NAME,
};

/// `operation_renames =`
pub const NO_OPERATION_RENAMES_ROW: WrittenRow = WrittenRow {
    left: OPERATION_RENAMES,
    right: &[],
    predicted_by: 1 << kinds::ENDTYPE,
};

/// `operation_renames = "opnnames" operation_pairs`
pub const OPERATION_RENAMES_ROW: WrittenRow = WrittenRow {
    left: OPERATION_RENAMES,
    right: &[
        Symbol::Token(kinds::OPNNAMES),
        Symbol::Part(OPERATION_PAIRS),
    ],
    predicted_by: 1 << kinds::OPNNAMES,
};

/// `operation_pairs = operation "for" operation more_operation_pairs`
pub const OPERATION_PAIRS_ROW: WrittenRow = WrittenRow {
    left: OPERATION_PAIRS,
    right: &[
        Symbol::Part(names::OPERATION),
        Symbol::Token(kinds::FOR),
        Symbol::Part(names::OPERATION),
        Symbol::Part(MORE_OPERATION_PAIRS),
    ],
    predicted_by: 1 << kinds::NAME
        | 1 << kinds::DIGIT_NAME
        | 1 << kinds::SIGN_NAME
        | 1 << kinds::UNDERSCORE,
};

/// `more_operation_pairs =`
pub const NO_MORE_OPERATION_PAIRS_ROW: WrittenRow = WrittenRow {
    left: MORE_OPERATION_PAIRS,
    right: &[],
    predicted_by: 1 << kinds::ENDTYPE,
};

/// `more_operation_pairs = "," operation_pairs`
pub const MORE_OPERATION_PAIRS_AFTER_COMMA_ROW: WrittenRow = WrittenRow {
    left: MORE_OPERATION_PAIRS,
    right: &[Symbol::Token(kinds::COMMA), Symbol::Part(OPERATION_PAIRS)],
    predicted_by: 1 << kinds::COMMA,
};

/// `more_operation_pairs = operation_pairs`
pub const MORE_OPERATION_PAIRS_ROW: WrittenRow = WrittenRow {
    left: MORE_OPERATION_PAIRS,
    right: &[Symbol::Part(OPERATION_PAIRS)],
    predicted_by: 1 << kinds::NAME
        | 1 << kinds::DIGIT_NAME
        | 1 << kinds::SIGN_NAME
        | 1 << kinds::UNDERSCORE,
};
