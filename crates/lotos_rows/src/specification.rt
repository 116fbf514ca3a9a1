//! The rows of a specification.

use crate::{END, definitions, types};
use ll_engine::{Symbol, WrittenRow};
use lotos_lexer::kinds;

/// The number of the first part here.
pub const FIRST_PART: u16 = definitions::FIRST_PART + definitions::PARTS;
/// How many parts there are here.
pub const PARTS: u16 = 2;
/// The number of the first row here.
pub const FIRST_ROW: u32 = definitions::FIRST_ROW + definitions::ROWS;
/// How many rows there are here.
pub const ROWS: u32 = 4;

/// Items.
pub const ITEMS: u16 = FIRST_PART;
/// The word before a behaviour, in either spelling.
pub const BEHAVIOUR_WORD: u16 = FIRST_PART + 1;

/// The rows here, by their names.
#[derive(Clone, Copy, Debug, PartialEq, Eq)]
pub enum SpecificationRow {
    /// `items =`
    NoItems,
    /// `items = item items`
    Items,
    /// `behaviour_word = "behaviour"`
    BehaviourWord,
    /// `behaviour_word = "behavior"`
    BehaviorWord,
}

/// `items =`
pub const NO_ITEMS_ROW: WrittenRow = WrittenRow {
    left: ITEMS,
    right: &[],
    predicted_by: 1 << kinds::BEHAVIOR | 1 << kinds::BEHAVIOUR | END,
};

/// `items = item items`
pub const ITEMS_ROW: WrittenRow = WrittenRow {
    left: ITEMS,
    right: &[Symbol::Part(types::ITEM), Symbol::Part(ITEMS)],
    predicted_by: 1 << kinds::LIBRARY | 1 << kinds::TYPE,
};

/// `behaviour_word = "behaviour"`
pub const BEHAVIOUR_WORD_ROW: WrittenRow = WrittenRow {
    left: BEHAVIOUR_WORD,
    right: &[Symbol::Token(kinds::BEHAVIOUR)],
    predicted_by: 1 << kinds::BEHAVIOUR,
};

/// `behaviour_word = "behavior"`
pub const BEHAVIOR_WORD_ROW: WrittenRow = WrittenRow {
    left: BEHAVIOUR_WORD,
    right: &[Symbol::Token(kinds::BEHAVIOR)],
    predicted_by: 1 << kinds::BEHAVIOR,
};
