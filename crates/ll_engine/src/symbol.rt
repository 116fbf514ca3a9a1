//! The rows of a grammar.

/// A symbol of a row's right side.
#[derive(Clone, Copy, PartialEq, Eq, Debug)]
pub enum Symbol {
    /// A token, by its number.
    Token(u16),
    /// A part, by its number.
    Part(u16),
}

/// A row of a grammar: the part `left` may be replaced by the symbols of `right`.
#[derive(Debug, Drop)]
pub struct Row {
    /// The part that the row replaces.
    pub left: u16,
    /// The symbols that replace it, in order. No symbols derive the empty list of tokens.
    pub right: Vec<Symbol>,
}
