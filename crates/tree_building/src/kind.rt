//! The kinds of texts that are read.

ghost use Rattle.std.specs.Prelude.{◌≡◌};
ghost use Rattle.lotos_rows.specs.Rows.{grammar_from};
ghost use Rattle.tree_building.specs.Derived.{start_part_of};

use ll_engine::Grammar;
use lotos_rows::{order_grammar, specification_grammar, terms_grammar, types_grammar};

/// What a text is to be.
#[derive(Clone, Copy, Debug, PartialEq, Eq)]
pub enum TextKind {
    /// A specification.
    Specification,
    /// The items of a library.
    Types,
    /// An order file.
    Order,
    /// A list of terms.
    Terms,
}

impl TextKind {
    /// The grammar of such texts.
    pub fn grammar(self) -> Grammar
        ensures { result ≡ grammar_from (start_part_of self) }
    {
        match self {
            TextKind::Specification => specification_grammar(),
            TextKind::Types => types_grammar(),
            TextKind::Order => order_grammar(),
            TextKind::Terms => terms_grammar(),
        }
    }
}
