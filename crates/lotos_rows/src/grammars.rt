//! The grammars of the four texts. They have the same rows, and each its start part.

ghost use Rattle.std.specs.Prelude.{◌≡◌};
ghost use Rattle.lotos_rows.specs.Rows.{grammar_from};
ghost use Rattle.lotos_rows.specs.declared.starts.TheConstants as starts;

use crate::starts;
use crate::table::table;
use ll_engine::Grammar;

/// The grammar of a specification.
pub fn specification_grammar() -> Grammar
    ensures { result ≡ grammar_from starts.SPEC }
{
    Grammar::written(table(), starts::SPEC)
}

/// The grammar of a text of types.
pub fn types_grammar() -> Grammar
    ensures { result ≡ grammar_from starts.TYPETEXT }
{
    Grammar::written(table(), starts::TYPETEXT)
}

/// The grammar of an order file.
pub fn order_grammar() -> Grammar
    ensures { result ≡ grammar_from starts.ORDER }
{
    Grammar::written(table(), starts::ORDER)
}

/// The grammar of a list of terms.
pub fn terms_grammar() -> Grammar
    ensures { result ≡ grammar_from starts.TERMS }
{
    Grammar::written(table(), starts::TERMS)
}
