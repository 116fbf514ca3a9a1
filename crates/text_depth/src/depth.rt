//! The first node of a text that is too deep.

ghost use Rattle.std.specs.Prelude.{◌≡◌, ℕ, List, IfOk, map, option_map};
ghost use Rattle.ll_engine.specs.Language.{IsLeftmostDerivation};
ghost use Rattle.lotos_base.specs.WrittenTerm.{WrittenTerm};
ghost use Rattle.lotos_base.specs.WrittenView.{text_place_of};
ghost use Rattle.lotos_rows.specs.Rows.{grammar_from};
ghost use Rattle.lotos_rows.specs.declared.starts.TheConstants as starts;
ghost use Rattle.lotos_rows.specs.Starts.{AreItems, AreOptionalTerms, IsWrittenSpecification};
ghost use Rattle.tree_building.specs.Sentences.{kind_of};
ghost use Rattle.syntax_trees.specs.Depth.{first_deeper, nodes_of_specification, nodes_of_terms};
ghost use Rattle.syntax_trees.specs.WrittenDefinition.{WrittenSpecification};
ghost use Rattle.syntax_trees.specs.WrittenItem.{WrittenItem};
ghost use Rattle.tree_building.specs.Meaning.{Meaning};
ghost use Rattle.tree_building.specs.Sentences.{Derived};
ghost use Rattle.text_depth.specs.DepthPart.{depth_of};
ghost use Rattle.text_depth.specs.RowDepth.{closed_part};
ghost use Rattle.syntax_trees.specs.Firsts.{everywhere};
ghost use Rattle.tree_building.specs.Reading.{node_limit, nodes_of_items};
ghost use Rattle.tree_building.specs.LotosGrammar.{IsLotosGrammar};

use crate::lists::closed_part;
use crate::rows::Depths;
use ll_engine::{Grammar, fold_derivation};
use lotos_base::Place;
use lotos_lexer::Token;
use lotos_rows::{specification_grammar, terms_grammar, types_grammar};
use std::alloc::{AllocError, Global};

/// The depth that a node may have; the root is at 1.
pub const NODE_LIMIT: usize = 500;

/// The first node of the part that the tokens are which is too deep.
fn depth(
    alloc: Global,
    grammar: &Grammar,
    tokens: &[Token],
    rows: &[u32],
) -> Result<Option<Place>, AllocError>
    requires lotos { IsLotosGrammar grammar.now }
    requires derivation { IsLeftmostDerivation grammar.now rows.now (map kind_of tokens.now) }
    ensures { IfOk result (λ deep. (text : List ℕ) (found : Meaning)
        → Derived text grammar.now.start tokens.now found
        → everywhere (option_map text_place_of deep)
        ≡ closed_part node_limit (depth_of node_limit found)) }
{
    let rows = Vec::from_slice(alloc, rows)?;
    let actions = Depths { limit: NODE_LIMIT };
    match fold_derivation(alloc, &actions, grammar, tokens, rows)? {
        Some(part) => closed_part(alloc, part, NODE_LIMIT),
        None => Ok(None),
    }
}

/// The first node of a specification in text order that is deeper than 500, from the rows of the
/// derivation of its tokens.
pub fn specification_depth(
    alloc: Global,
    tokens: &[Token],
    rows: &[u32],
) -> Result<Option<Place>, AllocError>
    requires { IsLeftmostDerivation (grammar_from starts.SPEC) rows.now (map kind_of tokens.now) }
    ensures { IfOk result (λ deep. (text : List ℕ) (tree : WrittenSpecification)
        → IsWrittenSpecification text tokens.now tree
        → option_map text_place_of deep ≡ first_deeper node_limit (nodes_of_specification tree)) }
{
    let deep = depth(alloc, &specification_grammar(), tokens, rows);
    deep
}

/// The same of the items of a library.
pub fn items_depth(
    alloc: Global,
    tokens: &[Token],
    rows: &[u32],
) -> Result<Option<Place>, AllocError>
    requires { IsLeftmostDerivation (grammar_from starts.TYPETEXT) rows.now (map kind_of tokens.now) }
    ensures { IfOk result (λ deep. (text : List ℕ) (items : List WrittenItem)
        → AreItems text tokens.now items → option_map text_place_of deep
        ≡ first_deeper node_limit (nodes_of_items items)) }
{
    let deep = depth(alloc, &types_grammar(), tokens, rows);
    deep
}

/// The same of a list of terms.
pub fn terms_depth(
    alloc: Global,
    tokens: &[Token],
    rows: &[u32],
) -> Result<Option<Place>, AllocError>
    requires { IsLeftmostDerivation (grammar_from starts.TERMS) rows.now (map kind_of tokens.now) }
    ensures { IfOk result (λ deep. (text : List ℕ) (terms : List WrittenTerm)
        → AreOptionalTerms text tokens.now terms
        → option_map text_place_of deep ≡ first_deeper node_limit (nodes_of_terms terms)) }
{
    let deep = depth(alloc, &terms_grammar(), tokens, rows);
    deep
}
