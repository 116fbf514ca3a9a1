//! What each row of the grammar builds, as the actions of a fold over a derivation.

ghost use Rattle.std.specs.Prelude.{◌≡◌, IfOk, option_map};
ghost use Rattle.ll_engine.specs.Run.{from_last};
ghost use Rattle.lotos_rows.specs.Kept.{is_kept_kind};
ghost use Rattle.tree_building.specs.Meaning as plain;
ghost use Rattle.tree_building.specs.MeaningView.{meaning};
ghost use Rattle.tree_building.specs.RowMeaning.{numbered_row_means, row_means};

use crate::{definitions, starts};
use behaviour_building::behaviours;
use ll_engine::Actions;
use lotos_lexer::Token;
use lotos_rows::{RowName, is_kept_kind, row_name};
use std::alloc::{AllocError, Global};
use tree_building::names::Built;
use tree_building::{Value, names, terms};
use type_building::{equations, renamings, types};

/// Builds the trees of a text.
#[derive(Clone, Copy, Debug)]
pub struct Builder<'a> {
    /// The bytes of the text.
    pub text: &'a [u8],
}

/// What a row builds from its token and its parts.
#[tactic(auto, using(crate::proofs::WithoutToken::without_token))]
fn build_row(
    alloc: Global,
    text: &[u8],
    row: RowName,
    token: Option<Token>,
    parts: &mut Vec<Value>,
) -> Built
    ensures { IfOk result (λ built. option_map meaning built
        ≡ row_means text.now row token (from_last meaning parts.old.items)) }
{
    match row {
        RowName::Names(row) => names::build(alloc, text, row, token, parts),
        RowName::Terms(row) => terms::build(alloc, row, token, parts),
        RowName::Types(row) => types::build(alloc, row, token, parts),
        RowName::Equations(row) => equations::build(alloc, row, token, parts),
        RowName::Renamings(row) => renamings::build(alloc, row, parts),
        RowName::Behaviours(row) => behaviours::build(alloc, row, token, parts),
        RowName::Definitions(row) => definitions::build(alloc, row, parts),
        RowName::Specification(row) => starts::build_of_specification(alloc, row, parts),
        RowName::Starts(row) => starts::build(alloc, row, parts),
    }
}

impl<'a> Actions for Builder<'a> {
    type Token = Token;

    type Value = Value;

    ghost Meaning = { plain.Meaning };

    ghost meaning = { meaning };

    ghost kind = { λ token. token.kind };

    ghost keeps = { is_kept_kind };

    ghost value_of = { λ builder. numbered_row_means builder.text.now };

    fn kind(&self, token: Token) -> u16
        ensures { result ≡ token.kind }
    {
        token.kind
    }

    fn keeps(&self, number: u16) -> bool
        ensures { result ≡ is_kept_kind number }
    {
        is_kept_kind(number)
    }

    fn build(
        &self,
        alloc: Global,
        row: u32,
        token: Option<Token>,
        mut parts: Vec<Value>,
    ) -> Result<Option<Value>, AllocError>
        ensures { IfOk result (λ built. option_map meaning built
            ≡ numbered_row_means self.now.text.now row token (from_last meaning parts.items)) }
    {
        match row_name(row) {
            Some(name) => build_row(alloc, self.text, name, token, &mut parts),
            None => Ok(None),
        }
    }
}
