//! What each row keeps of its part, as the actions of a fold over a derivation.

ghost use Rattle.std.specs.Prelude.{◌≡◌, IfOk, option_map};
ghost use Rattle.ll_engine.specs.Run.{from_last};
ghost use Rattle.lotos_rows.specs.Kept.{is_kept_kind};
ghost use Rattle.text_depth.specs.DepthPart.{DepthPart};
ghost use Rattle.text_depth.specs.RowDepth.{behaviours_row_depth, definitions_row_depth, equations_row_depth, names_row_depth, numbered_row_depth, row_depth, starts_row_depth, terms_row_depth, types_row_depth};
ghost use Rattle.text_depth.specs.PartView.{kept_of};

use crate::forms;
use crate::lists::{Kept, closing, together};
use crate::part::KeptPart;
use ll_engine::Actions;
use lotos_lexer::Token;
use lotos_rows::behaviours::BehavioursRow;
use lotos_rows::definitions::DefinitionsRow;
use lotos_rows::equations::EquationsRow;
use lotos_rows::names::NamesRow;
use lotos_rows::starts::StartsRow;
use lotos_rows::terms::TermsRow;
use lotos_rows::types::TypesRow;
use lotos_rows::{RowName, is_kept_kind, row_name};
use std::alloc::{AllocError, Global};

/// Keeps of each part what tells its first node deeper than the limit.
#[derive(Clone, Copy, Debug)]
pub struct Depths {
    /// The depth that a node may have.
    pub limit: usize,
}

/// What a row of names keeps.
fn names_row(
    alloc: Global,
    limit: usize,
    row: NamesRow,
    token: Option<Token>,
    mut parts: Vec<KeptPart>,
) -> Kept
    ensures { IfOk result (λ kept. option_map kept_of kept
        ≡ names_row_depth limit row token (from_last kept_of parts.items)) }
{
    match row {
        NamesRow::Name | NamesRow::DigitName | NamesRow::SignName => {
            forms::token_name(alloc, token)
        }
        NamesRow::Variables => forms::around_middle(alloc, &mut parts),
        NamesRow::PrefixOperation | NamesRow::InfixOperation | NamesRow::Profile => {
            closing(alloc, parts, limit)
        }
        _ => together(alloc, parts),
    }
}

/// What a row of terms keeps.
fn terms_row(alloc: Global, row: TermsRow, token: Option<Token>, mut parts: Vec<KeptPart>) -> Kept
    ensures { IfOk result (λ kept. option_map kept_of kept
        ≡ terms_row_depth row token (from_last kept_of parts.items)) }
{
    match row {
        TermsRow::Term => forms::left_grouped(alloc, &mut parts),
        TermsRow::MoreFactors => forms::factor_first(alloc, &mut parts),
        TermsRow::AppliedFactor => forms::applied_name(alloc, &mut parts),
        TermsRow::BracketedFactor => forms::bracketed_term(alloc, &mut parts),
        _ => together(alloc, parts),
    }
}

/// What a row of types keeps.
fn types_row(alloc: Global, limit: usize, row: TypesRow, parts: Vec<KeptPart>) -> Kept
    ensures { IfOk result (λ kept. option_map kept_of kept
        ≡ types_row_depth limit row (from_last kept_of parts.items)) }
{
    match row {
        TypesRow::NoFormalSorts | TypesRow::FormalSorts | TypesRow::NoSorts | TypesRow::Sorts => {
            together(alloc, parts)
        }
        _ => closing(alloc, parts, limit),
    }
}

/// What a row of equations keeps.
fn equations_row(alloc: Global, limit: usize, row: EquationsRow, parts: Vec<KeptPart>) -> Kept
    ensures { IfOk result (λ kept. option_map kept_of kept
        ≡ equations_row_depth limit row (from_last kept_of parts.items)) }
{
    match row {
        EquationsRow::NoVariablesForAll | EquationsRow::VariablesForAll => together(alloc, parts),
        _ => closing(alloc, parts, limit),
    }
}

/// What a row of definitions keeps.
fn definitions_row(alloc: Global, limit: usize, row: DefinitionsRow, parts: Vec<KeptPart>) -> Kept
    ensures { IfOk result (λ kept. option_map kept_of kept
        ≡ definitions_row_depth limit row (from_last kept_of parts.items)) }
{
    match row {
        DefinitionsRow::NoParameters
        | DefinitionsRow::Parameters
        | DefinitionsRow::NoExitSorts
        | DefinitionsRow::ExitSorts => together(alloc, parts),
        _ => closing(alloc, parts, limit),
    }
}

/// What a row of the four texts keeps.
fn starts_row(alloc: Global, limit: usize, row: StartsRow, parts: Vec<KeptPart>) -> Kept
    ensures { IfOk result (λ kept. option_map kept_of kept
        ≡ starts_row_depth limit row (from_last kept_of parts.items)) }
{
    match row {
        StartsRow::NoTerms | StartsRow::Terms => together(alloc, parts),
        _ => closing(alloc, parts, limit),
    }
}

/// What a row of behaviours keeps.
fn behaviours_row(
    alloc: Global,
    limit: usize,
    row: BehavioursRow,
    token: Option<Token>,
    mut parts: Vec<KeptPart>,
) -> Kept
    ensures { IfOk result (λ kept. option_map kept_of kept
        ≡ behaviours_row_depth limit row token (from_last kept_of parts.items)) }
{
    match row {
        BehavioursRow::Hide | BehavioursRow::Let => forms::word_form(alloc, token, &mut parts),
        BehavioursRow::Choice => forms::choice_form(alloc, &mut parts),
        BehavioursRow::Par => forms::par_form(alloc, &mut parts),
        BehavioursRow::Internal => forms::inner_prefix(alloc, token, &mut parts),
        BehavioursRow::Guarded => forms::guard_prefix(alloc, token, &mut parts),
        BehavioursRow::NameFirst => forms::named_first(alloc, &mut parts),
        BehavioursRow::Stop => forms::stop_first(alloc, token, &mut parts),
        BehavioursRow::Exit => forms::exit_first(alloc, token, &mut parts),
        BehavioursRow::BracketedBehaviour => forms::bracket_first(alloc, &mut parts),
        BehavioursRow::ActionWithOffers
        | BehavioursRow::OneMoreOffer
        | BehavioursRow::SelectionAfterOffers => forms::terms_before(alloc, &mut parts),
        BehavioursRow::Call => forms::call_end(alloc, &mut parts, limit),
        BehavioursRow::ChoiceOfValues | BehavioursRow::ChoiceOfGates => {
            forms::end_of_choice(alloc, &mut parts)
        }
        BehavioursRow::Chosen => forms::chosen_part(alloc, &mut parts),
        BehavioursRow::GateChoices => forms::around_middle(alloc, &mut parts),
        BehavioursRow::ChoiceSign => forms::sign_part(alloc, 3),
        BehavioursRow::DisablingSign => forms::sign_part(alloc, 1),
        BehavioursRow::EnablingSign => forms::sign_part(alloc, 0),
        BehavioursRow::Interleaving
        | BehavioursRow::FullSynchronisation
        | BehavioursRow::GateSynchronisation => forms::sign_part(alloc, 2),
        BehavioursRow::NoBehaviourTail
        | BehavioursRow::BehaviourTail
        | BehavioursRow::ActionWithoutOffers
        | BehavioursRow::PrefixAfterOffers
        | BehavioursRow::NoMoreGateChoices
        | BehavioursRow::MoreGateChoices
        | BehavioursRow::ParallelSign
        | BehavioursRow::NoAccept
        | BehavioursRow::Accept => together(alloc, parts),
        _ => closing(alloc, parts, limit),
    }
}

/// What a row keeps.
fn keep_row(
    alloc: Global,
    limit: usize,
    row: RowName,
    token: Option<Token>,
    parts: Vec<KeptPart>,
) -> Kept
    ensures { IfOk result (λ kept. option_map kept_of kept
        ≡ row_depth limit row token (from_last kept_of parts.items)) }
{
    match row {
        RowName::Names(row) => names_row(alloc, limit, row, token, parts),
        RowName::Terms(row) => terms_row(alloc, row, token, parts),
        RowName::Types(row) => types_row(alloc, limit, row, parts),
        RowName::Equations(row) => equations_row(alloc, limit, row, parts),
        RowName::Renamings(_) => closing(alloc, parts, limit),
        RowName::Behaviours(row) => behaviours_row(alloc, limit, row, token, parts),
        RowName::Definitions(row) => definitions_row(alloc, limit, row, parts),
        RowName::Specification(_) => closing(alloc, parts, limit),
        RowName::Starts(row) => starts_row(alloc, limit, row, parts),
    }
}

impl Actions for Depths {
    type Token = Token;

    type Value = KeptPart;

    ghost Meaning = { DepthPart };

    ghost meaning = { kept_of };

    ghost kind = { λ token. token.kind };

    ghost keeps = { is_kept_kind };

    ghost value_of = { λ depths. numbered_row_depth depths.limit };

    fn kind(&self, token: Token) -> u16
        ensures { result ≡ token.kind }
    {
        token.kind
    }

    fn keeps(&self, number: u16) -> bool
        ensures { result ≡ is_kept_kind number }
    {
        is_kept_kind(number)
    }

    fn build(
        &self,
        alloc: Global,
        row: u32,
        token: Option<Token>,
        parts: Vec<KeptPart>,
    ) -> Result<Option<KeptPart>, AllocError>
        ensures { IfOk result (λ built. option_map kept_of built
            ≡ numbered_row_depth self.now.limit row token (from_last kept_of parts.items)) }
    {
        match row_name(row) {
            Some(name) => keep_row(alloc, self.limit, name, token, parts),
            None => Ok(None),
        }
    }
}
