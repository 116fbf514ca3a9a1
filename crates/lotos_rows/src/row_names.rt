//! The names of all rows, by subject.

ghost use Rattle.std.specs.Prelude.{◌≡◌, slice_get};
ghost use Rattle.lotos_rows.specs.Rows.{row_names};

use crate::behaviours::BehavioursRow;
use crate::definitions::DefinitionsRow;
use crate::equations::EquationsRow;
use crate::names::NamesRow;
use crate::renamings::RenamingsRow;
use crate::specification::SpecificationRow;
use crate::starts::StartsRow;
use crate::terms::TermsRow;
use crate::types::TypesRow;

/// A row, by its subject and its name there.
#[derive(Clone, Copy, Debug, PartialEq, Eq)]
pub enum RowName {
    /// A row of names and lists of them.
    Names(NamesRow),
    /// A row of terms.
    Terms(TermsRow),
    /// A row of types.
    Types(TypesRow),
    /// A row of equations.
    Equations(EquationsRow),
    /// A row of renamings.
    Renamings(RenamingsRow),
    /// A row of behaviours.
    Behaviours(BehavioursRow),
    /// A row of definitions of processes and the heading of a specification.
    Definitions(DefinitionsRow),
    /// A row of a specification.
    Specification(SpecificationRow),
    /// A row of the four texts.
    Starts(StartsRow),
}

/// The names, in the order of the rows.
pub static NAMES: [RowName; 160] = [
    RowName::Names(NamesRow::Name),
    RowName::Names(NamesRow::Names),
    RowName::Names(NamesRow::NoMoreNames),
    RowName::Names(NamesRow::MoreNames),
    RowName::Names(NamesRow::NoOptionalNames),
    RowName::Names(NamesRow::OptionalNames),
    RowName::Names(NamesRow::Gates),
    RowName::Names(NamesRow::NoOptionalGates),
    RowName::Names(NamesRow::OptionalGates),
    RowName::Names(NamesRow::LooseNames),
    RowName::Names(NamesRow::NoMoreLooseNames),
    RowName::Names(NamesRow::MoreLooseNamesAfterComma),
    RowName::Names(NamesRow::MoreLooseNames),
    RowName::Names(NamesRow::Variables),
    RowName::Names(NamesRow::NoMoreVariables),
    RowName::Names(NamesRow::MoreVariables),
    RowName::Names(NamesRow::NameOfOperation),
    RowName::Names(NamesRow::DigitName),
    RowName::Names(NamesRow::SignName),
    RowName::Names(NamesRow::PrefixOperation),
    RowName::Names(NamesRow::InfixOperation),
    RowName::Names(NamesRow::Profile),
    RowName::Terms(TermsRow::Term),
    RowName::Terms(TermsRow::NoMoreFactors),
    RowName::Terms(TermsRow::MoreFactors),
    RowName::Terms(TermsRow::AppliedFactor),
    RowName::Terms(TermsRow::BracketedFactor),
    RowName::Terms(TermsRow::NoArguments),
    RowName::Terms(TermsRow::Arguments),
    RowName::Terms(TermsRow::NoSortMark),
    RowName::Terms(TermsRow::SortMark),
    RowName::Terms(TermsRow::TermList),
    RowName::Terms(TermsRow::NoMoreTerms),
    RowName::Terms(TermsRow::MoreTerms),
    RowName::Types(TypesRow::LibraryItem),
    RowName::Types(TypesRow::TypeItem),
    RowName::Types(TypesRow::NamedBody),
    RowName::Types(TypesRow::SectionsBody),
    RowName::Types(TypesRow::Renaming),
    RowName::Types(TypesRow::Actualisation),
    RowName::Types(TypesRow::Extension),
    RowName::Types(TypesRow::Sections),
    RowName::Types(TypesRow::NoFormalSorts),
    RowName::Types(TypesRow::FormalSorts),
    RowName::Types(TypesRow::NoFormalOperations),
    RowName::Types(TypesRow::FormalOperations),
    RowName::Types(TypesRow::NoFormalEquations),
    RowName::Types(TypesRow::FormalEquations),
    RowName::Types(TypesRow::NoSorts),
    RowName::Types(TypesRow::Sorts),
    RowName::Types(TypesRow::NoOperations),
    RowName::Types(TypesRow::Operations),
    RowName::Types(TypesRow::NoEquations),
    RowName::Types(TypesRow::Equations),
    RowName::Types(TypesRow::NoOperationLines),
    RowName::Types(TypesRow::OperationLines),
    RowName::Types(TypesRow::NoMoreOperations),
    RowName::Types(TypesRow::MoreOperations),
    RowName::Equations(EquationsRow::NoVariablesForAll),
    RowName::Equations(EquationsRow::VariablesForAll),
    RowName::Equations(EquationsRow::NoEquationGroups),
    RowName::Equations(EquationsRow::EquationGroups),
    RowName::Equations(EquationsRow::NoEquationList),
    RowName::Equations(EquationsRow::EquationList),
    RowName::Equations(EquationsRow::NoAfterEquation),
    RowName::Equations(EquationsRow::AfterEquation),
    RowName::Equations(EquationsRow::Equation),
    RowName::Equations(EquationsRow::EqualsAfterTerm),
    RowName::Equations(EquationsRow::ConclusionAfterTerm),
    RowName::Equations(EquationsRow::NoAfterFirstPair),
    RowName::Equations(EquationsRow::AfterFirstPair),
    RowName::Equations(EquationsRow::PremissAndConclusion),
    RowName::Equations(EquationsRow::Conclusion),
    RowName::Equations(EquationsRow::Premiss),
    RowName::Equations(EquationsRow::NoPremissRight),
    RowName::Equations(EquationsRow::PremissRight),
    RowName::Renamings(RenamingsRow::Renames),
    RowName::Renamings(RenamingsRow::NoSortRenames),
    RowName::Renamings(RenamingsRow::SortRenames),
    RowName::Renamings(RenamingsRow::SortPairs),
    RowName::Renamings(RenamingsRow::NoMoreSortPairs),
    RowName::Renamings(RenamingsRow::MoreSortPairsAfterComma),
    RowName::Renamings(RenamingsRow::MoreSortPairs),
    RowName::Renamings(RenamingsRow::NoOperationRenames),
    RowName::Renamings(RenamingsRow::OperationRenames),
    RowName::Renamings(RenamingsRow::OperationPairs),
    RowName::Renamings(RenamingsRow::NoMoreOperationPairs),
    RowName::Renamings(RenamingsRow::MoreOperationPairsAfterComma),
    RowName::Renamings(RenamingsRow::MoreOperationPairs),
    RowName::Behaviours(BehavioursRow::Hide),
    RowName::Behaviours(BehavioursRow::Let),
    RowName::Behaviours(BehavioursRow::Choice),
    RowName::Behaviours(BehavioursRow::Par),
    RowName::Behaviours(BehavioursRow::Internal),
    RowName::Behaviours(BehavioursRow::Guarded),
    RowName::Behaviours(BehavioursRow::NameFirst),
    RowName::Behaviours(BehavioursRow::Stop),
    RowName::Behaviours(BehavioursRow::Exit),
    RowName::Behaviours(BehavioursRow::BracketedBehaviour),
    RowName::Behaviours(BehavioursRow::NoBehaviourTail),
    RowName::Behaviours(BehavioursRow::BehaviourTail),
    RowName::Behaviours(BehavioursRow::ActionWithoutOffers),
    RowName::Behaviours(BehavioursRow::ActionWithOffers),
    RowName::Behaviours(BehavioursRow::Call),
    RowName::Behaviours(BehavioursRow::Give),
    RowName::Behaviours(BehavioursRow::Ask),
    RowName::Behaviours(BehavioursRow::OneMoreOffer),
    RowName::Behaviours(BehavioursRow::SelectionAfterOffers),
    RowName::Behaviours(BehavioursRow::PrefixAfterOffers),
    RowName::Behaviours(BehavioursRow::NoExitValues),
    RowName::Behaviours(BehavioursRow::ExitValues),
    RowName::Behaviours(BehavioursRow::AnyExitValue),
    RowName::Behaviours(BehavioursRow::GivenExitValue),
    RowName::Behaviours(BehavioursRow::NoMoreExitValues),
    RowName::Behaviours(BehavioursRow::MoreExitValues),
    RowName::Behaviours(BehavioursRow::LetList),
    RowName::Behaviours(BehavioursRow::NoMoreLets),
    RowName::Behaviours(BehavioursRow::MoreLets),
    RowName::Behaviours(BehavioursRow::ChoiceOfValues),
    RowName::Behaviours(BehavioursRow::ChoiceOfGates),
    RowName::Behaviours(BehavioursRow::Chosen),
    RowName::Behaviours(BehavioursRow::GateChoices),
    RowName::Behaviours(BehavioursRow::NoMoreGateChoices),
    RowName::Behaviours(BehavioursRow::MoreGateChoices),
    RowName::Behaviours(BehavioursRow::ChoiceSign),
    RowName::Behaviours(BehavioursRow::ParallelSign),
    RowName::Behaviours(BehavioursRow::DisablingSign),
    RowName::Behaviours(BehavioursRow::EnablingSign),
    RowName::Behaviours(BehavioursRow::Interleaving),
    RowName::Behaviours(BehavioursRow::FullSynchronisation),
    RowName::Behaviours(BehavioursRow::GateSynchronisation),
    RowName::Behaviours(BehavioursRow::NoAccept),
    RowName::Behaviours(BehavioursRow::Accept),
    RowName::Definitions(DefinitionsRow::Heading),
    RowName::Definitions(DefinitionsRow::NoParameters),
    RowName::Definitions(DefinitionsRow::Parameters),
    RowName::Definitions(DefinitionsRow::NoExit),
    RowName::Definitions(DefinitionsRow::ExitFunctionality),
    RowName::Definitions(DefinitionsRow::NoExitSorts),
    RowName::Definitions(DefinitionsRow::ExitSorts),
    RowName::Definitions(DefinitionsRow::NoWhere),
    RowName::Definitions(DefinitionsRow::Where),
    RowName::Definitions(DefinitionsRow::NothingInner),
    RowName::Definitions(DefinitionsRow::InnerItem),
    RowName::Definitions(DefinitionsRow::InnerProcess),
    RowName::Definitions(DefinitionsRow::Process),
    RowName::Specification(SpecificationRow::NoItems),
    RowName::Specification(SpecificationRow::Items),
    RowName::Specification(SpecificationRow::BehaviourWord),
    RowName::Specification(SpecificationRow::BehaviorWord),
    RowName::Starts(StartsRow::Spec),
    RowName::Starts(StartsRow::Typetext),
    RowName::Starts(StartsRow::NoOrder),
    RowName::Starts(StartsRow::Order),
    RowName::Starts(StartsRow::NoOptionalProfile),
    RowName::Starts(StartsRow::OptionalProfile),
    RowName::Starts(StartsRow::NoTerms),
    RowName::Starts(StartsRow::Terms),
    RowName::Starts(StartsRow::NoOptionalStatus),
    RowName::Starts(StartsRow::OptionalStatus),
];

/// The name at the place of the list.
fn name_at(names: &[RowName], number: u32) -> Option<RowName>
    ensures { result ≡ slice_get names.now number }
{
    names.get(number as usize).copied()
}

/// The name of the row with this number.
#[tactic(auto, unfolding(crate::specs::Rows::row_names))]
pub fn row_name(number: u32) -> Option<RowName>
    ensures { result ≡ slice_get row_names number }
{
    name_at(&NAMES, number)
}
