//! What the rows of behaviours build.

ghost use Rattle.std.specs.Prelude.{◌≡◌, IfOk, Some, map, option_map, reverse};
ghost use Rattle.lotos_base.specs.WrittenView.{text_place_of};
ghost use Rattle.syntax_trees.specs.TreeViews.{written_behaviour_of, written_exit_value_of};
ghost use Rattle.syntax_trees.specs.WrittenBehaviour as plain;
ghost use Rattle.ll_engine.specs.Run.{from_last};
ghost use Rattle.tree_building.specs.BehavioursMeaning.{exited, stopped};
ghost use Rattle.tree_building.specs.MeaningView.{meaning};
ghost use Rattle.tree_building.specs.RowMeaning.{behaviours_row_means};

use crate::choices::choice;
use crate::declarations;
use crate::flat_lists::{bracketed, chosen_behaviour, empty_tail, operand_before, sign_before};
use crate::prefixes::{
    guarded_list, inner, named, nameless_call, with_offers, with_selection, without_offers,
};
use crate::word_forms::{hide_gates, let_values, par_gates};
use lotos_base::{Place, Written};
use lotos_lexer::Token;
use lotos_rows::behaviours::BehavioursRow;
use std::alloc::Global;
use syntax_trees::{BehForm, BehText, ExitText, GateText, Sign, VarText};
use tree_building::Value;
use tree_building::behaviours_values::Flat;
use tree_building::names::{Built, turned};
use tree_building::value::take;

/// `stop` before the tail of a flat list.
fn stop(token: Option<Token>, parts: &mut Vec<Value>) -> Built
    ensures { IfOk result (λ built. option_map meaning built
        ≡ stopped token (from_last meaning parts.old.items)) }
{
    let Some(word) = token else {
        return Ok(None);
    };
    let Some(tail) = take::<Flat>(parts) else {
        return Ok(None);
    };
    let behaviour = BehText {
        place: word.place,
        form: BehForm::Stop,
    };
    Ok(Some(operand_before(behaviour, tail)?))
}

/// `exit` with its values, which are held from the last to the first.
#[tactic(auto, using(tree_building::proofs::FromLast::map_reverse))]
fn exit_with(place: Place, values: Vec<ExitText>) -> BehText
    ensures { written_behaviour_of result ≡ plain.exit (text_place_of place)
        (from_last written_exit_value_of values.items) }
{
    BehText {
        place,
        form: BehForm::Exit(turned(values)),
    }
}

/// `exit` before the tail of a flat list.
fn exit(token: Option<Token>, parts: &mut Vec<Value>) -> Built
    ensures { IfOk result (λ built. option_map meaning built
        ≡ exited token (from_last meaning parts.old.items)) }
{
    let Some(word) = token else {
        return Ok(None);
    };
    let Some(values) = take::<Vec<ExitText>>(parts) else {
        return Ok(None);
    };
    let Some(tail) = take::<Flat>(parts) else {
        return Ok(None);
    };
    Ok(Some(operand_before(exit_with(word.place, values), tail)?))
}

/// What a row of behaviours builds from its token and its parts.
#[tactic(auto, using(tree_building::proofs::FromLast::from_last_none))]
pub fn build(
    alloc: Global,
    row: BehavioursRow,
    token: Option<Token>,
    parts: &mut Vec<Value>,
) -> Built
    ensures { IfOk result (λ built. option_map meaning built
        ≡ behaviours_row_means row token (from_last meaning parts.old.items)) }
{
    match row {
        BehavioursRow::Hide => hide_gates(alloc, token, parts),
        BehavioursRow::Let => let_values(alloc, token, parts),
        BehavioursRow::Choice => choice(alloc, token, parts),
        BehavioursRow::Par => par_gates(alloc, token, parts),
        BehavioursRow::Internal => inner(alloc, token, parts),
        BehavioursRow::Guarded => guarded_list(alloc, token, parts),
        BehavioursRow::NameFirst => named(alloc, parts),
        BehavioursRow::Stop => stop(token, parts),
        BehavioursRow::Exit => exit(token, parts),
        BehavioursRow::BracketedBehaviour => bracketed(alloc, parts),
        BehavioursRow::NoBehaviourTail => Ok(Some(empty_tail(alloc))),
        BehavioursRow::BehaviourTail => sign_before(parts),
        BehavioursRow::ActionWithoutOffers | BehavioursRow::PrefixAfterOffers => {
            without_offers(alloc, parts)
        }
        BehavioursRow::ActionWithOffers | BehavioursRow::OneMoreOffer => {
            with_offers(alloc, parts)
        }
        BehavioursRow::Call => Ok(nameless_call(parts)),
        BehavioursRow::SelectionAfterOffers => with_selection(alloc, parts),
        BehavioursRow::Chosen => chosen_behaviour(alloc, parts),
        BehavioursRow::NoAccept => Ok(Some(Value::Variables(Vec::new(alloc)))),
        BehavioursRow::Accept => Ok(take::<Vec<VarText>>(parts).map(Value::Variables)),
        BehavioursRow::Give => declarations::give(alloc, parts),
        BehavioursRow::Ask => declarations::ask(alloc, parts),
        BehavioursRow::NoExitValues | BehavioursRow::NoMoreExitValues => {
            Ok(Some(Value::ExitValues(Vec::new(alloc))))
        }
        BehavioursRow::ExitValues | BehavioursRow::MoreExitValues => {
            Ok(take::<Vec<ExitText>>(parts).map(Value::ExitValues))
        }
        BehavioursRow::AnyExitValue => declarations::any_value(parts),
        BehavioursRow::GivenExitValue => declarations::given_value(parts),
        BehavioursRow::LetList => declarations::joined_lets(alloc, parts),
        BehavioursRow::NoMoreLets => Ok(Some(Value::Lets(Vec::new(alloc)))),
        BehavioursRow::MoreLets => Ok(take::<Vec<(VarText, Written)>>(parts).map(Value::Lets)),
        BehavioursRow::ChoiceOfValues => Ok(declarations::value_choice(parts)),
        BehavioursRow::ChoiceOfGates => Ok(declarations::gate_choice(parts)),
        BehavioursRow::GateChoices => declarations::joined_gate_choices(alloc, parts),
        BehavioursRow::NoMoreGateChoices => Ok(Some(Value::GateChoices(Vec::new(alloc)))),
        BehavioursRow::MoreGateChoices => Ok(take::<Vec<GateText>>(parts).map(Value::GateChoices)),
        BehavioursRow::ChoiceSign => Ok(declarations::sign(Sign::Choice, token)),
        BehavioursRow::ParallelSign => Ok(take::<(Place, Sign)>(parts).map(Value::Sign)),
        BehavioursRow::DisablingSign => Ok(declarations::sign(Sign::Disable, token)),
        BehavioursRow::EnablingSign => Ok(declarations::enabling(token, parts)),
        BehavioursRow::Interleaving => Ok(declarations::sign(Sign::Interleave, token)),
        BehavioursRow::FullSynchronisation => Ok(declarations::sign(Sign::Full, token)),
        BehavioursRow::GateSynchronisation => Ok(declarations::synchronising(token, parts)),
    }
}
