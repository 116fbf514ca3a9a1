//! What the rows of offers, exit values, declarations and signs of behaviours build.

ghost use Rattle.std.specs.Prelude.{◌≡◌, ◌++◌, ◌∷◌, [], IfOk, OnOk, Some, map, option_map};
ghost use Rattle.lotos_base.specs.WrittenView.{placed_name_of};
ghost use Rattle.lotos_rows.specs.Behaviours.{gate_choices_among};
ghost use Rattle.lotos_rows.specs.Names.{variables_of_sort};
ghost use Rattle.syntax_trees.specs.TreeViews.{gate_choice_of, written_offer_of, sign_of};
ghost use Rattle.syntax_trees.specs.WrittenBehaviour.{offer_variable};
ghost use Rattle.ll_engine.specs.Run.{from_last};
ghost use Rattle.tree_building.specs.BehavioursMeaning.{any_before_exit_values, enabling_sign, gate_choice_end, gates_before_gate_choices, gates_sign, let_before_lets, offer_of_value, offers_of_variables, sign_of_token, term_before_exit_values, value_choice_end};
ghost use Rattle.tree_building.specs.MeaningView.{meaning};

use lotos_base::Written;
use lotos_lexer::Token;
use std::alloc::{AllocError, Global};
use syntax_trees::{BehText, ExitText, GateText, Named, OfferText, Sign, VarText};
use tree_building::behaviours_values::{GateChoiceEnd, ValueChoiceEnd};
use tree_building::names::{Built, copied_names, turned, variable_of_sort};
use tree_building::terms_values::StartedTerm;
use tree_building::value::{Value, take};

/// `!term`.
#[tactic(auto, using(tree_building::proofs::FromLast::from_last_more, tree_building::proofs::FromLast::from_last_none))]
pub fn give(alloc: Global, parts: &mut Vec<Value>) -> Built
    ensures { IfOk result (λ built. option_map meaning built
        ≡ offer_of_value (from_last meaning parts.old.items)) }
{
    let Some(term) = take::<StartedTerm>(parts) else {
        return Ok(None);
    };
    let mut offers = Vec::new(alloc);
    offers.push(OfferText::Give(term.term))?;
    Ok(Some(Value::Offers(offers)))
}

/// A question for each of the names, the last name first.
#[tactic(auto, using(tree_building::proofs::FromLast::from_last_more, tree_building::proofs::FromLast::from_last_none))]
fn questions(alloc: Global, names: Vec<Named>, sort: &Named) -> Result<Vec<OfferText>, AllocError>
    ensures { IfOk result (λ offers. from_last written_offer_of offers.items
        ≡ map offer_variable (variables_of_sort (from_last placed_name_of names.items)
        (placed_name_of sort.now))) }
{
    let mut offers = Vec::new(alloc);
    for name in names {
        offers.push(OfferText::Ask(variable_of_sort(alloc, name, sort)?))?;
    }
    Ok(offers)
}

/// `?names: sort`.
pub fn ask(alloc: Global, parts: &mut Vec<Value>) -> Built
    ensures { IfOk result (λ built. option_map meaning built
        ≡ offers_of_variables (from_last meaning parts.old.items)) }
{
    let Some(names) = take::<Vec<Named>>(parts) else {
        return Ok(None);
    };
    let Some(sort) = take::<Named>(parts) else {
        return Ok(None);
    };
    Ok(Some(Value::Offers(questions(alloc, names, &sort)?)))
}

/// `any sort` before values of `exit`.
#[tactic(auto, using(tree_building::proofs::FromLast::from_last_more))]
pub fn any_value(parts: &mut Vec<Value>) -> Built
    ensures { IfOk result (λ built. option_map meaning built
        ≡ any_before_exit_values (from_last meaning parts.old.items)) }
{
    let Some(sort) = take::<Named>(parts) else {
        return Ok(None);
    };
    let Some(mut values) = take::<Vec<ExitText>>(parts) else {
        return Ok(None);
    };
    values.push(ExitText::Any(sort))?;
    Ok(Some(Value::ExitValues(values)))
}

/// A term before values of `exit`.
#[tactic(auto, using(tree_building::proofs::FromLast::from_last_more))]
pub fn given_value(parts: &mut Vec<Value>) -> Built
    ensures { IfOk result (λ built. option_map meaning built
        ≡ term_before_exit_values (from_last meaning parts.old.items)) }
{
    let Some(term) = take::<StartedTerm>(parts) else {
        return Ok(None);
    };
    let Some(mut values) = take::<Vec<ExitText>>(parts) else {
        return Ok(None);
    };
    values.push(ExitText::Give(term.term))?;
    Ok(Some(Value::ExitValues(values)))
}

/// A declaration of a `let` before others.
#[tactic(auto, using(tree_building::proofs::FromLast::from_last_more))]
pub fn joined_lets(alloc: Global, parts: &mut Vec<Value>) -> Built
    ensures { IfOk result (λ built. option_map meaning built
        ≡ let_before_lets (from_last meaning parts.old.items)) }
{
    let Some(variable) = take::<Named>(parts) else {
        return Ok(None);
    };
    let Some(sort) = take::<Named>(parts) else {
        return Ok(None);
    };
    let Some(term) = take::<StartedTerm>(parts) else {
        return Ok(None);
    };
    let Some(mut lets) = take::<Vec<(VarText, Written)>>(parts) else {
        return Ok(None);
    };
    lets.push((variable_of_sort(alloc, variable, &sort)?, term.term))?;
    Ok(Some(Value::Lets(lets)))
}

/// The end of a `choice` over values.
pub fn value_choice(parts: &mut Vec<Value>) -> Option<Value>
    ensures { option_map meaning result ≡ value_choice_end (from_last meaning parts.old.items) }
{
    let sort = take::<Named>(parts)?;
    let more = take::<Vec<VarText>>(parts)?;
    let inside = take::<Box<BehText>>(parts)?;
    Some(Value::ValueChoice(ValueChoiceEnd { sort, more, inside }))
}

/// The end of a `choice` over gates.
pub fn gate_choice(parts: &mut Vec<Value>) -> Option<Value>
    ensures { option_map meaning result ≡ gate_choice_end (from_last meaning parts.old.items) }
{
    let among = take::<Vec<Named>>(parts)?;
    let more = take::<Vec<GateText>>(parts)?;
    let inside = take::<Box<BehText>>(parts)?;
    Some(Value::GateChoice(GateChoiceEnd {
        among,
        more,
        inside,
    }))
}

/// The declaration of a gate among others, which are in text order.
fn gate_among(alloc: Global, name: Named, among: &Vec<Named>) -> Result<GateText, AllocError>
    ensures { IfOk result (λ gate. gate_choice_of gate ∷ []
        ≡ gate_choices_among (placed_name_of name ∷ []) (map placed_name_of among.now.items)) }
{
    Ok(GateText {
        place: name.0,
        name: name.1,
        among: copied_names(alloc, among.as_slice())?,
    })
}

/// Puts a declaration for each of the names in front. The names are held from the last to the
/// first, and the gates that they stand for are in text order.
#[tactic(auto, using(tree_building::proofs::FromLast::from_last_more, tree_building::proofs::FromLast::from_last_none))]
pub fn add_gate_choices(
    alloc: Global,
    names: Vec<Named>,
    among: &Vec<Named>,
    gates: &mut Vec<GateText>,
) -> Result<(), AllocError>
    ensures { OnOk result (from_last gate_choice_of gates.new.items
        ≡ gate_choices_among (from_last placed_name_of names.items)
        (map placed_name_of among.now.items) ++ from_last gate_choice_of gates.old.items) }
{
    for name in names {
        gates.push(gate_among(alloc, name, among)?)?;
    }
    Ok(())
}

/// Declarations of gates before others.
#[tactic(auto, using(tree_building::proofs::FromLast::map_reverse))]
pub fn joined_gate_choices(alloc: Global, parts: &mut Vec<Value>) -> Built
    ensures { IfOk result (λ built. option_map meaning built
        ≡ gates_before_gate_choices (from_last meaning parts.old.items)) }
{
    let Some(names) = take::<Vec<Named>>(parts) else {
        return Ok(None);
    };
    let Some(among) = take::<Vec<Named>>(parts) else {
        return Ok(None);
    };
    let Some(mut gates) = take::<Vec<GateText>>(parts) else {
        return Ok(None);
    };
    add_gate_choices(alloc, names, &turned(among), &mut gates)?;
    Ok(Some(Value::GateChoices(gates)))
}

/// A sign at the token.
pub fn sign(sign: Sign, token: Option<Token>) -> Option<Value>
    ensures { option_map meaning result ≡ sign_of_token (sign_of sign) token }
{
    let token = token?;
    Some(Value::Sign((token.place, sign)))
}

/// `>>` with the variables of its `accept`.
#[tactic(auto, using(tree_building::proofs::FromLast::map_reverse))]
pub fn enabling(token: Option<Token>, parts: &mut Vec<Value>) -> Option<Value>
    ensures { option_map meaning result ≡ enabling_sign token (from_last meaning parts.old.items) }
{
    let token = token?;
    let accepted = take::<Vec<VarText>>(parts)?;
    Some(Value::Sign((token.place, Sign::Enable(turned(accepted)))))
}

/// `|[..]|` with its gates.
#[tactic(auto, using(tree_building::proofs::FromLast::map_reverse))]
pub fn synchronising(token: Option<Token>, parts: &mut Vec<Value>) -> Option<Value>
    ensures { option_map meaning result ≡ gates_sign token (from_last meaning parts.old.items) }
{
    let token = token?;
    let gates = take::<Vec<Named>>(parts)?;
    Some(Value::Sign((token.place, Sign::Gates(turned(gates)))))
}
