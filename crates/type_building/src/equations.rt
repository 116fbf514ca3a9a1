//! What the rows of equations build.

ghost use Rattle.std.specs.Prelude.{◌≡◌, IfOk, None, Some, map, option_map, reverse};
ghost use Rattle.lotos_base.specs.WrittenView.{written_term_of};
ghost use Rattle.ll_engine.specs.Run.{from_last};
ghost use Rattle.tree_building.specs.EquationsMeaning.{conclusion_after_term, conclusion_of_terms, equals_after_term, equation_before_equations, equation_from, equation_of_term, group_before_groups, premiss_before_conclusion, premiss_of_term, some_conclusion, some_right_side};
ghost use Rattle.tree_building.specs.EquationsViews.{conclusion_of};
ghost use Rattle.tree_building.specs.MeaningView.{meaning};
ghost use Rattle.tree_building.specs.RowMeaning.{equations_row_means};
ghost use Rattle.tree_building.specs.TermsViews.{started_term_of};

use lotos_base::Written;
use lotos_lexer::Token;
use lotos_rows::equations::EquationsRow;
use std::alloc::Global;
use syntax_trees::{EqText, GroupText, Named, TestText, VarText};
use tree_building::equations_values::{AfterTerm, Conclusion};
use tree_building::names::{Built, turned};
use tree_building::terms_values::StartedTerm;
use tree_building::value::{Value, held, take};

#[tactic(auto, using(tree_building::proofs::FromLast::from_last_more, tree_building::proofs::FromLast::map_reverse))]
fn joined_groups(parts: &mut Vec<Value>) -> Built
    ensures { IfOk result (λ built. option_map meaning built
        ≡ group_before_groups (from_last meaning parts.old.items)) }
{
    let Some(sort) = take::<Named>(parts) else {
        return Ok(None);
    };
    let Some(variables) = take::<Vec<VarText>>(parts) else {
        return Ok(None);
    };
    let Some(equations) = take::<Vec<EqText>>(parts) else {
        return Ok(None);
    };
    let Some(mut groups) = take::<Vec<GroupText>>(parts) else {
        return Ok(None);
    };
    groups.push(GroupText {
        place: sort.0,
        sort: sort.1,
        variables: turned(variables),
        equations: turned(equations),
    })?;
    Ok(Some(Value::Groups(groups)))
}

#[tactic(auto, using(tree_building::proofs::FromLast::from_last_more))]
fn joined_equations(parts: &mut Vec<Value>) -> Built
    ensures { IfOk result (λ built. option_map meaning built
        ≡ equation_before_equations (from_last meaning parts.old.items)) }
{
    let Some(equation) = take::<EqText>(parts) else {
        return Ok(None);
    };
    let Some(mut equations) = take::<Vec<EqText>>(parts) else {
        return Ok(None);
    };
    equations.push(equation)?;
    Ok(Some(Value::Equations(equations)))
}

/// The equation whose first premiss is the first term, or the pair of it and the right side.
#[tactic(auto, using(tree_building::proofs::FromLast::from_last_more, tree_building::proofs::FromLast::map_reverse))]
fn conditional_equation(
    alloc: Global,
    first: StartedTerm,
    right: Option<Written>,
    conclusion: Conclusion,
) -> Built
    ensures { IfOk result (λ built. option_map meaning built
        ≡ equation_from (started_term_of first) (option_map written_term_of right)
        (Some (conclusion_of conclusion))) }
{
    let mut premisses = conclusion.premisses;
    premisses.push(TestText {
        place: first.start,
        left: first.term,
        right,
    })?;
    let sides = Box::into_inner(conclusion.sides);
    let equation = EqText {
        place: first.start,
        premisses: turned(premisses),
        arrow: Some(conclusion.arrow),
        left: sides.0,
        right: sides.1,
    };
    Ok(Some(Value::Equation(held(alloc, equation)?)))
}

/// The equation of two terms.
fn plain_equation(alloc: Global, first: StartedTerm, right: Option<Written>) -> Built
    ensures { IfOk result (λ built. option_map meaning built
        ≡ equation_from (started_term_of first) (option_map written_term_of right) None) }
{
    let Some(right) = right else {
        return Ok(None);
    };
    let equation = EqText {
        place: first.start,
        premisses: Vec::new(alloc),
        arrow: None,
        left: first.term,
        right,
    };
    Ok(Some(Value::Equation(held(alloc, equation)?)))
}

fn whole_equation(alloc: Global, parts: &mut Vec<Value>) -> Built
    ensures { IfOk result (λ built. option_map meaning built
        ≡ equation_of_term (from_last meaning parts.old.items)) }
{
    let Some(first) = take::<StartedTerm>(parts) else {
        return Ok(None);
    };
    let Some(after) = take::<AfterTerm>(parts) else {
        return Ok(None);
    };
    let AfterTerm { right, conclusion } = after;
    match conclusion {
        Some(conclusion) => conditional_equation(alloc, first, right, conclusion),
        None => plain_equation(alloc, first, right),
    }
}

fn right_side_of_pair(alloc: Global, parts: &mut Vec<Value>) -> Built
    ensures { IfOk result (λ built. option_map meaning built
        ≡ equals_after_term (from_last meaning parts.old.items)) }
{
    let Some(right) = take::<StartedTerm>(parts) else {
        return Ok(None);
    };
    let Some(conclusion) = take::<Option<Conclusion>>(parts) else {
        return Ok(None);
    };
    let after = AfterTerm {
        right: Some(right.term),
        conclusion,
    };
    Ok(Some(Value::AfterTerm(held(alloc, after)?)))
}

fn conclusion_at_once(alloc: Global, parts: &mut Vec<Value>) -> Built
    ensures { IfOk result (λ built. option_map meaning built
        ≡ conclusion_after_term (from_last meaning parts.old.items)) }
{
    let Some(conclusion) = take::<Conclusion>(parts) else {
        return Ok(None);
    };
    let after = AfterTerm {
        right: None,
        conclusion: Some(conclusion),
    };
    Ok(Some(Value::AfterTerm(held(alloc, after)?)))
}

fn with_conclusion(parts: &mut Vec<Value>) -> Option<Value>
    ensures { option_map meaning result ≡ some_conclusion (from_last meaning parts.old.items) }
{
    let conclusion = take::<Conclusion>(parts)?;
    Some(Value::MaybeConclusion(Some(conclusion)))
}

#[tactic(auto, using(tree_building::proofs::FromLast::from_last_more))]
fn joined_premisses(parts: &mut Vec<Value>) -> Built
    ensures { IfOk result (λ built. option_map meaning built
        ≡ premiss_before_conclusion (from_last meaning parts.old.items)) }
{
    let Some(premiss) = take::<TestText>(parts) else {
        return Ok(None);
    };
    let Some(conclusion) = take::<Conclusion>(parts) else {
        return Ok(None);
    };
    let mut premisses = conclusion.premisses;
    premisses.push(premiss)?;
    Ok(Some(Value::Conclusion(Conclusion {
        premisses,
        arrow: conclusion.arrow,
        sides: conclusion.sides,
    })))
}

#[tactic(auto, using(tree_building::proofs::FromLast::from_last_none))]
fn conclusion(alloc: Global, token: Option<Token>, parts: &mut Vec<Value>) -> Built
    ensures { IfOk result (λ built. option_map meaning built
        ≡ conclusion_of_terms token (from_last meaning parts.old.items)) }
{
    let Some(arrow) = token else {
        return Ok(None);
    };
    let Some(left) = take::<StartedTerm>(parts) else {
        return Ok(None);
    };
    let Some(right) = take::<StartedTerm>(parts) else {
        return Ok(None);
    };
    Ok(Some(Value::Conclusion(Conclusion {
        premisses: Vec::new(alloc),
        arrow: arrow.place,
        sides: held(alloc, (left.term, right.term))?,
    })))
}

fn premiss(alloc: Global, parts: &mut Vec<Value>) -> Built
    ensures { IfOk result (λ built. option_map meaning built
        ≡ premiss_of_term (from_last meaning parts.old.items)) }
{
    let Some(left) = take::<StartedTerm>(parts) else {
        return Ok(None);
    };
    let Some(right) = take::<Option<Written>>(parts) else {
        return Ok(None);
    };
    let test = TestText {
        place: left.start,
        left: left.term,
        right,
    };
    Ok(Some(Value::Premiss(held(alloc, test)?)))
}

fn with_right_side(parts: &mut Vec<Value>) -> Option<Value>
    ensures { option_map meaning result ≡ some_right_side (from_last meaning parts.old.items) }
{
    let right = take::<StartedTerm>(parts)?;
    Some(Value::MaybeTerm(Some(right.term)))
}

/// What a row of equations builds from its token and its parts.
#[tactic(auto, using(tree_building::proofs::FromLast::from_last_none))]
pub fn build(
    alloc: Global,
    row: EquationsRow,
    token: Option<Token>,
    parts: &mut Vec<Value>,
) -> Built
    ensures { IfOk result (λ built. option_map meaning built
        ≡ equations_row_means row token (from_last meaning parts.old.items)) }
{
    match row {
        EquationsRow::NoVariablesForAll => Ok(Some(Value::Variables(Vec::new(alloc)))),
        EquationsRow::VariablesForAll => Ok(take::<Vec<VarText>>(parts).map(Value::Variables)),
        EquationsRow::NoEquationGroups => Ok(Some(Value::Groups(Vec::new(alloc)))),
        EquationsRow::EquationGroups => joined_groups(parts),
        EquationsRow::NoEquationList | EquationsRow::NoAfterEquation => {
            Ok(Some(Value::Equations(Vec::new(alloc))))
        }
        EquationsRow::EquationList => joined_equations(parts),
        EquationsRow::AfterEquation => Ok(take::<Vec<EqText>>(parts).map(Value::Equations)),
        EquationsRow::Equation => whole_equation(alloc, parts),
        EquationsRow::EqualsAfterTerm => right_side_of_pair(alloc, parts),
        EquationsRow::ConclusionAfterTerm => conclusion_at_once(alloc, parts),
        EquationsRow::NoAfterFirstPair => Ok(Some(Value::MaybeConclusion(None))),
        EquationsRow::AfterFirstPair => Ok(with_conclusion(parts)),
        EquationsRow::PremissAndConclusion => joined_premisses(parts),
        EquationsRow::Conclusion => conclusion(alloc, token, parts),
        EquationsRow::Premiss => premiss(alloc, parts),
        EquationsRow::NoPremissRight => Ok(Some(Value::MaybeTerm(None))),
        EquationsRow::PremissRight => Ok(with_right_side(parts)),
    }
}
