//! What the rows of names and lists of them build.

ghost use Rattle.std.specs.Prelude.{◌≡◌, ◌++◌, IfOk, OnOk, map, option_map, reverse, Some};
ghost use Rattle.lotos_base.specs.Name.{spelling};
ghost use Rattle.lotos_base.specs.WrittenView.{placed_name_of};
ghost use Rattle.lotos_rows.specs.Names.{named, spelled, variables_of_sort};
ghost use Rattle.lotos_rows.specs.Behaviours.{variable_named};
ghost use Rattle.syntax_trees.specs.TreeViews.{written_variable_of};
ghost use Rattle.lotos_rows.specs.HandedOn.{from_last};
ghost use Rattle.tree_building.specs.MeaningView.{meaning};
ghost use Rattle.tree_building.specs.NamesMeaning.{infix_operation, name_alone, name_before_names, prefix_operation, profile_of_names, same_names, token_named, variables_before_variables};
ghost use Rattle.tree_building.specs.RowMeaning.{names_row_means};

use crate::names_values::{NamedOp, OpProfile};
use crate::value::{Value, take};
use lotos_base::{Form, Name};
use lotos_rows::Token;
use lotos_rows::names::NamesRow;
use std::alloc::{AllocError, Global};
use std::cmp::min;
use syntax_trees::{Named, VarText};

/// What a row builds: a value, or none where a part is of another kind than the row's.
pub type Built = Result<Option<Value>, AllocError>;

/// A list the other way round.
pub fn turned<T>(mut list: Vec<T>) -> Vec<T>
    ensures { result.items ≡ reverse list.items }
{
    list.reverse();
    list
}

/// The bytes of a token. An end past the text counts as the text's.
fn bytes_of<'a>(text: &'a [u8], token: Token) -> &'a [u8]
    ensures { result.now ≡ spelled text.now token }
{
    let past = min(token.past as usize, text.len());
    let first = min(token.first as usize, past);
    &text[first..past]
}

/// The name that a token is.
fn name_of(alloc: Global, text: &[u8], token: Token) -> Result<Named, AllocError>
    ensures { IfOk result (λ name. placed_name_of name ≡ named text.now token) }
{
    let name = Name::of(Vec::from_slice(alloc, bytes_of(text, token))?);
    Ok((token.place, name))
}

/// The variable that a name of a sort is.
pub fn variable_of_sort(alloc: Global, name: Named, sort: &Named) -> Result<VarText, AllocError>
    ensures { IfOk result (λ variable. written_variable_of variable
        ≡ variable_named (placed_name_of name) (placed_name_of sort.now)) }
{
    Ok(VarText {
        place: name.0,
        name: name.1,
        sort: sort.1.copy(alloc)?,
        sort_place: sort.0,
    })
}

/// A copy of a name with its place.
pub fn copied_name(alloc: Global, name: &Named) -> Result<Named, AllocError>
    ensures { IfOk result (λ copy. placed_name_of copy ≡ placed_name_of name.now) }
{
    Ok((name.0, name.1.copy(alloc)?))
}

/// A copy of names with their places.
pub fn copied_names(alloc: Global, names: &[Named]) -> Result<Vec<Named>, AllocError>
    ensures { IfOk result (λ copies. map placed_name_of copies.items ≡ map placed_name_of names.now) }
{
    let mut copies = Vec::with_capacity(alloc, names.len())?;
    for name in names {
        copies.push(copied_name(alloc, name)?)?;
    }
    Ok(copies)
}

/// Puts a variable of the sort for each of the names in front.
#[tactic(auto, using(crate::proofs::FromLast::from_last_more, crate::proofs::FromLast::from_last_none))]
pub fn add_variables(
    alloc: Global,
    names: Vec<Named>,
    sort: &Named,
    variables: &mut Vec<VarText>,
) -> Result<(), AllocError>
    ensures { OnOk result (from_last written_variable_of variables.new.items
        ≡ variables_of_sort (from_last placed_name_of names.items) (placed_name_of sort.now)
        ++ from_last written_variable_of variables.old.items) }
{
    for name in names {
        variables.push(variable_of_sort(alloc, name, sort)?)?;
    }
    Ok(())
}

fn token_name(alloc: Global, text: &[u8], token: Option<Token>) -> Built
    ensures { IfOk result (λ built. option_map meaning built ≡ token_named text.now token) }
{
    match token {
        Some(token) => Ok(Some(Value::Name(name_of(alloc, text, token)?))),
        None => Ok(None),
    }
}

fn the_names(parts: &mut Vec<Value>) -> Option<Value>
    ensures { option_map meaning result ≡ same_names (from_last meaning parts.old.items) }
{
    let names = take::<Vec<Named>>(parts)?;
    Some(Value::Names(names))
}

/// A list of the name that the part is.
#[tactic(auto, using(crate::proofs::FromLast::from_last_more, crate::proofs::FromLast::from_last_none))]
pub fn one_name(alloc: Global, parts: &mut Vec<Value>) -> Built
    ensures { IfOk result (λ built. option_map meaning built
        ≡ name_alone (from_last meaning parts.old.items)) }
{
    let Some(name) = take::<Named>(parts) else {
        return Ok(None);
    };
    let mut names = Vec::new(alloc);
    names.push(name)?;
    Ok(Some(Value::Names(names)))
}

#[tactic(auto, using(crate::proofs::FromLast::from_last_more))]
fn joined_names(parts: &mut Vec<Value>) -> Built
    ensures { IfOk result (λ built. option_map meaning built
        ≡ name_before_names (from_last meaning parts.old.items)) }
{
    let Some(name) = take::<Named>(parts) else {
        return Ok(None);
    };
    let Some(mut names) = take::<Vec<Named>>(parts) else {
        return Ok(None);
    };
    names.push(name)?;
    Ok(Some(Value::Names(names)))
}

fn joined_variables(alloc: Global, parts: &mut Vec<Value>) -> Built
    ensures { IfOk result (λ built. option_map meaning built
        ≡ variables_before_variables (from_last meaning parts.old.items)) }
{
    let Some(names) = take::<Vec<Named>>(parts) else {
        return Ok(None);
    };
    let Some(sort) = take::<Named>(parts) else {
        return Ok(None);
    };
    let Some(mut variables) = take::<Vec<VarText>>(parts) else {
        return Ok(None);
    };
    add_variables(alloc, names, &sort, &mut variables)?;
    Ok(Some(Value::Variables(variables)))
}

fn operation_before_arguments(parts: &mut Vec<Value>) -> Option<Value>
    ensures { option_map meaning result ≡ prefix_operation (from_last meaning parts.old.items) }
{
    let name = take::<Named>(parts)?;
    Some(Value::Operation(NamedOp {
        name,
        form: Form::Prefix,
    }))
}

fn operation_between_arguments(parts: &mut Vec<Value>) -> Option<Value>
    ensures { option_map meaning result ≡ infix_operation (from_last meaning parts.old.items) }
{
    let name = take::<Named>(parts)?;
    Some(Value::Operation(NamedOp {
        name,
        form: Form::Infix,
    }))
}

#[tactic(auto, using(crate::proofs::FromLast::map_reverse))]
fn profile(parts: &mut Vec<Value>) -> Option<Value>
    ensures { option_map meaning result ≡ profile_of_names (from_last meaning parts.old.items) }
{
    let arguments = take::<Vec<Named>>(parts)?;
    let result_sort = take::<Named>(parts)?;
    Some(Value::Profile(OpProfile {
        arguments: turned(arguments),
        result: result_sort,
    }))
}

/// What a row of names and lists of them builds from its token and its parts.
#[tactic(auto, using(crate::proofs::FromLast::from_last_none))]
pub fn build(
    alloc: Global,
    text: &[u8],
    row: NamesRow,
    token: Option<Token>,
    parts: &mut Vec<Value>,
) -> Built
    ensures { IfOk result (λ built. option_map meaning built
        ≡ names_row_means text.now row token (from_last meaning parts.old.items)) }
{
    match row {
        NamesRow::Name | NamesRow::DigitName | NamesRow::SignName => token_name(alloc, text, token),
        NamesRow::NoMoreNames
        | NamesRow::NoOptionalNames
        | NamesRow::NoOptionalGates
        | NamesRow::NoMoreLooseNames => Ok(Some(Value::Names(Vec::new(alloc)))),
        NamesRow::MoreNames
        | NamesRow::OptionalNames
        | NamesRow::Gates
        | NamesRow::OptionalGates
        | NamesRow::MoreLooseNamesAfterComma
        | NamesRow::MoreLooseNames => Ok(the_names(parts)),
        NamesRow::Names | NamesRow::LooseNames => joined_names(parts),
        NamesRow::Variables => joined_variables(alloc, parts),
        NamesRow::NoMoreVariables => Ok(Some(Value::Variables(Vec::new(alloc)))),
        NamesRow::MoreVariables => Ok(take::<Vec<VarText>>(parts).map(Value::Variables)),
        NamesRow::NameOfOperation => Ok(take::<Named>(parts).map(Value::Name)),
        NamesRow::PrefixOperation => Ok(operation_before_arguments(parts)),
        NamesRow::InfixOperation => Ok(operation_between_arguments(parts)),
        NamesRow::Profile => Ok(profile(parts)),
    }
}
