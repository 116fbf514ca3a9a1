//! What the rows of processes and headings build.

ghost use Rattle.std.specs.Prelude.{◌≡◌, IfOk, None, Some, map, option_map, reverse};
ghost use Rattle.syntax_trees.specs.TreeViews.{written_behaviour_of, inner_of, item_of, written_process_of};
ghost use Rattle.syntax_trees.specs.WrittenDefinition as plain;
ghost use Rattle.ll_engine.specs.Run.{from_last};
ghost use Rattle.tree_building.specs.DefinitionsMeaning.{exit_of_sorts, heading_of_parts, item_before_inner, process_before_inner, process_of_parts};
ghost use Rattle.tree_building.specs.DefinitionsViews.{plain_heading_of};
ghost use Rattle.tree_building.specs.MeaningView.{meaning};
ghost use Rattle.tree_building.specs.RowMeaning.{definitions_row_means};

use behaviour_building::grouped;
use lotos_rows::definitions::DefinitionsRow;
use std::alloc::Global;
use syntax_trees::{BehText, InnerText, ItemText, Named, ProcessText, VarText};
use tree_building::Value;
use tree_building::behaviours_values::Flat;
use tree_building::definitions_values::Heading;
use tree_building::names::{Built, turned};
use tree_building::value::{held, take};

/// A name, gates, parameters and a functionality.
#[tactic(auto, using(tree_building::proofs::FromLast::map_reverse))]
fn heading(parts: &mut Vec<Value>) -> Option<Value>
    ensures { option_map meaning result ≡ heading_of_parts (from_last meaning parts.old.items) }
{
    let name = take::<Named>(parts)?;
    let gates = take::<Vec<Named>>(parts)?;
    let params = take::<Vec<VarText>>(parts)?;
    let func = take::<Option<Vec<Named>>>(parts)?;
    Some(Value::Heading(Heading {
        place: name.0,
        name: name.1,
        gates: turned(gates),
        params: turned(params),
        func,
    }))
}

/// `exit` with its sorts.
#[tactic(auto, using(tree_building::proofs::FromLast::map_reverse))]
fn with_exit(parts: &mut Vec<Value>) -> Option<Value>
    ensures { option_map meaning result ≡ exit_of_sorts (from_last meaning parts.old.items) }
{
    let sorts = take::<Vec<Named>>(parts)?;
    Some(Value::Functionality(Some(turned(sorts))))
}

/// An item as what a `where` declares.
fn declared_item(item: ItemText) -> InnerText
    ensures { inner_of result ≡ plain.inner_item (item_of item) }
{
    InnerText::Item(item)
}

/// A process as what a `where` declares.
fn declared_process(process: ProcessText) -> InnerText
    ensures { inner_of result ≡ written_process_of process }
{
    InnerText::Process(process)
}

/// An item before others and processes.
#[tactic(auto, using(tree_building::proofs::FromLast::from_last_more))]
fn joined_item(parts: &mut Vec<Value>) -> Built
    ensures { IfOk result (λ built. option_map meaning built
        ≡ item_before_inner (from_last meaning parts.old.items)) }
{
    let Some(item) = take::<ItemText>(parts) else {
        return Ok(None);
    };
    let Some(mut inner) = take::<Vec<InnerText>>(parts) else {
        return Ok(None);
    };
    inner.push(declared_item(item))?;
    Ok(Some(Value::Inner(inner)))
}

/// A process before items and other processes.
#[tactic(auto, using(tree_building::proofs::FromLast::from_last_more))]
fn joined_process(parts: &mut Vec<Value>) -> Built
    ensures { IfOk result (λ built. option_map meaning built
        ≡ process_before_inner (from_last meaning parts.old.items)) }
{
    let Some(process) = take::<ProcessText>(parts) else {
        return Ok(None);
    };
    let Some(mut inner) = take::<Vec<InnerText>>(parts) else {
        return Ok(None);
    };
    inner.push(declared_process(process))?;
    Ok(Some(Value::Inner(inner)))
}

/// The process of a heading, a behaviour and what its `where` declares, which is held from the last
/// to the first.
fn process_of_heading(heading: Heading, body: BehText, inner: Vec<InnerText>) -> ProcessText
    ensures { written_process_of result
        ≡ plain.process (plain_heading_of heading) (written_behaviour_of body)
        (plain.inners_of (from_last inner_of inner.items)) }
{
    ProcessText {
        place: heading.place,
        name: heading.name,
        gates: heading.gates,
        params: heading.params,
        func: heading.func,
        body,
        inner: turned(inner),
    }
}

/// A whole process.
fn process(alloc: Global, parts: &mut Vec<Value>) -> Built
    ensures { IfOk result (λ built. option_map meaning built
        ≡ process_of_parts (from_last meaning parts.old.items)) }
{
    let Some(heading) = take::<Heading>(parts) else {
        return Ok(None);
    };
    let Some(flat) = take::<Flat>(parts) else {
        return Ok(None);
    };
    let Some(inner) = take::<Vec<InnerText>>(parts) else {
        return Ok(None);
    };
    let Some(body) = grouped(alloc, flat)? else {
        return Ok(None);
    };
    let process = process_of_heading(heading, body, inner);
    Ok(Some(Value::Process(held(alloc, process)?)))
}

/// What a row of processes and headings builds from its parts.
#[tactic(auto, using(tree_building::proofs::FromLast::from_last_none))]
pub fn build(alloc: Global, row: DefinitionsRow, parts: &mut Vec<Value>) -> Built
    ensures { IfOk result (λ built. option_map meaning built
        ≡ definitions_row_means row None (from_last meaning parts.old.items)) }
{
    match row {
        DefinitionsRow::Heading => Ok(heading(parts)),
        DefinitionsRow::NoParameters => Ok(Some(Value::Variables(Vec::new(alloc)))),
        DefinitionsRow::Parameters => Ok(take::<Vec<VarText>>(parts).map(Value::Variables)),
        DefinitionsRow::NoExit => Ok(Some(Value::Functionality(None))),
        DefinitionsRow::ExitFunctionality => Ok(with_exit(parts)),
        DefinitionsRow::NoExitSorts => Ok(Some(Value::Names(Vec::new(alloc)))),
        DefinitionsRow::ExitSorts => Ok(take::<Vec<Named>>(parts).map(Value::Names)),
        DefinitionsRow::NoWhere | DefinitionsRow::NothingInner => Ok(Some(Value::Inner(Vec::new(
            alloc,
        )))),
        DefinitionsRow::Where => Ok(take::<Vec<InnerText>>(parts).map(Value::Inner)),
        DefinitionsRow::InnerItem => joined_item(parts),
        DefinitionsRow::InnerProcess => joined_process(parts),
        DefinitionsRow::Process => process(alloc, parts),
    }
}
