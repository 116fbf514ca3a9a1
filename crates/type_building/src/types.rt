//! What the rows of types build.

ghost use Rattle.std.specs.Prelude.{◌≡◌, ◌++◌, ◌∷◌, [], IfOk, OnOk, Some, map, option_map, reverse};
ghost use Rattle.lotos_base.specs.WrittenView.{placed_name_of};
ghost use Rattle.lotos_rows.specs.Types.{no_equations, operations_of_profile};
ghost use Rattle.syntax_trees.specs.TreeViews.{equations_of, item_of, written_operation_of};
ghost use Rattle.syntax_trees.specs.WrittenItem.{type_declared};
ghost use Rattle.lotos_base.specs.Name.{spelling};
ghost use Rattle.ll_engine.specs.Run.{from_last};
ghost use Rattle.tree_building.specs.MeaningView.{meaning};
ghost use Rattle.tree_building.specs.NamesViews.{named_operation_of, profile_of};
ghost use Rattle.tree_building.specs.RowMeaning.{types_row_means};
ghost use Rattle.tree_building.specs.TypesMeaning.{actualisation_after_base, body_from, equation_section, extension_after_base, item_before_items, library_item, line_before_lines, named_body, no_equation_section, operation_before_operations, renaming_after_base, sections_body, sections_of_parts, type_item};
ghost use Rattle.tree_building.specs.Meaning.{some_sections};
ghost use Rattle.tree_building.specs.TypesViews.{after_base_of, written_sections_of, written_type_body_of};
ghost use Rattle.lotos_base.specs.WrittenView.{text_place_of};

use lotos_base::Name;
use lotos_lexer::Token;
use lotos_rows::types::TypesRow;
use std::alloc::{AllocError, Global};
use syntax_trees::{EqnsText, GroupText, ItemBody, ItemText, Named, OpText, VarText};
use tree_building::names::{Built, copied_name, copied_names, turned};
use tree_building::names_values::{NamedOp, OpProfile};
use tree_building::renamings_values::BothPairs;
use tree_building::types_values::{AfterBase, Sections, TypeBody};
use tree_building::value::{Value, held, take};

#[tactic(auto, using(tree_building::proofs::FromLast::map_reverse))]
fn library(alloc: Global, token: Option<Token>, parts: &mut Vec<Value>) -> Built
    ensures { IfOk result (λ built. option_map meaning built
        ≡ library_item token (from_last meaning parts.old.items)) }
{
    let Some(word) = token else {
        return Ok(None);
    };
    let Some(names) = take::<Vec<Named>>(parts) else {
        return Ok(None);
    };
    let item = ItemText {
        place: word.place,
        body: ItemBody::Library(turned(names)),
    };
    Ok(Some(Value::Item(held(alloc, item)?)))
}

/// A type with its name and its body.
#[tactic(auto, using(tree_building::proofs::FromLast::map_reverse))]
fn declared(name: Named, body: TypeBody) -> ItemText
    ensures { item_of result ≡ type_declared (text_place_of name.0) (spelling name.1)
        (written_type_body_of body) }
{
    let place = name.0;
    let name = name.1;
    let body = match body {
        TypeBody::Extends(imports, sections) => {
            let sections = Box::into_inner(sections);
            ItemBody::Extends {
                name,
                imports: turned(imports),
                formal_sorts: sections.formal_sorts,
                formal_ops: sections.formal_ops,
                formal_equations: sections.formal_equations,
                sorts: sections.sorts,
                ops: sections.ops,
                equations: sections.equations,
            }
        }
        TypeBody::Renames(base, pairs) => ItemBody::Renames {
            name,
            base,
            sort_pairs: turned(pairs.sorts),
            op_pairs: turned(pairs.operations),
        },
        TypeBody::Actualises(base, actuals, pairs) => ItemBody::Actualises {
            name,
            base,
            actuals: turned(actuals),
            sort_pairs: turned(pairs.sorts),
            op_pairs: turned(pairs.operations),
        },
    };
    ItemText { place, body }
}

fn type_with_name(alloc: Global, parts: &mut Vec<Value>) -> Built
    ensures { IfOk result (λ built. option_map meaning built
        ≡ type_item (from_last meaning parts.old.items)) }
{
    let Some(name) = take::<Named>(parts) else {
        return Ok(None);
    };
    let Some(body) = take::<TypeBody>(parts) else {
        return Ok(None);
    };
    Ok(Some(Value::Item(held(alloc, declared(name, body))?)))
}

/// The body of a first name and what stands behind it.
#[tactic(auto, using(tree_building::proofs::FromLast::from_last_more))]
fn body_of_base(base: Named, after: AfterBase) -> Result<TypeBody, AllocError>
    ensures { IfOk result (λ body. written_type_body_of body
        ≡ body_from (placed_name_of base) (after_base_of after)) }
{
    match after {
        AfterBase::Renamed(pairs) => Ok(TypeBody::Renames(base, pairs)),
        AfterBase::Actualised(actuals, pairs) => Ok(TypeBody::Actualises(base, actuals, pairs)),
        AfterBase::Extended(mut imports, sections) => {
            imports.push(base)?;
            Ok(TypeBody::Extends(imports, sections))
        }
    }
}

fn body_with_name(parts: &mut Vec<Value>) -> Built
    ensures { IfOk result (λ built. option_map meaning built
        ≡ named_body (from_last meaning parts.old.items)) }
{
    let Some(base) = take::<Named>(parts) else {
        return Ok(None);
    };
    let Some(after) = take::<AfterBase>(parts) else {
        return Ok(None);
    };
    Ok(Some(Value::Body(body_of_base(base, after)?)))
}

#[tactic(auto, using(tree_building::proofs::FromLast::from_last_none))]
fn body_of_sections(alloc: Global, parts: &mut Vec<Value>) -> Option<Value>
    ensures { option_map meaning result ≡ sections_body (from_last meaning parts.old.items) }
{
    let sections = take::<Box<Sections>>(parts)?;
    Some(Value::Body(TypeBody::Extends(Vec::new(alloc), sections)))
}

fn renamed(parts: &mut Vec<Value>) -> Option<Value>
    ensures { option_map meaning result ≡ renaming_after_base (from_last meaning parts.old.items) }
{
    let pairs = take::<BothPairs>(parts)?;
    Some(Value::AfterBase(AfterBase::Renamed(pairs)))
}

fn actualised(parts: &mut Vec<Value>) -> Option<Value>
    ensures { option_map meaning result ≡ actualisation_after_base
        (from_last meaning parts.old.items) }
{
    let actuals = take::<Vec<Named>>(parts)?;
    let pairs = take::<BothPairs>(parts)?;
    Some(Value::AfterBase(AfterBase::Actualised(actuals, pairs)))
}

fn extended(parts: &mut Vec<Value>) -> Option<Value>
    ensures { option_map meaning result ≡ extension_after_base (from_last meaning parts.old.items) }
{
    let imports = take::<Vec<Named>>(parts)?;
    let sections = take::<Box<Sections>>(parts)?;
    Some(Value::AfterBase(AfterBase::Extended(imports, sections)))
}

#[tactic(auto, using(tree_building::proofs::FromLast::map_reverse))]
fn sections(parts: &mut Vec<Value>) -> Option<Sections>
    ensures { option_map (λ it. some_sections (written_sections_of it)) result
        ≡ sections_of_parts (from_last meaning parts.old.items) }
{
    let formal_sorts = take::<Vec<Named>>(parts)?;
    let formal_ops = take::<Vec<OpText>>(parts)?;
    let formal_equations = take::<EqnsText>(parts)?;
    let sorts = take::<Vec<Named>>(parts)?;
    let ops = take::<Vec<OpText>>(parts)?;
    let equations = take::<EqnsText>(parts)?;
    Some(Sections {
        formal_sorts: turned(formal_sorts),
        formal_ops: turned(formal_ops),
        formal_equations,
        sorts: turned(sorts),
        ops: turned(ops),
        equations,
    })
}

fn all_sections(alloc: Global, parts: &mut Vec<Value>) -> Built
    ensures { IfOk result (λ built. option_map meaning built
        ≡ sections_of_parts (from_last meaning parts.old.items)) }
{
    match sections(parts) {
        Some(sections) => Ok(Some(Value::Sections(held(alloc, sections)?))),
        None => Ok(None),
    }
}

/// The operation of a name with the sorts of a profile.
fn operation_of_profile(
    alloc: Global,
    operation: NamedOp,
    profile: &OpProfile,
) -> Result<OpText, AllocError>
    ensures { IfOk result (λ it. written_operation_of it ∷ []
        ≡ operations_of_profile (named_operation_of operation ∷ []) (profile_of profile.now)) }
{
    Ok(OpText {
        place: operation.name.0,
        name: operation.name.1,
        form: operation.form,
        arguments: copied_names(alloc, profile.arguments.as_slice())?,
        result: copied_name(alloc, &profile.result)?,
    })
}

/// Puts an operation with the sorts of a profile in front for each of the names.
#[tactic(auto, using(tree_building::proofs::FromLast::from_last_more, tree_building::proofs::FromLast::from_last_none))]
fn add_operations(
    alloc: Global,
    names: Vec<NamedOp>,
    profile: &OpProfile,
    operations: &mut Vec<OpText>,
) -> Result<(), AllocError>
    ensures { OnOk result (from_last written_operation_of operations.new.items
        ≡ operations_of_profile (from_last named_operation_of names.items) (profile_of profile.now)
        ++ from_last written_operation_of operations.old.items) }
{
    for operation in names {
        operations.push(operation_of_profile(alloc, operation, profile)?)?;
    }
    Ok(())
}

#[tactic(auto, using(tree_building::proofs::FromLast::from_last_more))]
fn joined_lines(alloc: Global, parts: &mut Vec<Value>) -> Built
    ensures { IfOk result (λ built. option_map meaning built
        ≡ line_before_lines (from_last meaning parts.old.items)) }
{
    let Some(first) = take::<NamedOp>(parts) else {
        return Ok(None);
    };
    let Some(mut names) = take::<Vec<NamedOp>>(parts) else {
        return Ok(None);
    };
    let Some(profile) = take::<OpProfile>(parts) else {
        return Ok(None);
    };
    let Some(mut operations) = take::<Vec<OpText>>(parts) else {
        return Ok(None);
    };
    names.push(first)?;
    add_operations(alloc, names, &profile, &mut operations)?;
    Ok(Some(Value::DeclaredOperations(operations)))
}

#[tactic(auto, using(tree_building::proofs::FromLast::from_last_more))]
fn joined_operation_names(parts: &mut Vec<Value>) -> Built
    ensures { IfOk result (λ built. option_map meaning built
        ≡ operation_before_operations (from_last meaning parts.old.items)) }
{
    let Some(first) = take::<NamedOp>(parts) else {
        return Ok(None);
    };
    let Some(mut names) = take::<Vec<NamedOp>>(parts) else {
        return Ok(None);
    };
    names.push(first)?;
    Ok(Some(Value::NamedOperations(names)))
}

fn no_section_of_equations(alloc: Global) -> Value
    ensures { Some (meaning result) ≡ no_equation_section }
{
    Value::EquationSection(EqnsText {
        variables: Vec::new(alloc),
        groups: Vec::new(alloc),
    })
}

#[tactic(auto, using(tree_building::proofs::FromLast::map_reverse))]
fn section_of_equations(parts: &mut Vec<Value>) -> Option<Value>
    ensures { option_map meaning result ≡ equation_section (from_last meaning parts.old.items) }
{
    let variables = take::<Vec<VarText>>(parts)?;
    let groups = take::<Vec<GroupText>>(parts)?;
    Some(Value::EquationSection(EqnsText {
        variables: turned(variables),
        groups: turned(groups),
    }))
}

/// An item before items.
#[tactic(auto, using(tree_building::proofs::FromLast::from_last_more))]
pub fn joined_items(parts: &mut Vec<Value>) -> Built
    ensures { IfOk result (λ built. option_map meaning built
        ≡ item_before_items (from_last meaning parts.old.items)) }
{
    let Some(first) = take::<ItemText>(parts) else {
        return Ok(None);
    };
    let Some(mut items) = take::<Vec<ItemText>>(parts) else {
        return Ok(None);
    };
    items.push(first)?;
    Ok(Some(Value::Items(items)))
}

/// What a row of types builds from its token and its parts.
#[tactic(auto, using(tree_building::proofs::FromLast::from_last_none))]
pub fn build(alloc: Global, row: TypesRow, token: Option<Token>, parts: &mut Vec<Value>) -> Built
    ensures { IfOk result (λ built. option_map meaning built
        ≡ types_row_means row token (from_last meaning parts.old.items)) }
{
    match row {
        TypesRow::LibraryItem => library(alloc, token, parts),
        TypesRow::TypeItem => type_with_name(alloc, parts),
        TypesRow::NamedBody => body_with_name(parts),
        TypesRow::SectionsBody => Ok(body_of_sections(alloc, parts)),
        TypesRow::Renaming => Ok(renamed(parts)),
        TypesRow::Actualisation => Ok(actualised(parts)),
        TypesRow::Extension => Ok(extended(parts)),
        TypesRow::Sections => all_sections(alloc, parts),
        TypesRow::NoFormalSorts | TypesRow::NoSorts => Ok(Some(Value::Names(Vec::new(alloc)))),
        TypesRow::FormalSorts | TypesRow::Sorts => Ok(take::<Vec<Named>>(parts).map(Value::Names)),
        TypesRow::NoFormalOperations | TypesRow::NoOperations | TypesRow::NoOperationLines => {
            Ok(Some(Value::DeclaredOperations(Vec::new(alloc))))
        }
        TypesRow::FormalOperations | TypesRow::Operations => Ok(take::<Vec<OpText>>(parts).map(
            Value::DeclaredOperations,
        )),
        TypesRow::NoFormalEquations | TypesRow::NoEquations => {
            Ok(Some(no_section_of_equations(alloc)))
        }
        TypesRow::FormalEquations | TypesRow::Equations => Ok(section_of_equations(parts)),
        TypesRow::OperationLines => joined_lines(alloc, parts),
        TypesRow::NoMoreOperations => Ok(Some(Value::NamedOperations(Vec::new(alloc)))),
        TypesRow::MoreOperations => joined_operation_names(parts),
    }
}
