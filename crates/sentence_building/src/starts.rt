//! What the rows of the four texts and of a specification's items build.

ghost use Rattle.std.specs.Prelude.{◌≡◌, IfOk, None, Some, map, option_map, reverse};
ghost use Rattle.lotos_base.specs.Name.{spelling};
ghost use Rattle.lotos_base.specs.WrittenView.{written_profile_of};
ghost use Rattle.lotos_rows.specs.Starts.{profile_by_name};
ghost use Rattle.syntax_trees.specs.TreeViews.{written_behaviour_of, inner_of, item_of, written_specification_of};
ghost use Rattle.syntax_trees.specs.WrittenDefinition.{WrittenSpecification};
ghost use Rattle.ll_engine.specs.Run.{from_last};
ghost use Rattle.tree_building.specs.DefinitionsViews.{plain_heading_of};
ghost use Rattle.tree_building.specs.MeaningView.{meaning};
ghost use Rattle.tree_building.specs.NamesViews.{profile_of};
ghost use Rattle.tree_building.specs.RowMeaning.{specification_row_means, starts_row_means};
ghost use Rattle.tree_building.specs.StartsMeaning.{item_before_order, some_profile, some_status, specification_of_parts};
ghost use Rattle.sentence_building.specs.Whole.{whole_specification};

use behaviour_building::grouped;
use lotos_base::{Name, OrderItem, Profile, Written};
use lotos_rows::specification::SpecificationRow;
use lotos_rows::starts::StartsRow;
use std::alloc::{AllocError, Global};
use syntax_trees::{BehText, InnerText, ItemText, Named, SpecText};
use tree_building::Value;
use tree_building::behaviours_values::Flat;
use tree_building::definitions_values::Heading;
use tree_building::names::{Built, turned};
use tree_building::names_values::{NamedOp, OpProfile};
use tree_building::value::{held, take};
use type_building::types::joined_items;

/// The specification of a heading, items, a behaviour and what its `where` declares. Items and
/// declarations are held from the last to the first.
#[tactic(auto, using(tree_building::proofs::FromLast::map_reverse))]
fn whole(heading: Heading, items: Vec<ItemText>, body: BehText, inner: Vec<InnerText>) -> SpecText
    ensures { written_specification_of result
        ≡ whole_specification (plain_heading_of heading) (from_last item_of items.items)
        (written_behaviour_of body) (from_last inner_of inner.items) }
{
    SpecText {
        place: heading.place,
        name: heading.name,
        gates: heading.gates,
        params: heading.params,
        func: heading.func,
        items: turned(items),
        body,
        inner: turned(inner),
    }
}

/// A whole specification.
fn specification(alloc: Global, parts: &mut Vec<Value>) -> Built
    ensures { IfOk result (λ built. option_map meaning built
        ≡ specification_of_parts (from_last meaning parts.old.items)) }
{
    let Some(heading) = take::<Heading>(parts) else {
        return Ok(None);
    };
    let Some(items) = take::<Vec<ItemText>>(parts) else {
        return Ok(None);
    };
    let Some(_word) = take::<()>(parts) else {
        return Ok(None);
    };
    let Some(flat) = take::<Flat>(parts) else {
        return Ok(None);
    };
    let Some(inner) = take::<Vec<InnerText>>(parts) else {
        return Ok(None);
    };
    let Some(body) = grouped(alloc, flat)? else {
        return Ok(None);
    };
    let whole = whole(heading, items, body, inner);
    Ok(Some(Value::Specification(held(alloc, whole)?)))
}

/// The names of sorts without their places.
fn sort_names(alloc: Global, sorts: Vec<Named>) -> Result<Vec<Name>, AllocError>
    ensures { IfOk result (λ names. map spelling names.items
        ≡ map (λ sort. spelling sort.1) sorts.items) }
{
    let mut names = Vec::with_capacity(alloc, sorts.len())?;
    for sort in sorts {
        names.push(sort.1)?;
    }
    Ok(names)
}

/// The sorts of a profile by name.
fn by_name(alloc: Global, profile: OpProfile) -> Result<Profile, AllocError>
    ensures { IfOk result (λ it. written_profile_of it ≡ profile_by_name (profile_of profile)) }
{
    Ok(Profile {
        arguments: sort_names(alloc, profile.arguments)?,
        result: profile.result.1,
    })
}

/// The sorts of a profile by name, where there is a profile.
fn maybe_by_name(alloc: Global, profile: Option<OpProfile>) -> Result<Option<Profile>, AllocError>
    ensures { IfOk result (λ it. option_map written_profile_of it
        ≡ option_map profile_by_name (option_map profile_of profile)) }
{
    match profile {
        Some(profile) => Ok(Some(by_name(alloc, profile)?)),
        None => Ok(None),
    }
}

/// An item of an order file before others.
#[tactic(auto, using(tree_building::proofs::FromLast::from_last_more))]
fn joined_order(alloc: Global, parts: &mut Vec<Value>) -> Built
    ensures { IfOk result (λ built. option_map meaning built
        ≡ item_before_order (from_last meaning parts.old.items)) }
{
    let Some(operation) = take::<NamedOp>(parts) else {
        return Ok(None);
    };
    let Some(profile) = take::<Option<OpProfile>>(parts) else {
        return Ok(None);
    };
    let Some(status) = take::<Option<Named>>(parts) else {
        return Ok(None);
    };
    let Some(mut items) = take::<Vec<OrderItem>>(parts) else {
        return Ok(None);
    };
    let profile = maybe_by_name(alloc, profile)?;
    items.push(OrderItem {
        place: operation.name.0,
        name: operation.name.1,
        form: operation.form,
        profile,
        status,
    })?;
    Ok(Some(Value::OrderItems(items)))
}

/// The profile that the part is.
fn with_profile(parts: &mut Vec<Value>) -> Option<Value>
    ensures { option_map meaning result ≡ some_profile (from_last meaning parts.old.items) }
{
    let profile = take::<OpProfile>(parts)?;
    Some(Value::MaybeProfile(Some(profile)))
}

/// The status that the name is.
fn with_status(parts: &mut Vec<Value>) -> Option<Value>
    ensures { option_map meaning result ≡ some_status (from_last meaning parts.old.items) }
{
    let status = take::<Named>(parts)?;
    Some(Value::MaybeName(Some(status)))
}

/// What a row of a specification's items or of its word builds from its parts.
#[tactic(auto, using(tree_building::proofs::FromLast::from_last_none))]
pub fn build_of_specification(alloc: Global, row: SpecificationRow, parts: &mut Vec<Value>) -> Built
    ensures { IfOk result (λ built. option_map meaning built
        ≡ specification_row_means row None (from_last meaning parts.old.items)) }
{
    match row {
        SpecificationRow::NoItems => Ok(Some(Value::Items(Vec::new(alloc)))),
        SpecificationRow::Items => joined_items(parts),
        SpecificationRow::BehaviourWord | SpecificationRow::BehaviorWord => {
            Ok(Some(Value::Word(())))
        }
    }
}

/// What a row of the four texts builds from its parts.
#[tactic(auto, using(tree_building::proofs::FromLast::from_last_none))]
pub fn build(alloc: Global, row: StartsRow, parts: &mut Vec<Value>) -> Built
    ensures { IfOk result (λ built. option_map meaning built
        ≡ starts_row_means row None (from_last meaning parts.old.items)) }
{
    match row {
        StartsRow::Spec => specification(alloc, parts),
        StartsRow::Typetext => Ok(take::<Vec<ItemText>>(parts).map(Value::Items)),
        StartsRow::NoOrder => Ok(Some(Value::OrderItems(Vec::new(alloc)))),
        StartsRow::Order => joined_order(alloc, parts),
        StartsRow::NoOptionalProfile => Ok(Some(Value::MaybeProfile(None))),
        StartsRow::OptionalProfile => Ok(with_profile(parts)),
        StartsRow::NoTerms => Ok(Some(Value::Terms(Vec::new(alloc)))),
        StartsRow::Terms => Ok(take::<Vec<Written>>(parts).map(Value::Terms)),
        StartsRow::NoOptionalStatus => Ok(Some(Value::MaybeName(None))),
        StartsRow::OptionalStatus => Ok(with_status(parts)),
    }
}
