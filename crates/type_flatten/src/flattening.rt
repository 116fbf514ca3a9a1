//! The data of all types.

ghost use Rattle.type_flatten.specs.FlatView.{
  AreDataOfTypes,
  AreNotUnited,
  ArePresentedBehind,
  AreRefusedBehind,
  AreTypesRefused,
  AreUnited,
  IsFirstTypeFault,
  IsFlat,
  IsPresentedNext,
  IsRefused,
};
ghost use Rattle.type_presentations.specs.PresentedView.{AreSoundTypes, presented_in};
ghost use Rattle.std.specs.Prelude.{◌≡◌, ◌∷◌, ◌++◌, [], IfOk, MatchResult, OnOk, map};
ghost use Rattle.syntax_trees.specs.TreeViews.{item_of};
ghost use Rattle.type_definitions.specs.Flattened.{types_at};
ghost use Rattle.type_definitions.specs.DeclaredTypes.{types_of};
ghost use Rattle.type_definitions.specs.MentionFaults.{AreInOrder};
ghost use Rattle.type_definitions.specs.TypeNamesView.{types_in};
ghost use Rattle.type_definitions.specs.TypeView.{declared_type_of, declared_types_of};

use crate::flat_data::data_of;
use crate::one_type::presentation_of_type;
use lotos_base::NoMemory;
use sort_terms::Flat;
use std::alloc::Global;
use syntax_trees::ItemText;
use type_definitions::{TypeFault, TypeNames, TypeOrder, TypeText, order_types};
use type_presentations::{PresentedTypes, union_of_mentions};

/// The data of all types among the items in which nothing is formal: their union, in the order of
/// flattening, which is text order, but each type after those that it mentions. Mentions of
/// libraries count for nothing; they were replaced by the items of their texts before.
///
/// It is refused at the first fault: of the names of types (`DoubleType`, `UnknownType`,
/// `TypeCycle`); then of each type in the order of flattening; then of the union, at the name of
/// the type that brings it.
pub fn flatten(alloc: Global, items: &[ItemText]) -> Result<Flat, TypeFault>
    ensures { MatchResult result (λ flat. IsFlat (types_of (map item_of items.now)) flat)
        (λ fault. IsRefused (types_of (map item_of items.now)) fault) }
{
    let order = order_types(alloc, items)?;
    flatten_in_order(alloc, &order)
}

// The data of the types in this order.
fn flatten_in_order(alloc: Global, order: &TypeOrder<'_>) -> Result<Flat, TypeFault>
    requires { AreInOrder (types_in order.now.names) order.now.order.items }
    ensures { MatchResult result (λ flat. IsFlat (types_in order.now.names) flat)
        (λ fault. IsRefused (types_in order.now.names) fault) }
{
    let numbers = order.order.as_slice();
    let texts = in_order(alloc, &order.names, numbers)?;
    let listed = texts.as_slice();
    data_of_types(alloc, listed)
}

/// The types of these numbers, in this order.
pub fn in_order<'a>(
    alloc: Global,
    names: &TypeNames<'a>,
    order: &[usize],
) -> Result<Vec<TypeText<'a>>, NoMemory>
    ensures { IfOk result (λ texts. declared_types_of texts.items
        ≡ types_at (types_in names.now) order.now) }
{
    let types = names.types();
    let mut texts = Vec::with_capacity(alloc, order.len())?;
    for number in order {
        add_type(&mut texts, types, *number)?;
    }
    Ok(texts)
}

// Adds the type of the number, if there is one.
fn add_type<'a>(
    texts: &mut Vec<TypeText<'a>>,
    types: &[TypeText<'a>],
    number: usize,
) -> Result<(), NoMemory>
    ensures { OnOk result (declared_types_of texts.new.items ≡ declared_types_of texts.old.items
        ++ types_at (declared_types_of types.now) (number ∷ [])) }
{
    if let Some(text) = types.get(number) {
        texts.push(*text)?;
        return Ok(());
    }
    Ok(())
}

// The data of types, each of which stands behind those that it mentions.
fn data_of_types(alloc: Global, texts: &[TypeText<'_>]) -> Result<Flat, TypeFault>
    ensures { MatchResult result (λ flat. AreDataOfTypes (declared_types_of texts.now) flat)
        (λ fault. AreTypesRefused (declared_types_of texts.now) fault) }
{
    let types = presented(alloc, texts)?;
    united(alloc, &types)
}

/// The union of the types in which nothing is formal.
pub fn united(alloc: Global, types: &PresentedTypes<'_>) -> Result<Flat, TypeFault>
    requires { AreSoundTypes types.now }
    ensures { MatchResult result (λ flat. AreUnited (presented_in types.now) flat)
        (λ fault. AreNotUnited (presented_in types.now) fault) }
{
    let mentions = types.without_formals(alloc)?;
    let joined = mentions.as_slice();
    let union = union_of_mentions(alloc, joined)?;
    let flat = data_of(alloc, union)?;
    Ok(flat)
}

// The types with their presentations, one after another.
fn presented<'a>(alloc: Global, texts: &[TypeText<'a>]) -> Result<PresentedTypes<'a>, TypeFault>
    ensures { MatchResult result
        (λ types. ArePresentedBehind [] (declared_types_of texts.now) types)
        (λ fault. AreRefusedBehind [] (declared_types_of texts.now) fault) }
{
    let mut types = PresentedTypes::new(alloc);
    present_all(alloc, &mut types, texts)?;
    Ok(types)
}

// Adds the types with their presentations, one after another.
fn present_all<'a>(
    alloc: Global,
    types: &mut PresentedTypes<'a>,
    texts: &[TypeText<'a>],
) -> Result<(), TypeFault>
    requires { AreSoundTypes types.old }
    ensures { MatchResult result
        (λ _. ArePresentedBehind (presented_in types.old) (declared_types_of texts.now) types.new)
        (λ fault. AreRefusedBehind (presented_in types.old) (declared_types_of texts.now) fault) }
{
    for text in texts {
        present(alloc, types, text)?;
    }
    Ok(())
}

// Adds the type with its presentation.
fn present<'a>(
    alloc: Global,
    types: &mut PresentedTypes<'a>,
    text: &TypeText<'a>,
) -> Result<(), TypeFault>
    requires { AreSoundTypes types.old }
    ensures { MatchResult result
        (λ _. IsPresentedNext (presented_in types.old) (declared_type_of text.now) types.new)
        (λ fault. IsFirstTypeFault (presented_in types.old) (declared_type_of text.now).name
        (declared_type_of text.now).body fault) }
{
    let presentation = presentation_of_type(alloc, types, text.name, text.body)?;
    types.add(alloc, text, presentation)?;
    Ok(())
}
