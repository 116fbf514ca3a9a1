//! The types among the items of a text.

ghost use Rattle.std.specs.Option.{option_map, option_to_list};
ghost use Rattle.std.specs.Prelude.{◌≡◌, ◌∷◌, ◌++◌, [], IfOk, OnOk, map};
ghost use Rattle.syntax_trees.specs.TreeViews.{item_of};
ghost use Rattle.type_definitions.specs.DeclaredTypes.{types_of};
ghost use Rattle.type_definitions.specs.TypeView.{declared_type_of, declared_types_of};

use lotos_base::{Name, NoMemory, Place};
use std::alloc::Global;
use syntax_trees::{ItemBody, ItemText};

/// A type at the place of its name.
#[derive(Clone, Copy)]
pub struct TypeText<'a> {
    /// The place.
    pub place: Place,
    /// Its name.
    pub name: &'a Name,
    /// What stands behind `is`.
    pub body: &'a ItemBody,
}

/// The types among the items, in their order.
pub fn type_texts<'a>(alloc: Global, items: &'a [ItemText]) -> Result<Vec<TypeText<'a>>, NoMemory>
    ensures { IfOk result (λ types. declared_types_of types.items
        ≡ types_of (map item_of items.now)) }
{
    let mut types = Vec::new(alloc);
    for item in items {
        add_type(&mut types, item)?;
    }
    Ok(types)
}

// Adds the item, if it is a type.
fn add_type<'a>(types: &mut Vec<TypeText<'a>>, item: &'a ItemText) -> Result<(), NoMemory>
    ensures { OnOk result (declared_types_of types.new.items
        ≡ declared_types_of types.old.items ++ types_of (item_of item.now ∷ [])) }
{
    if let Some(text) = type_text(item) {
        types.push(text)?;
        return Ok(());
    }
    Ok(())
}

// The item as a type, if it is one.
fn type_text(item: &ItemText) -> Option<TypeText<'_>>
    ensures { option_to_list (option_map declared_type_of result)
        ≡ types_of (item_of item.now ∷ []) }
{
    match &item.body {
        ItemBody::Library(_) => None,
        ItemBody::Extends { name, .. } => Some(TypeText {
            place: item.place,
            name,
            body: &item.body,
        }),
        ItemBody::Renames { name, .. } => Some(TypeText {
            place: item.place,
            name,
            body: &item.body,
        }),
        ItemBody::Actualises { name, .. } => Some(TypeText {
            place: item.place,
            name,
            body: &item.body,
        }),
    }
}
