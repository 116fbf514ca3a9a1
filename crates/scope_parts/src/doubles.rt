//! The first name of a list that one before it has.

ghost use Rattle.lotos_base.specs.Name.{spelling};
ghost use Rattle.lotos_base.specs.WrittenTerm.{PlacedName};
ghost use Rattle.lotos_base.specs.WrittenView.{placed_name_of, text_place_of};
ghost use Rattle.scope_parts.specs.BindingsView.{bindings_in};
ghost use Rattle.scope_parts.specs.Declares.{
  Enters,
  declared_binding,
  declared_gate,
  declared_name,
  declared_offer,
  declared_variable,
};
ghost use Rattle.scope_parts.specs.Scope.{first_double as first_double_of};
ghost use Rattle.std.specs.List.{filter_map};
ghost use Rattle.std.specs.Prelude.{◌≡◌, IfOk, None, Option, Some, option_map};

use crate::bindings::Bindings;
use lotos_base::{Name, NoMemory, Place, Written};
use std::alloc::Global;
use syntax_trees::{GateText, Named, OfferText, VarText};

/// A member of a list that may declare a name.
pub trait Declares {
    ghost declared: { Self → Option PlacedName };

    /// Enters the name that it declares, or answers the name if it was entered before.
    fn enter(&self, alloc: Global, before: &mut Bindings) -> Result<Option<Named>, NoMemory>
        ensures { IfOk result (λ found. Enters (declared self.now) (bindings_in before.old)
            (option_map placed_name_of found) (bindings_in before.new)) };
}

impl Declares for Named {
    ghost declared = { declared_name };

    fn enter(&self, alloc: Global, before: &mut Bindings) -> Result<Option<Named>, NoMemory> {
        enter_name(alloc, before, &self.0, &self.1)
    }
}

impl Declares for VarText {
    ghost declared = { declared_variable };

    fn enter(&self, alloc: Global, before: &mut Bindings) -> Result<Option<Named>, NoMemory> {
        enter_name(alloc, before, &self.place, &self.name)
    }
}

impl Declares for GateText {
    ghost declared = { declared_gate };

    fn enter(&self, alloc: Global, before: &mut Bindings) -> Result<Option<Named>, NoMemory> {
        enter_name(alloc, before, &self.place, &self.name)
    }
}

impl Declares for (VarText, Written) {
    ghost declared = { declared_binding };

    fn enter(&self, alloc: Global, before: &mut Bindings) -> Result<Option<Named>, NoMemory> {
        enter_name(alloc, before, &self.0.place, &self.0.name)
    }
}

impl Declares for OfferText {
    ghost declared = { declared_offer };

    fn enter(&self, alloc: Global, before: &mut Bindings) -> Result<Option<Named>, NoMemory> {
        match self {
            OfferText::Give(_) => Ok(None),
            OfferText::Ask(text) => enter_name(alloc, before, &text.place, &text.name),
        }
    }
}

// Binds the name, or answers it if it is bound.
fn enter_name(
    alloc: Global,
    before: &mut Bindings,
    place: &Place,
    name: &Name,
) -> Result<Option<Named>, NoMemory>
    ensures { IfOk result (λ found. Enters
        (Some (record { place = text_place_of place.now; name = spelling name.now }))
        (bindings_in before.old) (option_map placed_name_of found) (bindings_in before.new)) }
{
    if let Some(_) = before.find(alloc, name)? {
        return Ok(Some((*place, name.copy(alloc)?)));
    }
    before.bind(alloc, name, 0)?;
    Ok(None)
}

/// The first name of the list that one before it has.
pub fn first_double<T: Declares>(alloc: Global, list: &Vec<T>) -> Result<Option<Named>, NoMemory>
    ensures { IfOk result (λ found. option_map placed_name_of found
        ≡ first_double_of (filter_map T.declared list.now.items)) }
{
    let mut before = Bindings::new(alloc);
    for member in list {
        if let Some(found) = member.enter(alloc, &mut before)? {
            return Ok(Some(found));
        }
    }
    Ok(None)
}
