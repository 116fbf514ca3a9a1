//! What the parts of names and lists of them are built into. Lists are held from the last member to
//! the first until they enter a tree.

ghost use Rattle.std.specs.Prelude.{List, Option, option_map};
ghost use Rattle.lotos_base.specs.WrittenTerm.{PlacedName};
ghost use Rattle.syntax_trees.specs.WrittenVariable.{WrittenVariable};
ghost use Rattle.lotos_rows.specs.Names.{NamedOperation, PlacedProfile};
ghost use Rattle.lotos_base.specs.WrittenView.{placed_name_of};
ghost use Rattle.syntax_trees.specs.TreeViews.{written_variable_of};
ghost use Rattle.lotos_rows.specs.HandedOn.{from_last};
ghost use Rattle.tree_building.specs.Parts.{meant_name, meant_names, meant_variables, meant_operation, meant_operations, meant_profile, meant_maybe_profile, meant_maybe_name};
ghost use Rattle.tree_building.specs.NamesViews.{named_operation_of, profile_of};

use crate::value::{Part, Value, of_another_kind};
use lotos_base::Form;
use syntax_trees::{Named, VarText};

/// An operation by its name, with the form that underscores give it.
#[derive(Drop)]
pub struct NamedOp {
    /// The name.
    pub name: Named,
    /// The form.
    pub form: Form,
}

/// The sorts of an operation.
#[derive(Drop)]
pub struct OpProfile {
    /// Those of its arguments, in text order.
    pub arguments: Vec<Named>,
    /// That of its result.
    pub result: Named,
}

/// A name.
impl Part for Named {
    ghost Plain = { PlacedName };

    ghost plain = { λ x. placed_name_of x };

    ghost found = { meant_name };

    fn of(value: Value) -> Option<Self> {
        match value {
            Value::Name(value) => Some(value),
            other => of_another_kind(other),
        }
    }
}

/// Names.
impl Part for Vec<Named> {
    ghost Plain = { List PlacedName };

    ghost plain = { λ x. from_last placed_name_of x.items };

    ghost found = { meant_names };

    fn of(value: Value) -> Option<Self> {
        match value {
            Value::Names(value) => Some(value),
            other => of_another_kind(other),
        }
    }
}

/// Variables.
impl Part for Vec<VarText> {
    ghost Plain = { List WrittenVariable };

    ghost plain = { λ x. from_last written_variable_of x.items };

    ghost found = { meant_variables };

    fn of(value: Value) -> Option<Self> {
        match value {
            Value::Variables(value) => Some(value),
            other => of_another_kind(other),
        }
    }
}

/// An operation by name.
impl Part for NamedOp {
    ghost Plain = { NamedOperation };

    ghost plain = { λ x. named_operation_of x };

    ghost found = { meant_operation };

    fn of(value: Value) -> Option<Self> {
        match value {
            Value::Operation(value) => Some(value),
            other => of_another_kind(other),
        }
    }
}

/// Operations by name.
impl Part for Vec<NamedOp> {
    ghost Plain = { List NamedOperation };

    ghost plain = { λ x. from_last named_operation_of x.items };

    ghost found = { meant_operations };

    fn of(value: Value) -> Option<Self> {
        match value {
            Value::NamedOperations(value) => Some(value),
            other => of_another_kind(other),
        }
    }
}

/// The sorts of an operation.
impl Part for OpProfile {
    ghost Plain = { PlacedProfile };

    ghost plain = { λ x. profile_of x };

    ghost found = { meant_profile };

    fn of(value: Value) -> Option<Self> {
        match value {
            Value::Profile(value) => Some(value),
            other => of_another_kind(other),
        }
    }
}

/// The sorts of an operation, or none.
impl Part for Option<OpProfile> {
    ghost Plain = { Option PlacedProfile };

    ghost plain = { λ x. option_map profile_of x };

    ghost found = { meant_maybe_profile };

    fn of(value: Value) -> Option<Self> {
        match value {
            Value::MaybeProfile(value) => Some(value),
            other => of_another_kind(other),
        }
    }
}

/// A name, or none.
impl Part for Option<Named> {
    ghost Plain = { Option PlacedName };

    ghost plain = { λ x. option_map placed_name_of x };

    ghost found = { meant_maybe_name };

    fn of(value: Value) -> Option<Self> {
        match value {
            Value::MaybeName(value) => Some(value),
            other => of_another_kind(other),
        }
    }
}
