//! What the parts of definitions of processes and headings are built into. Lists are held from the
//! last member to the first until they enter a tree.

ghost use Rattle.std.specs.Prelude.{List, Option, option_map};
ghost use Rattle.lotos_base.specs.WrittenTerm.{PlacedName};
ghost use Rattle.syntax_trees.specs.WrittenDefinition.{WrittenHeading, WrittenInner};
ghost use Rattle.syntax_trees.specs.TreeViews.{inner_of, written_process_of};
ghost use Rattle.lotos_rows.specs.HandedOn.{from_last};
ghost use Rattle.tree_building.specs.Parts.{meant_heading, meant_functionality, meant_inner, meant_process};
ghost use Rattle.tree_building.specs.DefinitionsViews.{plain_heading_of, written_exit_sorts_of};

use crate::value::{Part, Value, of_another_kind};
use lotos_base::{Name, Place};
use syntax_trees::{InnerText, Named, ProcessText, VarText};

/// What stands before the body of a specification or a process, in text order.
#[derive(Drop)]
pub struct Heading {
    /// The place of the name.
    pub place: Place,
    /// The name.
    pub name: Name,
    /// The formal gates.
    pub gates: Vec<Named>,
    /// The formal parameters.
    pub params: Vec<VarText>,
    /// The sorts of `exit`, or none for `noexit`.
    pub func: Option<Vec<Named>>,
}

/// What stands before a body.
impl Part for Heading {
    ghost Plain = { WrittenHeading };

    ghost plain = { λ x. plain_heading_of x };

    ghost found = { meant_heading };

    fn of(value: Value) -> Option<Self> {
        match value {
            Value::Heading(value) => Some(value),
            other => of_another_kind(other),
        }
    }
}

/// A functionality.
impl Part for Option<Vec<Named>> {
    ghost Plain = { Option (List PlacedName) };

    ghost plain = { λ x. option_map written_exit_sorts_of x };

    ghost found = { meant_functionality };

    fn of(value: Value) -> Option<Self> {
        match value {
            Value::Functionality(value) => Some(value),
            other => of_another_kind(other),
        }
    }
}

/// What a `where` declares.
impl Part for Vec<InnerText> {
    ghost Plain = { List WrittenInner };

    ghost plain = { λ x. from_last inner_of x.items };

    ghost found = { meant_inner };

    fn of(value: Value) -> Option<Self> {
        match value {
            Value::Inner(value) => Some(value),
            other => of_another_kind(other),
        }
    }
}

/// A process.
impl Part for ProcessText {
    ghost Plain = { WrittenInner };

    ghost plain = { λ x. written_process_of x };

    ghost found = { meant_process };

    fn of(value: Value) -> Option<Self> {
        match value {
            Value::Process(value) => Some(Box::into_inner(value)),
            other => of_another_kind(other),
        }
    }
}
