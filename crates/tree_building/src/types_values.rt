//! What the parts of types are built into. Lists are held from the last member to the first
//! until they enter a tree.

ghost use Rattle.std.specs.Prelude.{List};
ghost use Rattle.syntax_trees.specs.WrittenEquation.{WrittenEquations};
ghost use Rattle.syntax_trees.specs.WrittenItem.{WrittenItem, WrittenOperation, WrittenSections, WrittenTypeBody};
ghost use Rattle.syntax_trees.specs.TreeViews.{item_of, written_operation_of, equations_of};
ghost use Rattle.lotos_rows.specs.HandedOn.{from_last};
ghost use Rattle.tree_building.specs.Meaning.{PlainAfterBase};
ghost use Rattle.tree_building.specs.Parts.{meant_item, meant_items, meant_body, meant_after_base, meant_sections, meant_declared_operations, meant_equation_section};
ghost use Rattle.tree_building.specs.TypesViews.{after_base_of, written_sections_of, written_type_body_of};

use crate::renamings_values::BothPairs;
use crate::value::{Part, Value, of_another_kind};
use syntax_trees::{EqnsText, ItemText, Named, OpText};

/// The sections of a type, in text order.
#[derive(Drop)]
pub struct Sections {
    /// The formal sorts.
    pub formal_sorts: Vec<Named>,
    /// The formal operations.
    pub formal_ops: Vec<OpText>,
    /// The formal equations.
    pub formal_equations: EqnsText,
    /// The sorts.
    pub sorts: Vec<Named>,
    /// The operations.
    pub ops: Vec<OpText>,
    /// The equations.
    pub equations: EqnsText,
}

/// The body of a type. Imports, actual types and pairs are held from the last to the first.
#[derive(Drop)]
pub enum TypeBody {
    /// Imports and sections.
    Extends(Vec<Named>, Box<Sections>),
    /// A base and the pairs of its renaming.
    Renames(Named, BothPairs),
    /// A base, the actual types and the pairs.
    Actualises(Named, Vec<Named>, BothPairs),
}

/// What stands behind the first name of a body. Names are held from the last to the first.
#[derive(Drop)]
pub enum AfterBase {
    /// The pairs of a renaming.
    Renamed(BothPairs),
    /// The actual types and the pairs of an actualisation.
    Actualised(Vec<Named>, BothPairs),
    /// Further imports and the sections of an extension.
    Extended(Vec<Named>, Box<Sections>),
}

/// An item.
impl Part for ItemText {
    ghost Plain = { WrittenItem };

    ghost plain = { λ x. item_of x };

    ghost found = { meant_item };

    fn of(value: Value) -> Option<Self> {
        match value {
            Value::Item(value) => Some(Box::into_inner(value)),
            other => of_another_kind(other),
        }
    }
}

/// Items.
impl Part for Vec<ItemText> {
    ghost Plain = { List WrittenItem };

    ghost plain = { λ x. from_last item_of x.items };

    ghost found = { meant_items };

    fn of(value: Value) -> Option<Self> {
        match value {
            Value::Items(value) => Some(value),
            other => of_another_kind(other),
        }
    }
}

/// The body of a type.
impl Part for TypeBody {
    ghost Plain = { WrittenTypeBody };

    ghost plain = { λ x. written_type_body_of x };

    ghost found = { meant_body };

    fn of(value: Value) -> Option<Self> {
        match value {
            Value::Body(value) => Some(value),
            other => of_another_kind(other),
        }
    }
}

/// What stands behind the first name of a body.
impl Part for AfterBase {
    ghost Plain = { PlainAfterBase };

    ghost plain = { λ x. after_base_of x };

    ghost found = { meant_after_base };

    fn of(value: Value) -> Option<Self> {
        match value {
            Value::AfterBase(value) => Some(value),
            other => of_another_kind(other),
        }
    }
}

/// The sections of a type.
impl Part for Box<Sections> {
    ghost Plain = { WrittenSections };

    ghost plain = { λ x. written_sections_of x.value };

    ghost found = { meant_sections };

    fn of(value: Value) -> Option<Self> {
        match value {
            Value::Sections(value) => Some(value),
            other => of_another_kind(other),
        }
    }
}

/// Operations with their sorts.
impl Part for Vec<OpText> {
    ghost Plain = { List WrittenOperation };

    ghost plain = { λ x. from_last written_operation_of x.items };

    ghost found = { meant_declared_operations };

    fn of(value: Value) -> Option<Self> {
        match value {
            Value::DeclaredOperations(value) => Some(value),
            other => of_another_kind(other),
        }
    }
}

/// A section of equations.
impl Part for EqnsText {
    ghost Plain = { WrittenEquations };

    ghost plain = { λ x. equations_of x };

    ghost found = { meant_equation_section };

    fn of(value: Value) -> Option<Self> {
        match value {
            Value::EquationSection(value) => Some(value),
            other => of_another_kind(other),
        }
    }
}
