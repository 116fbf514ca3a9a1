//! What the parts of the four texts are built into. Lists are held from the last member to the
//! first until they enter a tree.

ghost use Rattle.std.specs.Prelude.{List};
ghost use Rattle.lotos_base.specs.WrittenTerm.{ListedOperation};
ghost use Rattle.syntax_trees.specs.WrittenDefinition.{WrittenSpecification};
ghost use Rattle.lotos_base.specs.WrittenView.{listed_operation_of};
ghost use Rattle.syntax_trees.specs.TreeViews.{written_specification_of};
ghost use Rattle.lotos_rows.specs.HandedOn.{from_last};
ghost use Rattle.tree_building.specs.Parts.{meant_word, meant_specification, meant_order_items};

use crate::value::{Part, Value, of_another_kind};
use lotos_base::OrderItem;
use syntax_trees::SpecText;

/// A word without a value.
impl Part for () {
    ghost Plain = { Unit {0} };

    ghost plain = { λ x. tt };

    ghost found = { meant_word };

    fn of(value: Value) -> Option<Self> {
        match value {
            Value::Word(value) => Some(value),
            other => of_another_kind(other),
        }
    }
}

/// A specification.
impl Part for SpecText {
    ghost Plain = { WrittenSpecification };

    ghost plain = { λ x. written_specification_of x };

    ghost found = { meant_specification };

    fn of(value: Value) -> Option<Self> {
        match value {
            Value::Specification(value) => Some(Box::into_inner(value)),
            other => of_another_kind(other),
        }
    }
}

/// Items of an order file.
impl Part for Vec<OrderItem> {
    ghost Plain = { List ListedOperation };

    ghost plain = { λ x. from_last listed_operation_of x.items };

    ghost found = { meant_order_items };

    fn of(value: Value) -> Option<Self> {
        match value {
            Value::OrderItems(value) => Some(value),
            other => of_another_kind(other),
        }
    }
}
