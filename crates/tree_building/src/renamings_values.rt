//! What the parts of renamings are built into. Lists are held from the last member to the first
//! until they enter a tree.

ghost use Rattle.std.specs.Prelude.{List};
ghost use Rattle.syntax_trees.specs.WrittenItem.{WrittenPair, WrittenPairs};
ghost use Rattle.syntax_trees.specs.TreeViews.{pair_of};
ghost use Rattle.lotos_rows.specs.HandedOn.{from_last};
ghost use Rattle.tree_building.specs.Parts.{meant_pairs, meant_both_pairs};
ghost use Rattle.tree_building.specs.RenamingsViews.{both_pairs_of};

use crate::value::{Part, Value, of_another_kind};
use syntax_trees::PairText;

/// The pairs of a renaming, from the last to the first.
#[derive(Drop)]
pub struct BothPairs {
    /// The pairs of sorts.
    pub sorts: Vec<PairText>,
    /// The pairs of operations.
    pub operations: Vec<PairText>,
}

/// Pairs.
impl Part for Vec<PairText> {
    ghost Plain = { List WrittenPair };

    ghost plain = { λ x. from_last pair_of x.items };

    ghost found = { meant_pairs };

    fn of(value: Value) -> Option<Self> {
        match value {
            Value::Pairs(value) => Some(value),
            other => of_another_kind(other),
        }
    }
}

/// Pairs of sorts and pairs of operations.
impl Part for BothPairs {
    ghost Plain = { WrittenPairs };

    ghost plain = { λ x. both_pairs_of x };

    ghost found = { meant_both_pairs };

    fn of(value: Value) -> Option<Self> {
        match value {
            Value::BothPairs(value) => Some(value),
            other => of_another_kind(other),
        }
    }
}
