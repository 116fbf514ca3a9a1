//! What the parts of terms are built into. Lists are held from the last member to the first
//! until they enter a tree.

ghost use Rattle.std.specs.Prelude.{List};
ghost use Rattle.lotos_base.specs.WrittenTerm.{PlacedName, WrittenTerm};
ghost use Rattle.lotos_base.specs.WrittenView.{written_term_of};
ghost use Rattle.lotos_rows.specs.HandedOn.{from_last};
ghost use Rattle.tree_building.specs.Meaning.{PlainStartedTerm};
ghost use Rattle.tree_building.specs.Parts.{meant_term, meant_factors, meant_terms};
ghost use Rattle.tree_building.specs.TermsViews.{factor_of, started_term_of};

use crate::value::{Part, Value, of_another_kind};
use lotos_base::{Place, Written};
use syntax_trees::Named;

/// A term, and the place of its first token, which may be a bracket.
#[derive(Drop)]
pub struct StartedTerm {
    /// The place of the first token.
    pub start: Place,
    /// The term.
    pub term: Written,
}

/// A term, and the place of its first token.
impl Part for StartedTerm {
    ghost Plain = { PlainStartedTerm };

    ghost plain = { λ x. started_term_of x };

    ghost found = { meant_term };

    fn of(value: Value) -> Option<Self> {
        match value {
            Value::Term(value) => Some(value),
            other => of_another_kind(other),
        }
    }
}

/// Factors, each with the operation before it.
impl Part for Vec<(Named, Written)> {
    ghost Plain = { List (PlacedName × WrittenTerm) };

    ghost plain = { λ x. from_last factor_of x.items };

    ghost found = { meant_factors };

    fn of(value: Value) -> Option<Self> {
        match value {
            Value::Factors(value) => Some(value),
            other => of_another_kind(other),
        }
    }
}

/// Terms.
impl Part for Vec<Written> {
    ghost Plain = { List WrittenTerm };

    ghost plain = { λ x. from_last written_term_of x.items };

    ghost found = { meant_terms };

    fn of(value: Value) -> Option<Self> {
        match value {
            Value::Terms(value) => Some(value),
            other => of_another_kind(other),
        }
    }
}
