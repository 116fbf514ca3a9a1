//! What the parts of equations are built into. Lists are held from the last member to the first
//! until they enter a tree.

ghost use Rattle.std.specs.Prelude.{List, Option, option_map};
ghost use Rattle.lotos_base.specs.WrittenTerm.{WrittenTerm};
ghost use Rattle.syntax_trees.specs.WrittenEquation.{WrittenEquation, WrittenGroup, WrittenPremiss};
ghost use Rattle.lotos_base.specs.WrittenView.{written_term_of};
ghost use Rattle.syntax_trees.specs.TreeViews.{group_of, written_equation_of, premiss_of};
ghost use Rattle.lotos_rows.specs.HandedOn.{from_last};
ghost use Rattle.tree_building.specs.Meaning.{PlainAfterTerm, PlainConclusion};
ghost use Rattle.tree_building.specs.Parts.{meant_groups, meant_equations, meant_equation, meant_conclusion, meant_maybe_conclusion, meant_after_term, meant_premiss, meant_maybe_term};
ghost use Rattle.tree_building.specs.EquationsViews.{after_term_of, conclusion_of};

use crate::value::{Part, Value, of_another_kind};
use lotos_base::{Place, Written};
use syntax_trees::{EqText, GroupText, TestText};

/// The end of an equation with premisses: those behind the first one, and the equation behind `=>`.
#[derive(Drop)]
pub struct Conclusion {
    /// The premisses, from the last to the first.
    pub premisses: Vec<TestText>,
    /// The place of `=>`.
    pub arrow: Place,
    /// The left and the right side.
    pub sides: Box<(Written, Written)>,
}

/// What stands behind the first term of an equation.
#[derive(Drop)]
pub struct AfterTerm {
    /// The right side of the first pair.
    pub right: Option<Written>,
    /// The end of an equation with premisses.
    pub conclusion: Option<Conclusion>,
}

/// Groups of equations.
impl Part for Vec<GroupText> {
    ghost Plain = { List WrittenGroup };

    ghost plain = { λ x. from_last group_of x.items };

    ghost found = { meant_groups };

    fn of(value: Value) -> Option<Self> {
        match value {
            Value::Groups(value) => Some(value),
            other => of_another_kind(other),
        }
    }
}

/// Equations.
impl Part for Vec<EqText> {
    ghost Plain = { List WrittenEquation };

    ghost plain = { λ x. from_last written_equation_of x.items };

    ghost found = { meant_equations };

    fn of(value: Value) -> Option<Self> {
        match value {
            Value::Equations(value) => Some(value),
            other => of_another_kind(other),
        }
    }
}

/// An equation.
impl Part for EqText {
    ghost Plain = { WrittenEquation };

    ghost plain = { λ x. written_equation_of x };

    ghost found = { meant_equation };

    fn of(value: Value) -> Option<Self> {
        match value {
            Value::Equation(value) => Some(Box::into_inner(value)),
            other => of_another_kind(other),
        }
    }
}

/// The end of an equation with premisses.
impl Part for Conclusion {
    ghost Plain = { PlainConclusion };

    ghost plain = { λ x. conclusion_of x };

    ghost found = { meant_conclusion };

    fn of(value: Value) -> Option<Self> {
        match value {
            Value::Conclusion(value) => Some(value),
            other => of_another_kind(other),
        }
    }
}

/// The end of an equation with premisses, or nothing.
impl Part for Option<Conclusion> {
    ghost Plain = { Option PlainConclusion };

    ghost plain = { λ x. option_map conclusion_of x };

    ghost found = { meant_maybe_conclusion };

    fn of(value: Value) -> Option<Self> {
        match value {
            Value::MaybeConclusion(value) => Some(value),
            other => of_another_kind(other),
        }
    }
}

/// What stands behind the first term of an equation.
impl Part for AfterTerm {
    ghost Plain = { PlainAfterTerm };

    ghost plain = { λ x. after_term_of x };

    ghost found = { meant_after_term };

    fn of(value: Value) -> Option<Self> {
        match value {
            Value::AfterTerm(value) => Some(Box::into_inner(value)),
            other => of_another_kind(other),
        }
    }
}

/// A premiss.
impl Part for TestText {
    ghost Plain = { WrittenPremiss };

    ghost plain = { λ x. premiss_of x };

    ghost found = { meant_premiss };

    fn of(value: Value) -> Option<Self> {
        match value {
            Value::Premiss(value) => Some(Box::into_inner(value)),
            other => of_another_kind(other),
        }
    }
}

/// The right side of a premiss, or nothing.
impl Part for Option<Written> {
    ghost Plain = { Option WrittenTerm };

    ghost plain = { λ x. option_map written_term_of x };

    ghost found = { meant_maybe_term };

    fn of(value: Value) -> Option<Self> {
        match value {
            Value::MaybeTerm(value) => Some(value),
            other => of_another_kind(other),
        }
    }
}
