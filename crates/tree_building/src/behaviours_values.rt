//! What the parts of behaviours are built into. Lists are held from the last member to the first
//! until they enter a tree.

ghost use Rattle.std.specs.Prelude.{List};
ghost use Rattle.lotos_base.specs.WrittenTerm.{WrittenTerm};
ghost use Rattle.syntax_trees.specs.WrittenVariable.{WrittenVariable};
ghost use Rattle.syntax_trees.specs.WrittenBehaviour.{WrittenBehaviour, WrittenExitValue, WrittenGateChoice, WrittenOffer};
ghost use Rattle.syntax_trees.specs.Strength.{PlacedSign};
ghost use Rattle.syntax_trees.specs.TreeViews.{written_offer_of, written_exit_value_of, gate_choice_of, written_behaviour_of, placed_sign_of};
ghost use Rattle.lotos_rows.specs.HandedOn.{from_last};
ghost use Rattle.tree_building.specs.Meaning.{PlainActionEnd, PlainCallEnd, PlainFlat, PlainGateChoiceEnd, PlainValueChoiceEnd};
ghost use Rattle.tree_building.specs.Parts.{meant_operands, meant_action, meant_call, meant_offers, meant_exit_values, meant_lets, meant_gate_choices, meant_value_choice, meant_gate_choice, meant_behaviour, meant_sign};
ghost use Rattle.tree_building.specs.BehavioursViews.{action_end_of, call_end_of, flat_of, gate_choice_end_of, written_let_of, value_choice_end_of};

use crate::value::{Part, Value, of_another_kind};
use lotos_base::{Place, Written};
use syntax_trees::{BehText, ExitText, GateText, Named, OfferText, Sign, TestText, VarText};

/// A flat list of behaviours with the signs between them, each from the last to the first.
#[derive(Drop)]
pub struct Flat {
    /// The operands.
    pub operands: Vec<BehText>,
    /// The signs.
    pub signs: Vec<(Place, Sign)>,
}

/// An action that lacks its gate, and the flat list behind it.
#[derive(Drop)]
pub struct ActionEnd {
    /// The offers, from the last to the first.
    pub offers: Vec<OfferText>,
    /// The selection predicate.
    pub test: Option<TestText>,
    /// The flat list.
    pub behind: Flat,
}

/// A call that lacks its name, and the tail of the flat list that it begins.
#[derive(Drop)]
pub struct CallEnd {
    /// The gates, from the last to the first.
    pub gates: Vec<Named>,
    /// The values, from the last to the first.
    pub values: Vec<Written>,
    /// The tail.
    pub behind: Flat,
}

/// A choice of values that lacks its first names.
#[derive(Drop)]
pub struct ValueChoiceEnd {
    /// The sort of the first names.
    pub sort: Named,
    /// Further variables, from the last to the first.
    pub more: Vec<VarText>,
    /// The behaviour.
    pub inside: Box<BehText>,
}

/// A choice of gates that lacks its first names.
#[derive(Drop)]
pub struct GateChoiceEnd {
    /// The gates that the first names stand for, from the last to the first.
    pub among: Vec<Named>,
    /// Further declarations, from the last to the first.
    pub more: Vec<GateText>,
    /// The behaviour.
    pub inside: Box<BehText>,
}

/// A flat list of operands and signs, or its tail.
impl Part for Flat {
    ghost Plain = { PlainFlat };

    ghost plain = { λ x. flat_of x };

    ghost found = { meant_operands };

    fn of(value: Value) -> Option<Self> {
        match value {
            Value::Operands(value) => Some(value),
            other => of_another_kind(other),
        }
    }
}

/// An action without its gate, before a flat list.
impl Part for ActionEnd {
    ghost Plain = { PlainActionEnd };

    ghost plain = { λ x. action_end_of x };

    ghost found = { meant_action };

    fn of(value: Value) -> Option<Self> {
        match value {
            Value::Action(value) => Some(Box::into_inner(value)),
            other => of_another_kind(other),
        }
    }
}

/// A call without its name, before the tail of a flat list.
impl Part for CallEnd {
    ghost Plain = { PlainCallEnd };

    ghost plain = { λ x. call_end_of x };

    ghost found = { meant_call };

    fn of(value: Value) -> Option<Self> {
        match value {
            Value::Call(value) => Some(value),
            other => of_another_kind(other),
        }
    }
}

/// Offers.
impl Part for Vec<OfferText> {
    ghost Plain = { List WrittenOffer };

    ghost plain = { λ x. from_last written_offer_of x.items };

    ghost found = { meant_offers };

    fn of(value: Value) -> Option<Self> {
        match value {
            Value::Offers(value) => Some(value),
            other => of_another_kind(other),
        }
    }
}

/// Values of `exit`.
impl Part for Vec<ExitText> {
    ghost Plain = { List WrittenExitValue };

    ghost plain = { λ x. from_last written_exit_value_of x.items };

    ghost found = { meant_exit_values };

    fn of(value: Value) -> Option<Self> {
        match value {
            Value::ExitValues(value) => Some(value),
            other => of_another_kind(other),
        }
    }
}

/// Declarations of a `let`.
impl Part for Vec<(VarText, Written)> {
    ghost Plain = { List (WrittenVariable × WrittenTerm) };

    ghost plain = { λ x. from_last written_let_of x.items };

    ghost found = { meant_lets };

    fn of(value: Value) -> Option<Self> {
        match value {
            Value::Lets(value) => Some(value),
            other => of_another_kind(other),
        }
    }
}

/// Gates that are declared.
impl Part for Vec<GateText> {
    ghost Plain = { List WrittenGateChoice };

    ghost plain = { λ x. from_last gate_choice_of x.items };

    ghost found = { meant_gate_choices };

    fn of(value: Value) -> Option<Self> {
        match value {
            Value::GateChoices(value) => Some(value),
            other => of_another_kind(other),
        }
    }
}

/// A choice of values without its first names.
impl Part for ValueChoiceEnd {
    ghost Plain = { PlainValueChoiceEnd };

    ghost plain = { λ x. value_choice_end_of x };

    ghost found = { meant_value_choice };

    fn of(value: Value) -> Option<Self> {
        match value {
            Value::ValueChoice(value) => Some(value),
            other => of_another_kind(other),
        }
    }
}

/// A choice of gates without its first names.
impl Part for GateChoiceEnd {
    ghost Plain = { PlainGateChoiceEnd };

    ghost plain = { λ x. gate_choice_end_of x };

    ghost found = { meant_gate_choice };

    fn of(value: Value) -> Option<Self> {
        match value {
            Value::GateChoice(value) => Some(value),
            other => of_another_kind(other),
        }
    }
}

/// A behaviour.
impl Part for Box<BehText> {
    ghost Plain = { WrittenBehaviour };

    ghost plain = { λ x. written_behaviour_of x.value };

    ghost found = { meant_behaviour };

    fn of(value: Value) -> Option<Self> {
        match value {
            Value::Behaviour(value) => Some(value),
            other => of_another_kind(other),
        }
    }
}

/// A sign.
impl Part for (Place, Sign) {
    ghost Plain = { PlacedSign };

    ghost plain = { λ x. placed_sign_of x };

    ghost found = { meant_sign };

    fn of(value: Value) -> Option<Self> {
        match value {
            Value::Sign(value) => Some(value),
            other => of_another_kind(other),
        }
    }
}
