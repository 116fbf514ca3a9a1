//! The binders on the way to a part of a behaviour.

ghost use Rattle.behaviour_tree.specs.Placings.{binds};
ghost use Rattle.behaviour_semantics.specs.Behaviour.{asked_variables, let_variables, numbers_of};
ghost use Rattle.behaviour_tree.specs.BehaviourView.{let_of, offer_of, variables_of};
ghost use Rattle.lotos_base.specs.Substitution.{is_listed};
ghost use Rattle.std.specs.Prelude.{◌≡◌, map};

use crate::Offer;
use sort_terms::{Sorted, Variable};

/// The binders on the way to a part of a behaviour, the innermost first.
#[derive(Clone, Copy)]
pub enum Binders<'a> {
    /// None.
    Outermost,
    /// The variables that an action asks for, inside these binders.
    Action(&'a Vec<Offer>, &'a Binders<'a>),
    /// The variables that `accept` binds.
    Accept(&'a Vec<Variable>, &'a Binders<'a>),
    /// The variables that `let` binds.
    Let(&'a Vec<(Variable, Sorted)>, &'a Binders<'a>),
    /// The variable of a value choice.
    Choice(&'a Variable, &'a Binders<'a>),
}

impl Binders<'_> {
    /// Whether one of them binds the variable with this number.
    pub fn bind(&self, number: u64) -> bool
        ensures { result ≡ binds self.now number }
    {
        match self {
            Binders::Outermost => false,
            Binders::Action(offers, outer) => asks(*offers, number) || outer.bind(number),
            Binders::Accept(variables, outer) => lists(*variables, number) || outer.bind(number),
            Binders::Let(bindings, outer) => defines(*bindings, number) || outer.bind(number),
            Binders::Choice(variable, outer) => variable.number == number || outer.bind(number),
        }
    }
}

// Whether an offer asks for the variable with this number.
fn asks(offers: &Vec<Offer>, number: u64) -> bool
    ensures { result
        ≡ is_listed (numbers_of (asked_variables (map offer_of offers.now.items))) number }
{
    for offer in offers {
        if let Offer::Ask(variable) = offer {
            if variable.number == number {
                return true;
            }
        }
    }
    false
}

// Whether the variable with this number is one of these.
fn lists(variables: &Vec<Variable>, number: u64) -> bool
    ensures { result ≡ is_listed (numbers_of (variables_of variables.now.items)) number }
{
    for variable in variables {
        if variable.number == number {
            return true;
        }
    }
    false
}

// Whether the variable with this number is defined.
fn defines(bindings: &Vec<(Variable, Sorted)>, number: u64) -> bool
    ensures { result
        ≡ is_listed (numbers_of (let_variables (map let_of bindings.now.items))) number }
{
    for binding in bindings {
        if binding.0.number == number {
            return true;
        }
    }
    false
}
