//! Behaviours. Gates, variables, sorts and processes are numbers: gates and variables count from 0
//! in the order of their declarations in the text, sorts are positions in the signature, processes
//! positions in the specification.

ghost use Rattle.behaviour_tree.specs.BehaviourView.{meet_of};
ghost use Rattle.std.specs.Prelude.{◌≡◌, IfOk};

use lotos_base::{NoMemory, Place};
use sort_terms::{Sorted, Variable};
use std::alloc::Global;
use std::rc::Rc;

/// The gates at which the two sides of a parallel synchronise.
#[derive(Debug, Drop)]
pub enum Meet {
    /// `|||`: at none.
    Nothing,
    /// `||`: at all.
    Everything,
    /// `|[..]|`: at these.
    Gates(Vec<u32>),
}

/// A premiss: an equation that has to hold. A premiss of one term has the right side `true`.
#[derive(Debug, Drop)]
pub struct Test {
    /// The left side.
    pub left: Sorted,
    /// The right side.
    pub right: Sorted,
}

/// What an action offers.
#[derive(Debug, Drop)]
pub enum Offer {
    /// `!e`: a value.
    Give(Sorted),
    /// `?x:S`: any value of the sort, which the variable then has.
    Ask(Variable),
}

/// A value of `exit`.
#[derive(Debug, Drop)]
pub enum ExitValue {
    /// A term.
    Give(Sorted),
    /// `any S`: any value of the sort.
    Any(u32),
}

/// A behaviour. Where a form has a place, it is that of its sign, or of a call's name. The parts of
/// a behaviour are shared by all states in which they stand.
#[derive(Debug, Drop)]
pub enum Beh {
    /// `stop`.
    Stop,
    /// `exit`, with its values.
    Exit(Vec<ExitValue>),
    /// `g d1 .. dn [test]; B`.
    Action {
        /// The gate.
        gate: u32,
        /// The offers in order.
        offers: Vec<Offer>,
        /// The selection predicate.
        test: Option<Test>,
        /// The behaviour after the action.
        next: Rc<Beh>,
    },
    /// `i; B`.
    Inner(Rc<Beh>),
    /// `[test] -> B`.
    Guard(Test, Rc<Beh>),
    /// `B [] C`.
    Choice(Place, Rc<Beh>, Rc<Beh>),
    /// `B |[..]| C`.
    Parallel(Place, Meet, Rc<Beh>, Rc<Beh>),
    /// `hide .. in B`.
    Hide(Vec<u32>, Rc<Beh>),
    /// `B >> accept .. in C`.
    Enable(Place, Rc<Beh>, Vec<Variable>, Rc<Beh>),
    /// `B [> C`.
    Disable(Place, Rc<Beh>, Rc<Beh>),
    /// `let x:S = e, .. in B`.
    Let(Vec<(Variable, Sorted)>, Rc<Beh>),
    /// `choice x:S [] B`.
    ChooseValue(Variable, Rc<Beh>),
    /// `choice g in [..] [] B`.
    ChooseGate(u32, Vec<u32>, Rc<Beh>),
    /// `par g in [..] op B`.
    ParGate(u32, Vec<u32>, Meet, Rc<Beh>),
    /// `P[..](..)`.
    Call {
        /// The place of the name.
        place: Place,
        /// The process.
        process: u32,
        /// The actual gates.
        gates: Vec<u32>,
        /// The actual values.
        values: Vec<Sorted>,
    },
}

impl Meet {
    /// The same gates.
    pub fn copy(&self, alloc: Global) -> Result<Meet, NoMemory>
        ensures { IfOk result (λ m. meet_of m ≡ meet_of self.now) }
    {
        match self {
            Meet::Nothing => Ok(Meet::Nothing),
            Meet::Everything => Ok(Meet::Everything),
            Meet::Gates(gates) => Ok(Meet::Gates(Vec::from_slice(alloc, gates)?)),
        }
    }
}
