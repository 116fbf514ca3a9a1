//! Behaviour expressions.

use crate::equations::TestText;
use crate::named::{Named, VarText};
use lotos_base::{Name, Place, Written};

/// A sign between two behaviours.
#[derive(Debug, Drop)]
pub enum Sign {
    /// `[]`.
    Choice,
    /// `|||`.
    Interleave,
    /// `||`.
    Full,
    /// `|[..]|`, with its gates.
    Gates(Vec<Named>),
    /// `[>`.
    Disable,
    /// `>>`, with the variables of its `accept`.
    Enable(Vec<VarText>),
}

/// A gate that a `choice` or `par` declares, with the gates that it stands for.
#[derive(Debug, Drop)]
pub struct GateText {
    /// The place of the name.
    pub place: Place,
    /// The name.
    pub name: Name,
    /// The gates that it stands for, one at a time.
    pub among: Vec<Named>,
}

/// A value of `exit`.
#[derive(Debug, Drop)]
pub enum ExitText {
    /// A term.
    Give(Written),
    /// `any S`: every value of the sort.
    Any(Named),
}

/// An offer of an action; `?x, y: S` is two of them.
#[derive(Debug, Drop)]
pub enum OfferText {
    /// `!term`.
    Give(Written),
    /// `?x: S`.
    Ask(VarText),
}

/// The form of a behaviour expression. A `choice` and a `par` keep all their declarations in one
/// list; what the declarations stand for nests, the first outermost.
#[derive(Debug, Drop)]
#[cycle(behaviour)]
pub enum BehForm {
    /// `stop`.
    Stop,
    /// `exit`, with its values.
    Exit(Vec<ExitText>),
    /// A call of a process.
    Call {
        /// The process.
        name: Name,
        /// The actual gates.
        gates: Vec<Named>,
        /// The actual values.
        values: Vec<Written>,
    },
    /// An action at a gate: `g !e ?x: S [test]; B`.
    Action {
        /// The gate.
        gate: Name,
        /// The offers in text order.
        offers: Vec<OfferText>,
        /// The selection predicate.
        test: Option<TestText>,
        /// The behaviour behind it.
        next: Box<BehText>,
    },
    /// The inner action: `i; B`.
    Inner(Box<BehText>),
    /// `[test] -> B`.
    Guard(TestText, Box<BehText>),
    /// `hide .. in B`.
    Hide(Vec<Named>, Box<BehText>),
    /// `let x: S = t, .. in B`.
    Let(Vec<(VarText, Written)>, Box<BehText>),
    /// `choice x: S, .. [] B`.
    ChooseValue(Vec<VarText>, Box<BehText>),
    /// `choice g in [..], .. [] B`.
    ChooseGate(Vec<GateText>, Box<BehText>),
    /// `par g in [..], .. sign B`. The sign is a parallel one.
    ParGate(Vec<GateText>, Sign, Box<BehText>),
    /// `B sign C`.
    Binary(Sign, Box<BehText>, Box<BehText>),
}

/// A behaviour expression.
#[derive(Debug, Drop)]
#[cycle(behaviour)]
pub struct BehText {
    /// The place: that of the sign of a binary form, of the first token of every other.
    pub place: Place,
    /// The form.
    pub form: BehForm,
}
