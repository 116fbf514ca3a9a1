//! Specifications and processes.

use crate::behaviours::BehText;
use crate::items::ItemText;
use crate::named::{Named, VarText};
use lotos_base::{Name, Place};

/// A process with what its `where` declares.
#[derive(Debug, Drop)]
#[cycle(inner_definition)]
pub struct ProcessText {
    /// The place of the name.
    pub place: Place,
    /// The name.
    pub name: Name,
    /// The formal gates.
    pub gates: Vec<Named>,
    /// The formal parameters.
    pub params: Vec<VarText>,
    /// The sorts of its `exit`, or none for `noexit`.
    pub func: Option<Vec<Named>>,
    /// The behaviour.
    pub body: BehText,
    /// What `where` declares, in text order.
    pub inner: Vec<InnerText>,
}

/// What a `where` declares.
#[derive(Debug, Drop)]
#[cycle(inner_definition)]
pub enum InnerText {
    /// A type or a mention of libraries.
    Item(ItemText),
    /// A process.
    Process(ProcessText),
}

/// A specification.
#[derive(Debug, Drop)]
pub struct SpecText {
    /// The place of the name.
    pub place: Place,
    /// The name.
    pub name: Name,
    /// The formal gates.
    pub gates: Vec<Named>,
    /// The formal parameters.
    pub params: Vec<VarText>,
    /// The sorts of its `exit`, or none for `noexit`.
    pub func: Option<Vec<Named>>,
    /// The items before the behaviour, in text order.
    pub items: Vec<ItemText>,
    /// The behaviour.
    pub body: BehText,
    /// What `where` declares, in text order.
    pub inner: Vec<InnerText>,
}
