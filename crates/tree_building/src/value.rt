//! What the parts of a derivation are built into.

ghost use Rattle.std.specs.Prelude.{◌≡◌, IfOk, None, Option, option_map};
ghost use Rattle.lotos_rows.specs.HandedOn.{from_last};
ghost use Rattle.tree_building.specs.Meaning.{Meaning};
ghost use Rattle.tree_building.specs.MeaningView.{meaning};
ghost use Rattle.tree_building.specs.Parts.{next_in};

use crate::behaviours_values::{ActionEnd, CallEnd, Flat, GateChoiceEnd, ValueChoiceEnd};
use crate::definitions_values::Heading;
use crate::equations_values::{AfterTerm, Conclusion};
use crate::names_values::{NamedOp, OpProfile};
use crate::renamings_values::BothPairs;
use crate::terms_values::StartedTerm;
use crate::types_values::{AfterBase, Sections, TypeBody};
use lotos_base::{OrderItem, Place, Written};
use std::alloc::{AllocError, Global};
use syntax_trees::{
    BehText, EqText, EqnsText, ExitText, GateText, GroupText, InnerText, ItemText, Named,
    OfferText, OpText, PairText, ProcessText, Sign, SpecText, TestText, VarText,
};

/// What a part of a derivation is built into. What is large is held behind a pointer, since each
/// row moves its parts.
#[derive(Drop)]
pub enum Value {
    /// A name.
    Name(Named),
    /// Names.
    Names(Vec<Named>),
    /// Variables.
    Variables(Vec<VarText>),
    /// An operation by name.
    Operation(NamedOp),
    /// Operations by name.
    NamedOperations(Vec<NamedOp>),
    /// The sorts of an operation.
    Profile(OpProfile),
    /// The sorts of an operation, or none.
    MaybeProfile(Option<OpProfile>),
    /// A name, or none.
    MaybeName(Option<Named>),
    /// A term, and the place of its first token.
    Term(StartedTerm),
    /// Factors, each with the operation before it.
    Factors(Vec<(Named, Written)>),
    /// Terms.
    Terms(Vec<Written>),
    /// Groups of equations.
    Groups(Vec<GroupText>),
    /// Equations.
    Equations(Vec<EqText>),
    /// An equation.
    Equation(Box<EqText>),
    /// The end of an equation with premisses.
    Conclusion(Conclusion),
    /// The end of an equation with premisses, or nothing.
    MaybeConclusion(Option<Conclusion>),
    /// What stands behind the first term of an equation.
    AfterTerm(Box<AfterTerm>),
    /// A premiss.
    Premiss(Box<TestText>),
    /// The right side of a premiss, or nothing.
    MaybeTerm(Option<Written>),
    /// Pairs.
    Pairs(Vec<PairText>),
    /// Pairs of sorts and pairs of operations.
    BothPairs(BothPairs),
    /// An item.
    Item(Box<ItemText>),
    /// Items.
    Items(Vec<ItemText>),
    /// The body of a type.
    Body(TypeBody),
    /// What stands behind the first name of a body.
    AfterBase(AfterBase),
    /// The sections of a type.
    Sections(Box<Sections>),
    /// Operations with their sorts.
    DeclaredOperations(Vec<OpText>),
    /// A section of equations.
    EquationSection(EqnsText),
    /// A flat list of operands and signs, or its tail.
    Operands(Flat),
    /// An action without its gate, before a flat list.
    Action(Box<ActionEnd>),
    /// A call without its name, before the tail of a flat list.
    Call(CallEnd),
    /// Offers.
    Offers(Vec<OfferText>),
    /// Values of `exit`.
    ExitValues(Vec<ExitText>),
    /// Declarations of a `let`.
    Lets(Vec<(VarText, Written)>),
    /// Gates that are declared.
    GateChoices(Vec<GateText>),
    /// A choice of values without its first names.
    ValueChoice(ValueChoiceEnd),
    /// A choice of gates without its first names.
    GateChoice(GateChoiceEnd),
    /// A behaviour.
    Behaviour(Box<BehText>),
    /// A sign.
    Sign((Place, Sign)),
    /// What stands before a body.
    Heading(Heading),
    /// A functionality.
    Functionality(Option<Vec<Named>>),
    /// What a `where` declares.
    Inner(Vec<InnerText>),
    /// A process.
    Process(Box<ProcessText>),
    /// A word without a value.
    Word(()),
    /// A specification.
    Specification(Box<SpecText>),
    /// Items of an order file.
    OrderItems(Vec<OrderItem>),
}

/// What one kind of part is built into.
pub trait Part: Sized + Drop {
    ghost Plain: { Type 0 };

    ghost plain: { Self → Plain };

    ghost found: { Meaning → Option Plain };

    /// The part that a value is, where it is of the kind.
    fn of(value: Value) -> Option<Self>
        ensures { option_map plain result ≡ found (meaning value) };
}

/// No part, where a value is of another kind. The value is dropped here, so that no match on a
/// value has to drop each kind.
pub fn of_another_kind<T>(_other: Value) -> Option<T>
    ensures { result ≡ None }
{
    None
}

/// Takes the next part, where it is of the kind.
#[tactic(auto, using(crate::proofs::FromLast::from_last_more, crate::proofs::FromLast::from_last_none))]
pub fn take<P: Part>(parts: &mut Vec<Value>) -> Option<P>
    ensures { option_map (λ x. (P.plain x, from_last meaning parts.new.items)) result
        ≡ next_in P.found (from_last meaning parts.old.items) }
{
    let value = parts.pop()?;
    P::of(value)
}

/// Puts a part behind a pointer.
pub fn held<T: Drop>(alloc: Global, part: T) -> Result<Box<T>, AllocError>
    ensures { IfOk result (λ held. held.value ≡ part) }
{
    Ok(Box::new(alloc, part)?)
}
