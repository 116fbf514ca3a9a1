//! Accepted specifications with what the actualisations of their types require.

ghost use Rattle.lotos_base.specs.Name.{spelling};
ghost use Rattle.refusal_lines.specs.HandedOn.{
  IsSpecificationReading,
  gathered_of,
};
ghost use Rattle.sort_terms.specs.EquationView.{data_of};
ghost use Rattle.spec_acceptance.specs.Acceptance.{AcceptsText, FoundedBy, Founds, IsAccepted};
ghost use Rattle.spec_acceptance.specs.AcceptedView.{asked_acceptance};
ghost use Rattle.spec_acceptance.specs.Doing.{Failed, Faulty};
ghost use Rattle.spec_acceptance.specs.Known.{KnowsData};
ghost use Rattle.spec_acceptance.specs.Required.{
  AcceptsRequiring,
  HoldsRequired,
  KeepsRequirements,
  RequiresWith,
};
ghost use Rattle.spec_acceptance.specs.Types.{HaveData, HaveFault, types_told};
ghost use Rattle.std.specs.Prelude.{◌≡◌, [], ℕ, IfOk, List, MatchResult, None, OnOk, map};
ghost use Rattle.syntax_trees.specs.TreeViews.{item_of, written_specification_of};
ghost use Rattle.type_definitions.specs.DeclaredTypes.{types_of as declared_types_of};

use crate::accepted::Accepted;
use crate::books::{WithBook, opened};
use crate::definitions::{agreed, ranked, resolved};
use crate::files::file;
use crate::not_accepted::NotAccepted;
use crate::refusals::types_refusal;
use crate::stages::WithData;
use crate::starts::{started, valued};
use crate::texts::{order_items, specification, types_of};
use lotos_base::{Name, NoMemory, Shelf};
use refusal_lines::Gathered;
use sort_terms::Equation;
use std::alloc::Global;
use syntax_trees::{ItemText, SpecText, discard};
use type_flatten::{flatten, requirements};

/// What the actualisations of a specification require, and the libraries by which its texts are
/// named.
#[derive(Drop)]
pub struct Required {
    /// The libraries, in the order of the numbers of their texts.
    pub libraries: Vec<Name>,
    /// The images of the formal equations, each at its own place.
    pub equations: Vec<Equation>,
}

/// An accepted specification with its requirements.
#[derive(Drop)]
pub struct WithRequirements {
    /// What is accepted.
    pub accepted: Accepted,
    /// What is required.
    pub required: Required,
}

/// Accepts the specification under the name, without an order file and without start values, as
/// [`Accepted::read`] does, and keeps what the actualisations of its types require.
pub fn read_with_requirements<F: Shelf>(
    alloc: Global,
    spec: &str,
    shelf: &mut F,
) -> Result<WithRequirements, NotAccepted>
    ensures { MatchResult result
        (KeepsRequirements
        (F.state shelf.old) (F.state shelf.new)
        (asked_acceptance spec.now None []))
        (Failed (F.state shelf.old) (F.state shelf.new)
        (IsAccepted (asked_acceptance spec.now None []))) }
{
    let mut required = Required {
        libraries: Vec::new(alloc),
        equations: Vec::new(alloc),
    };
    let accepted = accepted_requiring(alloc, spec, shelf, &mut required)?;
    Ok(WithRequirements { accepted, required })
}

// The same, where the requirements are kept beside it.
fn accepted_requiring<F: Shelf>(
    alloc: Global,
    spec: &str,
    shelf: &mut F,
    required: &mut Required,
) -> Result<Accepted, NotAccepted>
    ensures { MatchResult result
        (λ accepted. AcceptsRequiring
        (F.state shelf.old) (F.state shelf.new)
        (IsAccepted (asked_acceptance spec.now None [])) accepted required.new)
        (Failed (F.state shelf.old) (F.state shelf.new)
        (IsAccepted (asked_acceptance spec.now None []))) }
{
    let text = file(alloc, spec, shelf)?;
    text_requiring(alloc, text.as_slice(), shelf, required)
}

// The same of the text.
fn text_requiring<F: Shelf>(
    alloc: Global,
    text: &[u8],
    shelf: &mut F,
    required: &mut Required,
) -> Result<Accepted, NotAccepted>
    ensures { MatchResult result
        (λ accepted. AcceptsRequiring
        (F.state shelf.old) (F.state shelf.new)
        (AcceptsText text.now None []) accepted required.new)
        (Failed (F.state shelf.old) (F.state shelf.new)
        (AcceptsText text.now None [])) }
{
    let known = founded_requiring(alloc, text, shelf, required)?;
    let whole = valued(alloc, &[], known)?;
    started(alloc, whole)
}

// The same up to the book.
fn founded_requiring<F: Shelf>(
    alloc: Global,
    text: &[u8],
    shelf: &mut F,
    required: &mut Required,
) -> Result<WithBook, NotAccepted>
    ensures { MatchResult result
        (λ made. RequiresWith
        (F.state shelf.old) (F.state shelf.new)
        (Founds text.now None) made required.new)
        (Failed (F.state shelf.old) (F.state shelf.new)
        (Founds text.now None)) }
{
    let mut tree = specification(alloc, text)?;
    let known = tree_requiring(alloc, &mut tree, shelf, required);
    discard(tree);
    known
}

// The same of the tree, whose types are taken out of it.
fn tree_requiring<F: Shelf>(
    alloc: Global,
    tree: &mut SpecText,
    shelf: &mut F,
    required: &mut Required,
) -> Result<WithBook, NotAccepted>
    requires { (text : List ℕ) × IsSpecificationReading 0 text (written_specification_of tree.old) }
    ensures { MatchResult result
        (λ made. RequiresWith
        (F.state shelf.old) (F.state shelf.new)
        (FoundedBy None (written_specification_of tree.old)) made required.new)
        (Failed (F.state shelf.old) (F.state shelf.new)
        (FoundedBy None (written_specification_of tree.old))) }
{
    let items = tree.take_items(alloc)?;
    let gathered = types_of(alloc, items, shelf)?;
    let flattened = data_requiring(alloc, gathered, required)?;
    let stood = resolved(alloc, tree, flattened)?;
    let checked = agreed(alloc, stood)?;
    let guarded = ranked(alloc, checked)?;
    let ordered = order_items(alloc, None, guarded, shelf)?;
    opened(ordered)
}

// The data of the types, whose requirements are kept.
fn data_requiring(
    alloc: Global,
    gathered: Gathered,
    required: &mut Required,
) -> Result<WithData, NotAccepted>
    ensures known { MatchResult result
        (λ known. KnowsData (gathered_of gathered).read (data_of known.flat) known
        × HaveData (declared_types_of (gathered_of gathered).types) (data_of known.flat))
        (Faulty (HaveFault (declared_types_of (gathered_of gathered).types))
        (types_told (gathered_of gathered).read)) }
    ensures required { IfOk result (λ _. HoldsRequired
        (declared_types_of (gathered_of gathered).types) (gathered_of gathered).read required.new) }
{
    let Gathered { libraries, types } = gathered;
    match flatten(alloc, types.as_slice()) {
        Ok(flat) => {
            require(alloc, libraries.as_slice(), types.as_slice(), required)?;
            Ok(WithData { libraries, flat })
        }
        Err(fault) => Err(types_refusal(libraries, fault)),
    }
}

// Keeps the libraries and the requirements of the types.
fn require(
    alloc: Global,
    libraries: &[Name],
    types: &[ItemText],
    required: &mut Required,
) -> Result<(), NoMemory>
    ensures { OnOk result (HoldsRequired (declared_types_of (map item_of types.now))
        (map spelling libraries.now) required.new) }
{
    required.libraries = name_copies(alloc, libraries)?;
    required.equations = requirements(alloc, types)?;
    Ok(())
}

// The same names.
fn name_copies(alloc: Global, names: &[Name]) -> Result<Vec<Name>, NoMemory>
    ensures { IfOk result (λ made. map spelling made.items ≡ map spelling names.now) }
{
    let mut made = Vec::with_capacity(alloc, names.len())?;
    for name in names {
        made.push(name.copy(alloc)?)?;
    }
    Ok(made)
}
