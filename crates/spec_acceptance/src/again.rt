//! Accepted specifications whose texts are kept, and the same texts over other data.

ghost use Rattle.refusal_lines.specs.HandedOn.{IsSpecificationReading};
ghost use Rattle.sort_terms.specs.EquationView.{data_of};
ghost use Rattle.spec_acceptance.specs.Acceptance.{Acceptance, IsAccepted};
ghost use Rattle.spec_acceptance.specs.AcceptedView.{asked_acceptance};
ghost use Rattle.spec_acceptance.specs.Again.{BeginsOver, IsOverSame, KeepsAccepted, StandsOver};
ghost use Rattle.spec_acceptance.specs.Doing.{Failed};
ghost use Rattle.std.specs.Prelude.{[], ℕ, IfOk, List, MatchResult, None};
ghost use Rattle.syntax_trees.specs.TreeViews.{written_specification_of};
ghost use Rattle.syntax_trees.specs.WrittenDefinition.{WrittenSpecification};

use crate::accepted::Accepted;
use crate::files::file;
use crate::not_accepted::NotAccepted;
use behaviour_tree::{Spec, State};
use lotos_base::{NoMemory, Shelf};
use refusal_lines::read_spec;
use sort_terms::Flat;
use static_scope::resolve;
use std::alloc::Global;
use syntax_trees::{SpecText, discard};

/// An accepted specification with its text.
#[derive(Drop)]
pub struct WithText {
    /// The text.
    pub text: Vec<u8>,
    /// What is accepted.
    pub accepted: Accepted,
}

/// A specification with the state in which it begins.
#[derive(Drop)]
pub struct Begun {
    /// The specification.
    pub spec: Spec,
    /// The state.
    pub start: State,
}

/// Accepts the specification under the name, without an order file and without start values, as
/// [`Accepted::read`] does, and keeps its text.
pub fn read_with_text<F: Shelf>(
    alloc: Global,
    spec: &str,
    shelf: &mut F,
) -> Result<WithText, NotAccepted>
    ensures { MatchResult result
        (KeepsAccepted (F.state shelf.old) (F.state shelf.new)
        (asked_acceptance spec.now None []))
        (Failed (F.state shelf.old) (F.state shelf.new)
        (IsAccepted (asked_acceptance spec.now None []))) }
{
    let text = file(alloc, spec, shelf)?;
    let accepted = Accepted::of_text(alloc, text.as_slice(), None, &[], shelf)?;
    Ok(WithText { text, accepted })
}

/// The accepted specification with this text over other data, which are the same as its own up to
/// places, origins, spellings and names of variables: its terms have the operations of these data.
/// It is the same specification, and so is the state in which it begins.
pub fn over_data(alloc: Global, text: &[u8], flat: &Flat) -> Result<Begun, NoMemory>
    requires { (acceptance : Acceptance) × IsOverSame text.now flat.now acceptance }
    ensures { (acceptance : Acceptance) → IsOverSame text.now flat.now acceptance
        → IfOk result (BeginsOver (data_of flat.now).signature acceptance) }
{
    let spec = resolved_over(alloc, text, flat)?;
    let start = State::start(alloc, &spec, Vec::new(alloc))?;
    Ok(Begun { spec, start })
}

// The specification that the text stands for over the data. It was read before, and resolved over
// the same data, and so there is no fault in it.
fn resolved_over(alloc: Global, text: &[u8], flat: &Flat) -> Result<Spec, NoMemory>
    ensures { (tree : WrittenSpecification) → IsSpecificationReading 0 text.now tree
        → IfOk result (StandsOver flat.now tree) }
{
    match read_spec(alloc, text, 0) {
        Ok(tree) => resolved_tree(alloc, tree, flat),
        Err(_) => Err(NoMemory),
    }
}

// The specification of the tree.
fn resolved_tree(alloc: Global, tree: SpecText, flat: &Flat) -> Result<Spec, NoMemory>
    requires { (text : List ℕ) × IsSpecificationReading 0 text (written_specification_of tree) }
    ensures { IfOk result (StandsOver flat.now (written_specification_of tree)) }
{
    let mut tree = tree;
    let made = without_types(alloc, &mut tree, flat);
    discard(tree);
    made
}

// The same, whose types are taken out of it.
fn without_types(alloc: Global, tree: &mut SpecText, flat: &Flat) -> Result<Spec, NoMemory>
    requires { (text : List ℕ) × IsSpecificationReading 0 text (written_specification_of tree.old) }
    ensures { IfOk result (StandsOver flat.now (written_specification_of tree.old)) }
{
    tree.take_items(alloc)?;
    match resolve(alloc, tree, flat) {
        Ok(spec) => Ok(spec),
        Err(_) => Err(NoMemory),
    }
}
