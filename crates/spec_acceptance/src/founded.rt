//! A specification up to the book of its data.

ghost use Rattle.refusal_lines.specs.HandedOn.{IsSpecificationReading};
ghost use Rattle.spec_acceptance.specs.Acceptance.{FoundedBy, Founds, IsFounded};
ghost use Rattle.spec_acceptance.specs.Doing.{Failed};
ghost use Rattle.spec_acceptance.specs.Known.{FoundsWith};
ghost use Rattle.std.specs.Prelude.{ℕ, List, MatchResult, option_map};
ghost use Rattle.syntax_trees.specs.TreeViews.{written_specification_of};

use crate::books::{WithBook, opened};
use crate::definitions::{agreed, ranked, resolved};
use crate::files::file;
use crate::not_accepted::NotAccepted;
use crate::texts::{order_items, specification, types_of};
use crate::types::data;
use lotos_base::Shelf;
use std::alloc::Global;
use syntax_trees::{SpecText, discard};

/// What is known of the specification with this text up to the book of its data, with the order
/// file under the name `order`. It gets the files of the libraries that the text mentions and the
/// order file, once each and in this order, and nothing else.
pub fn founded<F: Shelf>(
    alloc: Global,
    text: &[u8],
    order: Option<&str>,
    shelf: &mut F,
) -> Result<WithBook, NotAccepted>
    ensures { MatchResult result
        (FoundsWith (F.state shelf.old) (F.state shelf.new)
        (Founds text.now (option_map (λ word. word.now) order.entry)))
        (Failed (F.state shelf.old) (F.state shelf.new)
        (Founds text.now (option_map (λ word. word.now) order.entry))) }
{
    let mut tree = specification(alloc, text)?;
    let known = with_book(alloc, &mut tree, order, shelf);
    discard(tree);
    known
}

/// The same of the specification under the name `spec`, whatever start values its parameters get.
/// It gets the specification before the other files.
pub fn founded_under<F: Shelf>(
    alloc: Global,
    spec: &str,
    order: Option<&str>,
    shelf: &mut F,
) -> Result<WithBook, NotAccepted>
    ensures { MatchResult result
        (FoundsWith (F.state shelf.old) (F.state shelf.new)
        (IsFounded spec.now (option_map (λ word. word.now) order.entry)))
        (Failed (F.state shelf.old) (F.state shelf.new)
        (IsFounded spec.now (option_map (λ word. word.now) order.entry))) }
{
    let text = file(alloc, spec, shelf)?;
    founded(alloc, text.as_slice(), order, shelf)
}

// The specification of the tree, whose types are taken out of it, with its book.
fn with_book<F: Shelf>(
    alloc: Global,
    tree: &mut SpecText,
    order: Option<&str>,
    shelf: &mut F,
) -> Result<WithBook, NotAccepted>
    requires { (text : List ℕ) × IsSpecificationReading 0 text (written_specification_of tree.old) }
    ensures { MatchResult result
        (FoundsWith (F.state shelf.old) (F.state shelf.new)
        (FoundedBy (option_map (λ word. word.now) order.entry) (written_specification_of tree.old)))
        (Failed (F.state shelf.old) (F.state shelf.new)
        (FoundedBy (option_map (λ word. word.now) order.entry)
        (written_specification_of tree.old))) }
{
    let items = tree.take_items(alloc)?;
    let gathered = types_of(alloc, items, shelf)?;
    let flattened = data(alloc, gathered)?;
    let stood = resolved(alloc, tree, flattened)?;
    let checked = agreed(alloc, stood)?;
    let guarded = ranked(alloc, checked)?;
    let ordered = order_items(alloc, order, guarded, shelf)?;
    opened(ordered)
}
