//! Reading the texts.

ghost use Rattle.refusal_lines.specs.HandedOn.{
  IsOrderReadFault,
  IsSpecificationFault,
  IsSpecificationReading,
  TextIsMisread,
  gathered_of,
};
ghost use Rattle.spec_acceptance.specs.Doing.{Did, Failed, Faulty, IsLibraryRefusal};
ghost use Rattle.spec_acceptance.specs.Ending.{at_first, with_spec};
ghost use Rattle.spec_acceptance.specs.Known.{KnowsRanks, OrdersWith, ReadsItems, Resolved};
ghost use Rattle.spec_acceptance.specs.Part.{goes_on};
ghost use Rattle.spec_acceptance.specs.Texts.{GathersTypes, Orders, text_told};
ghost use Rattle.std.specs.Prelude.{MatchResult, map, option_map};
ghost use Rattle.syntax_trees.specs.TreeViews.{item_of, written_specification_of};

use crate::files::file;
use crate::not_accepted::NotAccepted;
use crate::refusals::{order_refusal, read_refusal};
use crate::stages::{WithOrder, WithRanks, refused_early};
use lotos_base::Shelf;
use refusal_lines::{Gathered, LibraryFault, SpecFault, gather_types, read_order, read_spec};
use std::alloc::Global;
use syntax_trees::{ItemText, SpecText};

/// Reads the specification.
pub fn specification(alloc: Global, text: &[u8]) -> Result<SpecText, NotAccepted>
    ensures { MatchResult result
        (λ tree. IsSpecificationReading 0 text.now (written_specification_of tree))
        (Faulty (TextIsMisread IsSpecificationFault 0 text.now) (text_told at_first 0)) }
{
    match read_spec(alloc, text, 0) {
        Ok(tree) => Ok(tree),
        Err(fault) => Err(read_refusal(Vec::new(alloc), 0, fault)),
    }
}

/// The types among the items, with those of the libraries in their place.
pub fn types_of<F: Shelf>(
    alloc: Global,
    items: Vec<ItemText>,
    shelf: &mut F,
) -> Result<Gathered, NotAccepted>
    ensures { MatchResult result
        (λ gathered. Did (F.state shelf.old) (F.state shelf.new)
        (GathersTypes (map item_of items.items)) (goes_on (gathered_of gathered)))
        (Failed (F.state shelf.old) (F.state shelf.new)
        (GathersTypes (map item_of items.items))) }
{
    let mut so_far = Gathered::new(alloc);
    match gather_types(alloc, items, &mut so_far, shelf) {
        Ok(()) => Ok(so_far),
        Err(fault) => Err(library_refusal(so_far, fault)),
    }
}

// What a fault of the libraries is, where so much was gathered.
fn library_refusal(so_far: Gathered, fault: LibraryFault) -> NotAccepted
    ensures { IsLibraryRefusal so_far fault result }
{
    let Gathered { libraries, .. } = so_far;
    match fault {
        LibraryFault::TooMany { place, name } => {
            NotAccepted::Spec(refused_early(libraries, SpecFault::Libraries { place, name }))
        }
        LibraryFault::Misread { text, fault } => {
            NotAccepted::Spec(refused_early(libraries, SpecFault::Read { text, fault }))
        }
        LibraryFault::Unread { file } => NotAccepted::File {
            name: file.into_bytes(),
        },
        LibraryFault::NoMemory => NotAccepted::NoMemory,
    }
}

/// The items of the order file, or none where there is no such file.
pub fn order_items<F: Shelf>(
    alloc: Global,
    order: Option<&str>,
    known: WithRanks,
    shelf: &mut F,
) -> Result<WithOrder, NotAccepted>
    ensures { (whole : Resolved) → KnowsRanks whole known → MatchResult result
        (λ made. OrdersWith whole
        (F.state shelf.old) (F.state shelf.new)
        (option_map (λ word. word.now) order.entry) made)
        (Failed (F.state shelf.old) (F.state shelf.new)
        (Orders (with_spec whole.read whole.data_ whole.spec)
        (option_map (λ word. word.now) order.entry))) }
{
    match order {
        None => Ok(WithOrder {
            known,
            items: Vec::new(alloc),
        }),
        Some(name) => {
            let text = file(alloc, name, shelf)?;
            read_items(alloc, text.as_slice(), known)
        }
    }
}

// Reads the order file.
fn read_items(alloc: Global, text: &[u8], known: WithRanks) -> Result<WithOrder, NotAccepted>
    ensures { (whole : Resolved) → KnowsRanks whole known → MatchResult result
        (λ made. ReadsItems whole text.now made)
        (Faulty (TextIsMisread IsOrderReadFault 1 text.now)
        (text_told (with_spec whole.read whole.data_ whole.spec) 1)) }
{
    match read_order(alloc, text, 1) {
        Ok(items) => Ok(WithOrder { known, items }),
        Err(fault) => Err(order_refusal(known.known, fault)),
    }
}
