//! The walk over the items of a text and of the libraries that they mention.

ghost use Rattle.std.specs.Prelude.{◌≡◌, [], ◌∷◌, ◌≤◌, length, map, MatchResult};
ghost use Rattle.lotos_base.specs.WrittenView.{placed_name_of};
ghost use Rattle.syntax_trees.specs.TreeViews.{item_of, placed_names_of};
ghost use Rattle.lotos_grammar.specs.Gathering.{item as item_waits, mention, nothing_yet};
ghost use Rattle.lotos_grammar.specs.GatheredView.{gathered_of};
ghost use Rattle.lotos_grammar.specs.Progress.{GatheringEndsBy, FailsBy, IsDone, IsGathered};

use crate::faults::LibraryFault;
use crate::gathered::Gathered;
use crate::texts::{LIBRARY_LIMIT, library_items};
use lotos_base::{Name, Place, Shelf};
use std::alloc::Global;
use syntax_trees::{ItemBody, ItemText, Named};

/// Gathers the types of a text, given by its items, with those of each library in place of its
/// first mention.
///
/// Libraries are read in the order of mention, those that a library mentions before the rest of
/// the text that mentions it. The
/// file of a library that is not shipped has its name, as it is spelled where it is mentioned
/// first, and `.lib` behind it.
/// Nothing else is got from the shelf, and no file twice.
///
/// Answers `TooMany` exactly at the mention of a 65th text, `Misread` exactly where a text is not
/// read, with its number and
/// fault, and `Unread` exactly where the shelf's count of faults rose or it lacks the file,
/// whichever comes first. After a
/// fault `so_far` has the libraries that were read, the faulty one among them. Where it is
/// `NoMemory`, the shelf gave the first ones of the files, once each, and was called once more at
/// most, for the one behind them.
pub fn gather_types<F: Shelf>(
    alloc: Global,
    items: Vec<ItemText>,
    so_far: &mut Gathered,
    shelf: &mut F,
) -> Result<(), LibraryFault>
    requires { gathered_of so_far.old ≡ nothing_yet }
    ensures { MatchResult result
        (λ _. IsGathered (F.state shelf.old) (F.state shelf.new)
        (map item_waits (map item_of items.items)) (gathered_of so_far.new))
        (FailsBy (F.state shelf.old) (F.state shelf.new)
        (map item_waits (map item_of items.items)) (gathered_of so_far.new)) }
{
    add_items(alloc, items, so_far, shelf)
}

// Adds the types among the items and in their libraries.
#[cycle(walk)]
fn add_items<F: Shelf>(
    alloc: Global,
    items: Vec<ItemText>,
    so_far: &mut Gathered,
    shelf: &mut F,
) -> Result<(), LibraryFault>
    ensures read { MatchResult result
        (λ _. IsDone (F.state shelf.old) (F.state shelf.new)
        (gathered_of so_far.old) (map item_waits (map item_of items.items)) (gathered_of
        so_far.new))
        (GatheringEndsBy (F.state shelf.old) (F.state shelf.new)
        (gathered_of so_far.old) (map item_waits (map item_of items.items)) (gathered_of
        so_far.new)) }
    ensures grows { length so_far.old.libraries.items ≤ length so_far.new.libraries.items }
{
    for item in items {
        add_item(alloc, item, so_far, shelf)?;
    }
    Ok(())
}

// Adds a type, or the types of the libraries that an item mentions.
#[cycle(walk)]
fn add_item<F: Shelf>(
    alloc: Global,
    item: ItemText,
    so_far: &mut Gathered,
    shelf: &mut F,
) -> Result<(), LibraryFault>
    ensures read { MatchResult result
        (λ _. IsDone (F.state shelf.old) (F.state shelf.new)
        (gathered_of so_far.old) (item_waits (item_of item) ∷ []) (gathered_of so_far.new))
        (GatheringEndsBy (F.state shelf.old) (F.state shelf.new)
        (gathered_of so_far.old) (item_waits (item_of item) ∷ []) (gathered_of so_far.new)) }
    ensures grows { length so_far.old.libraries.items ≤ length so_far.new.libraries.items }
{
    let ItemText { place, body } = item;
    match body {
        ItemBody::Library(names) => add_libraries(alloc, names, so_far, shelf),
        body => {
            so_far.types.push(ItemText { place, body })?;
            Ok(())
        }
    }
}

// Adds the types of the libraries that one item mentions.
#[cycle(walk)]
fn add_libraries<F: Shelf>(
    alloc: Global,
    names: Vec<Named>,
    so_far: &mut Gathered,
    shelf: &mut F,
) -> Result<(), LibraryFault>
    ensures read { MatchResult result
        (λ _. IsDone (F.state shelf.old) (F.state shelf.new)
        (gathered_of so_far.old) (map mention (placed_names_of names.items)) (gathered_of
        so_far.new))
        (GatheringEndsBy (F.state shelf.old) (F.state shelf.new)
        (gathered_of so_far.old) (map mention (placed_names_of names.items)) (gathered_of
        so_far.new)) }
    ensures grows { length so_far.old.libraries.items ≤ length so_far.new.libraries.items }
{
    for (place, name) in names {
        add_library(alloc, place, name, so_far, shelf)?;
    }
    Ok(())
}

// Adds the types of a library, and of those that it mentions, if it was not read before.
#[cycle(walk)]
fn add_library<F: Shelf>(
    alloc: Global,
    place: Place,
    name: Name,
    so_far: &mut Gathered,
    shelf: &mut F,
) -> Result<(), LibraryFault>
    ensures read { MatchResult result
        (λ _. IsDone (F.state shelf.old) (F.state shelf.new)
        (gathered_of so_far.old) (mention (placed_name_of (place, name)) ∷ []) (gathered_of
        so_far.new))
        (GatheringEndsBy (F.state shelf.old) (F.state shelf.new)
        (gathered_of so_far.old) (mention (placed_name_of (place, name)) ∷ []) (gathered_of
        so_far.new)) }
    ensures grows { length so_far.old.libraries.items ≤ length so_far.new.libraries.items }
{
    if so_far.has(&name) {
        return Ok(());
    }
    if so_far.libraries.len() >= LIBRARY_LIMIT {
        return Err(LibraryFault::TooMany { place, name });
    }
    let items = library_items(alloc, place, name, so_far, shelf)?;
    add_items(alloc, items, so_far, shelf)
}
