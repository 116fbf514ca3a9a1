//! The texts of libraries: those that are shipped, and the files of the others.

ghost use Rattle.lotos_base.specs.Limits.{text_limit};
ghost use Rattle.lotos_base.specs.Name.{spelling};
ghost use Rattle.lotos_base.specs.WrittenView.{placed_name_of};
ghost use Rattle.lotos_grammar.specs.GatheredView.{gathered_of};
ghost use Rattle.lotos_grammar.specs.Gathering.{IsNextLibrary, library_file, with_library};
ghost use Rattle.lotos_grammar.specs.Progress.{FileFails, IsMentionReplaced, StopsBy, TextFails};
ghost use Rattle.lotos_grammar.specs.ShelfUse.{GivesFile};
ghost use Rattle.std.specs.Prelude.{◌≡◌, [], ◌+◌, ◌≤◌, length, map, IfOk, MatchResult};
ghost use Rattle.std.specs.String.{string_bytes};
ghost use Rattle.syntax_trees.specs.TreeViews.{item_of};
ghost use Rattle.text_depth.specs.HandedOn.{IsTypesReading};

use crate::faults::LibraryFault;
use crate::gathered::Gathered;
use crate::read_types;
use lotos_base::{GetFault, Name, Place, Shelf, TEXT_LIMIT};
use lotos_library::text_of;
use std::alloc::{AllocError, Global};
use syntax_trees::ItemText;
use text_depth::ReadFault;

/// How many texts of libraries are read at most.
pub const LIBRARY_LIMIT: usize = 64;

/// The number of the first text of a library: 0 is the specification, and 1 the order file.
pub const FIRST_LIBRARY: usize = 2;

/// The items of a library that was not read before, which counts as read from now on.
pub fn library_items<F: Shelf>(
    alloc: Global,
    place: Place,
    name: Name,
    so_far: &mut Gathered,
    shelf: &mut F,
) -> Result<Vec<ItemText>, LibraryFault>
    requires { IsNextLibrary (gathered_of so_far.old).read (spelling name) }
    ensures replaced { MatchResult result
        (λ items. IsMentionReplaced (F.state shelf.old) (F.state shelf.new)
        (gathered_of so_far.old) (placed_name_of (place, name)) (gathered_of so_far.new) (map
        item_of items.items))
        (StopsBy (F.state shelf.old) (F.state shelf.new)
        (gathered_of so_far.old) (placed_name_of (place, name)) (gathered_of so_far.new)) }
    ensures counted { IfOk result (λ _. length so_far.new.libraries.items ≡ length
        so_far.old.libraries.items + 1) }
    ensures grows { length so_far.old.libraries.items ≤ length so_far.new.libraries.items }
{
    let number = (FIRST_LIBRARY + so_far.libraries.len()) as u32;
    match text_of(&name) {
        Some(text) => {
            so_far.libraries.push(name)?;
            items_of(alloc, text, number)
        }
        None => {
            let text = file_text(alloc, &name, shelf)?;
            so_far.libraries.push(name)?;
            items_of(alloc, text.as_slice(), number)
        }
    }
}

// The text of the library's file.
fn file_text<F: Shelf>(alloc: Global, name: &Name, shelf: &mut F) -> Result<Vec<u8>, LibraryFault>
    ensures { MatchResult result
        (λ text. GivesFile (F.state shelf.old) (F.state shelf.new)
        (library_file (spelling name.now)) text.items)
        (FileFails (F.state shelf.old) (F.state shelf.new)
        (library_file (spelling name.now))) }
{
    let file = file_name(alloc, name)?;
    let mut text = Vec::new(alloc);
    match shelf.get(file.as_str(), TEXT_LIMIT + 1, &mut text) {
        Ok(()) => Ok(text),
        Err(GetFault::Missing) => Err(LibraryFault::Unread { file }),
        Err(GetFault::Failed) => Err(LibraryFault::Unread { file }),
        Err(GetFault::NoMemory) => Err(LibraryFault::NoMemory),
    }
}

// The name of the library's file.
fn file_name(alloc: Global, name: &Name) -> Result<String, AllocError>
    ensures { IfOk result (λ file. string_bytes file ≡ library_file (spelling name.now)) }
{
    let mut file = String::from_utf8_lossy(alloc, name.spelled())?;
    file.push_str(".lib")?;
    Ok(file)
}

// The items of a text of a library.
fn items_of(alloc: Global, text: &[u8], number: u32) -> Result<Vec<ItemText>, LibraryFault>
    ensures { MatchResult result (λ items. IsTypesReading number text.now (map item_of items.items))
        (TextFails number text.now) }
{
    match read_types(alloc, text, number) {
        Ok(items) => Ok(items),
        Err(ReadFault::NoMemory) => Err(LibraryFault::NoMemory),
        Err(fault) => Err(LibraryFault::Misread {
            text: number,
            fault,
        }),
    }
}
