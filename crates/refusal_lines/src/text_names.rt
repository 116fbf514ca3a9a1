//! The names of texts, and places in them.

ghost use Rattle.lotos_base.specs.Name.{spelling};
ghost use Rattle.lotos_base.specs.WrittenView.{text_place_of};
ghost use Rattle.refusal_lines.specs.LineView.{names_of};
ghost use Rattle.refusal_lines.specs.TextNames.{
  at_text,
  library_at,
  library_name,
  place_text,
  text_name,
};
ghost use Rattle.lotos_grammar.specs.Gathering.{library_file};
ghost use Rattle.std.specs.Option.{option_map};
ghost use Rattle.std.specs.Prelude.{◌≡◌, ◌++◌, OnOk, map, slice_get};

use lotos_base::{Name, NoMemory, Place};
use lotos_library::text_of;
use printed_texts::brackets::{push_number, push_text};

/// The number of the text that the words behind `with` are.
pub const START_WORDS: u32 = 66;

/// What texts are named by: the words for the specification and the order file, and the libraries
/// that were read, in the order of the numbers of their texts from 2 on.
#[derive(Clone, Copy)]
pub struct TextNames<'a> {
    /// The word for the specification.
    pub spec: &'a str,
    /// The word for the order file; nothing where there is none.
    pub order: &'a str,
    /// The libraries.
    pub libraries: &'a [Name],
}

/// Appends a place behind ` at `, if there is one.
pub fn push_at(names: &TextNames, place: Option<Place>, into: &mut Vec<u8>) -> Result<(), NoMemory>
    ensures { OnOk result (into.new.items
        ≡ into.old.items ++ at_text (names_of names.now) (option_map text_place_of place)) }
{
    match place {
        None => Ok(()),
        Some(place) => {
            push_text(into, b" at ")?;
            push_place(names, place, into)
        }
    }
}

/// Appends a place: the name of its text, its line and its column.
pub fn push_place(names: &TextNames, place: Place, into: &mut Vec<u8>) -> Result<(), NoMemory>
    ensures { OnOk result (into.new.items
        ≡ into.old.items ++ place_text (names_of names.now) (text_place_of place)) }
{
    push_text_name(names, place.text, into)?;
    push_text(into, b":")?;
    push_number(into, place.line as u128)?;
    push_text(into, b":")?;
    push_number(into, place.col as u128)
}

// Appends the name of the text with the number.
fn push_text_name(names: &TextNames, text: u32, into: &mut Vec<u8>) -> Result<(), NoMemory>
    ensures { OnOk result (into.new.items
        ≡ into.old.items ++ text_name (names_of names.now) text) }
{
    if text == 0 {
        return push_text(into, names.spec.as_bytes());
    }
    if text == 1 {
        return push_text(into, names.order.as_bytes());
    }
    if text == START_WORDS {
        return push_text(into, b"with");
    }
    push_library(names.libraries, text as usize - 2, into)
}

// Appends the library at the position, if there is one.
fn push_library(libraries: &[Name], position: usize, into: &mut Vec<u8>) -> Result<(), NoMemory>
    ensures { OnOk result (into.new.items
        ≡ into.old.items ++ library_at (slice_get (map spelling libraries.now) position)) }
{
    match libraries.get(position) {
        None => Ok(()),
        Some(name) => push_library_name(name, into),
    }
}

// Appends what a library is named by: its file, or its name where it is shipped.
fn push_library_name(name: &Name, into: &mut Vec<u8>) -> Result<(), NoMemory>
    ensures { OnOk result (into.new.items
        ≡ into.old.items ++ library_name (spelling name.now)) }
{
    match text_of(name) {
        None => push_file(name, into),
        Some(_) => {
            push_text(into, b"library ")?;
            push_text(into, name.spelled())
        }
    }
}

// Appends the name of a library's file.
fn push_file(name: &Name, into: &mut Vec<u8>) -> Result<(), NoMemory>
    ensures { OnOk result (into.new.items ≡ into.old.items ++ library_file (spelling name.now)) }
{
    let file = String::from_utf8_lossy(*into.allocator(), name.spelled())?;
    push_text(into, file.as_bytes())?;
    push_text(into, b".lib")
}
