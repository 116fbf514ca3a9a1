//! The instances of an entry of the menu, in answer to a line.

ghost use Rattle.behaviour_semantics.specs.Solving as solving;
ghost use Rattle.value_lists.specs.ListOutcome.{InstancesComeTo};
ghost use Rattle.value_lists.specs.ListText.{instances_text};
ghost use Rattle.value_lists.specs.ListView.{AddsList};
ghost use Rattle.session_log.specs.CourseView.{basis_over};
ghost use Rattle.session_log.specs.Entries.{IsEntryAt};
ghost use Rattle.session_log.specs.HandedOn.{
  IsEntryOf,
  book_canon,
  entries_in,
  entry_numbered,
  plain_entry,
  specification_of,
};
ghost use Rattle.session_log.specs.Kept.{IsKeptMenu};
ghost use Rattle.sort_terms.specs.EquationView.{data_of};
ghost use Rattle.sort_terms.specs.SignatureView.{signature_of};
ghost use Rattle.std.specs.Prelude.{◌≡◌, ℕ, List, MatchOption, None, OnOk, Some};

use lotos_base::NoMemory;
use session_log::{Book, Entry, Menu, Spec, push_text};
use sort_terms::Signature;
use value_lists::refusals::push_no_entry;
use value_lists::{ListFault, push_instance_list, values_of_each};

/// Appends the instances of the entry with this number by values with at most `size` operations,
/// each in the form of the line of a step, behind how many they are. The line is refused as
/// `NoEntry` where the menu has no such entry; then, if the entry has a variable, as
/// `TooManyValues` where over all sorts there are more than 2,000 values of that size; and then as
/// `TooManyInstances` where there are more than 100,000 ways to choose a value for each variable.
pub fn push_instances(
    signature: &Signature,
    spec: &Spec,
    book: &mut Book,
    menu: &Menu,
    number: u64,
    size: u32,
    into: &mut Vec<u8>,
) -> Result<(), NoMemory>
    requires shown { signature_of signature.now ≡ (data_of book.old.flat).signature }
    requires menu { IsKeptMenu (data_of book.old.flat).signature menu.now }
    ensures added { OnOk result (AddsList (InstancesComeTo
        (basis_over (data_of book.old.flat) (book_canon book.old) spec.now) (entries_in menu.now)
        number size)
        (instances_text (basis_over (data_of book.old.flat) (book_canon book.old) spec.now) number)
        into.old.items into.new.items) }
    ensures same_data { data_of book.new.flat ≡ data_of book.old.flat }
    ensures same_canon { book_canon book.new ≡ book_canon book.old }
{
    match entry_at(menu, number) {
        None => push_no_entry(number, menu.len(), into),
        Some(entry) => push_instances_of(signature, spec, book, entry, number, size, into),
    }
}

// The entry with this number from 1.
#[tactic(auto, using(crate::proofs::ListingLemmas::none_at, crate::proofs::ListingLemmas::none_past, crate::proofs::ListingLemmas::none_there, session_log::proofs::EntryLemmas::found_at))]
fn entry_at(menu: &Menu, number: u64) -> Option<&Entry>
    ensures { MatchOption result (entry_numbered (entries_in menu.now) number ≡ None)
        (λ entry. IsEntryAt menu.now number entry.now) }
{
    if number == 0 {
        return None;
    }
    if number > menu.len() as u64 {
        return None;
    }
    match menu.entry(number as usize - 1) {
        None => None,
        Some(entry) => Some(entry),
    }
}

// Appends the instances of the entry, or why there is no list of them; for each menu in which it
// has this number.
fn push_instances_of(
    signature: &Signature,
    spec: &Spec,
    book: &mut Book,
    entry: &Entry,
    number: u64,
    size: u32,
    into: &mut Vec<u8>,
) -> Result<(), NoMemory>
    requires shown { signature_of signature.now ≡ (data_of book.old.flat).signature }
    requires over { IsEntryOf (data_of book.old.flat).signature entry.now }
    ensures added { (menu : List solving.Entry)
        → entry_numbered menu number ≡ Some (plain_entry entry.now) → OnOk result (AddsList
        (InstancesComeTo (basis_over (data_of book.old.flat) (book_canon book.old) spec.now) menu
        number size)
        (instances_text (basis_over (data_of book.old.flat) (book_canon book.old) spec.now) number)
        into.old.items into.new.items) }
    ensures same_data { data_of book.new.flat ≡ data_of book.old.flat }
    ensures same_canon { book_canon book.new ≡ book_canon book.old }
{
    match values_of_each(
        *into.allocator(),
        signature,
        book.rules(),
        &entry.vars,
        size,
    ) {
        Ok(choices) => push_instance_list(
            signature,
            spec.gate_names.as_slice(),
            entry,
            number,
            choices.as_slice(),
            book,
            into,
        ),
        Err(ListFault::TooManyValues) => push_text(into, b"refused 815 TooManyValues\n"),
        Err(ListFault::TooManyInstances) => unreachable!(),
        Err(ListFault::NoMemory) => Err(NoMemory),
    }
}
