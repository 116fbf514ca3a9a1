//! The texts of entries and menus.

ghost use Rattle.event_offers.specs.EntryTrees.{are_counted, entries_among};
ghost use Rattle.event_offers.specs.HandedOn.{terms_of};
ghost use Rattle.event_offers.specs.OfferView.{conditions_of};
ghost use Rattle.event_offers.specs.Parts.{menu_entries};
ghost use Rattle.printed_texts.specs.MenuText.{for_text, if_text, sorted_text};
ghost use Rattle.printed_texts.specs.TextView.{
  written_condition,
  written_entry,
  written_line,
  written_lines,
  written_menu,
};
ghost use Rattle.sort_terms.specs.SignatureView.{signature_of};
ghost use Rattle.std.specs.Prelude.{◌≡◌, ◌++◌, ◌<◌, ◌+◌, ◌^◌, OnOk, length, true};

use crate::brackets::{push_number, push_separator, push_text};
use crate::labels::{push_label, push_value};
use crate::operations::push_sort;
use crate::terms::push_numbered;
use event_offers::{Entry, EntryTree, Menu};
use lotos_base::{Name, NoMemory};
use sort_terms::{Signature, Sorted};

// Appends a variable of an entry with its sort.
fn push_sorted(
    signature: &Signature,
    number: usize,
    sort: u32,
    into: &mut Vec<u8>,
) -> Result<(), NoMemory>
    ensures { OnOk result (into.new.items
        ≡ into.old.items ++ sorted_text (signature_of signature.now) number sort) }
{
    push_numbered(number as u64, into)?;
    push_text(into, b":")?;
    push_sort(signature, sort, into)
}

// Appends the variables of an entry with their sorts, if it has some.
fn push_variables(
    signature: &Signature,
    sorts: &Vec<u32>,
    into: &mut Vec<u8>,
) -> Result<(), NoMemory>
    ensures { OnOk result (into.new.items
        ≡ into.old.items ++ for_text (signature_of signature.now) sorts.now.items) }
{
    if sorts.is_empty() {
        return Ok(());
    }
    push_text(into, b" for ")?;
    for (number, sort) in sorts.iter().enumerate() {
        push_separator(into, number)?;
        push_sorted(signature, number, *sort, into)?;
    }
    Ok(())
}

// Appends a condition.
fn push_condition(
    signature: &Signature,
    condition: &(Sorted, Sorted),
    into: &mut Vec<u8>,
) -> Result<(), NoMemory>
    ensures { OnOk result (into.new.items
        ≡ into.old.items ++ written_condition signature.now condition.now) }
{
    push_value(signature, &condition.0, into)?;
    push_text(into, b" = ")?;
    push_value(signature, &condition.1, into)
}

// Appends the conditions of an entry, if it has some.
fn push_conditions(
    signature: &Signature,
    conditions: &Vec<(Sorted, Sorted)>,
    into: &mut Vec<u8>,
) -> Result<(), NoMemory>
    ensures { OnOk result (into.new.items ≡ into.old.items
        ++ if_text (signature_of signature.now) (conditions_of conditions.now.items)) }
{
    if conditions.is_empty() {
        return Ok(());
    }
    push_text(into, b" if ")?;
    for (index, condition) in conditions.iter().enumerate() {
        push_separator(into, index)?;
        push_condition(signature, condition, into)?;
    }
    Ok(())
}

// Appends an entry.
fn push_entry(
    signature: &Signature,
    gates: &[Name],
    entry: &Entry,
    into: &mut Vec<u8>,
) -> Result<(), NoMemory>
    ensures { OnOk result (into.new.items
        ≡ into.old.items ++ written_entry signature.now gates.now entry.now) }
{
    push_label(signature, gates, &entry.label, into)?;
    push_variables(signature, &entry.vars, into)?;
    push_conditions(signature, &entry.conditions, into)
}

// Appends the line of an entry with its number.
fn push_line(
    signature: &Signature,
    gates: &[Name],
    number: usize,
    entry: &Entry,
    into: &mut Vec<u8>,
) -> Result<(), NoMemory>
    ensures { OnOk result (into.new.items
        ≡ into.old.items ++ written_line signature.now gates.now number entry.now) }
{
    push_number(into, number as u128)?;
    push_text(into, b": ")?;
    push_entry(signature, gates, entry, into)?;
    push_text(into, b"\n")
}

// Appends a line for each entry of the list, behind so many lines of entries before them.
fn push_list(
    signature: &Signature,
    gates: &[Name],
    entries: &Vec<Entry>,
    before: usize,
    into: &mut Vec<u8>,
) -> Result<(), NoMemory>
    requires room { before + length entries.now.items < 2 ^ 64 }
    ensures { OnOk result (into.new.items ≡ into.old.items
        ++ written_lines signature.now gates.now (before + 1) entries.now.items) }
{
    for position in 0..entries.len() {
        let number = before + position + 1;
        push_line(signature, gates, number, &entries[position], into)?;
    }
    Ok(())
}

// Appends a line for each entry of the tree, behind so many lines of entries before them.
fn push_tree(
    signature: &Signature,
    gates: &[Name],
    tree: &EntryTree,
    before: usize,
    into: &mut Vec<u8>,
) -> Result<(), NoMemory>
    requires counted { are_counted tree.now ≡ true }
    requires room { before + length (entries_among tree.now) < 2 ^ 64 }
    ensures { OnOk result (into.new.items ≡ into.old.items
        ++ written_lines signature.now gates.now (before + 1) (entries_among tree.now)) }
{
    match tree {
        EntryTree::Leaf(entries) => push_list(signature, gates, entries, before, into),
        EntryTree::Joined(_, first, second) => {
            push_tree(signature, gates, first, before, into)?;
            push_tree(signature, gates, second, before + first.len(), into)
        }
    }
}

// Appends a line for each entry.
fn push_lines(
    signature: &Signature,
    gates: &[Name],
    menu: &Menu,
    into: &mut Vec<u8>,
) -> Result<(), NoMemory>
    requires room { length (menu_entries menu.now) < 2 ^ 64 }
    ensures { OnOk result (into.new.items
        ≡ into.old.items ++ written_lines signature.now gates.now 1 (menu_entries menu.now)) }
{
    match menu {
        Menu::Own(entries) => push_list(signature, gates, entries, 0, into),
        Menu::Shared(part) => push_tree(signature, gates, part.entries(), 0, into),
    }
}

/// Appends the text of a menu.
pub fn push_menu(
    signature: &Signature,
    gates: &[Name],
    menu: &Menu,
    into: &mut Vec<u8>,
) -> Result<(), NoMemory>
    ensures { OnOk result (into.new.items
        ≡ into.old.items ++ written_menu signature.now gates.now menu.now) }
{
    push_text(into, b"events ")?;
    push_number(into, menu.len() as u128)?;
    push_text(into, b"\n")?;
    push_lines(signature, gates, menu, into)
}
