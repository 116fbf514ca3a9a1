//! What texts read as: their trees on a page.

use crate::behaviour_page::behaviour;
use crate::definition_page::{declarations, items, specification};
use crate::page::{NUMBER, Page};
use crate::term_page::{order_items, terms};
use lotos_base::{Name, Place};
use lotos_grammar::{read_order, read_spec, read_terms};
use std::alloc::{AllocError, Global};
use std::process::Abort;
use std::test::Fail;
use syntax_trees::{BehForm, BehText, ItemText, SpecText, discard};

/// What the text of a table is.
#[derive(Clone, Copy)]
pub enum Kind {
    /// A list of terms.
    Terms,
    /// An order file.
    Order,
    /// The types of a specification, which ends on the third line.
    Items,
    /// The behaviour of a specification, which ends on the third line.
    Behaviour,
    /// What the `where` of a specification declares; the specification ends on the third line.
    Where,
    /// A specification.
    Specification,
    /// A specification, of which the items are taken.
    Taken,
}

// What stands on the first line, and what on the third one.
fn frame(kind: Kind) -> (&'static str, &'static str) {
    match kind {
        Kind::Items => ("specification S : noexit\n", "\nbehaviour stop endspec"),
        Kind::Behaviour => ("specification S : noexit behaviour\n", "\nendspec"),
        Kind::Where => (
            "specification S : noexit behaviour stop where\n",
            "\nendspec",
        ),
        _ => ("\n", ""),
    }
}

// The text on its second line, in its frame.
fn framed(alloc: Global, kind: Kind, text: &str) -> Result<String, AllocError> {
    let (before, behind) = frame(kind);
    let mut whole = String::from_str(alloc, before)?;
    whole.push_str(text)?;
    whole.push_str(behind)?;
    Ok(whole)
}

// Prints the part of a specification that the text is.
fn part(alloc: Global, page: &mut Page, kind: Kind, spec: &mut SpecText) {
    match kind {
        Kind::Items => items(page, spec.items.as_slice()),
        Kind::Behaviour => behaviour(page, &spec.body),
        Kind::Where => declarations(page, spec.inner.as_slice()),
        Kind::Taken => print_taken(alloc, page, spec),
        _ => specification(page, spec),
    }
}

// Takes the items out of a specification, and prints them and what is left.
fn print_taken(alloc: Global, page: &mut Page, spec: &mut SpecText) {
    match spec.take_items(alloc) {
        Ok(list) => {
            items(page, list.as_slice());
            page.text(" left ");
            specification(page, spec);
            discard_items(alloc, list);
        }
        Err(_) => page.text("no memory"),
    }
}

// Drops items as those of a specification are dropped.
fn discard_items(alloc: Global, items: Vec<ItemText>) {
    let place = Place {
        text: NUMBER,
        line: 1,
        col: 1,
    };
    discard(SpecText {
        place,
        name: Name::of(Vec::new(alloc)),
        gates: Vec::new(alloc),
        params: Vec::new(alloc),
        func: None,
        items,
        body: BehText {
            place,
            form: BehForm::Stop,
        },
        inner: Vec::new(alloc),
    });
}

// Prints how the text of a specification reads.
fn print_specification(alloc: Global, page: &mut Page, kind: Kind, text: &[u8]) {
    match read_spec(alloc, text, NUMBER) {
        Ok(mut spec) => {
            part(alloc, page, kind, &mut spec);
            discard(spec);
        }
        Err(_) => page.text("not read"),
    }
}

/// Prints how a whole text reads. Lists of terms are to be short.
pub fn read_whole(alloc: Global, kind: Kind, text: &str) -> Page {
    let bytes = text.as_bytes();
    let mut page = Page::new(alloc);
    match kind {
        Kind::Terms if bytes.len() > 2_000_000 => page.text("too long for a test"),
        Kind::Terms => match read_terms(alloc, bytes, NUMBER) {
            Ok(list) => terms(&mut page, list.as_slice()),
            Err(_) => page.text("not read"),
        },
        Kind::Order => match read_order(alloc, bytes, NUMBER) {
            Ok(list) => order_items(&mut page, list.as_slice()),
            Err(_) => page.text("not read"),
        },
        _ => print_specification(alloc, &mut page, kind, bytes),
    }
    page
}

/// Whether each text of a table reads as the line behind it says. In lists what is printed begins
/// with a blank, which the line has not.
pub fn assert_trees(rt: &impl Abort, alloc: Global, kind: Kind, table: &str) -> Result<(), Fail> {
    let mut waiting: Option<String> = None;
    for line in table.split('\n') {
        match waiting.take() {
            None => waiting = Some(String::from_str(alloc, line)?),
            Some(text) => {
                let whole = framed(alloc, kind, text.as_str())?;
                let page = read_whole(alloc, kind, whole.as_str());
                assert_eq!(rt; page.bytes().trim_ascii(), line.as_bytes(), "{line}");
            }
        }
    }
    Ok(())
}
