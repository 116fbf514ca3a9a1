//! Printing of processes and specifications.

use crate::behaviour_page::behaviour;
use crate::item_page::item;
use crate::page::{Page, names, variables};
use syntax_trees::{InnerText, ItemText, Named, ProcessText, SpecText, VarText};

/// Prints the formal gates, the formal parameters and the functionality: `{a@3} {x@6:S@8}
/// exit{S@12}`.
fn formals(page: &mut Page, gates: &[Named], params: &[VarText], func: &Option<Vec<Named>>) {
    page.text(" ");
    names(page, gates);
    page.text(" ");
    variables(page, params);
    match func {
        Some(sorts) => {
            page.text(" exit");
            names(page, sorts.as_slice())
        }
        None => page.text(" noexit"),
    }
}

/// Prints items, each behind a blank.
pub fn items(page: &mut Page, list: &[ItemText]) {
    for written in list {
        page.text(" ");
        item(page, written);
    }
}

/// Prints a process.
#[cycle(inner_page)]
fn process(page: &mut Page, written: &ProcessText) {
    page.text("(process");
    page.place(written.place);
    page.text(" ");
    page.name(&written.name);
    formals(
        page,
        written.gates.as_slice(),
        written.params.as_slice(),
        &written.func,
    );
    page.text(" ");
    behaviour(page, &written.body);
    for inner in written.inner.iter() {
        page.text(" ");
        declared(page, inner);
    }
    page.text(")");
}

/// Prints what a `where` declares.
#[cycle(inner_page)]
fn declared(page: &mut Page, written: &InnerText) {
    match written {
        InnerText::Item(inner) => item(page, inner),
        InnerText::Process(inner) => process(page, inner),
    }
}

/// Prints what a `where` declares, each behind a blank.
pub fn declarations(page: &mut Page, list: &[InnerText]) {
    for inner in list {
        page.text(" ");
        declared(page, inner);
    }
}

/// Prints a specification.
pub fn specification(page: &mut Page, written: &SpecText) {
    page.text("(specification");
    page.place(written.place);
    page.text(" ");
    page.name(&written.name);
    formals(
        page,
        written.gates.as_slice(),
        written.params.as_slice(),
        &written.func,
    );
    items(page, written.items.as_slice());
    page.text(" ");
    behaviour(page, &written.body);
    declarations(page, written.inner.as_slice());
    page.text(")");
}
