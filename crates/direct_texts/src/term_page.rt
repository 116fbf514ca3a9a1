//! Printing of terms, premisses and the items of an order file.

use crate::page::Page;
use lotos_base::{Form, Name, OrderItem, Written};
use syntax_trees::TestText;

/// Prints a term: `x@1`, `(f@1 x@3)` or, where the operation is infix, `<+@3 x@1 y@5>`; then `:S@8`
/// for each `of S`.
pub fn term(page: &mut Page, written: &Written) {
    let (open, close) = brackets(written);
    page.text(open);
    page.placed(written.place, &written.name);
    for argument in written.args.iter() {
        page.text(" ");
        term(page, argument);
    }
    page.text(close);
    for sort in written.sorts.iter() {
        page.text(":");
        page.placed(sort.0, &sort.1);
    }
}

fn brackets(written: &Written) -> (&'static str, &'static str) {
    match written.form {
        Form::Infix => ("<", ">"),
        Form::Prefix if written.args.is_empty() => ("", ""),
        Form::Prefix => ("(", ")"),
    }
}

/// Prints terms, each behind a blank.
pub fn terms(page: &mut Page, list: &[Written]) {
    for written in list {
        page.text(" ");
        term(page, written);
    }
}

/// Prints a premiss: `[@1 x@1]` or `[@1 x@1 y@5]`.
pub fn test(page: &mut Page, premiss: &TestText) {
    page.text("[");
    page.place(premiss.place);
    page.text(" ");
    term(page, &premiss.left);
    if let Some(right) = &premiss.right {
        page.text(" ");
        term(page, right);
    }
    page.text("]");
}

/// Prints the name of an operation, with underscores where it is infix.
pub fn operation(page: &mut Page, name: &Name, form: Form) {
    let mark = match form {
        Form::Infix => "_",
        Form::Prefix => "",
    };
    page.text(mark);
    page.name(name);
    page.text(mark);
}

/// Prints an item of an order file: `f@1`, or `f@1(A B -> C)` with its profile; with a status
/// `f@1/right@3`.
fn order_item(page: &mut Page, item: &OrderItem) {
    operation(page, &item.name, item.form);
    page.place(item.place);
    if let Some(profile) = &item.profile {
        page.text("(");
        for sort in profile.arguments.iter() {
            page.name(sort);
            page.text(" ");
        }
        page.text("-> ");
        page.name(&profile.result);
        page.text(")");
    }
    if let Some(status) = &item.status {
        page.text("/");
        page.placed(status.0, &status.1);
    }
}

/// Prints the items of an order file, each behind a blank.
pub fn order_items(page: &mut Page, list: &[OrderItem]) {
    for listed in list {
        page.text(" ");
        order_item(page, listed);
    }
}
