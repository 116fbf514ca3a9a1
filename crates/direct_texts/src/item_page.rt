//! Printing of types and mentions of libraries.

use crate::page::{Page, names, variables};
use crate::term_page::{operation, term, test};
use lotos_base::Name;
use syntax_trees::{EqText, EqnsText, GroupText, ItemBody, ItemText, Named, OpText, PairText};

/// Prints an equation: `{@1 x@1 y@5}`, or with premisses `{@1 [@1 x@1] =>@3 y@6 z@10}`.
fn equation(page: &mut Page, written: &EqText) {
    page.text("{");
    page.place(written.place);
    for premiss in written.premisses.iter() {
        page.text(" ");
        test(page, premiss);
    }
    if let Some(arrow) = written.arrow {
        page.text(" =>");
        page.place(arrow);
    }
    page.text(" ");
    term(page, &written.left);
    page.text(" ");
    term(page, &written.right);
    page.text("}");
}

/// Prints a group: `(ofsort@8 S {variables} equations)`.
fn group(page: &mut Page, written: &GroupText) {
    page.text(" (ofsort");
    page.place(written.place);
    page.text(" ");
    page.name(&written.sort);
    page.text(" ");
    variables(page, written.variables.as_slice());
    for equal in written.equations.iter() {
        page.text(" ");
        equation(page, equal);
    }
    page.text(")");
}

/// Prints the variables and the groups of a section of equations, or nothing where there are none.
fn equations(page: &mut Page, word: &str, written: &EqnsText) {
    if written.variables.is_empty() && written.groups.is_empty() {
        return;
    }
    page.text(word);
    variables(page, written.variables.as_slice());
    for part in written.groups.iter() {
        group(page, part);
    }
}

/// Prints the names of a section, or nothing where there are none.
fn section(page: &mut Page, word: &str, list: &[Named]) {
    if list.is_empty() {
        return;
    }
    page.text(word);
    names(page, list);
}

/// Prints the operations of a section, each as `(f@3 A@5 B@8 -> C@12)`.
fn operations(page: &mut Page, word: &str, list: &[OpText]) {
    if !list.is_empty() {
        page.text(word);
    }
    for declared in list {
        page.text(" (");
        operation(page, &declared.name, declared.form);
        page.place(declared.place);
        for sort in declared.arguments.iter() {
            page.text(" ");
            page.placed(sort.0, &sort.1);
        }
        page.text(" -> ");
        page.placed(declared.result.0, &declared.result.1);
        page.text(")");
    }
}

/// Prints pairs as `{given@1/replaced@7 ..}`.
fn pairs(page: &mut Page, word: &str, list: &[PairText]) {
    page.text(word);
    page.text("{");
    let mut is_first = true;
    for pair in list {
        if !is_first {
            page.text(" ");
        }
        page.placed(pair.place, &pair.given);
        page.text("/");
        page.placed(pair.replaced.0, &pair.replaced.1);
        is_first = false;
    }
    page.text("}");
}

/// Prints the beginning of a type.
fn type_named(page: &mut Page, written: &ItemText, name: &Name) {
    page.text("(type");
    page.place(written.place);
    page.text(" ");
    page.name(name);
}

/// Prints the body of an extension.
fn extension(page: &mut Page, body: &ItemBody) {
    if let ItemBody::Extends {
        imports,
        formal_sorts,
        formal_ops,
        formal_equations,
        sorts,
        ops,
        equations: own,
        ..
    } = body
    {
        section(page, " ", imports.as_slice());
        section(page, " formalsorts", formal_sorts.as_slice());
        operations(page, " formalopns", formal_ops.as_slice());
        equations(page, " formaleqns", formal_equations);
        section(page, " sorts", sorts.as_slice());
        operations(page, " opns", ops.as_slice());
        equations(page, " eqns", own);
    }
}

/// Prints an item.
pub fn item(page: &mut Page, written: &ItemText) {
    match &written.body {
        ItemBody::Library(mentioned) => {
            page.text("(library");
            page.place(written.place);
            page.text(" ");
            names(page, mentioned.as_slice());
        }
        ItemBody::Extends { name, .. } => {
            type_named(page, written, name);
            extension(page, &written.body);
        }
        ItemBody::Renames {
            name,
            base,
            sort_pairs,
            op_pairs,
        } => {
            type_named(page, written, name);
            page.text(" renames ");
            page.placed(base.0, &base.1);
            pairs(page, " sortnames", sort_pairs.as_slice());
            pairs(page, " opnnames", op_pairs.as_slice());
        }
        ItemBody::Actualises {
            name,
            base,
            actuals,
            sort_pairs,
            op_pairs,
        } => {
            type_named(page, written, name);
            page.text(" actualises ");
            page.placed(base.0, &base.1);
            page.text(" ");
            names(page, actuals.as_slice());
            pairs(page, " sortnames", sort_pairs.as_slice());
            pairs(page, " opnnames", op_pairs.as_slice());
        }
    }
    page.text(")");
}
