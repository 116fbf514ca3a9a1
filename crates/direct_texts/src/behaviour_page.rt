//! Printing of behaviours.

use crate::page::{Page, names, variable, variables};
use crate::term_page::{term, terms, test};
use lotos_base::{Name, Written};
use syntax_trees::{
    BehForm, BehText, ExitText, GateText, Named, OfferText, Sign, TestText, VarText,
};

/// Prints a sign: `|||`, `|[{a@3}]|`, `>>{x@5:S@7}`.
fn sign(page: &mut Page, written: &Sign) {
    match written {
        Sign::Choice => page.text("[]"),
        Sign::Interleave => page.text("|||"),
        Sign::Full => page.text("||"),
        Sign::Gates(gates) => {
            page.text("|[");
            names(page, gates.as_slice());
            page.text("]|")
        }
        Sign::Disable => page.text("[>"),
        Sign::Enable(accepted) => {
            page.text(">>");
            variables(page, accepted.as_slice())
        }
    }
}

/// Prints the values of an `exit`, each behind a blank: `x@6`, `any:S@10`.
fn exit_values(page: &mut Page, values: &[ExitText]) {
    for value in values {
        page.text(" ");
        match value {
            ExitText::Give(written) => term(page, written),
            ExitText::Any(sort) => {
                page.text("any:");
                page.placed(sort.0, &sort.1);
            }
        }
    }
}

/// Prints what is behind the word of a call: the process, its gates and its values.
fn call(page: &mut Page, name: &Name, gates: &[Named], values: &[Written]) {
    page.text(" ");
    page.name(name);
    page.text(" ");
    names(page, gates);
    terms(page, values);
}

/// Prints offers, each behind a blank: `!x@4`, `?x@6:S@8`.
fn offers(page: &mut Page, list: &[OfferText]) {
    for offer in list {
        match offer {
            OfferText::Give(written) => {
                page.text(" !");
                term(page, written);
            }
            OfferText::Ask(asked) => {
                page.text(" ?");
                variable(page, asked);
            }
        }
    }
}

/// Prints a selection predicate behind a blank, where there is one.
fn predicate(page: &mut Page, selected: &Option<TestText>) {
    if let Some(premiss) = selected {
        page.text(" ");
        test(page, premiss);
    }
}

/// Prints declared gates, each behind a blank: `g@8{a@14 b@17}`.
fn gates(page: &mut Page, list: &[GateText]) {
    for declared in list {
        page.text(" ");
        page.placed(declared.place, &declared.name);
        names(page, declared.among.as_slice());
    }
}

/// Prints bound variables, each behind a blank: `x@5:S@7=y@11`.
fn bindings(page: &mut Page, list: &[(VarText, Written)]) {
    for bound in list {
        page.text(" ");
        variable(page, &bound.0);
        page.text("=");
        term(page, &bound.1);
    }
}

/// The word of a form; a binary one has its sign instead.
fn word(form: &BehForm) -> &'static str {
    match form {
        BehForm::Stop => "stop",
        BehForm::Exit(_) => "exit",
        BehForm::Call { .. } => "call",
        BehForm::Action { .. } => "act",
        BehForm::Inner(_) => "i",
        BehForm::Guard(..) => "guard",
        BehForm::Hide(..) => "hide",
        BehForm::Let(..) => "let",
        BehForm::ChooseValue(..) => "choice",
        BehForm::ChooseGate(..) => "choice",
        BehForm::ParGate(..) => "par",
        BehForm::Binary(..) => "",
    }
}

/// Prints what a form has before the behaviours in it.
fn head(page: &mut Page, written: &BehText) {
    page.text(word(&written.form));
    if let BehForm::Binary(between, ..) = &written.form {
        sign(page, between);
    }
    page.place(written.place);
    match &written.form {
        BehForm::Exit(values) => exit_values(page, values.as_slice()),
        BehForm::Call {
            name,
            gates: actual,
            values,
        } => call(page, name, actual.as_slice(), values.as_slice()),
        BehForm::Action {
            gate,
            offers: offered,
            test: selected,
            ..
        } => {
            page.text(" ");
            page.name(gate);
            offers(page, offered.as_slice());
            predicate(page, selected)
        }
        BehForm::Guard(premiss, _) => {
            page.text(" ");
            test(page, premiss)
        }
        BehForm::Hide(hidden, _) => {
            page.text(" ");
            names(page, hidden.as_slice())
        }
        BehForm::Let(bound, _) => bindings(page, bound.as_slice()),
        BehForm::ChooseValue(declared, _) => {
            page.text(" ");
            variables(page, declared.as_slice())
        }
        BehForm::ChooseGate(declared, _) => gates(page, declared.as_slice()),
        BehForm::ParGate(declared, between, _) => {
            gates(page, declared.as_slice());
            page.text(" ");
            sign(page, between)
        }
        BehForm::Stop | BehForm::Inner(_) | BehForm::Binary(..) => {}
    }
}

/// Prints a behaviour: in brackets its form, its place, its parts in text order, and the behaviours
/// in it.
pub fn behaviour(page: &mut Page, written: &BehText) {
    page.text("(");
    head(page, written);
    match &written.form {
        BehForm::Action { next, .. }
        | BehForm::Inner(next)
        | BehForm::Guard(_, next)
        | BehForm::Hide(_, next)
        | BehForm::Let(_, next)
        | BehForm::ChooseValue(_, next)
        | BehForm::ChooseGate(_, next)
        | BehForm::ParGate(_, _, next) => {
            page.text(" ");
            behaviour(page, next);
        }
        BehForm::Binary(_, left, right) => {
            page.text(" ");
            behaviour(page, left);
            page.text(" ");
            behaviour(page, right);
        }
        BehForm::Stop | BehForm::Exit(_) | BehForm::Call { .. } => {}
    }
    page.text(")");
}
