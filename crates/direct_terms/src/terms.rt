//! Matching, unification, parts of terms and what is put in their place, and which of two terms is
//! greater (Baader and Nipkow, "Term Rewriting and All That", chapters 4 and 5).
//!
//! The terms are those of equations: the two sides of one, or the left sides of two.

use crate::one_sort::have_one_sort;
use crate::showing::{push_shown, shown};
use crate::type_data::data;
use crate::unifiers::{matched, unified};
use path_order::{Precedence, greater};
use sort_terms::{Flat, Sorted, Term};
use std::alloc::Global;
use std::test::Fail;
use term_match::{Subst, put_at, subterm};

// The sides of the one equation, or the left sides of the first two.
fn sides(flat: &Flat) -> Result<(&Sorted, &Sorted), Fail> {
    match flat.equations.as_slice() {
        [only] => Ok((&only.left, &only.right)),
        [one, other, ..] => Ok((&one.left, &other.left)),
        [] => Err(Fail::from("an equation is wanted")),
    }
}

// The text of the term, or `none`.
fn shown_or_none(alloc: Global, term: Option<Sorted>) -> Result<String, Fail> {
    match term {
        Some(term) => shown(alloc, term.term()),
        None => Ok(String::from_str(alloc, "none")?),
    }
}

// The common instance of the terms.
fn common(alloc: Global, left: &Sorted, right: &Sorted) -> Result<Option<Sorted>, Fail> {
    if !have_one_sort(left, right) {
        return Err(Fail::from("a variable has two sorts"));
    }
    Ok(unified(alloc, left, right)?)
}

// What the variables of the pattern have.
fn bound(alloc: Global, pattern: &Sorted, term: &Sorted) -> Result<Option<Subst>, Fail> {
    if !have_one_sort(pattern, term) {
        return Err(Fail::from("a variable has two sorts"));
    }
    Ok(matched(alloc, pattern, term)?)
}

// Appends what a variable has, as `$0 := a`.
fn push_binding(alloc: Global, number: u64, value: &Sorted, text: &mut String) -> Result<(), Fail> {
    let variable = format!(in alloc; " ${number} := ")?;
    text.push_str(variable.as_str())?;
    push_shown(alloc, value, text)
}

// What the variables have.
fn bindings_shown(alloc: Global, subst: &Subst) -> Result<String, Fail> {
    let mut text = String::new(alloc);
    for (number, value) in subst.pairs() {
        push_binding(alloc, *number, value, &mut text)?;
    }
    Ok(text)
}

// The positions of a path `0.1`, or `root`.
fn path_of(alloc: Global, text: &str) -> Result<Vec<u32>, Fail> {
    let mut positions = Vec::new(alloc);
    if text == "root" {
        return Ok(positions);
    }
    for position in text.split('.') {
        positions.push(position.parse::<u32>()?)?;
    }
    Ok(positions)
}

// The answer to a question on two terms.
fn answer(alloc: Global, flat: &Flat, word: &str, path: &str) -> Result<String, Fail> {
    let (left, right) = sides(flat)?;
    match word {
        "unify" => shown_or_none(alloc, common(alloc, left, right)?),
        "subterm" => subterm_shown(alloc, left, path),
        "put" => put_shown(alloc, left, path, right),
        "greater" => greater_shown(alloc, flat, left, right),
        _ => match_shown(alloc, left, right),
    }
}

fn subterm_shown(alloc: Global, term: &Sorted, path: &str) -> Result<String, Fail> {
    let positions = path_of(alloc, path)?;
    shown_or_none(alloc, subterm(term, positions.as_slice())?)
}

fn put_shown(alloc: Global, term: &Sorted, path: &str, put: &Sorted) -> Result<String, Fail> {
    let positions = path_of(alloc, path)?;
    shown_or_none(alloc, put_at(term, positions.as_slice(), put)?)
}

fn match_shown(alloc: Global, left: &Sorted, right: &Sorted) -> Result<String, Fail> {
    match bound(alloc, left, right)? {
        Some(subst) => bindings_shown(alloc, &subst),
        None => Ok(String::from_str(alloc, "none")?),
    }
}

fn greater_shown(
    alloc: Global,
    flat: &Flat,
    left: &Sorted,
    right: &Sorted,
) -> Result<String, Fail> {
    match Precedence::of(flat, &[]) {
        Ok(precedence) => greater_by(alloc, &precedence, left, right),
        Err(_) => Err(Fail::from("the operations have no order")),
    }
}

fn greater_by(
    alloc: Global,
    precedence: &Precedence,
    left: &Sorted,
    right: &Sorted,
) -> Result<String, Fail> {
    if greater(alloc, precedence, left, right)? {
        Ok(String::from_str(alloc, "yes")?)
    } else {
        Ok(String::from_str(alloc, "no")?)
    }
}

const TYPES: &str =
    "type T is sorts N, M opns a, b : -> N m : -> M f : N -> N g : N, N -> N h : N, M -> N eqns forall x, y, z : N, w : M ofsort N";

/// A pattern's variable stands for one term, also where it occurs twice. A path leads to a part,
/// and what is put there has the sort of what it replaces. Two terms have a unifier where no
/// operation stands against another one, no variable against a term that has it inside, and no term
/// against one of another sort; the variables of their instance are numbered by appearance.
const QUESTIONS: &str = "match root f(x) = f(a) => $0 := a
match root f(x) = a => none
match root g(x, x) = g(a, a) => $0 := a
match root g(x, x) = g(a, b) => none
match root g(x, f(y)) = g(a, f(f(b))) => $0 := a $1 := f(b)
match root g(x, x) = g(f(y), f(y)) => $0 := f($1)
match root f(x) = y => none
match root x = x ofsort M m = m => none
match root h(x, w) = h(a, m) => $0 := a $1 := m
match root a = a => 
match root a = b => none
subterm root f(a) = a => f(a)
subterm 0 f(a) = a => a
subterm 0.0 f(a) = a => none
subterm 1 f(a) = a => none
subterm 1.0 g(a, f(b)) = a => b
subterm 1 g(a, x) = a => $0
subterm 0 x = a => none
put 0 f(a) = b => f(b)
put root f(a) = b => b
put root f(a) = a ofsort M m = m => none
put 1 f(a) = b => none
put 0.0 f(a) = b => none
put 1 h(a, m) = a => none
put 0 h(a, m) = f(b) => h(f(b), m)
put 1.0 g(a, f(b)) = g(b, b) => g(a, f(g(b, b)))
put 0 g(x, a) = f(x) => g(f($0), a)
unify root f(x) = x => none
unify root f(x) = f(x) => f($0)
unify root f(x) = f(a) => f(a)
unify root a = a => a
unify root a = b => none
unify root f(a) = a => none
unify root x = y => $0
unify root g(x, y) = g(y, x) => g($0, $0)
unify root g(x, y) = g(f(y), a) => g(f(a), a)
unify root g(x, y) = g(f(y), f(x)) => none
unify root g(x, f(x)) = g(y, y) => none
unify root g(x, y) = g(g(y, y), g(z, z)) => g(g(g($0, $0), g($0, $0)), g($0, $0))
unify root x = x ofsort M m = m => none
unify root h(x, w) = h(a, m) => h(a, m)
unify root h(x, w) = h(f(x), w) => none
unify root g(x, x) = g(a, y) => g(a, a)
unify root g(x, x) = g(a, b) => none
greater root x = x => no";

// The answer to the question, which is a word, a path and equations.
fn asked(alloc: Global, question: &str) -> Result<String, Fail> {
    let (word, rest) = question.split_once(' ').ok_or("no word")?;
    let (path, equations) = rest.split_once(' ').ok_or("no path")?;
    let types = format!(in alloc; "{TYPES} {equations} endtype")?;
    let flat = data(alloc, types.as_bytes())?;
    answer(alloc, &flat, word, path)
}

#[test]
fn terms_are_matched_unified_and_replaced(rt: HostRuntime) -> Result<(), Fail> {
    let alloc = rt.alloc();
    for row in QUESTIONS.split('\n') {
        let (question, expected) = row.split_once(" => ").unwrap_or((row, ""));
        let given = asked(alloc, question)?;
        assert_eq!(rt; given.as_str().trim_ascii(), expected, "{question}");
    }
    let one = Sorted::of(Term::Var { number: 0, sort: 0 });
    let other = Sorted::of(Term::Var { number: 1, sort: 1 });
    assert!(rt; common(alloc, &one, &other)?.is_none());
    Ok(())
}
