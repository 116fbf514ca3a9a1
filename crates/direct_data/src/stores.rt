//! Canonical terms of a store of terms that are kept once, beside the chosen forms that are made
//! without one.

ghost use Rattle.critical_pairs.specs.Joining.{StaysJoined};
ghost use Rattle.path_order.specs.RulesView.{plain_rules_in, signature_in};
ghost use Rattle.sort_terms.specs.ProfiledTerm.{IsOf};
ghost use Rattle.sort_terms.specs.SortedView.{profiled_in};

use crate::rules::{one_term, rules_by};
use critical_pairs::{Joined, all_join};
use equation_book::Store;
use lotos_library::boolean::BOOLEAN;
use lotos_library::natural_number::NATURAL_NUMBER;
use sort_terms::Sorted;
use std::alloc::Global;
use std::test::Fail;
use term_rewriter::normalise;

// A store over the rules of the types, which join.
fn store_of(alloc: Global, types: &[u8]) -> Result<Store, Fail> {
    match all_join(alloc, rules_by(alloc, types)?) {
        Ok(joined) => opened(alloc, &joined),
        Err(_) => Err(Fail::from("a pair does not join")),
    }
}

// A store over the rules.
fn opened(alloc: Global, joined: &Joined) -> Result<Store, Fail>
    requires { StaysJoined (plain_rules_in joined.now.rules) }
{
    Ok(Store::open(alloc, joined.rules())?)
}

// Whether the store gives the term the form that it has without one, and finds both the same.
fn is_alike(alloc: Global, store: &mut Store, text: &str) -> Result<bool, Fail> {
    let term = one_term(alloc, store.rules().signature(), text)?;
    is_term_alike(alloc, store, &term)
}

// The same of a term.
fn is_term_alike(alloc: Global, store: &mut Store, term: &Sorted) -> Result<bool, Fail>
    requires { IsOf (signature_in store.old.rules) (profiled_in term.now) }
{
    let form = normalise(alloc, store.rules(), term)?;
    is_its_form(store, term, &form)
}

// Whether the store gives the term this form, and finds both the same.
fn is_its_form(store: &mut Store, term: &Sorted, form: &Sorted) -> Result<bool, Fail>
    requires term { IsOf (signature_in store.old.rules) (profiled_in term.now) }
    requires form { IsOf (signature_in store.old.rules) (profiled_in form.now) }
{
    let kept = store.canonical_term(term)?;
    if !kept.same(form) {
        return Ok(false);
    }
    Ok(store.same(term, form)?)
}

// How many of the terms are so.
fn count_alike(alloc: Global, store: &mut Store, terms: &str) -> Result<u32, Fail> {
    let mut count = 0u32;
    for text in terms.split('\n') {
        if is_alike(alloc, store, text)? {
            count = count.wrapping_add(1);
        }
    }
    Ok(count)
}

// How many applications of the operation to two of the values are so.
fn count_applications(
    alloc: Global,
    store: &mut Store,
    operation: &str,
    values: &str,
) -> Result<u32, Fail> {
    let mut count = 0u32;
    for left in values.split('\n') {
        let terms = applications(alloc, operation, left, values)?;
        count = count.wrapping_add(count_alike(alloc, store, terms.as_str())?);
    }
    Ok(count)
}

// The applications of the operation to the left value and one of the values, a line each.
fn applications(alloc: Global, operation: &str, left: &str, values: &str) -> Result<String, Fail> {
    let mut text = String::new(alloc);
    for right in values.split('\n') {
        if !text.is_empty() {
            text.push('\n')?;
        }
        text.push_str(format!(in alloc; "({left}) {operation} ({right})")?.as_str())?;
    }
    Ok(text)
}

// How many applications of the operations of numbers to two of the values are so.
fn count_numbers(alloc: Global) -> Result<u32, Fail> {
    let mut numbers = Vec::from_slice(alloc, BOOLEAN)?;
    numbers.extend_from_slice(NATURAL_NUMBER)?;
    let mut store = store_of(alloc, numbers.as_slice())?;
    count_operations(alloc, &mut store)
}

// The same, over their store.
fn count_operations(alloc: Global, store: &mut Store) -> Result<u32, Fail> {
    let mut count = 0u32;
    for operation in OPERATIONS.split(' ') {
        count = count.wrapping_add(count_applications(alloc, store, operation, VALUES)?);
    }
    Ok(count)
}

const OPERATIONS: &str = "+ * ** eq ne lt le ge gt";

const VALUES: &str = "0
Succ(0)
Succ(Succ(0))
Succ(Succ(Succ(0)))
Succ(0) + Succ(0)
Succ(Succ(0)) ** Succ(Succ(0))";

/// Types, and behind each of them terms of them.
const TERMS: &str =
    "type T is sorts N opns z : -> N s : N -> N p : N, N -> N d : N -> N eqns forall x : N \
      ofsort N d(z) = z; d(s(x)) = p(d(x), d(x)) endtype
z
d(z)
d(d(s(z)))
d(s(s(s(s(s(z))))))
p(d(s(z)), s(d(s(d(z)))))

type S is sorts B, E, S opns true, false : -> B a, b : -> E _eq_ : E, E -> B none : -> S Insert \
      : E, S -> S if : B, S, S -> S Remove : E, S -> S eqns forall f, g : E, r, t : S ofsort B \
      f eq f = true; a eq b = false; b eq a = false ofsort S if(true, r, t) = r; if(false, r, \
      t) = t; Remove(f, none) = none; Remove(f, Insert(g, r)) = if(f eq g, Remove(f, r), \
      Insert(g, Remove(f, r))) endtype
Remove(a, none)
Remove(a, Insert(b, Insert(a, none)))
Remove(a, Insert(b, Remove(b, Insert(a, Insert(b, none)))))
if(a eq b, Insert(a, none), Remove(b, Insert(b, none)))
Insert(a, Remove(b, Insert(a, Remove(a, Insert(b, Insert(a, none))))))

type G is sorts G opns e, a, b : -> G _*_ : G, G -> G inv : G -> G eqns forall x, y : G ofsort \
      G e * x = x; x * e = x; inv(inv(x)) = x; inv(e) = e; x * inv(x) = e; inv(x) * x = e \
      endtype
inv(inv(a * e))
(a * b) * inv(a * b)
inv(inv(e) * (inv(a) * inv(inv(a))))";

// How many terms of the blocks are so.
fn count_terms(alloc: Global) -> Result<u32, Fail> {
    let mut count = 0u32;
    for block in TERMS.split("\n\n") {
        let (types, terms) = block.split_once('\n').unwrap_or((block, ""));
        count = count.wrapping_add(count_block(alloc, types, terms)?);
    }
    Ok(count)
}

// How many of these terms of the types are so.
fn count_block(alloc: Global, types: &str, terms: &str) -> Result<u32, Fail> {
    let mut store = store_of(alloc, types.as_bytes())?;
    count_alike(alloc, &mut store, terms)
}

#[test]
fn stores_answer_as_without_one(rt: HostRuntime) -> Result<(), Fail> {
    let alloc = rt.alloc();
    assert_eq!(rt; count_numbers(alloc)?, 324);
    assert_eq!(rt; count_terms(alloc)?, 13);
    Ok(())
}
