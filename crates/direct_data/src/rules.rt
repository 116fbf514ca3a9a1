//! Critical pairs, and chosen forms by rules that do not join (Baader and Nipkow, "Term Rewriting
//! and All That", chapters 4 and 6).

ghost use Rattle.sort_terms.specs.EquationView.{IsSortedFlat};
ghost use Rattle.sort_terms.specs.ProfiledTerm.{IsOf};
ghost use Rattle.sort_terms.specs.SignatureView.{signature_of};
ghost use Rattle.sort_terms.specs.SortedView.{profiled_in};
ghost use Rattle.std.specs.Prelude.{IfOk};

use critical_pairs::{Pair, pairs};
use direct_terms::{data, push_shown, read_terms, shown};
use lotos_base::Written;
use lotos_library::boolean::BOOLEAN;
use lotos_library::natural_number::NATURAL_NUMBER;
use path_order::{Precedence, Rules, orient};
use sort_terms::{Flat, Signature, Sorted, read_in};
use std::alloc::Global;
use std::test::Fail;
use term_rewriter::normalise;

// The rules of the data.
pub fn rules_of(flat: &Flat) -> Result<Rules, Fail>
    requires { IsSortedFlat flat.now }
{
    let Ok(precedence) = Precedence::of(flat, &[]) else {
        return Err(Fail::from("the operations have no order"));
    };
    match orient(flat, precedence) {
        Ok(rules) => Ok(rules),
        Err(_) => Err(Fail::from("an equation is not oriented")),
    }
}

/// The rules of the data of the types.
pub fn rules_by(alloc: Global, types: &[u8]) -> Result<Rules, Fail> {
    let flat = data(alloc, types)?;
    rules_of(&flat)
}

// The one reading of the term.
fn read(alloc: Global, signature: &Signature, written: &Written) -> Result<Sorted, Fail>
    ensures { IfOk result (λ term. IsOf (signature_of signature.now) (profiled_in term)) }
{
    Ok(read_in(alloc, signature, &[], written, None)?)
}

// The term that the text is.
pub fn one_term(alloc: Global, signature: &Signature, text: &str) -> Result<Sorted, Fail>
    ensures { IfOk result (λ term. IsOf (signature_of signature.now) (profiled_in term)) }
{
    if text.len() > 1000 {
        return Err(Fail::from("the text is long"));
    }
    let list = read_terms(alloc, text.as_bytes(), 0)?;
    match list.first() {
        Some(written) => read(alloc, signature, written),
        None => Err(Fail::from("a term is wanted")),
    }
}

// The chosen form of the term in the text.
fn chosen_form(alloc: Global, rules: &Rules, text: &str) -> Result<Sorted, Fail> {
    let term = one_term(alloc, rules.signature(), text)?;
    Ok(normalise(alloc, rules, &term)?)
}

// Appends the two equations, the place, the peak and both sides.
fn push_pair(alloc: Global, pair: &Pair, text: &mut String) -> Result<(), Fail> {
    let place = format!(in alloc;
        "; {} {} {:?} ",
        pair.first,
        pair.second,
        pair.path.as_slice()
    )?;
    text.push_str(place.as_str())?;
    push_shown(alloc, &pair.peak, text)?;
    text.push_str(": ")?;
    push_shown(alloc, &pair.left, text)?;
    text.push_str(" and ")?;
    push_shown(alloc, &pair.right, text)
}

// The pairs, one behind another.
fn listed_pairs(alloc: Global, list: &[Pair]) -> Result<String, Fail> {
    let mut text = String::new(alloc);
    for pair in list {
        push_pair(alloc, pair, &mut text)?;
    }
    Ok(text)
}

// All critical pairs.
fn pairs_shown(alloc: Global, rules: &Rules) -> Result<String, Fail> {
    let list = pairs(alloc, rules)?;
    listed_pairs(alloc, list.as_slice())
}

// The answer to a question on rules: `pairs`, or a term, whose form is chosen.
fn by_rules(alloc: Global, rules: &Rules, question: &str) -> Result<String, Fail> {
    if question == "pairs" {
        return pairs_shown(alloc, rules);
    }
    let form = chosen_form(alloc, rules, question)?;
    shown(alloc, form.term())
}

// The answer to a question on the rules of the types.
fn by_types(alloc: Global, types: &[u8], question: &str) -> Result<String, Fail> {
    let rules = rules_by(alloc, types)?;
    by_rules(alloc, &rules, question)
}

/// Types, and behind each of them questions with their answers. The first of two rules for one term
/// is used, and arguments come first; the variables of a pair are numbered by their first
/// appearance in its peak, and those of the two rules are kept apart.
const RULES: &str = "type T is sorts N opns _+_ : N, N -> N eqns forall x : N ofsort N x = x endtype
pairs => 

type T is sorts A, B opns a : -> A f : A -> A a : -> B k : B -> B eqns ofsort A forall x : A f(f(x)) = f(x) ofsort B forall x : B k(k(x)) = k(x) endtype
pairs => ; 0 0 [0] f(f(f($0))): f(f($0)) and f(f($0)); 1 1 [0] k(k(k($0))): k(k($0)) and k(k($0))

type T is sorts N opns a, b, c : -> N f : N -> N eqns forall x : N ofsort N f(a) = b; f(x) = c endtype
f(a) => b
f(b) => c
f(f(a)) => c
pairs => ; 0 1 [] f(a): b and c; 1 0 [] f(a): c and b

type T is sorts N opns a, b, c : -> N f, g : N -> N eqns forall x : N ofsort N g(f(x)) = a; f(b) = c endtype
g(f(b)) => g(c)
g(f(a)) => a
g(f(f(b))) => a
pairs => ; 0 1 [0] g(f(b)): a and g(c)

type T is sorts N opns a : -> N g, f : N -> N eqns forall x : N ofsort N f(f(x)) = g(x) endtype
f(f(f(a))) => f(g(a))
pairs => ; 0 0 [0] f(f(f($0))): g(f($0)) and f(g($0))

type T is sorts N opns a : -> N f : N -> N g : N, N -> N eqns forall x, y : N ofsort N g(y, f(x)) = y; f(f(x)) = x endtype
pairs => ; 0 1 [1] g($0, f(f($1))): $0 and g($0, $1); 1 1 [0] f(f(f($0))): f($0) and f($0)";

#[test]
fn rules_have_their_pairs_and_forms(rt: HostRuntime) -> Result<(), Fail> {
    let alloc = rt.alloc();
    for block in RULES.split("\n\n") {
        let (types, rows) = block.split_once('\n').unwrap_or((block, ""));
        for row in rows.split('\n') {
            let (question, expected) = row.split_once(" => ").unwrap_or((row, ""));
            let given = by_types(alloc, types.as_bytes(), question)?;
            assert_eq!(rt; given.as_str(), expected, "{types}");
        }
    }
    let mut numbers = Vec::from_slice(alloc, BOOLEAN)?;
    numbers.extend_from_slice(NATURAL_NUMBER)?;
    assert_eq!(rt; by_types(alloc, numbers.as_slice(), "pairs")?.as_str(), "");
    Ok(())
}
