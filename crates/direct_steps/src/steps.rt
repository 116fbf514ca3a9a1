//! Derivations that no entry of a menu gives: the first fault of each.

ghost use Rattle.spec_acceptance.specs.Acceptance.{Acceptance};
ghost use Rattle.behaviour_tree.specs.BehaviourTerms.{profiles_of};
ghost use Rattle.behaviour_tree.specs.Closed.{IsClosedNode};
ghost use Rattle.behaviour_tree.specs.Over.{AreTermsOf, IsSpecOver, IsStateOf};
ghost use Rattle.sort_terms.specs.EquationView.{variable_of};
ghost use Rattle.sort_terms.specs.ProfiledTerm.{IsOf};
ghost use Rattle.sort_terms.specs.Reading.{IsScopeOver};
ghost use Rattle.sort_terms.specs.SignatureView.{signature_of};
ghost use Rattle.sort_terms.specs.SortedView.{profiled_in};
ghost use Rattle.spec_acceptance.specs.AcceptedView.{HoldsAccepted};
ghost use Rattle.std.specs.Prelude.{IfOk, map};
ghost use Rattle.lotos_base.specs.Signature.{IsSort};

use crate::accepted::accept;
use crate::shapes::shape;
use behaviour_tree::{Derivation, Spec, State};
use lotos_base::{Name, Written};
use printed_texts::term_text;
use sort_terms::{Signature, Sorted, Variable, read_in};
use spec_acceptance::{Accepted, Book, read_terms};
use std::alloc::Global;
use std::test::Fail;
use step_taker::{StepFault, take};

const BEFORE: &str = "specification X [a, b] : exit(S)
type D is sorts S, T opns c, d : -> S s : -> T f : S -> S eqns forall x : S ofsort S f(x) = c endtype
behaviour ";

const BEHIND: &str = "
where process P [a] (x : S) : noexit := a !x; stop endproc
endspec";

// A body, the letters of a shape, the leaves, and the fault with its node or leaf, in the order of
// the walk. The leaf `x` is a variable of the sort `S`. The last derivation has none.
const FAULTS: &str = "stop @ a @ - @ not fitting 0
a; stop @ q @ - @ not fitting 0
a; stop @ i @ - @ not fitting 0
a; stop @ a @ c @ not fitting 1
a; stop @ la @ - @ not fitting 0
a ?x:S; stop @ a @ - @ not fitting 0
a ?x:S; stop @ a @ x @ bad value 0
a ?x:S; stop @ a @ s @ bad value 0
a ?x:S; stop @ a @ c,c @ not fitting 1
a ?x:S [x = c]; stop @ a @ d @ unmet 0: d = c
a ?x:S [f(x) = x]; stop @ a @ d @ unmet 0: c = d
a ?x:S [x = c]; stop @ a @ x @ bad value 0
a ?x:S [x = c]; stop @ a @ - @ not fitting 0
exit(any S) @ q @ - @ not fitting 0
exit(any S) @ q @ x @ bad value 0
exit(any S) @ q @ s @ bad value 0
[c = d] -> stop @ gi @ - @ unmet 0: c = d
[f(d) = d] -> a; stop @ ga @ - @ unmet 0: c = d
[c = c] -> a; stop @ a @ - @ not fitting 0
[c = c] -> a; stop @ gq @ - @ not fitting 1
[c = c] -> ([c = d] -> a; stop) @ gga @ - @ unmet 1: c = d
a; stop [] b; stop @ a @ - @ not fitting 0
a; stop [] b; stop @ &aa @ - @ not fitting 0
a; stop [] ([c = d] -> a; stop) @ rga @ - @ unmet 1: c = d
a; stop ||| b; stop @ &aa @ - @ not fitting 0
a; stop || b; stop @ &aa @ - @ not fitting 0
a !c; stop || a !d; stop @ &aa @ - @ unmet 0: c = d
a !c; stop || a; stop @ &aa @ - @ not fitting 0
a !c; stop || a !s; stop @ &aa @ - @ not fitting 0
a ?x:S; stop || a !d; stop @ &aa @ f(d) @ unmet 0: c = d
a ?x:S; stop || a ?y:S; stop @ &aa @ c,d @ unmet 0: c = d
a ?x:S; stop || a ?y:S; stop @ &aa @ c,x @ bad value 1
a ?x:S; stop || a ?y:S; stop @ &aa @ c @ not fitting 2
a ?x:S; stop || a ?y:S; stop @ &aa @ s,s @ bad value 0
a ?x:S; stop || a ?y:S; stop @ &aa @ c,c,d @ not fitting 3
([c = d] -> a; stop) || ([c = d] -> a; stop) @ &gaga @ - @ unmet 1: c = d
([c = c] -> a; stop) || ([c = d] -> a; stop) @ &gaga @ - @ unmet 3: c = d
([c = c] -> a; stop) || a; stop @ &gaq @ - @ not fitting 3
a; stop || a; stop @ la @ - @ not fitting 0
exit(c) || stop @ lq @ - @ not fitting 0
exit(c) ||| stop @ lq @ - @ not fitting 0
hide a in a; stop @ hq @ - @ not fitting 1
a; exit >> b; stop @ ea @ - @ not fitting 0
exit >> b; stop @ pq @ - @ not fitting 0
a; exit >> b; stop @ a @ - @ not fitting 0
a; stop [> b; stop @ &aa @ - @ not fitting 0
let x:S = d in a !x; stop @ a @ - @ not fitting 0
let x:S = d in a !x; stop @ bq @ - @ not fitting 1
choice x:S [] a !x; stop @ va @ x @ bad value 0
choice x:S [] a !x; stop @ va @ s @ bad value 0
choice x:S [] a !x; stop @ va @ - @ not fitting 0
choice x:S [] a ?y:S; stop @ va @ c @ not fitting 1
choice x:S [] a ?y:S; stop @ va @ c,x @ bad value 1
choice g in [a, b] [] g; stop @ 2a @ - @ not fitting 0
choice g in [a, b] [] g; stop @ 0q @ - @ not fitting 1
P [b] (d) @ a @ - @ not fitting 0
P [b] (d) @ cq @ - @ not fitting 1
P [b] (d) @ ca @ c @ not fitting 2
par g in [a, a] ||| g; stop @ q @ - @ not fitting 0
par g in [a, a] ||| g; stop @ la @ - @ not fitting 1
par g in [a, a] ||| g; stop @ lmq @ - @ not fitting 2
[c = c] -> ([c = c] -> a; stop) @ gga @ c,c @ not fitting 3
a ?x:S [x = c]; i; stop @ a @ f(c) @ moved";

// The variable `x` of the first sort, alone.
fn one_variable(alloc: Global, signature: &Signature) -> Result<Vec<Variable>, Fail>
    requires { IsSort (signature_of signature.now) 0 }
    ensures { IfOk result (λ made. IsScopeOver (signature_of signature.now)
        (map variable_of made.items)) }
{
    let name = Name::of(Vec::from_slice(alloc, b"x")?);
    let mut made = Vec::new(alloc);
    made.push(Variable {
        name,
        number: 0,
        sort: 0,
    })?;
    Ok(made)
}

// The same where there is a sort.
fn scope(alloc: Global, signature: &Signature) -> Result<Vec<Variable>, Fail>
    ensures { IfOk result (λ made. IsScopeOver (signature_of signature.now)
        (map variable_of made.items)) }
{
    if signature.sorts().len() > 0 {
        return one_variable(alloc, signature);
    }
    Err(Fail::new("there is no sort"))
}

// The one reading of the term.
fn read(
    alloc: Global,
    signature: &Signature,
    scope: &[Variable],
    term: &Written,
) -> Result<Sorted, Fail>
    requires { IsScopeOver (signature_of signature.now) (map variable_of scope.now) }
    ensures { IfOk result (λ term. IsOf (signature_of signature.now) (profiled_in term)) }
{
    Ok(read_in(alloc, signature, scope, term, None)?)
}

// The leaf that the term is, with `x` in scope.
fn leaf_of(alloc: Global, signature: &Signature, term: &Written) -> Result<Sorted, Fail>
    ensures { IfOk result (λ term. IsOf (signature_of signature.now) (profiled_in term)) }
{
    let scope = scope(alloc, signature)?;
    read(alloc, signature, scope.as_slice(), term)
}

// The leaves with one more.
fn with_leaf(
    alloc: Global,
    signature: &Signature,
    term: &Written,
    mut made: Vec<Sorted>,
) -> Result<Vec<Sorted>, Fail>
    requires { AreTermsOf (signature_of signature.now) (profiles_of made.items) }
    ensures { IfOk result (λ more. AreTermsOf (signature_of signature.now)
        (profiles_of more.items)) }
{
    let leaf = leaf_of(alloc, signature, term)?;
    made.push(leaf)?;
    Ok(made)
}

// The leaves.
fn leaves_of(alloc: Global, signature: &Signature, terms: &[Written]) -> Result<Vec<Sorted>, Fail>
    ensures { IfOk result (λ made. AreTermsOf (signature_of signature.now)
        (profiles_of made.items)) }
{
    let mut made = Vec::new(alloc);
    for term in terms {
        made = with_leaf(alloc, signature, term, made)?;
    }
    Ok(made)
}

// The terms of a short text.
fn terms_of(alloc: Global, text: &str) -> Result<Vec<Written>, Fail> {
    if text.len() > 100 {
        return Err(Fail::new("the leaves are short"));
    }
    Ok(read_terms(alloc, text.as_bytes(), 0)?)
}

// What comes of the derivation.
fn step_of(
    alloc: Global,
    spec: &Spec,
    state: &State,
    book: &mut Book,
    derivation: &Derivation,
) -> Result<String, Fail>
    requires over { IsSpecOver (signature_of book.old.flat.signature) spec.now }
    requires state { IsStateOf (signature_of book.old.flat.signature) spec.now state.now }
    requires closed { IsClosedNode state.now.node }
    requires leaves { AreTermsOf (signature_of book.old.flat.signature)
        (profiles_of derivation.now.leaves.items) }
{
    match take(spec, state, derivation, book) {
        Ok(_) => Ok(String::from_str(alloc, "moved")?),
        Err(fault) => fault_text(alloc, &book.flat().signature, &fault),
    }
}

// What comes of the derivation of the letters and the leaves.
fn step_over(
    alloc: Global,
    spec: &Spec,
    state: &State,
    book: &mut Book,
    letters: &str,
    terms: &[Written],
) -> Result<String, Fail>
    requires over { IsSpecOver (signature_of book.old.flat.signature) spec.now }
    requires state { IsStateOf (signature_of book.old.flat.signature) spec.now state.now }
    requires closed { IsClosedNode state.now.node }
{
    let leaves = leaves_of(alloc, &book.flat().signature, terms)?;
    let shape = shape(alloc, letters.as_bytes())?;
    let derivation = Derivation { shape, leaves };
    step_of(alloc, spec, state, book, &derivation)
}

// The refusal.
fn fault_text(alloc: Global, signature: &Signature, fault: &StepFault) -> Result<String, Fail> {
    match fault {
        StepFault::NotFitting { node } => Ok(format!(in alloc; "not fitting {node}")?),
        StepFault::BadValue { leaf } => Ok(format!(in alloc; "bad value {leaf}")?),
        StepFault::Unmet { node, left, right } => {
            let mut sides = Vec::new(alloc);
            term_text(signature, &[], left, &mut sides)?;
            sides.extend_from_slice(b" = ")?;
            term_text(signature, &[], right, &mut sides)?;
            let sides = String::from_utf8(sides)?;
            Ok(format!(in alloc; "unmet {node}: {}", sides.as_str())?)
        }
        StepFault::NoMemory => Ok(String::from_str(alloc, "no memory")?),
    }
}

// What comes of the derivation in what was accepted.
fn step_in(
    alloc: Global,
    accepted: Accepted,
    letters: &str,
    terms: &[Written],
) -> Result<String, Fail>
    requires known { (acceptance : Acceptance) × HoldsAccepted acceptance accepted }
{
    let Accepted {
        spec,
        ranks: _,
        book,
        start,
    } = accepted;
    let mut book = book;
    step_over(alloc, &spec, &start, &mut book, letters, terms)
}

// What comes of the derivation in the text.
fn told_of_text(
    alloc: Global,
    text: &str,
    letters: &str,
    terms: &[Written],
) -> Result<String, Fail> {
    let accepted = accept(alloc, text)?;
    step_in(alloc, accepted, letters, terms)
}

// The same with the leaves.
fn told_with(alloc: Global, text: &str, letters: &str, leaves: &str) -> Result<String, Fail> {
    let terms = terms_of(alloc, leaves)?;
    told_of_text(alloc, text, letters, terms.as_slice())
}

// What comes of the derivation in the body.
fn told(alloc: Global, body: &str, letters: &str, leaves: &str) -> Result<String, Fail> {
    let text = format!(in alloc; "{BEFORE}{body}{BEHIND}")?;
    told_with(alloc, text.as_str(), letters, leaves)
}

#[test]
fn the_first_fault_is_told(rt: HostRuntime) -> Result<(), Fail> {
    let alloc = rt.alloc();
    for line in FAULTS.lines() {
        let (body, rest) = line.split_once(" @ ").unwrap_or((line, ""));
        let (letters, rest) = rest.split_once(" @ ").unwrap_or((rest, ""));
        let (leaves, wanted) = rest.split_once(" @ ").unwrap_or((rest, ""));
        let given = told(alloc, body, letters, leaves.trim_start_matches('-'))?;
        assert_eq!(rt; given.as_str(), wanted, "{line}");
    }
    Ok(())
}
