//! What the types of whole texts require.

use direct_terms::{flatten, read_types, requirements, shown};
use lotos_library::boolean::BOOLEAN;
use lotos_library::natural_number::NATURAL_NUMBER;
use sort_terms::{Equation, Flat};
use std::alloc::Global;
use std::test::Fail;
use syntax_trees::ItemText;

// Appends the place of an equation, its variables with their sorts, and its sides.
fn show(alloc: Global, flat: &Flat, equation: &Equation, out: &mut Vec<u8>) -> Result<(), Fail> {
    let place = format!(in alloc; "{}:{}", equation.place.line, equation.place.col)?;
    out.extend_from_slice(place.as_bytes())?;
    for variable in &equation.variables {
        out.extend_from_slice(b" ")?;
        out.extend_from_slice(variable.name.spelled())?;
        out.extend_from_slice(b":")?;
        if let Some(sort) = flat.signature.sorts().get(variable.sort as usize) {
            out.extend_from_slice(sort.name.spelled())?;
        }
    }
    let left = shown(alloc, equation.left.term())?;
    let right = shown(alloc, equation.right.term())?;
    let sides = format!(in alloc; " {} = {}\n", left.as_str(), right.as_str())?;
    out.extend_from_slice(sides.as_bytes())?;
    Ok(())
}

// What the types require beside the shipped ones, each in a line.
fn required(alloc: Global, types: &[u8]) -> Result<String, Fail> {
    let mut text = Vec::from_slice(alloc, types)?;
    text.extend_from_slice(BOOLEAN)?;
    text.extend_from_slice(NATURAL_NUMBER)?;
    let items = read_types(alloc, text.as_slice(), 0)?;
    required_of(alloc, items.as_slice())
}

// What the types require, each in a line.
fn required_of(alloc: Global, items: &[ItemText]) -> Result<String, Fail> {
    let flat = flatten(alloc, items)?;
    required_over(alloc, &flat, items)
}

// The same over the data of the types.
fn required_over(alloc: Global, flat: &Flat, items: &[ItemText]) -> Result<String, Fail> {
    let equations = requirements(alloc, items)?;
    all_shown(alloc, flat, equations.as_slice())
}

// The equations, each in a line.
fn all_shown(alloc: Global, flat: &Flat, equations: &[Equation]) -> Result<String, Fail> {
    let mut shown = Vec::new(alloc);
    for equation in equations {
        show(alloc, flat, equation, &mut shown)?;
    }
    Ok(String::from_utf8(shown)?)
}

const BAG: &[u8] = b"type Element is Boolean formalsorts Elem formalopns _eq_ : Elem, Elem -> Bool
formaleqns forall x : Elem ofsort Bool x eq x = true; endtype
type Bag is Element sorts Bag opns none : -> Bag add : Elem, Bag -> Bag endtype
type NatBag is Bag actualizedby NaturalNumber using sortnames Nat for Elem endtype
";

const SHARED: &[u8] = b"type Element is formalsorts Elem formalopns c : -> Elem f : Elem -> Elem
formaleqns forall x : Elem ofsort Elem
f(x) = x; x = c => f(c) = x; endtype
type One is Element sorts A opns a : -> A endtype
type Other is Element sorts B opns b : -> B endtype
type Both is One, Other formalopns g : Elem -> Elem formaleqns forall y : Elem ofsort Elem
g(f(y)) = c; endtype
type N is sorts N opns z : -> N s, p : N -> N endtype
type Filled is Both actualizedby N using
sortnames N for Elem opnnames z for c s for f p for g endtype
";

const RENAMED: &[u8] = b"type Element is formalsorts Elem formalopns f : Elem -> Elem
formaleqns forall x : Elem ofsort Elem
f(x) = x; endtype
type Item is Element renamedby sortnames Item for Elem opnnames h for f endtype
type N is sorts N opns s : N -> N endtype
type Filled is Item actualizedby N using sortnames N for Item opnnames s for h endtype
";

const AGAIN: &[u8] = b"type Element is formalsorts Elem formalopns f : Elem -> Elem
formaleqns forall x : Elem ofsort Elem
f(x) = x; endtype
type Box is Element sorts Box opns box : Elem -> Box endtype
type Again is Box actualizedby Element using endtype
type N is sorts N opns s : N -> N endtype
type Filled is Again actualizedby N using sortnames N for Elem opnnames s for f endtype
";

const PARAMETER: &[u8] = b"type P is formalsorts P formalopns f : P -> P
formaleqns forall x : P ofsort P
f(x) = x; endtype
type Q is formalsorts Q formalopns f : Q -> Q endtype
type PQ is P actualizedby Q using sortnames Q for P endtype
type N is sorts N opns s : N -> N endtype
type Filled is PQ actualizedby N using sortnames N for Q opnnames s for f endtype
";

const TWICE: &[u8] = b"type Late is Other renamedby endtype
type Element is formalsorts Elem formalopns f : Elem -> Elem
formaleqns forall x : Elem ofsort Elem
f(x) = x; endtype
type Pair is Element formalopns g : Elem -> Elem
formaleqns forall x : Elem ofsort Elem
g(x) = f(x); endtype
type N is sorts N opns s : N -> N endtype
type One is Pair actualizedby N using sortnames N for Elem opnnames s for f s for g endtype
type Other is Element actualizedby N using sortnames N for Elem opnnames s for f endtype
";

#[test]
fn an_actualisation_requires(rt: HostRuntime) -> Result<(), Fail> {
    let alloc = rt.alloc();
    assert_eq!(rt; required(alloc, b"")?.as_str(), "");
    assert_eq!(rt;
        required(alloc, BAG)?.as_str(),
        "2:40 x:Nat ($0 eq $0) = true\n"
    );
    assert_eq!(rt;
        required(alloc, SHARED)?.as_str(),
        "3:1 x:N s($0) = $0\n7:1 y:N p(s($0)) = z\n"
    );
    Ok(())
}

#[test]
fn formal_equations_are_handed_on(rt: HostRuntime) -> Result<(), Fail> {
    let alloc = rt.alloc();
    assert_eq!(rt; required(alloc, RENAMED)?.as_str(), "3:1 x:N s($0) = $0\n");
    assert_eq!(rt; required(alloc, AGAIN)?.as_str(), "3:1 x:N s($0) = $0\n");
    assert_eq!(rt; required(alloc, PARAMETER)?.as_str(), "");
    assert_eq!(rt;
        required(alloc, TWICE)?.as_str(),
        "4:1 x:N s($0) = $0\n4:1 x:N s($0) = $0\n7:1 x:N s($0) = s($0)\n"
    );
    Ok(())
}
