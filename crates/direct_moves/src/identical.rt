//! Closed behaviours that are identical, and others that are not.
//!
//! A line of the table is two nodes with `==` or `!=` between them. The parts of a node stand
//! before its sign. Behaviours are `stop`, `call:x` with values, `|||`, `?xn;` (an action that asks
//! for `x`, a variable of the name `n`) and `let:xa` (`x` is `a`). Behind a behaviour, `with:xa`
//! makes it a node with values for its variables. Other nodes are `Stop`, `Call:a` and `Beside`.
//! The letters from `a` to `m` are constants, those from `n` on are variables.

use behaviour_tree::{Beh, Meet, Node, Offer};
use lotos_base::{Form, Name, NoMemory, Place};
use sort_terms::examples::constant;
use sort_terms::{Op, Sorted, Term, Variable};
use std::alloc::Global;
use std::rc::Rc;
use std::test::Fail;

const CASES: &str = "stop with: == Stop
stop with:xa == stop with:
stop with: != call: with:
call:x with:xa == Call:a
call:x with:xa == call:a with:
call:x with:xa != Call:b
call:xy with:xayb == Call:ab
call:xy with:xayb != Call:ba
call:x with:xaxb == Call:a
call:x with:xbxa != Call:a
call:x stop ||| with:xa == Call:a Stop Beside
call:x stop ||| with:xa == call:a with: stop with: Beside
call:x stop ||| with:xa != Stop Call:a Beside
call:x stop ||| with:xa != Call:a
call:x ?xn; with:xa == call:x ?xn; with:
call:x ?xn; with:xa != call:a ?xn; with:
call:y ?xn; with:yaxb == call:a ?xn; with:
call:y ?xn; with:yaxb != call:b ?xn; with:
call:x ?xn; with: != call:x ?xo; with:
call:x ?xn; with: != call:y ?yn; with:
call:x let:xx with:xa == call:x let:xa with:
call:x let:xx with:xa != call:a let:xa with:";

// Places make no difference.
const PLACE: Place = Place {
    text: 0,
    line: 1,
    col: 1,
};

fn name(alloc: Global, letter: u8) -> Result<Name, NoMemory> {
    let mut spelled = Vec::new(alloc);
    spelled.push(letter)?;
    Ok(Name::of(spelled))
}

fn variable(alloc: Global, letter: u8, spelled: u8) -> Result<Variable, NoMemory> {
    let name = name(alloc, spelled)?;
    Ok(Variable {
        name,
        number: u64::from(letter),
        sort: 0,
    })
}

fn term(alloc: Global, letter: u8) -> Result<Sorted, NoMemory> {
    if letter >= b'n' {
        return Ok(Sorted::of(Term::Var {
            number: u64::from(letter),
            sort: 0,
        }));
    }
    let name = name(alloc, letter)?;
    let profile = Op {
        name,
        form: Form::Prefix,
        arguments: Vec::new(alloc),
        result: 0,
        origin: Name::of(Vec::new(alloc)),
    };
    constant(alloc, u32::from(letter), Rc::new(alloc, profile)?)
}

fn push_term(alloc: Global, letter: u8, made: &mut Vec<Sorted>) -> Result<(), NoMemory> {
    made.push(term(alloc, letter)?)?;
    Ok(())
}

fn terms(alloc: Global, letters: &[u8]) -> Result<Vec<Sorted>, NoMemory> {
    let mut made = Vec::new(alloc);
    for letter in letters {
        push_term(alloc, *letter, &mut made)?;
    }
    Ok(made)
}

fn push_value(alloc: Global, pair: &[u8], made: &mut Vec<(u64, Sorted)>) -> Result<(), NoMemory> {
    if let [letter, value] = pair {
        let value = term(alloc, *value)?;
        made.push((u64::from(*letter), value))?;
    }
    Ok(())
}

fn environment(alloc: Global, letters: &[u8]) -> Result<Vec<(u64, Sorted)>, NoMemory> {
    let mut made = Vec::new(alloc);
    for pair in letters.chunks(2) {
        push_value(alloc, pair, &mut made)?;
    }
    Ok(made)
}

// The behaviour that is put on top last, or `stop` where there is none.
fn taken(alloc: Global, parts: &mut Vec<Rc<Beh>>) -> Result<Rc<Beh>, NoMemory> {
    match parts.pop() {
        Some(part) => Ok(part),
        None => Ok(Rc::new(alloc, Beh::Stop)?),
    }
}

fn push_asked(alloc: Global, letters: &[u8], offers: &mut Vec<Offer>) -> Result<(), NoMemory> {
    if let [letter, spelled, ..] = letters {
        offers.push(Offer::Ask(variable(alloc, *letter, *spelled)?))?;
    }
    Ok(())
}

fn asked(alloc: Global, letters: &[u8]) -> Result<Vec<Offer>, NoMemory> {
    let mut offers = Vec::new(alloc);
    push_asked(alloc, letters, &mut offers)?;
    Ok(offers)
}

fn asking(alloc: Global, letters: &[u8], parts: &mut Vec<Rc<Beh>>) -> Result<Beh, NoMemory> {
    let next = taken(alloc, parts)?;
    Ok(Beh::Action {
        gate: 0,
        offers: asked(alloc, letters)?,
        test: None,
        next,
    })
}

fn binding(alloc: Global, letter: u8, value: u8) -> Result<(Variable, Sorted), NoMemory> {
    let value = term(alloc, value)?;
    Ok((variable(alloc, letter, letter)?, value))
}

fn push_bound(
    alloc: Global,
    letters: &[u8],
    bindings: &mut Vec<(Variable, Sorted)>,
) -> Result<(), NoMemory> {
    if let [letter, value, ..] = letters {
        bindings.push(binding(alloc, *letter, *value)?)?;
    }
    Ok(())
}

fn bindings(alloc: Global, letters: &[u8]) -> Result<Vec<(Variable, Sorted)>, NoMemory> {
    let mut made = Vec::new(alloc);
    push_bound(alloc, letters, &mut made)?;
    Ok(made)
}

fn bound(alloc: Global, letters: &[u8], parts: &mut Vec<Rc<Beh>>) -> Result<Beh, NoMemory> {
    let next = taken(alloc, parts)?;
    Ok(Beh::Let(bindings(alloc, letters)?, next))
}

fn called(alloc: Global, letters: &[u8]) -> Result<Beh, NoMemory> {
    let values = terms(alloc, letters)?;
    Ok(Beh::Call {
        place: PLACE,
        process: 0,
        gates: Vec::new(alloc),
        values,
    })
}

fn behaviour(alloc: Global, word: &str, parts: &mut Vec<Rc<Beh>>) -> Result<Beh, NoMemory> {
    match word.as_bytes() {
        b"stop" => Ok(Beh::Stop),
        [b'?', letters @ ..] => asking(alloc, letters, parts),
        [b'l', b'e', b't', b':', letters @ ..] => bound(alloc, letters, parts),
        [b'c', b'a', b'l', b'l', b':', letters @ ..] => called(alloc, letters),
        _ => {
            let right = taken(alloc, parts)?;
            Ok(Beh::Parallel(PLACE, Meet::Nothing, taken(alloc, parts)?, right))
        }
    }
}

// The node that is put on top last, or `stop` where there is none.
fn side(alloc: Global, nodes: &mut Vec<Rc<Node>>) -> Result<Rc<Node>, NoMemory> {
    match nodes.pop() {
        Some(node) => Ok(node),
        None => Ok(Rc::new(alloc, Node::Stop)?),
    }
}

fn beside(alloc: Global, nodes: &mut Vec<Rc<Node>>) -> Result<Node, NoMemory> {
    let right = side(alloc, nodes)?;
    Ok(Node::Parallel(Meet::Nothing, side(alloc, nodes)?, right))
}

fn called_node(alloc: Global, letters: &[u8]) -> Result<Node, NoMemory> {
    let values = terms(alloc, letters)?;
    Ok(Node::Call {
        process: 0,
        gates: Vec::new(alloc),
        values,
    })
}

fn with_values(alloc: Global, letters: &[u8], parts: &mut Vec<Rc<Beh>>) -> Result<Node, NoMemory> {
    let part = taken(alloc, parts)?;
    Ok(Node::Part(part, environment(alloc, letters)?))
}

fn push_node(alloc: Global, made: Node, nodes: &mut Vec<Rc<Node>>) -> Result<(), NoMemory> {
    nodes.push(Rc::new(alloc, made)?)?;
    Ok(())
}

// Puts the node or the behaviour of the word on top.
fn put(
    alloc: Global,
    word: &str,
    parts: &mut Vec<Rc<Beh>>,
    nodes: &mut Vec<Rc<Node>>,
) -> Result<(), NoMemory> {
    match word.as_bytes() {
        b"Stop" => push_node(alloc, Node::Stop, nodes),
        b"Beside" => push_node(alloc, beside(alloc, nodes)?, nodes),
        [b'C', b'a', b'l', b'l', b':', letters @ ..] => {
            push_node(alloc, called_node(alloc, letters)?, nodes)
        }
        [b'w', b'i', b't', b'h', b':', letters @ ..] => {
            push_node(alloc, with_values(alloc, letters, parts)?, nodes)
        }
        _ => {
            let part = behaviour(alloc, word, parts)?;
            parts.push(Rc::new(alloc, part)?)?;
            Ok(())
        }
    }
}

// The node of the words over these behaviours and nodes.
fn built(
    alloc: Global,
    text: &str,
    parts: &mut Vec<Rc<Beh>>,
    nodes: &mut Vec<Rc<Node>>,
) -> Result<Rc<Node>, NoMemory> {
    for word in text.split(' ') {
        put(alloc, word, parts, nodes)?;
    }
    side(alloc, nodes)
}

// The node of the words.
fn node(alloc: Global, text: &str) -> Result<Rc<Node>, NoMemory> {
    let mut parts = Vec::new(alloc);
    let mut nodes = Vec::new(alloc);
    built(alloc, text, &mut parts, &mut nodes)
}

// Whether it is told, from both sides, if the node of the words is the same as this one.
fn is_told(alloc: Global, one: &Rc<Node>, words: &str, same: bool) -> Result<bool, NoMemory> {
    let other = node(alloc, words)?;
    Ok(one.same(&other) == same && other.same(one) == same)
}

// Whether the case of the line holds.
fn holds(alloc: Global, line: &str) -> Result<bool, NoMemory> {
    let same = line.contains(" == ");
    let sign = if same { " == " } else { " != " };
    let (left, right) = line.split_once(sign).unwrap_or((line, ""));
    let one = node(alloc, left)?;
    is_told(alloc, &one, right, same)
}

#[test]
fn identical_behaviours_are_told(rt: HostRuntime) -> Result<(), Fail> {
    for line in CASES.lines() {
        assert!(rt; holds(rt.alloc(), line)?, "{line}");
    }
    Ok(())
}
