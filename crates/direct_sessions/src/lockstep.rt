//! Sessions of one text side by side, one with a maker that keeps menus and one with a maker that
//! keeps none: both print the same.
//!
//! A text is the behaviour and the processes of a specification over one sort with two constants.
//! The lines of a session follow from a seed: steps with and without a value, each of which is
//! undone and asked for once more, menus, and in the end a trace that is saved, and replayed where
//! other steps were taken.

ghost use Rattle.demo_walks.specs.HandedOn.{IsLawfulSession, IsServing, book_canon};
ghost use Rattle.sort_terms.specs.EquationView.{data_of};
ghost use Rattle.sort_terms.specs.SignatureView.{signature_of};
ghost use Rattle.spec_acceptance.specs.Acceptance.{Acceptance};
ghost use Rattle.spec_acceptance.specs.AcceptedView.{HoldsAccepted};
ghost use Rattle.std.specs.Prelude.{◌≡◌, IfOk};

use crate::accepted::{accept, opened};
use demo_walks::{Book, FreshMenus, HistoryLines, MenuMaker, Session, serve_input};
use lotos_base::{MemShelf, MemSink, MemSource, NoMemory};
use menu_parts::PartMenus;
use sort_terms::{Reader, Signature};
use spec_acceptance::Accepted;
use std::alloc::Global;
use std::test::Fail;

const TEXTS: &str = "P[a] ||| P[b] where process P[x] : noexit := x; P[x] endproc
P[a, b] |[a]| (P[a, c] ||| P[b, c]) where process P[x, y] : noexit := x; y; P[x, y] endproc
hide a in (P[a, b] |[a]| P[a, c]) where process P[x, y] : noexit := x; y; P[x, y] endproc
(a; exit ||| b; exit) >> c; stop
(a; exit(d) ||| b; exit(d)) >> accept x:C in (c !x; stop ||| a !s(x); stop)
(a; b; stop ||| c; a; stop) [> (b; stop ||| c; stop)
(a; exit ||| b; exit) [> c; exit >> P[a] where process P[x] : noexit := x; stop endproc
let x:C = s(d), y:C = e in (a !x; b !y; stop ||| c !s(s(y)); stop)
par g in [a, b, c] ||| (g; g; stop)
par g in [a, b] |[c]| P[g, c](d) where process P[x, y](z:C) : noexit := x !z; y; P[x, y](s(z)) endproc
P[a] where process P[x] : noexit := x; (P[x] ||| Q[x]) endproc process Q[x] : noexit := x; x; stop endproc
P[a, b] where process P[x, y] : noexit := x; P[y, x] endproc
(hide b in P[a, b]) |[a]| P[a, c] where process P[x, y] : noexit := x; P[x, y] [] y; P[x, y] endproc
choice x:C [] ([x = d] -> a !x; stop) ||| b !d; c; stop
choice g in [a, b] [] (g; stop ||| c; g; stop)
a ?x:C [x = d]; b !x; stop |[a]| a !d; (c; stop ||| b; stop)
i; a; stop ||| (i; b; stop [] c; i; stop)
P[a, b, c](d) |[b]| P[c, b, a](e) where process P[x, y, z](v:C) : noexit := x !v; (z; stop ||| y; P[x, y, z](s(v))) endproc
(P[a] ||| P[b]) |[a, b]| (P[a] ||| P[b]) where process P[x] : noexit := x; P[x] [] x; stop endproc
P[a] |[a]| P[a] >> stop where process P[x] : exit := x; exit [] x; P[x] endproc
(let x:C = d in P[a](x)) [> b; (let y:C = s(d) in P[c](y)) where process P[x](v:C) : noexit := x !v; P[x](s(v)) endproc
(a; a; exit ||| (b; exit [> c; exit)) >> (par g in [a, b] ||| g; exit) >> c; stop
(P[a] ||| (P[b] ||| c; exit)) >> stop where process P[x] : exit := x; (exit ||| x; exit) endproc
hide a in hide b in (P[a] |[a]| P[a] ||| c; P[b]) where process P[x] : noexit := x; x; stop endproc
P[a, a] where process P[x, y] : noexit := (x; stop) |[x]| (y; stop) endproc
P[a](d) ||| Q[a, b] where process P[x](v:C) : noexit := x !v; P[x](v) [] x ?w:C; P[x](s(w)) endproc process Q[x, y] : noexit := y ?v:C [v = e]; x !v; Q[x, y] endproc";

const BUFFER: &str = "specification Buffer [inp, outp] : noexit
library Boolean, NaturalNumber endlib
type Element is Boolean
  formalsorts Elem
  formalopns _eq_ : Elem, Elem -> Bool
  formaleqns forall x : Elem ofsort Bool x eq x = true;
endtype
type List is Element
  sorts List
  opns nil : -> List
    cons : Elem, List -> List
    app : List, Elem -> List
    first : List -> Elem
    rest : List -> List
    empty : List -> Bool
  eqns forall x, y : Elem, l : List
    ofsort List
      app(nil, x) = cons(x, nil);
      app(cons(y, l), x) = cons(y, app(l, x));
      rest(nil) = nil;
      rest(cons(x, l)) = l;
    ofsort Elem first(cons(x, l)) = x;
    ofsort Bool empty(nil) = true; empty(cons(x, l)) = false;
endtype
type NatList is List actualizedby NaturalNumber using
  sortnames Nat for Elem NatList for List
endtype
behaviour hide mid in (Front[inp, mid](nil) |[mid]| Back[mid, outp](0))
where
  process Front[a, b](q : NatList) : noexit :=
    a ?x:Nat [x lt Succ(Succ(0))]; Front[a, b](app(q, x))
    [] [not(empty(q))] -> b !first(q); Front[a, b](rest(q))
  endproc
  process Back[b, c](n : Nat) : noexit :=
    b ?x:Nat; c !x + n; Back[b, c](Succ(n))
  endproc
endspec";

const STEPS: &str = "step 1 0
step 1 Succ(0)
step 2
step 2
step 2
step 1 Succ(0)
step 2
step 2
step 2
step 1 0
step 2
step 2";

// What the session prints for the input.
fn served<M: MenuMaker>(
    alloc: Global,
    lines: &mut HistoryLines<'_, M>,
    input: &str,
) -> Result<Vec<u8>, NoMemory>
    requires { IsServing M.suits lines.old }
{
    let bytes = Vec::from_slice(alloc, input.as_bytes())?;
    let mut sink = MemSink::new(alloc, 100_000, Vec::new(alloc))?;
    let mut shelf = MemShelf::new(Vec::new(alloc), Vec::new(alloc));
    let mut source = MemSource::new(bytes, Vec::new(alloc));
    serve_input(alloc, lines, &mut shelf, &mut source, &mut sink);
    copied(alloc, sink.written())
}

// The same bytes.
fn copied(alloc: Global, bytes: &[u8]) -> Result<Vec<u8>, NoMemory> {
    Ok(Vec::from_slice(alloc, bytes)?)
}

// The same of a session whose terms are over the signature.
fn told<M: MenuMaker>(
    alloc: Global,
    signature: &Signature,
    opened: (Session<M>, Book),
    input: &str,
) -> Result<Vec<u8>, NoMemory>
    requires over { signature_of signature.now ≡ signature_of opened.1.flat.signature }
    requires lawful { IsLawfulSession M.suits (data_of opened.1.flat) (book_canon opened.1)
        opened.0 }
{
    let reader = Reader::of(alloc, signature)?;
    let (session, book) = opened;
    let mut lines = HistoryLines {
        signature,
        reader,
        session,
        book,
    };
    served(alloc, &mut lines, input)
}

// What the session that begins with what was accepted prints for the input.
fn printed<M: MenuMaker>(
    alloc: Global,
    accepted: Accepted,
    maker: M,
    input: &str,
) -> Result<Vec<u8>, NoMemory>
    requires known { (acceptance : Acceptance) × HoldsAccepted acceptance accepted }
    requires suited { M.suits maker accepted.spec (data_of accepted.book.flat)
        (book_canon accepted.book) }
{
    let signature = accepted.book.flat().signature.copy()?;
    let session = opened(alloc, accepted, maker)?;
    told(alloc, &signature, session, input)
}

// What a session of the text prints with menus that are kept.
fn with_kept_menus(alloc: Global, text: &str, input: &str) -> Result<Vec<u8>, Fail> {
    let accepted = accept(alloc, text)?;
    let maker = PartMenus::open(&accepted.spec)?;
    Ok(printed(alloc, accepted, maker, input)?)
}

// What it prints with menus that are made anew.
fn with_fresh_menus(alloc: Global, text: &str, input: &str) -> Result<Vec<u8>, Fail> {
    let accepted = accept(alloc, text)?;
    Ok(printed(alloc, accepted, FreshMenus, input)?)
}

// Whether both print the same, and each of the steps was one.
fn agree(alloc: Global, text: &str, input: &str) -> Result<bool, Fail> {
    let kept = with_kept_menus(alloc, text, input)?;
    let fresh = with_fresh_menus(alloc, text, input)?;
    Ok(kept.as_slice() == fresh.as_slice() && fresh.as_slice().starts_with(b"did "))
}

// The lines that follow from the seed.
fn drawn(alloc: Global, seed: u64) -> Result<String, Fail> {
    let mut lines = String::new(alloc);
    push_drawn(alloc, &mut lines, seed)?;
    Ok(lines)
}

// Appends them.
fn push_drawn(alloc: Global, lines: &mut String, seed: u64) -> Result<(), Fail> {
    lines.push_str("step 1\nundo\nmenu\nstep 1\n")?;
    let mut number = seed;
    for _ in 0..6u32 {
        number = number
            .wrapping_mul(6_364_136_223_846_793_005)
            .wrapping_add(1_442_695_040_888_963_407);
        push_turn(alloc, lines, number >> 33)?;
    }
    lines.push_str("trace\nsave t\nundo\nundo\nmenu\nstep 1\nreplay t\nmenu\nundo\nstep 2\n")?;
    Ok(())
}

// One more step by one of the first three entries, undone and taken once more, or one with a value.
fn push_turn(alloc: Global, lines: &mut String, number: u64) -> Result<(), Fail> {
    let chosen = (number % 3).wrapping_add(1);
    let turn = format!(in alloc; "step {chosen}\nundo\nmenu\nstep {chosen}\nstep {chosen} ")?;
    lines.push_str(turn.as_str())?;
    if number % 2 == 0 {
        lines.push_str("d")?;
    } else {
        lines.push_str("e")?;
    }
    lines.push_str("\nshow\n")?;
    Ok(())
}

#[test]
fn kept_menus_are_those_made_anew(rt: HostRuntime) -> Result<(), Fail> {
    let alloc = rt.alloc();
    for behaviour in TEXTS.lines() {
        let text = format!(in alloc;
            "specification S [a, b, c] : noexit type T is sorts C opns d, e : -> C s : C -> C \
             eqns ofsort C s(d) = e; s(e) = d; endtype behaviour {behaviour} endspec"
        )?;
        for seed in 0..5 {
            let input = drawn(alloc, seed)?;
            assert!(rt; agree(alloc, text.as_str(), input.as_str())?, "{behaviour}");
        }
    }
    Ok(())
}

#[test]
fn the_buffer_with_each_step_undone(rt: HostRuntime) -> Result<(), Fail> {
    let alloc = rt.alloc();
    let mut input = String::new(alloc);
    for step in STEPS.lines() {
        let turn = format!(in alloc; "{step}\nundo\nmenu\n{step}\n")?;
        input.push_str(turn.as_str())?;
    }
    assert!(rt; agree(alloc, BUFFER, input.as_str())?);
    Ok(())
}
