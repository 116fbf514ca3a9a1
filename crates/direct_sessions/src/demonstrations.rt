//! Texts of few cells.

use demo_walks::demo_text;
use std::test::Fail;

const ONE: &[u8] = b"specification Demo [put, out] : noexit
library Boolean, NaturalNumber endlib
type List is NaturalNumber
sorts List
opns nil : -> List
cons : Nat, List -> List
len : List -> Nat
eqns forall x : Nat, l : List ofsort Nat
len(nil) = 0;
len(cons(x, l)) = Succ(len(l));
endtype
behaviour (
Cell[put](0)
) |[put]| Store[put, out](nil)
where
process Cell[a](n : Nat) : noexit :=
a !n ?x:Nat [x lt Succ(n)]; Cell[a](n)
endproc
process Store[a, b](l : List) : noexit :=
a ?m:Nat ?x:Nat; Store[a, b](cons(x, l)) [] b !len(l); Store[a, b](l)
endproc
endspec
";

const TWO: &[u8] = b"specification Demo [put, out] : noexit
library Boolean, NaturalNumber endlib
type List is NaturalNumber
sorts List
opns nil : -> List
cons : Nat, List -> List
len : List -> Nat
eqns forall x : Nat, l : List ofsort Nat
len(nil) = 0;
len(cons(x, l)) = Succ(len(l));
endtype
behaviour (
Cell[put](0)
||| Cell[put](Succ(0))
) |[put]| Store[put, out](nil)
where
process Cell[a](n : Nat) : noexit :=
a !n ?x:Nat [x lt Succ(n)]; Cell[a](n)
endproc
process Store[a, b](l : List) : noexit :=
a ?m:Nat ?x:Nat; Store[a, b](cons(x, l)) [] b !len(l); Store[a, b](l)
endproc
endspec
";

#[test]
fn texts_are_as_written(rt: HostRuntime) -> Result<(), Fail> {
    let alloc = rt.alloc();
    assert_eq!(rt; demo_text(alloc, 1)?.as_slice(), ONE);
    assert_eq!(rt; demo_text(alloc, 2)?.as_slice(), TWO);
    Ok(())
}

#[test]
fn cells_have_their_numbers(rt: HostRuntime) -> Result<(), Fail> {
    let text = demo_text(rt.alloc(), 4)?;
    let third = b"||| Cell[put](Succ(Succ(0)))\n||| Cell[put](Succ(Succ(Succ(0))))\n) |[put]|";
    let mut found = false;
    for start in 0..text.len() {
        if text.as_slice()[start..].starts_with(third.as_slice()) {
            found = true;
        }
    }
    assert!(rt; found);
    Ok(())
}
