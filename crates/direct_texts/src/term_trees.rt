//! Terms and order files with their trees.

use crate::tree_texts::{Kind, assert_trees, read_whole};
use std::test::Fail;

/// One strength, grouped to the left; `of` holds the factor before it, inner brackets first.
const TERMS: &str = "

x
x@1
x, y, z
x@1 y@4 z@7
0, 1a, +, **
0@1 1a@4 +@8 **@11
f(x)
(f@1 x@3)
f(x, 0, +)
(f@1 x@3 0@6 +@9)
f(f(f(x), y), f)
(f@1 (f@3 (f@5 x@7) y@11) f@15)
+(x, y)
(+@1 x@3 y@6)
0(x)
(0@1 x@3)
(x)
x@2
(((f)))
f@4
(f)
f@2
x + y
<+@3 x@1 y@5>
x - y - z
<-@7 <-@3 x@1 y@5> z@9>
x - (y - z)
<-@3 x@1 <-@8 y@6 z@10>>
(x - y) - z
<-@9 <-@4 x@2 y@6> z@11>
x + y * z + w
<+@11 <*@7 <+@3 x@1 y@5> z@9> w@13>
x + (y * z) + w
<+@13 <+@3 x@1 <*@8 y@6 z@10>> w@15>
x and y
<and@3 x@1 y@7>
x and y or not(z)
<or@9 <and@3 x@1 y@7> (not@12 z@16)>
x 0 y
<0@3 x@1 y@5>
x y z
<y@3 x@1 z@5>
+ + +
<+@3 +@1 +@5>
f(x) + g(y - z, (w))
<+@6 (f@1 x@3) (g@8 <-@12 y@10 z@14> w@18)>
x + + y z
<y@7 <+@3 x@1 +@5> z@9>
x of S
x@1:S@6
f(x) of S
(f@1 x@3):S@9
f(x of S) of T
(f@1 x@3:S@8):T@14
x + y of S
<+@3 x@1 y@5:S@10>
x of S + y of T
<+@8 x@1:S@6 y@10:T@15>
(x + y) of S
<+@4 x@2 y@6>:S@12
(x of S + y) of T
<+@9 x@2:S@7 y@11>:T@17
((x of S) of T) of S
x@3:S@8:T@14:S@20
(((x)) of S) of T
x@4:S@11:T@17
x of S y z of T
<y@8 x@1:S@6 z@10:T@15>
f(x, y of S, (z of T) of U) - 0 of V
<-@29 (f@1 x@3 y@6:S@11 z@15:T@20:U@26) 0@31:V@36>
x - y of S - z of T
<-@12 <-@3 x@1 y@5:S@10> z@14:T@19>
(* a *) x (* + y *) + (**) y (***)
<+@21 x@9 y@28>
f(*(*)(x)
(f@1 x@8)";

/// Items with and without a profile and a status, placed at their names.
const ITEMS: &str = "

f;
f@1
_f_;
_f_@2
_ + _;
_+_@3
_a_b_; f_1; 0; *;
_a_b_@2 f_1@8 0@13 *@16
f : -> N;
f@1(-> N)
f : A, B -> N; _g_:A,A->A; 0 : -> N; h;
f@1(A B -> N) _g_@17(A A -> A) 0@28(-> N) h@38
F : a -> Bool; f;
F@1(a -> Bool) f@16
(* first *) f (* of *) : (* A *) A -> (* B *) B (* last *) ;
f@13(A -> B)
f right;
f@1/right@3
_+_ LEFT; + Up; left right;
_+_@2/LEFT@5 +@11/Up@13 left@17/right@22
f : A, B -> N left; g : -> N; h : -> N rights;
f@1(A B -> N)/left@15 g@21(-> N) h@31(-> N)/rights@40
_f_(* a *)right(* b *);
_f_@2/right@11";

#[test]
fn terms_and_items_read_as_their_trees(rt: HostRuntime) -> Result<(), Fail> {
    assert_trees(&rt, rt.alloc(), Kind::Terms, TERMS)?;
    assert_trees(&rt, rt.alloc(), Kind::Order, ITEMS)?;
    Ok(())
}

/// Each line is its own; a tab and a carriage return are a column each.
#[test]
fn lines_and_columns_are_counted_from_one(rt: HostRuntime) -> Result<(), Fail> {
    let alloc = rt.alloc();
    let page = read_whole(alloc, Kind::Terms, "f(\n\tx,\r\n 0)\n");
    assert_eq!(rt; page.bytes().trim_ascii(), b"(f@1.1 x@2 0@3.2)".as_slice());
    let page = read_whole(alloc, Kind::Terms, "(* *) \n(*\n\n stop *) x");
    assert_eq!(rt; page.bytes().trim_ascii(), b"x@4.10".as_slice());
    let page = read_whole(alloc, Kind::Terms, "\n\r\r\tx + (* \n *)y");
    assert_eq!(rt; page.bytes().trim_ascii(), b"<+@6 x@4 y@3.4>".as_slice());
    Ok(())
}
