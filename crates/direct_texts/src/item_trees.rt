//! Types, equations, renamings and mentions of libraries with their trees.

use crate::tree_texts::{Kind, assert_trees};
use std::test::Fail;

/// Sections in their one order, and mentions of libraries.
const TYPES: &str = "

type T is endtype
(type@6 T)
TYPE T IS EndType
(type@6 T)
type T is formalopns formaleqns opns eqns endtype
(type@6 T)
type T is formaleqns endtype
(type@6 T)
type T is U endtype
(type@6 T {U@11})
type T is U, V, W eqns endtype
(type@6 T {U@11 V@14 W@17})
type T is sorts A opns a : -> A endtype
(type@6 T sorts{A@17} opns (a@24 -> A@31))
type T is opns a, _b_, + : A, B -> C _*_ : C, C -> C 0 : -> N endtype
(type@6 T opns (a@16 A@28 B@31 -> C@36) (_b_@20 A@28 B@31 -> C@36) (+@24 A@28 B@31 -> C@36) (_*_@39 C@44 C@47 -> C@52) (0@54 -> N@61))
type T is U, V formalsorts E, F G formalopns e : -> E formaleqns ofsort E e = e sorts S, R opns _s_ : R, R -> S eqns ofsort S s = s endtype
(type@6 T {U@11 V@14} formalsorts{E@28 F@31 G@33} formalopns (e@46 -> E@53) formaleqns{} (ofsort@73 E {} {@75 e@75 e@79}) sorts{S@87 R@90} opns (_s_@98 R@103 R@106 -> S@111) eqns{} (ofsort@125 S {} {@127 s@127 s@131}))
type T is formalopns f : E -> E endtype
(type@6 T formalopns (f@22 E@26 -> E@31))
type T is formalsorts E sorts E formalsort endtype
(type@6 T formalsorts{E@23} sorts{E@31 formalsort@33})
library A, B endlib type T is endtype library C endlib type U is T endtype
(library@1 {A@9 B@12}) (type@26 T) (library@39 {C@47}) (type@61 U {T@66})
type T is eqns endtype type T is sorts T endtype
(type@6 T) (type@29 T sorts{T@40})";

/// Names between commas, and lists in which commas may be left out.
const NAMES: &str = "library a endlib
(library@1 {a@9})
library a, B_1 , c__D endlib
(library@1 {a@9 B_1@12 c__D@18})
LIBRARY Boolean,boolean,BOOLEAN EndLib
(library@1 {Boolean@9 boolean@17 BOOLEAN@25})
library stop1, i0, i__1, endlib_x endlib
(library@1 {stop1@9 i0@16 i__1@20 endlib_x@26})
type T is sorts A endtype
(type@6 T sorts{A@17})
type T is sorts A B, C D endtype
(type@6 T sorts{A@17 B@19 C@22 D@24})
type T is sorts A,B C,D endtype
(type@6 T sorts{A@17 B@19 C@21 D@23})
type T is formalsorts A, B C endtype
(type@6 T formalsorts{A@23 B@26 C@28})";

/// Groups by sort, their variables, and their equations.
const EQUATIONS: &str = "type T is eqns forall x, y:S, z:R endtype
(type@6 T eqns{x@23:S@28 y@26:S@28 z@31:R@33})
type T is eqns ofsort S endtype
(type@6 T eqns{} (ofsort@23 S {}))
type T is eqns ofsort S ofsort R endtype
(type@6 T eqns{} (ofsort@23 S {}) (ofsort@32 R {}))
type T is eqns ofsort S a = b endtype
(type@6 T eqns{} (ofsort@23 S {} {@25 a@25 b@29}))
type T is eqns ofsort S a = b; endtype
(type@6 T eqns{} (ofsort@23 S {} {@25 a@25 b@29}))
type T is eqns ofsort S a = b; c = d endtype
(type@6 T eqns{} (ofsort@23 S {} {@25 a@25 b@29} {@32 c@32 d@36}))
type T is eqns ofsort S a = b; c = d; endtype
(type@6 T eqns{} (ofsort@23 S {} {@25 a@25 b@29} {@32 c@32 d@36}))
type T is eqns forall x:S ofsort S forall y:R x + y = (y - x) - y; ofsort R ofsort Q f(x of S) of Q = 0 of Q endtype
(type@6 T eqns{x@23:S@25} (ofsort@34 S {y@43:R@45} {@47 <+@49 x@47 y@51> <-@63 <-@58 y@56 x@60> y@65>}) (ofsort@75 R {}) (ofsort@84 Q {} {@86 (f@86 x@88:S@93):Q@99 0@103:Q@108}))
type T is eqns ofsort S forall x:S (x) = x endtype
(type@6 T eqns{} (ofsort@23 S {x@32:S@34} {@36 x@37 x@42}))
type T is eqns ofsort S a => b = c endtype
(type@6 T eqns{} (ofsort@23 S {} {@25 [@25 a@25] =>@27 b@30 c@34}))
type T is eqns ofsort S a = b => c = d endtype
(type@6 T eqns{} (ofsort@23 S {} {@25 [@25 a@25 b@29] =>@31 c@34 d@38}))
type T is eqns ofsort S a, b = c, (d) + e => f = g; h = a endtype
(type@6 T eqns{} (ofsort@23 S {} {@25 [@25 a@25] [@28 b@28 c@32] [@35 <+@39 d@36 e@41>] =>@43 f@46 g@50} {@53 h@53 a@57}))
type T is eqns ofsort S a = b, c => d = e endtype
(type@6 T eqns{} (ofsort@23 S {} {@25 [@25 a@25 b@29] [@32 c@32] =>@34 d@37 e@41}))
type T is eqns ofsort S a + b of S = c of S => d of S = e of S endtype
(type@6 T eqns{} (ofsort@23 S {} {@25 [@25 <+@27 a@25 b@29:S@34> c@38:S@43] =>@45 d@48:S@53 e@57:S@62}))
type T is formaleqns forall x, y:E ofsort Bool x eq x = true; x lt y => y gt x = true; endtype
(type@6 T formaleqns{x@29:E@34 y@32:E@34} (ofsort@43 Bool {} {@48 <eq@50 x@48 x@53> true@57} {@63 [@63 <lt@65 x@63 y@68>] =>@70 <gt@75 y@73 x@78> true@82}))";

/// Pairs of sorts and of operations, a new name for an old one.
const RENAMINGS: &str = "type T is U renamedby endtype
(type@6 T renames U@11 sortnames{} opnnames{})
type T is U renamedby sortnames A for B endtype
(type@6 T renames U@11 sortnames{A@33/B@39} opnnames{})
type T is U renamedby sortnames A for B C for D, E for F endtype
(type@6 T renames U@11 sortnames{A@33/B@39 C@41/D@47 E@50/F@56} opnnames{})
type T is U renamedby opnnames f for g endtype
(type@6 T renames U@11 sortnames{} opnnames{f@32/g@38})
type T is U renamedby opnnames f for g, _h_ for k + for _ * _ 0 for 1a endtype
(type@6 T renames U@11 sortnames{} opnnames{f@32/g@38 h@42/k@49 +@51/*@59 0@63/1a@69})
type T is U renamedby sortnames A for B opnnames f for g h for k endtype
(type@6 T renames U@11 sortnames{A@33/B@39} opnnames{f@50/g@56 h@58/k@64})
type T is U actualizedby V using endtype
(type@6 T actualises U@11 {V@26} sortnames{} opnnames{})
type T is U actualizedby V, W using sortnames A for B, C for D opnnames f for g, h for k endtype
(type@6 T actualises U@11 {V@26 W@29} sortnames{A@47/B@53 C@56/D@62} opnnames{f@73/g@79 h@82/k@88})
type T is U actualizedby V using opnnames _a_b_ for c_d endtype
(type@6 T actualises U@11 {V@26} sortnames{} opnnames{a_b@44/c_d@53})";

#[test]
fn items_read_as_their_trees(rt: HostRuntime) -> Result<(), Fail> {
    assert_trees(&rt, rt.alloc(), Kind::Items, TYPES)?;
    assert_trees(&rt, rt.alloc(), Kind::Items, NAMES)?;
    assert_trees(&rt, rt.alloc(), Kind::Items, EQUATIONS)?;
    assert_trees(&rt, rt.alloc(), Kind::Items, RENAMINGS)?;
    Ok(())
}
