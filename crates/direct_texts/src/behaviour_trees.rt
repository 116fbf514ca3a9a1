//! Behaviours with their trees.

use crate::tree_texts::{Kind, assert_trees};
use std::test::Fail;

/// `stop`, `exit`, calls and brackets.
const ATOMS: &str = "stop
(stop@1)
exit
(exit@1)
exit(x)
(exit@1 x@6)
exit(any S, x + y of T, any T, f(any0))
(exit@1 any:S@10 <+@15 x@13 y@17:T@22> any:T@29 (f@32 any0@34))
P
(call@1 P {})
P[a]
(call@1 P {a@3})
P[a, b, a]
(call@1 P {a@3 b@6 a@9})
P(x)
(call@1 P {} x@3)
P [a, b] (x + y of S, 0)
(call@1 P {a@4 b@7} <+@13 x@11 y@15:S@20> 0@23)
(stop)
(stop@2)
(((P[a])))
(call@4 P {a@6})
( exit(x) )
(exit@3 x@8)";

/// Actions with their offers and selection predicates, the inner action, and guards.
const ACTIONS: &str = "g; stop
(act@1 g (stop@4))
g; h; i; P
(act@1 g (act@4 h (i@7 (call@10 P {}))))
i; stop
(i@1 (stop@4))
g !x; stop
(act@1 g !x@4 (stop@7))
g ?x:S; stop
(act@1 g ?x@4:S@6 (stop@9))
g ?x, y:S !z ?w:T; P
(act@1 g ?x@4:S@9 ?y@7:S@9 !z@12 ?w@15:T@17 (call@20 P {}))
g !x !y + 0 of S !f(z) of T; P
(act@1 g !x@4 !<+@9 y@7 0@11:S@16> !(f@19 z@21):T@27 (call@30 P {}))
g!x?y:S!(y);P
(act@1 g !x@3 ?y@5:S@7 !y@10 (call@13 P {}))
g !x [y]; stop
(act@1 g !x@4 [@7 y@7] (stop@11))
g ?x:S [x = y]; stop
(act@1 g ?x@4:S@6 [@9 x@9 y@13] (stop@17))
g ?x:S !0 [(x of S) + y = z of S]; P
(act@1 g ?x@4:S@6 !0@9 [@12 <+@21 x@13:S@18 y@23> z@27:S@32] (call@36 P {}))
[x] -> stop
(guard@1 [@2 x@2] (stop@8))
[x = y] -> g; P
(guard@1 [@2 x@2 y@6] (act@12 g (call@15 P {})))
[(x) + y = z] -> [w of S] -> exit
(guard@1 [@2 <+@6 x@3 y@8> z@12] (guard@18 [@19 w@19:S@24] (exit@30)))
g; [x] -> i; (h; P)
(act@1 g (guard@4 [@5 x@5] (i@11 (act@15 h (call@18 P {})))))";

/// `hide`, `let`, `choice` and `par`; all that one of them declares stands in one list.
const WORDS: &str = "hide a in P
(hide@1 {a@6} (call@11 P {}))
hide a, b, a in hide c in stop
(hide@1 {a@6 b@9 a@12} (hide@17 {c@22} (stop@27)))
let x:S = y in P
(let@1 x@5:S@7=y@11 (call@16 P {}))
let x:S = y + z of T, w:R = f(x) of R in P
(let@1 x@5:S@7=<+@13 y@11 z@15:T@20> w@23:R@25=(f@29 x@31):R@37 (call@42 P {}))
choice x:S [] stop
(choice@1 {x@8:S@10} (stop@15))
choice x, y:S, z:T [] P
(choice@1 {x@8:S@13 y@11:S@13 z@16:T@18} (call@23 P {}))
choice g in [a, b] [] P
(choice@1 g@8{a@14 b@17} (call@23 P {}))
choice g, h in [a], k in [b, c][] P
(choice@1 g@8{a@17} h@11{a@17} k@21{b@27 c@30} (call@35 P {}))
par g in [a, b] ||| P
(par@1 g@5{a@11 b@14} ||| (call@21 P {}))
par g, h in [a], k in [b] || P
(par@1 g@5{a@14} h@8{a@14} k@18{b@24} || (call@30 P {}))
par g in [a] |[b, c]| P
(par@1 g@5{a@11} |[{b@16 c@19}]| (call@23 P {}))
par g in [a] |[]| P
(par@1 g@5{a@11} |[{}]| (call@19 P {}))
g; hide a in let x:S = y in choice z:S [] choice h in [a] [] par k in [h] || i; [x] -> P
(act@1 g (hide@4 {a@9} (let@14 x@18:S@20=y@24 (choice@29 {z@36:S@38} (choice@43 h@50{a@56} (par@62 k@66{h@72} || (i@78 (guard@81 [@82 x@82] (call@88 P {})))))))))";

/// From the weakest: `>>`, `[>`, the parallel signs, `[]`; each groups to the right, and a word
/// form reaches as far right as it can.
const SIGNS: &str = "P [] Q
([]@3 (call@1 P {}) (call@6 Q {}))
P ||| Q
(|||@3 (call@1 P {}) (call@7 Q {}))
P || Q
(||@3 (call@1 P {}) (call@6 Q {}))
P |[a, b]| Q
(|[{a@5 b@8}]|@3 (call@1 P {}) (call@12 Q {}))
P |[]| Q
(|[{}]|@3 (call@1 P {}) (call@8 Q {}))
P [> Q
([>@3 (call@1 P {}) (call@6 Q {}))
P >> Q
(>>{}@3 (call@1 P {}) (call@6 Q {}))
P >> accept x, y:S, z:T in Q
(>>{x@13:S@18 y@16:S@18 z@21:T@23}@3 (call@1 P {}) (call@28 Q {}))
P[]Q
([]@2 (call@1 P {}) (call@4 Q {}))
P[a]|||Q
(|||@5 (call@1 P {a@3}) (call@8 Q {}))
P |[a]| Q[b]|||R
(|[{a@5}]|@3 (call@1 P {}) (|||@13 (call@9 Q {b@11}) (call@16 R {})))
P |[(*]*)a(*]|*)]| Q
(|[{a@10}]|@3 (call@1 P {}) (call@20 Q {}))
P [] Q [] R
([]@3 (call@1 P {}) ([]@8 (call@6 Q {}) (call@11 R {})))
P >> Q >> R
(>>{}@3 (call@1 P {}) (>>{}@8 (call@6 Q {}) (call@11 R {})))
P [> Q [> R
([>@3 (call@1 P {}) ([>@8 (call@6 Q {}) (call@11 R {})))
P ||| Q || R |[a]| S
(|||@3 (call@1 P {}) (||@9 (call@7 Q {}) (|[{a@16}]|@14 (call@12 R {}) (call@20 S {}))))
P |[a]| Q || R ||| S
(|[{a@5}]|@3 (call@1 P {}) (||@11 (call@9 Q {}) (|||@16 (call@14 R {}) (call@20 S {}))))
P ||| Q [] R
(|||@3 (call@1 P {}) ([]@9 (call@7 Q {}) (call@12 R {})))
P [] Q ||| R
(|||@8 ([]@3 (call@1 P {}) (call@6 Q {})) (call@12 R {}))
P || Q [] R [] S || T
(||@3 (call@1 P {}) (||@18 ([]@8 (call@6 Q {}) ([]@13 (call@11 R {}) (call@16 S {}))) (call@21 T {})))
P >> Q [> R ||| S [] T
(>>{}@3 (call@1 P {}) ([>@8 (call@6 Q {}) (|||@13 (call@11 R {}) ([]@19 (call@17 S {}) (call@22 T {})))))
P [] Q |[a]| R [> S >> T
(>>{}@21 ([>@16 (|[{a@10}]|@8 ([]@3 (call@1 P {}) (call@6 Q {})) (call@14 R {})) (call@19 S {})) (call@24 T {}))
P [> Q >> R [> S
(>>{}@8 ([>@3 (call@1 P {}) (call@6 Q {})) ([>@13 (call@11 R {}) (call@16 S {})))
P [] Q >> R [] S >> T
(>>{}@8 ([]@3 (call@1 P {}) (call@6 Q {})) (>>{}@18 ([]@13 (call@11 R {}) (call@16 S {})) (call@21 T {})))
P [> Q ||| R [> S
([>@3 (call@1 P {}) ([>@14 (|||@8 (call@6 Q {}) (call@12 R {})) (call@17 S {})))
P [] Q [> R [] S ||| T [> U
([>@8 ([]@3 (call@1 P {}) (call@6 Q {})) ([>@24 (|||@18 ([]@13 (call@11 R {}) (call@16 S {})) (call@22 T {})) (call@27 U {})))
P >> accept x:S in Q [] R >> accept y:S in T ||| U
(>>{x@13:S@15}@3 (call@1 P {}) (>>{y@37:S@39}@27 ([]@22 (call@20 Q {}) (call@25 R {})) (|||@46 (call@44 T {}) (call@50 U {}))))
(P [] Q) [] R
([]@10 ([]@4 (call@2 P {}) (call@7 Q {})) (call@13 R {}))
P [] (Q >> R) [] S
([]@3 (call@1 P {}) ([]@15 (>>{}@9 (call@7 Q {}) (call@12 R {})) (call@18 S {})))
((P >> Q) ||| (R)) || S
(||@20 (|||@11 (>>{}@5 (call@3 P {}) (call@8 Q {})) (call@16 R {})) (call@23 S {}))
g; P [] h; Q
([]@6 (act@1 g (call@4 P {})) (act@9 h (call@12 Q {})))
g; h; P >> i; Q [> R
(>>{}@9 (act@1 g (act@4 h (call@7 P {}))) ([>@17 (i@12 (call@15 Q {})) (call@20 R {})))
g; (P [] Q) ||| R
(|||@13 (act@1 g ([]@7 (call@5 P {}) (call@10 Q {}))) (call@17 R {}))
[x] -> P ||| [y] -> g; Q
(|||@10 (guard@1 [@2 x@2] (call@8 P {})) (guard@14 [@15 y@15] (act@21 g (call@24 Q {}))))
hide a in P [] Q
(hide@1 {a@6} ([]@13 (call@11 P {}) (call@16 Q {})))
(hide a in P) [] Q
([]@15 (hide@2 {a@7} (call@12 P {})) (call@18 Q {}))
P [] hide a in Q ||| R >> S
([]@3 (call@1 P {}) (hide@6 {a@11} (>>{}@24 (|||@18 (call@16 Q {}) (call@22 R {})) (call@27 S {}))))
P >> Q ||| let x:S = y in R >> T
(>>{}@3 (call@1 P {}) (|||@8 (call@6 Q {}) (let@12 x@16:S@18=y@22 (>>{}@29 (call@27 R {}) (call@32 T {})))))
g; hide a in P [] Q
(act@1 g (hide@4 {a@9} ([]@16 (call@14 P {}) (call@19 Q {}))))
P [] [x] -> g; choice y:S [] Q [] R
([]@3 (call@1 P {}) (guard@6 [@7 x@7] (act@13 g (choice@16 {y@23:S@25} ([]@32 (call@30 Q {}) (call@35 R {}))))))
P ||| choice h in [a] [] Q >> R
(|||@3 (call@1 P {}) (choice@7 h@14{a@20} (>>{}@28 (call@26 Q {}) (call@31 R {}))))
P [> Q || par h in [a] ||| R [] S
([>@3 (call@1 P {}) (||@8 (call@6 Q {}) (par@11 h@15{a@21} ||| ([]@30 (call@28 R {}) (call@33 S {})))))
(P ||| hide a in Q [> R) >> S
(>>{}@26 (|||@4 (call@2 P {}) (hide@8 {a@13} ([>@20 (call@18 Q {}) (call@23 R {})))) (call@29 S {}))
P [] choice x:S [] Q ||| choice y:T [] R
([]@3 (call@1 P {}) (choice@6 {x@13:S@15} (|||@22 (call@20 Q {}) (choice@26 {y@33:T@35} (call@40 R {})))))
P ; Q
(act@1 P (call@5 Q {}))";

#[test]
fn behaviours_read_as_their_trees(rt: HostRuntime) -> Result<(), Fail> {
    assert_trees(&rt, rt.alloc(), Kind::Behaviour, ATOMS)?;
    assert_trees(&rt, rt.alloc(), Kind::Behaviour, ACTIONS)?;
    assert_trees(&rt, rt.alloc(), Kind::Behaviour, WORDS)?;
    assert_trees(&rt, rt.alloc(), Kind::Behaviour, SIGNS)?;
    Ok(())
}
