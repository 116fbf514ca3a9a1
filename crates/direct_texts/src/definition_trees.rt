//! Processes and specifications with their trees, and the items that are taken out of one.

use crate::tree_texts::{Kind, assert_trees};
use std::test::Fail;

/// Processes with what they declare, types and libraries among them.
const DEFINITIONS: &str = "

process P : noexit := stop endproc
(process@9 P {} {} noexit (stop@23))
PROCESS p:NOEXIT:=STOP ENDPROC
(process@9 p {} {} noexit (stop@19))
process P : exit := exit endproc
(process@9 P {} {} exit{} (exit@21))
process P[a, b](x, y:S, z:T) : exit(S, T) := exit(x, z) endproc
(process@9 P {a@11 b@14} {x@17:S@22 y@20:S@22 z@25:T@27} exit{S@37 T@40} (exit@46 x@51 z@54))
process P : noexit := stop where endproc
(process@9 P {} {} noexit (stop@23))
process P : noexit := Q where process Q : noexit := stop where process R[a] : noexit := P endproc endproc process R : noexit := stop endproc endproc
(process@9 P {} {} noexit (call@23 Q {}) (process@39 Q {} {} noexit (stop@53) (process@72 R {a@74} {} noexit (call@89 P {}))) (process@115 R {} {} noexit (stop@129)))
process P : noexit := stop endproc process P : noexit := P endproc
(process@9 P {} {} noexit (stop@23)) (process@44 P {} {} noexit (call@58 P {}))
type T is endtype process P : noexit := stop endproc library A, B endlib type U is sorts C endtype
(type@6 T) (process@27 P {} {} noexit (stop@41)) (library@54 {A@62 B@65}) (type@79 U sorts{C@90})
process P : noexit := g; hide h in P where library A endlib process Q : noexit := stop where type T is endtype endproc endproc
(process@9 P {} {} noexit (act@23 g (hide@26 {h@31} (call@36 P {}))) (library@44 {A@52}) (process@69 Q {} {} noexit (stop@83) (type@99 T)))
process P : noexit := stop [] stop endproc
(process@9 P {} {} noexit ([]@28 (stop@23) (stop@31)))";

/// Gates and variables: each variable of a list has the sort behind the list.
const VARIABLES: &str = "process P(x:S) : noexit := stop endproc
(process@9 P {} {x@11:S@13} noexit (stop@28))
process P[a](x, y : S, z : T) : noexit := stop endproc
(process@9 P {a@11} {x@14:S@21 y@17:S@21 z@24:T@28} noexit (stop@43))
process P[a, b, a] : noexit := stop endproc
(process@9 P {a@11 b@14 a@17} {} noexit (stop@32))";

/// Specifications with every part, and with the least.
const SPECIFICATIONS: &str = "specification S : noexit behaviour stop endspec
(specification@15 S {} {} noexit (stop@36))
specification S : noexit behavior stop endspec
(specification@15 S {} {} noexit (stop@35))
SPECIFICATION Big_Name:NoExit Behaviour Stop EndSpec
(specification@15 Big_Name {} {} noexit (stop@41))
specification S : noexit behaviour stop where endspec
(specification@15 S {} {} noexit (stop@36))
specification S [g] (x:N) : exit behaviour exit endspec
(specification@15 S {g@18} {x@22:N@24} exit{} (exit@44))
specification S [a, b] (x, y:T, z:U) : exit(T, U) type T is sorts T endtype library A, B endlib type U is endtype behavior exit(x, z) where type V is endtype process P[a] : noexit := stop endproc library C endlib endspec
(specification@15 S {a@18 b@21} {x@25:T@30 y@28:T@30 z@33:U@35} exit{T@45 U@48} (type@56 T sorts{T@67}) (library@77 {A@85 B@88}) (type@102 U) (exit@124 x@129 z@132) (type@146 V) (process@167 P {a@169} {} noexit (stop@184)) (library@197 {C@205}))
specification S : noexit library A endlib behaviour P >> Q where endspec
(specification@15 S {} {} noexit (library@26 {A@34}) (>>{}@55 (call@53 P {}) (call@58 Q {})))";

/// The items that are taken, in text order, and what is left of each specification.
const TAKEN: &str = "specification S : noexit behaviour stop endspec
left (specification@15 S {} {} noexit (stop@36))
specification S [g] (x:N) : exit(N) type A is endtype library B endlib behaviour exit(x) endspec
(type@42 A) (library@55 {B@63}) left (specification@15 S {g@18} {x@22:N@24} exit{N@34} (exit@82 x@87))
specification S : noexit behaviour stop where type C is sorts D endtype process P : noexit := stop endproc endspec
(type@52 C sorts{D@63}) left (specification@15 S {} {} noexit (stop@36) (process@81 P {} {} noexit (stop@95)))
specification S : noexit type A is endtype library B endlib behaviour stop where type C is endtype process P[g] : noexit := stop where library D endlib process Q : noexit := P where type E is endtype endproc type F is endtype endproc type G is endtype process R : exit := stop where type H is endtype endproc endspec
(type@31 A) (library@44 {B@52}) (type@87 C) (library@136 {D@144}) (type@188 E) (type@214 F) (type@240 G) (type@289 H) left (specification@15 S {} {} noexit (stop@71) (process@108 P {g@110} {} noexit (stop@125) (process@161 Q {} {} noexit (call@175 P {}))) (process@261 R {} {} exit{} (stop@273)))";

#[test]
fn definitions_read_as_their_trees(rt: HostRuntime) -> Result<(), Fail> {
    assert_trees(&rt, rt.alloc(), Kind::Where, DEFINITIONS)?;
    assert_trees(&rt, rt.alloc(), Kind::Where, VARIABLES)?;
    assert_trees(&rt, rt.alloc(), Kind::Specification, SPECIFICATIONS)?;
    assert_trees(&rt, rt.alloc(), Kind::Taken, TAKEN)?;
    Ok(())
}
