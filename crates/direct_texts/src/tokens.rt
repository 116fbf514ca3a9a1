//! The lexical rules on small texts, each with what the text is cut into.
//!
//! A token is printed as a sample of its kind, with its line and column and its first byte and the
//! one past it: `stop@1.2:1-5`. Samples are words where the kind has one, and `name`, `0x` and `+`
//! for names of letters, of digits and of signs.

use lotos_lexer::{Token, lex};
use std::alloc::{AllocError, Global};
use std::test::Fail;

/// A sample of each kind, in the order of their numbers.
const SAMPLES: &str =
    "accept actualizedby any behavior behaviour choice endlib endproc endspec endtype eqns exit for forall formaleqns formalopns formalsorts hide i in is let library noexit of ofsort opnnames opns par process renamedby sortnames sorts specification stop type using where name 0x + ||| || |[ [] [> := ]| = => -> >> ( ) [ ] , ; : ! ? _";

/// Texts, and the tokens of each.
const TEXTS: &str = "specification S
specification@1.1:0-13 name@1.15:14-15
STOP stOp stopped
stop@1.1:0-4 stop@1.6:5-9 name@1.11:10-17
a__b
name@1.1:0-4
a_ 
name@1.1:0-1 _@1.2:1-2
_a
_@1.1:0-1 name@1.2:1-2
0a_1
0x@1.1:0-4
a_1__b__
name@1.1:0-6 _@1.7:6-7 _@1.8:7-8
12 x9
0x@1.1:0-2 name@1.4:3-5
i is in
i@1.1:0-1 is@1.3:2-4 in@1.6:5-7
P[a]|||Q
name@1.1:0-1 [@1.2:1-2 name@1.3:2-3 ]@1.4:3-4 |||@1.5:4-7 name@1.8:7-8
|[a]|
|[@1.1:0-2 name@1.3:2-3 ]|@1.4:3-5
|[a][b]||
|[@1.1:0-2 name@1.3:2-3 ]@1.4:3-4 [@1.5:4-5 name@1.6:5-6 ]@1.7:6-7 ||@1.8:7-9
|[(* ] *)a]|
|[@1.1:0-2 name@1.10:9-10 ]|@1.11:10-12
[]
[]@1.1:0-2
[>
[>@1.1:0-2
[[>]
[@1.1:0-1 [>@1.2:1-3 ]@1.4:3-4
:=:
:=@1.1:0-2 :@1.3:2-3
a:b
name@1.1:0-1 :@1.2:1-2 name@1.3:2-3
>>
>>@1.1:0-2
=>
=>@1.1:0-2
==
+@1.1:0-2
= -> ->> >
=@1.1:0-1 ->@1.3:2-4 +@1.6:5-8 +@1.10:9-10
x+y
name@1.1:0-1 +@1.2:1-2 name@1.3:2-3
()[],;:!?_
(@1.1:0-1 )@1.2:1-2 []@1.3:2-4 ,@1.5:4-5 ;@1.6:5-6 :@1.7:6-7 !@1.8:7-8 ?@1.9:8-9 _@1.10:9-10
a(* | $ (* *)b
name@1.1:0-1 name@1.14:13-14
(*)*)a
name@1.6:5-6
( *)
(@1.1:0-1 +@1.3:2-3 )@1.4:3-4


accept actualizedby any behavior behaviour choice endlib endproc endspec endtype eqns exit for forall formaleqns formalopns formalsorts hide i in is let library noexit of ofsort opnnames opns par process renamedby sortnames sorts specification stop type using where stopper 0x + ||| || [] [> := = => -> >> ( ) [ ] , ; : ! ? _ |[ ]|
accept@1.1:0-6 actualizedby@1.8:7-19 any@1.21:20-23 behavior@1.25:24-32 behaviour@1.34:33-42 choice@1.44:43-49 endlib@1.51:50-56 endproc@1.58:57-64 endspec@1.66:65-72 endtype@1.74:73-80 eqns@1.82:81-85 exit@1.87:86-90 for@1.92:91-94 forall@1.96:95-101 formaleqns@1.103:102-112 formalopns@1.114:113-123 formalsorts@1.125:124-135 hide@1.137:136-140 i@1.142:141-142 in@1.144:143-145 is@1.147:146-148 let@1.150:149-152 library@1.154:153-160 noexit@1.162:161-167 of@1.169:168-170 ofsort@1.172:171-177 opnnames@1.179:178-186 opns@1.188:187-191 par@1.193:192-195 process@1.197:196-203 renamedby@1.205:204-213 sortnames@1.215:214-223 sorts@1.225:224-229 specification@1.231:230-243 stop@1.245:244-248 type@1.250:249-253 using@1.255:254-259 where@1.261:260-265 name@1.267:266-273 0x@1.275:274-276 +@1.278:277-278 |||@1.280:279-282 ||@1.284:283-285 []@1.287:286-288 [>@1.290:289-291 :=@1.293:292-294 =@1.296:295-296 =>@1.298:297-299 ->@1.301:300-302 >>@1.304:303-305 (@1.307:306-307 )@1.309:308-309 [@1.311:310-311 ]@1.313:312-313 ,@1.315:314-315 ;@1.317:316-317 :@1.319:318-319 !@1.321:320-321 ?@1.323:322-323 _@1.325:324-325 |[@1.327:326-328 ]|@1.330:329-331";

// Appends a token.
fn push_token(shown: &mut String, alloc: Global, token: &Token) -> Result<(), AllocError> {
    let sample = SAMPLES
        .split(' ')
        .nth(token.kind as usize)
        .unwrap_or("none");
    let place = token.place;
    let (line, col, first, past) = (place.line, place.col, token.first, token.past);
    let text = format!(in alloc; " {sample}@{line}.{col}:{first}-{past}")?;
    shown.push_str(text.as_str())
}

// The tokens of the text.
fn cut(alloc: Global, text: &str) -> Result<String, Fail> {
    let mut shown = String::new(alloc);
    if text.len() >= 1000 {
        return Ok(shown);
    }
    for token in lex(alloc, text.as_bytes(), 7)? {
        if token.place.text == 7 {
            push_token(&mut shown, alloc, &token)?;
        }
    }
    Ok(shown)
}

#[test]
fn texts_are_cut_by_the_rules(rt: HostRuntime) -> Result<(), Fail> {
    let alloc = rt.alloc();
    let mut waiting: Option<String> = None;
    for line in TEXTS.split('\n') {
        match waiting.take() {
            None => waiting = Some(String::from_str(alloc, line)?),
            Some(text) => {
                let shown = cut(alloc, text.as_str())?;
                assert_eq!(rt; shown.as_str().trim_ascii(), line);
            }
        }
    }
    Ok(())
}

#[test]
fn blanks_and_odd_signs_are_cut(rt: HostRuntime) -> Result<(), Fail> {
    let alloc = rt.alloc();
    assert_eq!(rt; cut(alloc, " \t\r\n")?.as_str(), "");
    assert_eq!(rt; cut(alloc, "#%&*+-./<=>@\\^~{}")?.as_str(), " +@1.1:0-17");
    assert_eq!(rt;
        cut(alloc, "a\tb\n  c(*\n\n*)d\r\ne")?.as_str(),
        " name@1.1:0-1 name@1.3:2-3 name@2.3:6-7 name@4.3:13-14 name@5.1:16-17"
    );
    Ok(())
}
