//! Small grammars, with the answers worked out by hand.
//!
//! A grammar is written as words, one for each row: its part and then its right side, parts in
//! capitals and tokens in small letters, each by its place in the alphabet. A text is its tokens in
//! small letters.

ghost use Rattle.std.specs.Prelude.{◌≡◌, ◌<◌, All, IfOk, IsTrue};

use ll_engine::{Grammar, ParseFault, Row, Symbol, TableFault, Tree, is_well_formed, parse};
use std::alloc::{AllocError, Global};
use std::test::Fail;

fn symbol_of(letter: u8) -> Option<Symbol> {
    match letter {
        b'A'..=b'Z' => Some(Symbol::Part(u16::from(letter - b'A'))),
        b'a'..=b'z' => Some(Symbol::Token(u16::from(letter - b'a'))),
        _ => None,
    }
}

fn row_of(alloc: Global, word: &str) -> Result<Row, AllocError> {
    let mut left = 0;
    let mut right = Vec::new(alloc);
    for (place, letter) in word.as_bytes().iter().enumerate() {
        match symbol_of(*letter) {
            Some(Symbol::Part(part)) if place == 0 => left = part,
            Some(symbol) => right.push(symbol)?,
            None => {}
        }
    }
    Ok(Row { left, right })
}

fn rows_of(alloc: Global, text: &str) -> Result<Vec<Row>, AllocError> {
    let mut rows = Vec::new(alloc);
    for word in text.split_whitespace() {
        rows.push(row_of(alloc, word)?)?;
    }
    Ok(rows)
}

/// The grammar, or its fault; `None` where a number is out of range.
fn grammar_of(
    alloc: Global,
    text: &str,
    parts: u16,
    tokens: u16,
    start: u16,
) -> Result<Option<Grammar>, TableFault> {
    let rows = rows_of(alloc, text)?;
    if !is_well_formed(&rows, parts, tokens, start) {
        return Ok(None);
    }
    Ok(Some(Grammar::checked(alloc, rows, parts, tokens, start)?))
}

/// The answer of a check, in words.
fn check_shown(
    alloc: Global,
    answer: Result<Option<Grammar>, TableFault>,
) -> Result<String, AllocError> {
    match answer {
        Ok(Some(_)) => format!(in alloc; "checked"),
        Ok(None) => format!(in alloc; "out of range"),
        Err(TableFault::Barren { part }) => format!(in alloc; "barren {part}"),
        Err(TableFault::LeftCycle { part }) => format!(in alloc; "left cycle {part}"),
        Err(TableFault::Conflict { part, token }) => format!(in alloc; "conflict {part} {token}"),
        Err(TableFault::NoMemory) => format!(in alloc; "no memory"),
    }
}

/// The count that the word says, or 0.
fn count_of(word: Option<&str>) -> u16 {
    match word {
        Some(word) => word.parse::<u16>().unwrap_or(0),
        None => 0,
    }
}

/// Checks the grammar of a line `PARTS|TOKENS|START|ROWS|ANSWER` against its answer.
fn check_agrees(alloc: Global, line: &str) -> Result<bool, AllocError> {
    let mut fields = line.split('|');
    let parts = count_of(fields.next());
    let tokens = count_of(fields.next());
    let start = count_of(fields.next());
    let (Some(rows), Some(answer)) = (fields.next(), fields.next()) else {
        return Ok(false);
    };
    let shown = check_shown(alloc, grammar_of(alloc, rows, parts, tokens, start))?;
    Ok(shown.as_str() == answer)
}

/// Grammars that can be checked: an empty right side, chains of such, lists, brackets, optional
/// parts, and parts that nothing reaches.
const CHECKED: &str = "1|0|0|A|checked
1|1|0|Aa|checked
1|1|0|AaA A|checked
3|1|0|ABC BC C|checked
3|2|0|ABC Bb Ca C|checked
2|2|0|AaB B BbaB|checked
1|2|0|AaAbA A|checked
3|3|0|ABaC Bb B Cc C|checked
3|3|0|AB Bb Cc|checked
2|2|1|AaA Ab BA|checked";

/// Grammars with a fault. Two rows begin with one token; a part never ends; a part begins with
/// itself.
const ONE_FAULT: &str = "1|1|0|AaA Aa|conflict 0 0
1|1|0|AaA|barren 0
1|1|0|AAa Aa|left cycle 0
2|1|0|Aa|barren 1
2|1|0|Aa BaB|barren 1
2|2|0|Aa BBa Bb|left cycle 1
2|2|0|Aa Bb Bb|conflict 1 1
2|2|0|ABa BAb Bb|left cycle 0
1|1|0|AA Aa|left cycle 0
2|1|0|ABBAa Aa B|left cycle 0
3|3|0|Ab BaC CCb Cc|left cycle 2
2|1|0|ABa Ba B|conflict 1 0
3|2|0|ABCa Bb B Cb C|conflict 1 1
3|3|0|AaAC A CcA C|barren 1
2|3|0|AaAB A BcA B|conflict 1 2
3|1|0|AB B BC C|conflict 1 1
1|0|0|A A|conflict 0 0
3|4|0|AB AC B C|conflict 0 4";

/// The least part comes first, and of it the least token; a barren part before a left cycle before
/// a conflict.
const FIRST_FAULT: &str = "2|3|0|AcB AcB Ba Ba|conflict 0 2
1|2|0|Ab Ab Aa Aa|conflict 0 0
2|2|0|ABb AB Ba Bb|conflict 0 0
2|1|0|Aa Aa BaB|barren 1
2|1|0|AaA Ba Ba|barren 0
2|2|0|AAa Ab BbB|barren 1
2|1|0|AaA BBa Ba|barren 0
2|2|0|Aa Aa BBa Bb|left cycle 1
2|2|0|AAa Ab Ba Ba|left cycle 0
2|2|0|AaA BbB|barren 0
2|2|0|AAa Ab BBa Bb|left cycle 0
2|2|2|AaB B BbaB|out of range
1|2|0|AaB B BbaB|out of range
2|1|0|AaB B BbaB|out of range
2|65535|0|AaB B BbaB|out of range
2|65534|0|AaB B BbaB|checked";

#[test]
fn answers_of_checks(rt: HostRuntime) -> Result<(), Fail> {
    for line in CHECKED.lines() {
        assert!(rt; check_agrees(rt.alloc(), line)?, "{line}");
    }
    for line in ONE_FAULT.lines() {
        assert!(rt; check_agrees(rt.alloc(), line)?, "{line}");
    }
    for line in FIRST_FAULT.lines() {
        assert!(rt; check_agrees(rt.alloc(), line)?, "{line}");
    }
    Ok(())
}

/// The tokens of a text; what is no small letter is no token.
fn tokens_of(alloc: Global, text: &str) -> Result<Vec<u16>, AllocError> {
    let mut tokens = Vec::new(alloc);
    for letter in text.as_bytes() {
        if let Some(Symbol::Token(token)) = symbol_of(*letter) {
            tokens.push(token)?;
        }
    }
    Ok(tokens)
}

/// The derivation of the tokens, or the fault; `None` where a token is out of range.
fn parsed(alloc: Global, grammar: &Grammar, tokens: &[u16]) -> Option<Result<Tree, ParseFault>> {
    let count = grammar.tokens();
    if tokens.iter().all(|token| *token < count) {
        Some(parse(alloc, grammar, tokens))
    } else {
        None
    }
}

/// The row numbers, one after another.
fn rows_shown(alloc: Global, rows: &[u32]) -> Result<String, AllocError> {
    let mut shown = String::new(alloc);
    for row in rows {
        let digit = format!(in alloc; "{row}")?;
        shown.push_str(digit.as_str())?;
    }
    Ok(shown)
}

/// The answer of a parse: the row numbers, or the blamed place behind an `@`.
fn parse_shown(
    alloc: Global,
    answer: Option<Result<Tree, ParseFault>>,
) -> Result<String, AllocError> {
    match answer {
        Some(Ok(tree)) => rows_shown(alloc, &tree.rows),
        Some(Err(ParseFault::Unexpected { at })) => format!(in alloc; "@{at}"),
        Some(Err(ParseFault::NoMemory)) => format!(in alloc; "no memory"),
        None => format!(in alloc; "out of range"),
    }
}

/// Parses the text of a line `TEXT|ANSWER` and compares the answer.
fn parse_agrees(alloc: Global, grammar: &Grammar, line: &str) -> Result<bool, AllocError> {
    let mut fields = line.split('|');
    let (Some(text), Some(answer)) = (fields.next(), fields.next()) else {
        return Ok(false);
    };
    let tokens = tokens_of(alloc, text)?;
    let shown = parse_shown(alloc, parsed(alloc, grammar, &tokens))?;
    Ok(shown.as_str() == answer)
}

/// The first line that a parse does not agree with, if there is one; a first line in words if there
/// is no grammar.
fn disagreement<'a>(
    alloc: Global,
    rows: &str,
    start: u16,
    lines: &'a str,
) -> Result<Option<&'a str>, AllocError> {
    let Ok(Some(grammar)) = grammar_of(alloc, rows, 3, 3, start) else {
        return Ok(Some("no grammar"));
    };
    for line in lines.lines() {
        if !parse_agrees(alloc, &grammar, line)? {
            return Ok(Some(line));
        }
    }
    Ok(None)
}

/// Lists with a separator: the blamed token at the front, in the middle and at the end.
const LISTS: &str = "a|01
aba|021
ababa|0221
|@0
b|@0
ab|@2
aa|@1
abb|@2
abab|@4
abaa|@3
ca|@0";

/// The same rows from another start.
const LIST_RESTS: &str = "|1
baba|221
a|@0
bab|@3";

/// Nested brackets.
const BRACKETS: &str = "|1
ab|011
aabb|00111
abab|01011
b|@0
a|@1
aab|@3
abb|@2
aabbba|@4
aac|@2";

/// Optional parts.
const OPTIONS: &str = "a|024
ba|014
bac|013
ac|023
|@0
c|@0
bb|@1
bab|@2
acc|@2
b|@1
aa|@1";

#[test]
fn answers_of_parses(rt: HostRuntime) -> Result<(), Fail> {
    let lists = "AaB B BbaB Cc";
    assert_eq!(rt; disagreement(rt.alloc(), lists, 0, LISTS)?, None);
    assert_eq!(rt; disagreement(rt.alloc(), lists, 1, LIST_RESTS)?, None);
    assert_eq!(rt; disagreement(rt.alloc(), "AaAbA A B C", 0, BRACKETS)?, None);
    assert_eq!(rt;
        disagreement(rt.alloc(), "ABaC Bb B Cc C", 0, OPTIONS)?,
        None
    );
    Ok(())
}

/// So many opening brackets, and then so many closing ones.
fn brackets(alloc: Global, open: usize, close: usize) -> Result<Vec<u16>, AllocError> {
    let mut tokens = Vec::new(alloc);
    for _ in 0..open {
        tokens.push(0)?;
    }
    for _ in 0..close {
        tokens.push(1)?;
    }
    Ok(tokens)
}

/// How many rows derive the brackets, or the blamed place.
fn rows_or_place(alloc: Global, open: usize, close: usize) -> Result<Option<usize>, AllocError> {
    let Ok(Some(grammar)) = grammar_of(alloc, "AaAbA A", 1, 2, 0) else {
        return Ok(None);
    };
    match parsed(alloc, &grammar, &brackets(alloc, open, close)?) {
        Some(Ok(tree)) => Ok(Some(tree.rows.len())),
        Some(Err(ParseFault::Unexpected { at })) => Ok(Some(at)),
        _ => Ok(None),
    }
}

#[test]
fn two_hundred_thousand_brackets(rt: HostRuntime) -> Result<(), Fail> {
    assert_eq!(rt; rows_or_place(rt.alloc(), 100_000, 100_000)?, Some(200_001));
    assert_eq!(rt; rows_or_place(rt.alloc(), 100_000, 99_999)?, Some(199_999));
    Ok(())
}
