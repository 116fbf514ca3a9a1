//! The words of a line of a data file.

use crate::escapes::expand;
use crate::faults::Fault;
use std::alloc::Global;

/// The words of a line, between single blanks; a word in double quotes may hold blanks and escapes.
pub fn words(alloc: Global, text: &str) -> Result<Vec<String>, Fault> {
    let mut made = Vec::new(alloc);
    let mut rest = text;
    // (Each word takes a byte at least.)
    for _ in 0..text.len() {
        if rest.is_empty() {
            break;
        }
        rest = match rest.strip_prefix('"') {
            Some(inside) => push_quoted(inside, &mut made)?,
            None => push_plain(rest, &mut made)?,
        };
    }
    Ok(made)
}

/// Pushes the word up to the first blank, and answers what follows this.
fn push_plain<'a>(text: &'a str, into: &mut Vec<String>) -> Result<&'a str, Fault> {
    let (word, rest) = text.split_once(' ').unwrap_or((text, ""));
    if word.is_empty() || word.contains('"') || text.ends_with(' ') {
        return Err(Fault::Malformed("words stand between single blanks"));
    }
    into.push(String::from_str(*into.allocator(), word)?)?;
    Ok(rest)
}

/// Pushes the word up to the first quote, and answers what follows this and a blank.
fn push_quoted<'a>(text: &'a str, into: &mut Vec<String>) -> Result<&'a str, Fault> {
    let Some((inside, behind)) = text.split_once('"') else {
        return Err(Fault::Malformed("a second quote is wanted"));
    };
    let mut bytes = Vec::new(*into.allocator());
    expand(inside.as_bytes(), &mut bytes)?;
    let Ok(word) = String::from_utf8(bytes) else {
        return Err(Fault::Malformed("a word is UTF-8"));
    };
    into.push(word)?;
    if behind.is_empty() {
        return Ok(behind);
    }
    match behind.strip_prefix(' ') {
        Some(rest) if !rest.is_empty() => Ok(rest),
        _ => Err(Fault::Malformed("words stand between single blanks")),
    }
}

/// The one word of the line.
pub fn one_word(alloc: Global, text: &str) -> Result<String, Fault> {
    let mut made = words(alloc, text)?;
    match (made.pop(), made.is_empty()) {
        (Some(word), true) => Ok(word),
        _ => Err(Fault::Malformed("one word is wanted")),
    }
}
