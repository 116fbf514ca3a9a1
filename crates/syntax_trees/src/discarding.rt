//! The drop of a specification by a loop. It takes no memory: the lists that are still to be
//! dropped hang in one another.

ghost use Rattle.std.specs.Prelude.{◌≡◌, ◌+◌, ◌<◌};
ghost use Rattle.syntax_trees.specs.Counting.{IsCountingTurnOf, declarations_by, declared_by_process, declared_in};

use crate::{InnerText, ProcessText, SpecText};
use std::mem;

/// What is left after a declaration was looked at.
#[derive(Drop)]
enum Turn {
    /// A declaration to be looked at next, and those to be looked at behind it.
    Further(InnerText, Vec<InnerText>),
    /// Declarations to be looked at.
    Done(Vec<InnerText>),
}

/// The process with other declarations of its own, and those that it had.
fn exchanged(process: ProcessText, inner: Vec<InnerText>) -> (InnerText, Vec<InnerText>)
    ensures own { result.1 ≡ process.inner }
    ensures before { declared_by_process process ≡ 1 + declared_in result.1.items }
    ensures after { declarations_by result.0 ≡ 1 + declared_in inner.items }
{
    let ProcessText {
        place,
        name,
        gates,
        params,
        func,
        body,
        inner: own,
    } = process;
    let other = ProcessText {
        place,
        name,
        gates,
        params,
        func,
        body,
        inner,
    };
    (InnerText::Process(other), own)
}

/// Drops a process that declares nothing, or behind which nothing is left. Any other takes the
/// declarations behind it for its own, and stands where its own first one stood, which is next.
fn turned(process: ProcessText, others: Vec<InnerText>) -> Turn
    ensures { IsCountingTurnOf (declared_by_process process) (declared_in others.items) result }
{
    if process.inner.is_empty() {
        return Turn::Done(others);
    }
    if others.is_empty() {
        return Turn::Done(process.inner);
    }
    let (other, mut own) = exchanged(process, others);
    let next = mem::replace(&mut own[0], other);
    Turn::Further(next, own)
}

/// Drops a declaration, or a part of it, and gives what is left of it and of the others.
fn opened(first: InnerText, others: Vec<InnerText>) -> Vec<InnerText>
    ensures { declared_in result.items < declarations_by first + declared_in others.items }
{
    let mut first = first;
    let mut others = others;
    loop {
        match first {
            InnerText::Item(_) => return others,
            InnerText::Process(process) => match turned(process, others) {
                Turn::Further(next, list) => {
                    first = next;
                    others = list;
                }
                Turn::Done(left) => return left,
            },
        }
    }
}

/// Drops a specification, however deep its processes are nested. Its behaviours and terms are
/// dropped by recursion, so they are to be no deeper than those of a text that was read. Takes no
/// memory.
pub fn discard(spec: SpecText) {
    let SpecText { inner, .. } = spec;
    let mut left = inner;
    while let Some(last) = left.pop() {
        left = opened(last, left);
    }
}
