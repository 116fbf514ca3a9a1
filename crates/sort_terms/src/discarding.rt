//! What the drop of terms does, by a loop. It takes no memory: the lists that are still to be
//! dropped hang in one another.

ghost use Rattle.sort_terms.specs.ProfiledSize.{profiled_sizes};
ghost use Rattle.sort_terms.specs.TermSize.{IsTurnOf, shared_sizes, size_of, sizes_of};
ghost use Rattle.std.specs.Prelude.{◌≡◌, ◌+◌, ◌<◌, length};

use crate::operations::Op;
use crate::terms::{Arguments, Term};
use std::mem;
use std::rc::Rc;

/// What is left after a term was looked at.
pub enum Turn {
    /// A term to be looked at next, and those to be looked at behind it.
    Further(Term, Vec<Term>),
    /// Terms to be looked at, and arguments that other terms have too, if the term had some.
    Done(Vec<Term>, Option<Arguments>),
}

/// Drops an operation without arguments, one whose arguments other terms have too, or one behind
/// which nothing is left. Any other takes the terms behind it for its arguments, and stands where
/// its own first argument stood, which is next.
pub(crate) fn exchanged(
    op: u32,
    profile: Rc<Op>,
    mut arguments: Arguments,
    others: Vec<Term>,
) -> Turn
    ensures { IsTurnOf (1 + profiled_sizes arguments) (sizes_of others.items) result }
{
    if arguments.items().is_empty() {
        return Turn::Done(others, Some(arguments));
    }
    let is_last = others.is_empty();
    match arguments.put_in_place(others) {
        Err(others) => Turn::Done(others, Some(arguments)),
        Ok(list) => {
            if is_last {
                return Turn::Done(list, Some(arguments));
            }
            put_first(op, profile, arguments, list)
        }
    }
}

// Puts the operation on these arguments in place of the first term of the list, which is next.
fn put_first(op: u32, profile: Rc<Op>, arguments: Arguments, mut list: Vec<Term>) -> Turn
    requires { ¬ (0 ≡ length list.items) }
    ensures { IsTurnOf (1 + sizes_of list.items) (profiled_sizes arguments) result }
{
    let other = Term::Node {
        op,
        profile,
        arguments,
    };
    let next = mem::replace(&mut list[0], other);
    Turn::Further(next, list)
}

/// Drops a term, or a part of it, and gives what is left of it and of the others, and arguments
/// that other terms have too.
pub(crate) fn opened(first: Term, others: Vec<Term>) -> (Vec<Term>, Option<Arguments>)
    ensures { sizes_of result.0.items + shared_sizes result.1
        < size_of first + sizes_of others.items }
{
    let mut first = first;
    let mut others = others;
    loop {
        match first.turned(others) {
            Turn::Further(next, list) => {
                first = next;
                others = list;
            }
            Turn::Done(left, shared) => return (left, shared),
        }
    }
}
