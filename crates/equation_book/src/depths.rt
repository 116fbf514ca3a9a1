//! How large and how deep the values of menus and states may be.

ghost use Rattle.std.specs.Prelude.{◌≡◌, IfOk};

use lotos_base::NoMemory;
use sort_terms::{Sorted, Term};

// Menus and steps go through a value by recursion, but for the last arguments of a value without
// variables, and an operation takes up to 500 bytes of the stack, so that 8 MiB hold these.
const MOST: u32 = 10_000;

// A value may have one part in many places, and is gone through part by part where it is compared,
// numbered or printed.
const MOST_OPERATIONS: u64 = 10_000_000;

/// The value, where it has no more than 10,000,000 operations and variables and no more than 10,000
/// of its operations stand one in another, and else want of memory. In a value without variables a
/// last argument counts as no deeper than its operation.
pub fn of_held_depth(value: Sorted) -> Result<Sorted, NoMemory>
    ensures { IfOk result (λ same. same ≡ value) }
{
    if is_held(&value) {
        Ok(value)
    } else {
        Err(NoMemory)
    }
}

// Whether the value is no larger and no deeper than that.
fn is_held(value: &Sorted) -> bool {
    let facts = value.facts();
    if facts.size > MOST_OPERATIONS {
        return false;
    }
    if facts.is_ground {
        return facts.levels <= MOST as u64;
    }
    nests_within(value.term(), MOST)
}

// Whether no more operations than these stand one in another.
#[cycle(nesting)]
fn nests_within(term: &Term, levels: u32) -> bool {
    match term {
        Term::Var { .. } => true,
        Term::Node { arguments, .. } => match levels.checked_sub(1) {
            None => false,
            Some(below) => all_within(arguments.items(), below),
        },
    }
}

// Whether no more of them do in each of these.
#[cycle(nesting)]
fn all_within(terms: &Vec<Term>, levels: u32) -> bool {
    for term in terms {
        if !nests_within(term, levels) {
            return false;
        }
    }
    true
}
