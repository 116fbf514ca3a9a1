//! The numbers of terms, by a loop.

ghost use Rattle.sort_terms.specs.TermSize.{size_of, sizes_of};
ghost use Rattle.sort_terms.specs.TermView.{profiled_of};
ghost use Rattle.std.specs.Prelude.{
  ◌≡◌,
  ◌+◌,
  ◌*◌,
  ◌<◌,
  ◌∷◌,
  ◌++◌,
  [],
  IfOk,
  OnOk,
  drop,
  map,
  reverse,
  take,
};
ghost use Rattle.term_store.specs.Cells.{HasOneMore, KeyStandsAt, numbered_operation_key};
ghost use Rattle.term_store.specs.Numbered.{IsNumberOfTerm, TakesIn};
ghost use Rattle.term_store.specs.OnTheWay.{
  halfway_of,
  KeepsTaken,
  KeepsWay,
  numbering_turns,
  numbering_turns_of,
};
ghost use Rattle.term_store.specs.SharedView.{keys_in};

use crate::instances::variable;
use crate::shared::SharedTerms;
use lotos_base::NoMemory;
use sort_terms::{Op, Term};
use std::alloc::Global;
use std::rc::Rc;

/// What is still to be done until a term has its number.
#[derive(Clone, Copy, Debug)]
pub enum Numbering<'a> {
    /// To number the first terms of a list, so many, the last one of them first.
    First(&'a Vec<Term>, usize),
    /// The operation with this number and profile, whose arguments, so many, got the last numbers,
    /// the first one last.
    Head(u32, &'a Rc<Op>, usize),
}

/// The number of the term, however deep it is. The term and its parts are kept if they were not
/// before.
pub fn number_of(alloc: Global, shared: &mut SharedTerms, term: &Term) -> Result<u32, NoMemory>
    ensures takes { TakesIn (profiled_of term.now) (keys_in shared.old) (keys_in shared.new) }
    ensures number { IfOk result (λ n. IsNumberOfTerm (profiled_of term.now) (keys_in shared.old)
        (keys_in shared.new) n) }
{
    let mut left = Vec::new(alloc);
    let mut made = Vec::new(alloc);
    let mut numbers = Vec::new(alloc);
    begin(shared, term, &mut left, &mut made)?;
    while let Some(next) = left.pop() {
        number_next(shared, next, &mut left, &mut made, &mut numbers)?;
    }
    made.pop().ok_or(NoMemory)
}

// Does what comes next, with a list for the keys of operations.
fn number_next<'a>(
    shared: &mut SharedTerms,
    next: Numbering<'a>,
    left: &mut Vec<Numbering<'a>>,
    made: &mut Vec<u32>,
    numbers: &mut Vec<u32>,
) -> Result<(), NoMemory>
    ensures way { OnOk result (KeepsWay []
        (halfway_of (keys_in shared.old) (left.old.items ++ next.entry ∷ []) made.old.items)
        (halfway_of (keys_in shared.new) left.new.items made.new.items)) }
    ensures taken { KeepsTaken []
        (halfway_of (keys_in shared.old) (left.old.items ++ next.entry ∷ []) made.old.items)
        (keys_in shared.new) }
    ensures less { OnOk result (numbering_turns_of left.new.items
        < numbering_turns next.entry + numbering_turns_of left.old.items) }
{
    match next {
        Numbering::First(terms, count) => begin_last(shared, terms, count, left, made),
        Numbering::Head(op, _, count) => {
            let number = number_above(shared, op, count, made, numbers)?;
            Ok(made.push(number)?)
        }
    }
}

// Begins with the last of the first terms, and puts those before it on the list.
fn begin_last<'a>(
    shared: &mut SharedTerms,
    terms: &'a Vec<Term>,
    count: usize,
    left: &mut Vec<Numbering<'a>>,
    made: &mut Vec<u32>,
) -> Result<(), NoMemory>
    ensures way { OnOk result (KeepsWay (map profiled_of (take count terms.now.items))
        (halfway_of (keys_in shared.old) left.old.items made.old.items)
        (halfway_of (keys_in shared.new) left.new.items made.new.items)) }
    ensures taken { KeepsTaken (map profiled_of (take count terms.now.items))
        (halfway_of (keys_in shared.old) left.old.items made.old.items) (keys_in shared.new) }
    ensures less { OnOk result (numbering_turns_of left.new.items
        < 1 + 3 * sizes_of (take count terms.now.items) + numbering_turns_of left.old.items) }
{
    if count == 0 {
        return Ok(());
    }
    let before = count - 1;
    let Some(term) = terms.get(before) else {
        return Err(NoMemory);
    };
    left.push(Numbering::First(terms, before))?;
    begin(shared, term, left, made)
}

// Numbers a variable, and puts what is to be done for an operation on the list.
fn begin<'a>(
    shared: &mut SharedTerms,
    term: &'a Term,
    left: &mut Vec<Numbering<'a>>,
    made: &mut Vec<u32>,
) -> Result<(), NoMemory>
    ensures way { OnOk result (KeepsWay (profiled_of term.now ∷ [])
        (halfway_of (keys_in shared.old) left.old.items made.old.items)
        (halfway_of (keys_in shared.new) left.new.items made.new.items)) }
    ensures taken { KeepsTaken (profiled_of term.now ∷ [])
        (halfway_of (keys_in shared.old) left.old.items made.old.items) (keys_in shared.new) }
    ensures less { OnOk result (numbering_turns_of left.new.items
        < 3 * size_of term.now + numbering_turns_of left.old.items) }
{
    match term {
        Term::Var { number, sort } => {
            let known = variable(shared, *number, *sort)?;
            Ok(made.push(known)?)
        }
        Term::Node {
            op,
            profile,
            arguments,
        } => {
            let arguments = arguments.items();
            let count = arguments.len();
            left.push(Numbering::Head(*op, profile, count))?;
            Ok(left.push(Numbering::First(arguments, count))?)
        }
    }
}

// The number of the operation on the terms that got the last numbers, so many, which are taken off.
fn number_above(
    shared: &mut SharedTerms,
    op: u32,
    count: usize,
    made: &mut Vec<u32>,
    numbers: &mut Vec<u32>,
) -> Result<u32, NoMemory>
    ensures more { HasOneMore (keys_in shared.old)
        (numbered_operation_key op (take count (reverse made.old.items))) (keys_in shared.new) }
    ensures stands { IfOk result (λ n. KeyStandsAt (keys_in shared.new)
        (numbered_operation_key op (take count (reverse made.old.items))) n) }
    ensures rest { OnOk result (reverse made.new.items ≡ drop count (reverse made.old.items)) }
{
    numbers.clear();
    take_onto(numbers, count, made)?;
    shared.number_on(op, numbers.as_slice())
}

// Puts so many of the last numbers at the end of the list, the last one first.
fn take_onto(numbers: &mut Vec<u32>, count: usize, made: &mut Vec<u32>) -> Result<(), NoMemory>
    ensures taken { OnOk result
        (numbers.new.items ≡ numbers.old.items ++ take count (reverse made.old.items)) }
    ensures rest { OnOk result (reverse made.new.items ≡ drop count (reverse made.old.items)) }
{
    for _index in 0..count {
        let Some(number) = made.pop() else {
            return Err(NoMemory);
        };
        numbers.push(number)?;
    }
    Ok(())
}
