//! The numbers of patterns with others put for their variables.

ghost use Rattle.sort_terms.specs.TermView.{all_profiled, profiled_of};
ghost use Rattle.std.specs.Prelude.{◌≡◌, ◌≤◌, IfOk, OnOk, drop, length, take};
ghost use Rattle.term_store.specs.Cells.{AreBelow, HasOneMore, KeyStandsAt, numbered_operation_key, variable_key};
ghost use Rattle.term_store.specs.Numbered.{
  AreInstancesOf,
  IsInstanceOf,
  TakeIn,
  TakesIn,
  numbers_in,
  numbered_substitution,
};
ghost use Rattle.term_store.specs.SharedView.{keys_in};

use crate::matching::value_of;
use crate::shared::SharedTerms;
use lotos_base::NoMemory;
use sort_terms::Term;

/// The number of the term with what the pairs have put for its variables. What was not kept before
/// is kept. Numbers of arguments are put at the end of the list, and taken off again.
#[cycle(instance)]
pub fn instance(
    shared: &mut SharedTerms,
    term: &Term,
    pairs: &[(u64, u32)],
    numbers: &mut Vec<u32>,
) -> Result<u32, NoMemory>
    requires { AreBelow (length (keys_in shared.old)) (numbers_in pairs.now) }
    ensures takes { TakesIn (profiled_of term.now) (keys_in shared.old) (keys_in shared.new) }
    ensures number { IfOk result
        (λ n. IsInstanceOf (numbered_substitution pairs.now (keys_in shared.old))
        (profiled_of term.now) (keys_in shared.old) (keys_in shared.new) n) }
    ensures same { OnOk result (numbers.new.items ≡ numbers.old.items) }
{
    match term {
        Term::Var { number, sort } => match value_of(pairs, *number) {
            Some(known) => Ok(known),
            None => variable(shared, *number, *sort),
        },
        Term::Node { op, arguments, .. } => {
            let start = numbers.len();
            add_instances(shared, arguments.items(), pairs, numbers)?;
            number_behind(shared, *op, start, numbers)
        }
    }
}

// Puts the numbers of the instances of the terms at the end.
#[cycle(instance)]
fn add_instances(
    shared: &mut SharedTerms,
    terms: &Vec<Term>,
    pairs: &[(u64, u32)],
    numbers: &mut Vec<u32>,
) -> Result<(), NoMemory>
    requires { AreBelow (length (keys_in shared.old)) (numbers_in pairs.now) }
    ensures takes { TakeIn (all_profiled terms.now.items) (keys_in shared.old)
        (keys_in shared.new) }
    ensures numbers { OnOk result (AreInstancesOf
        (numbered_substitution pairs.now (keys_in shared.old)) (all_profiled terms.now.items)
        (keys_in shared.old) (keys_in shared.new) numbers.old.items numbers.new.items) }
{
    for term in terms {
        let number = instance(shared, term, pairs, numbers)?;
        numbers.push(number)?;
    }
    Ok(())
}

/// The number of a variable. This is a call of its own, as the next function is, so that an
/// operation of a pattern takes little of the stack.
#[inline(never)]
pub(crate) fn variable(shared: &mut SharedTerms, number: u64, sort: u32) -> Result<u32, NoMemory>
    ensures more { HasOneMore (keys_in shared.old) (variable_key number sort)
        (keys_in shared.new) }
    ensures stands { IfOk result
        (λ n. KeyStandsAt (keys_in shared.new) (variable_key number sort) n) }
{
    shared.variable(number, sort)
}

// The number of the operation on the terms whose numbers stand from this position on, which are
// taken off.
#[inline(never)]
fn number_behind(
    shared: &mut SharedTerms,
    op: u32,
    start: usize,
    numbers: &mut Vec<u32>,
) -> Result<u32, NoMemory>
    requires { start ≤ length numbers.old.items }
    ensures more { HasOneMore (keys_in shared.old)
        (numbered_operation_key op (drop start numbers.old.items)) (keys_in shared.new) }
    ensures stands { IfOk result (λ number. KeyStandsAt (keys_in shared.new)
        (numbered_operation_key op (drop start numbers.old.items)) number) }
    ensures left { OnOk result (numbers.new.items ≡ take start numbers.old.items) }
{
    let number = shared.number_on(op, &numbers.as_slice()[start..])?;
    numbers.truncate(start);
    Ok(number)
}
