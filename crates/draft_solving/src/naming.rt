//! Names of variables. A draft is solved under numbers of its own, each of which has a name: the
//! number that the draft knows it by. So of two variables that become one, either may be replaced,
//! and only the name of the other one changes.

ghost use Rattle.draft_solving.specs.Changing.{found_of};
ghost use Rattle.draft_solving.specs.Naming.{name_for, smaller as smaller_of, TurnsRound};
ghost use Rattle.lotos_base.specs.Signature.{Signature, IsSort};
ghost use Rattle.lotos_base.specs.Term.{variable};
ghost use Rattle.sort_terms.specs.ProfiledTerm.{IsOf};
ghost use Rattle.sort_terms.specs.SortedView.{profiled_in};
ghost use Rattle.std.specs.Prelude.{◌≡◌, ℕ, IfOk, length, slice_set};

use crate::places::Places;
use lotos_base::NoMemory;
use sort_terms::{Sorted, Term};
use std::alloc::Global;

/// The numbers below the count, each named by itself.
pub fn own_names(alloc: Global, count: usize) -> Result<Vec<u64>, NoMemory>
    ensures size { IfOk result (λ made. length made.items ≡ count) }
    ensures own { IfOk result (λ made. (n : ℕ) → name_for made.items n ≡ n) }
{
    let mut names = Vec::with_capacity(alloc, count)?;
    for i in 0..count {
        names.push(i as u64)?;
    }
    Ok(names)
}

/// The replacement, or where a variable is put for a variable the one that fewer conditions have:
/// that one is replaced by the other, which gets the smaller of both names.
pub fn turned(found: (u64, Sorted), names: &mut Vec<u64>, places: &Places) -> (u64, Sorted)
    ensures turned { TurnsRound names.old.items (found_of found) names.new.items (found_of result) }
    ensures is_of { (signature : Signature) → IsOf signature (profiled_in found.1)
        → IsOf signature (profiled_in result.1) }
{
    let other = match found.1.term() {
        Term::Var { number, sort } => Some((*number, *sort)),
        Term::Node { .. } => None,
    };
    match other {
        Some((second, sort)) => turned_variable(found.0, second, sort, names, places),
        None => found,
    }
}

// The same of two variables of the sort.
fn turned_variable(
    first: u64,
    second: u64,
    sort: u32,
    names: &mut Vec<u64>,
    places: &Places,
) -> (u64, Sorted)
    ensures turned { TurnsRound names.old.items (first, variable second sort) names.new.items
        (found_of result) }
    ensures is_of { (signature : Signature) → IsSort signature sort
        → IsOf signature (profiled_in result.1) }
{
    let name = smaller(name_of(names, first), name_of(names, second));
    if places.count(second) < places.count(first) {
        set_name(names, first, name);
        return (
            second,
            Sorted::of(Term::Var {
                number: first,
                sort,
            }),
        );
    }
    set_name(names, second, name);
    (
        first,
        Sorted::of(Term::Var {
            number: second,
            sort,
        }),
    )
}

// The smaller of two numbers.
fn smaller(first: u64, second: u64) -> u64
    ensures { result ≡ smaller_of first second }
{
    if first < second {
        return first;
    }
    second
}

// What the number is named.
fn name_of(names: &Vec<u64>, number: u64) -> u64
    ensures { result ≡ name_for names.now.items number }
{
    match names.get(number as usize) {
        Some(name) => *name,
        None => number,
    }
}

// Names the number.
fn set_name(names: &mut Vec<u64>, number: u64, name: u64)
    ensures { names.new.items ≡ slice_set names.old.items number name }
{
    let number = number as usize;
    if number < names.len() {
        names[number] = name;
    }
}
