//! New numbers for the variables of terms.

ghost use Rattle.term_match.specs.Appearance.{counted};
ghost use Rattle.term_match.specs.NewNumbers.{AreFresh, IsByFirstAppearance, KeepsClear};
ghost use Rattle.term_match.specs.Renumbering.{new_number};
ghost use Rattle.sort_terms.specs.TermView.{term_of};
ghost use Rattle.std.specs.Prelude.{◌≡◌, ◌≤◌, ◌+◌, IfOk, false};
ghost use Rattle.lotos_base.specs.Substitution.{is_listed};

use crate::noting::{listed, note};
use lotos_base::NoMemory;
use sort_terms::Term;
use std::alloc::Global;

/// The numbers from 0 for the variables of the term, by first appearance.
pub fn by_appearance(alloc: Global, term: &Term) -> Result<Vec<(u64, u64)>, NoMemory>
    ensures { IfOk result (λ pairs. IsByFirstAppearance (new_number pairs.items)
        (term_of term.now)) }
{
    let seen = note(term, Vec::new(alloc))?;
    positions(alloc, seen.as_slice())
}

// Each number with its position.
fn positions(alloc: Global, seen: &[u64]) -> Result<Vec<(u64, u64)>, NoMemory>
    ensures { IfOk result (λ pairs. pairs.items ≡ counted 0 seen.now) }
{
    let mut made = Vec::with_capacity(alloc, seen.len())?;
    for i in 0..seen.len() {
        made.push((seen[i], i as u64))?;
    }
    Ok(made)
}

/// Numbers for the variables of the second term that no variable of the first term has.
pub fn apart(alloc: Global, first: &Term, second: &Term) -> Result<Vec<(u64, u64)>, NoMemory>
    ensures { IfOk result (λ pairs. KeepsClear (new_number pairs.items)
        (term_of first.now) (term_of second.now)) }
{
    let taken = note(first, Vec::new(alloc))?;
    let own = note(second, Vec::new(alloc))?;
    fresh(alloc, taken.as_slice(), own.as_slice())
}

// New numbers for the old ones, from 0 on without those that are taken.
fn fresh(alloc: Global, taken: &[u64], olds: &[u64]) -> Result<Vec<(u64, u64)>, NoMemory>
    ensures { IfOk result (λ pairs. AreFresh taken.now olds.now pairs.items) }
{
    let mut made = Vec::with_capacity(alloc, olds.len())?;
    let mut next = 0u64;
    for old in olds {
        let new = free_from(taken, next)?;
        made.push((*old, new))?;
        next = after(new)?;
    }
    Ok(made)
}

// The first number from this one on that is not taken.
fn free_from(taken: &[u64], from: u64) -> Result<u64, NoMemory>
    ensures { IfOk result (λ n. (from ≤ n) × (is_listed taken.now n ≡ false)) }
{
    let mut number = from;
    while listed(taken, number) {
        number = after(number)?;
    }
    Ok(number)
}

// The next number. So many variables that there is none do not fit into memory.
fn after(number: u64) -> Result<u64, NoMemory>
    ensures { IfOk result (λ next. next ≡ number + 1) }
{
    match number.checked_add(1) {
        Some(next) => Ok(next),
        None => Err(NoMemory),
    }
}
