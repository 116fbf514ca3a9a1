//! Functionalities as the walk keeps them.

ghost use Rattle.process_checks.specs.Exits.{functionality_in};
ghost use Rattle.process_checks.specs.Functionality.{
  are_same,
  declared_by,
  of_both,
  of_either,
  value_sort,
  variable_sort,
};
ghost use Rattle.std.specs.Prelude.{◌≡◌, IfOk, is_some, map, option_map, slice_get};

use behaviour_tree::{ExitValue, Process};
use lotos_base::NoMemory;
use sort_terms::Variable;
use std::alloc::Global;

/// The functionality of a behaviour.
#[derive(Debug, Drop)]
pub enum Found {
    /// `noexit`.
    Noexit,
    /// That which the process declares.
    Declared(u32),
    /// The sorts of the values with which the behaviour ends.
    Listed(Vec<u32>),
}

impl Found {
    /// The sorts, unless it is `noexit`.
    pub fn sorts<'a>(&'a self, processes: &'a Vec<Process>) -> Option<&'a Vec<u32>>
        ensures { option_map (λ sorts. sorts.now.items) result
            ≡ functionality_in processes.now.items self.now }
    {
        match self {
            Found::Noexit => None,
            Found::Declared(process) => declared(processes, *process),
            Found::Listed(sorts) => Some(sorts),
        }
    }

    /// Whether the behaviour ends with values, of which there may be none.
    pub fn ends(&self, processes: &Vec<Process>) -> bool
        ensures { result ≡ is_some (functionality_in processes.now.items self.now) }
    {
        self.sorts(processes).is_some()
    }
}

// The sorts that the process declares, unless it declares `noexit`.
fn declared(processes: &Vec<Process>, process: u32) -> Option<&Vec<u32>>
    ensures { option_map (λ sorts. sorts.now.items) result
        ≡ declared_by (slice_get processes.now.items process) }
{
    match processes.get(process as usize) {
        None => None,
        Some(process) => process.exit.as_ref(),
    }
}

/// Of two behaviours of which one ends.
pub fn either(processes: &Vec<Process>, left: Found, right: Found) -> Found
    ensures { functionality_in processes.now.items result
        ≡ of_either (functionality_in processes.now.items left)
        (functionality_in processes.now.items right) }
{
    if left.ends(processes) { left } else { right }
}

/// Of two behaviours that end together.
pub fn both(processes: &Vec<Process>, left: Found, right: Found) -> Found
    ensures { functionality_in processes.now.items result
        ≡ of_both (functionality_in processes.now.items left)
        (functionality_in processes.now.items right) }
{
    if right.ends(processes) {
        left
    } else {
        Found::Noexit
    }
}

/// The sorts of the values of an `exit`.
pub fn value_sorts(alloc: Global, values: &Vec<ExitValue>) -> Result<Vec<u32>, NoMemory>
    ensures { IfOk result (λ made. made.items ≡ map value_sort values.now.items) }
{
    let mut made = Vec::with_capacity(alloc, values.len())?;
    for value in values {
        made.push(sort_of(value))?;
    }
    Ok(made)
}

// The sort of a value of an `exit`.
fn sort_of(value: &ExitValue) -> u32
    ensures { result ≡ value_sort value.now }
{
    match value {
        ExitValue::Give(term) => term.sort(),
        ExitValue::Any(sort) => *sort,
    }
}

/// The sorts of variables.
pub fn variable_sorts(alloc: Global, variables: &Vec<Variable>) -> Result<Vec<u32>, NoMemory>
    ensures { IfOk result (λ made. made.items ≡ map variable_sort variables.now.items) }
{
    let mut made = Vec::with_capacity(alloc, variables.len())?;
    for variable in variables {
        made.push(variable.sort)?;
    }
    Ok(made)
}

/// Whether two lists of sorts are the same.
pub fn same(left: &[u32], right: &[u32]) -> bool
    ensures { result ≡ are_same left.now right.now }
{
    if left.len() != right.len() {
        return false;
    }
    for i in 0..left.len() {
        if left[i] != right[i] {
            return false;
        }
    }
    true
}
