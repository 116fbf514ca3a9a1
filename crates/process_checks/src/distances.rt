//! Distances to a process in a graph of calls, by a walk in breadth against the calls.

ghost use Rattle.process_checks.specs.Distances.{
  marked_processes,
  callers_marked,
  marked,
  none_known,
  one_marked,
  reach_of,
  with_call,
  with_caller,
  with_calls,
};
ghost use Rattle.process_checks.specs.Graph.{calls_at};
ghost use Rattle.process_checks.specs.GraphView.{lists_of};
ghost use Rattle.process_checks.specs.Ways.{AreCallers, AreDistances, distance_in};
ghost use Rattle.std.specs.Prelude.{
  ◌≡◌,
  ◌+◌,
  ◌<◌,
  ◌^◌,
  [],
  IfOk,
  Some,
  length,
  replicate,
  set,
  slice_get,
};

use crate::graph::{call, call_count};
use lotos_base::NoMemory;
use std::alloc::Global;

/// For each process those that call it.
pub fn callers(alloc: Global, graph: &Vec<Vec<u32>>) -> Result<Vec<Vec<u32>>, NoMemory>
    requires { length graph.now.items < 2 ^ 32 }
    ensures { IfOk result (λ made. AreCallers (lists_of graph.now.items) (lists_of made.items)) }
{
    let mut made = empty_lists(alloc, graph.len())?;
    for process in 0..graph.len() as u32 {
        add_calls(graph, process, &mut made)?;
    }
    Ok(made)
}

// So many empty lists.
fn empty_lists(alloc: Global, count: usize) -> Result<Vec<Vec<u32>>, NoMemory>
    ensures { IfOk result (λ made. lists_of made.items ≡ replicate count []) }
{
    let mut made = Vec::with_capacity(alloc, count)?;
    for _i in 0..count {
        made.push(Vec::new(alloc))?;
    }
    Ok(made)
}

// Puts the process among the callers of those that it calls.
fn add_calls(graph: &Vec<Vec<u32>>, process: u32, made: &mut Vec<Vec<u32>>) -> Result<(), NoMemory>
    ensures { IfOk result (λ _. lists_of made.new.items
        ≡ with_calls process (calls_at (lists_of graph.now.items) process)
        (lists_of made.old.items)) }
{
    for position in 0..call_count(graph, process) {
        add_call(graph, process, position, made)?;
    }
    Ok(())
}

// Puts the process among the callers of the one that its call at the position calls.
fn add_call(
    graph: &Vec<Vec<u32>>,
    process: u32,
    position: usize,
    made: &mut Vec<Vec<u32>>,
) -> Result<(), NoMemory>
    ensures { IfOk result (λ _. lists_of made.new.items
        ≡ with_call process (slice_get (calls_at (lists_of graph.now.items) process) position)
        (lists_of made.old.items)) }
{
    match call(graph, process, position) {
        None => Ok(()),
        Some(called) => add_caller(made, called, process),
    }
}

// Puts the caller among those of the process.
fn add_caller(made: &mut Vec<Vec<u32>>, process: u32, caller: u32) -> Result<(), NoMemory>
    ensures { IfOk result (λ _. lists_of made.new.items
        ≡ with_caller caller process (lists_of made.old.items)) }
{
    if let Some(list) = made.get_mut(process as usize) {
        list.push(caller)?;
    }
    Ok(())
}

/// The distance that is kept for the process, if there is one.
pub fn distance(distances: &Vec<Option<u32>>, process: u32) -> Option<u32>
    ensures { result ≡ distance_in distances.now.items process }
{
    match distances.get(process as usize) {
        None => None,
        Some(known) => *known,
    }
}

// Puts the distance of the process in its place.
fn put(distances: &mut Vec<Option<u32>>, process: u32, known: u32)
    ensures { distances.new.items ≡ set distances.old.items process (Some known) }
{
    let place = process as usize;
    if place < distances.len() {
        distances[place] = Some(known);
    }
}

/// The distances of all processes to this one, over a graph with its callers.
pub fn distances(
    alloc: Global,
    graph: &Vec<Vec<u32>>,
    callers: &Vec<Vec<u32>>,
    to: u32,
) -> Result<Vec<Option<u32>>, NoMemory>
    requires callers { AreCallers (lists_of graph.now.items) (lists_of callers.now.items) }
    requires there { to < length graph.now.items }
    requires room { length graph.now.items + 1 < 2 ^ 32 }
    ensures { IfOk result (λ made. AreDistances (lists_of graph.now.items) to made.items) }
{
    let mut made = unknown(alloc, graph.len())?;
    put(&mut made, to, 0);
    let mut frontier = Vec::new(alloc);
    frontier.push(to)?;
    let mut level = 0u32;
    while !frontier.is_empty() {
        level += 1;
        frontier = next_level(alloc, callers, &frontier, level, &mut made)?;
    }
    Ok(made)
}

// No distances.
fn unknown(alloc: Global, count: usize) -> Result<Vec<Option<u32>>, NoMemory>
    ensures { IfOk result (λ made. made.items ≡ none_known count) }
{
    Ok(vec![in alloc; None; count]?)
}

// Gives those that call a process of the frontier and have no distance the level, and lists them.
fn next_level(
    alloc: Global,
    callers: &Vec<Vec<u32>>,
    frontier: &Vec<u32>,
    level: u32,
    distances: &mut Vec<Option<u32>>,
) -> Result<Vec<u32>, NoMemory>
    ensures { IfOk result (λ next. reach_of distances.new.items next.items
        ≡ callers_marked (lists_of callers.now.items) level frontier.now.items
        (reach_of distances.old.items [])) }
{
    let mut next = Vec::new(alloc);
    for process in frontier {
        mark_callers(callers, *process, level, distances, &mut next)?;
    }
    Ok(next)
}

// The same of those that call one process.
fn mark_callers(
    callers: &Vec<Vec<u32>>,
    process: u32,
    level: u32,
    distances: &mut Vec<Option<u32>>,
    next: &mut Vec<u32>,
) -> Result<(), NoMemory>
    ensures { IfOk result (λ _. reach_of distances.new.items next.new.items
        ≡ marked_processes level (calls_at (lists_of callers.now.items) process)
        (reach_of distances.old.items next.old.items)) }
{
    for position in 0..call_count(callers, process) {
        mark_caller(callers, process, position, level, distances, next)?;
    }
    Ok(())
}

// The same of one caller.
fn mark_caller(
    callers: &Vec<Vec<u32>>,
    process: u32,
    position: usize,
    level: u32,
    distances: &mut Vec<Option<u32>>,
    next: &mut Vec<u32>,
) -> Result<(), NoMemory>
    ensures { IfOk result (λ _. reach_of distances.new.items next.new.items
        ≡ one_marked level (slice_get (calls_at (lists_of callers.now.items) process) position)
        (reach_of distances.old.items next.old.items)) }
{
    match call(callers, process, position) {
        None => Ok(()),
        Some(caller) => mark(caller, level, distances, next),
    }
}

// Gives the process the level and lists it, if it has no distance.
fn mark(
    process: u32,
    level: u32,
    distances: &mut Vec<Option<u32>>,
    next: &mut Vec<u32>,
) -> Result<(), NoMemory>
    ensures { IfOk result (λ _. reach_of distances.new.items next.new.items
        ≡ marked level process (reach_of distances.old.items next.old.items)) }
{
    match distance(distances, process) {
        Some(_) => Ok(()),
        None => {
            next.push(process)?;
            put(distances, process, level);
            Ok(())
        }
    }
}
