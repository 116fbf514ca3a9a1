//! The first call that lies on a cycle, and the cycle that is kept of it.

ghost use Rattle.process_checks.specs.Cycles.{IsBackAt, IsFirstBack, IsNextNear};
ghost use Rattle.process_checks.specs.Graph.{IsCallAt, IsKeptCycle};
ghost use Rattle.process_checks.specs.GraphView.{lists_of};
ghost use Rattle.process_checks.specs.Ways.{AreDistances, distance_in};
ghost use Rattle.std.specs.Prelude.{◌≡◌, ◌↔◌, ℕ, IfOk, IsTrue, MatchOption, None, Some};

use crate::distances::distance;
use crate::graph::{call, call_count};
use lotos_base::NoMemory;
use std::alloc::Global;

/// A call from which calls lead back to its process.
#[derive(Clone, Copy, Debug, PartialEq, Eq)]
pub struct Back {
    /// The position of the call.
    pub position: usize,
    /// The called process.
    pub process: u32,
    /// How many more calls lead back.
    pub distance: u32,
}

/// The first call of the process from which calls lead back, by the distances to this process.
pub fn first_back(graph: &Vec<Vec<u32>>, distances: &Vec<Option<u32>>, process: u32) -> Option<Back>
    ensures { MatchOption result
        ((k other : ℕ) → IsCallAt (lists_of graph.now.items) process k other
        → distance_in distances.now.items other ≡ None)
        (λ back. IsFirstBack (lists_of graph.now.items) distances.now.items process back) }
{
    for position in 0..call_count(graph, process) {
        if let Some(back) = back_at(graph, distances, process, position) {
            return Some(back);
        }
    }
    None
}

// The call at the position, if calls lead back from it.
fn back_at(
    graph: &Vec<Vec<u32>>,
    distances: &Vec<Option<u32>>,
    process: u32,
    position: usize,
) -> Option<Back>
    ensures { MatchOption result
        ((other : ℕ) → IsCallAt (lists_of graph.now.items) process position other
        → distance_in distances.now.items other ≡ None)
        (λ back. IsBackAt (lists_of graph.now.items) distances.now.items process position back) }
{
    match call(graph, process, position) {
        None => None,
        Some(other) => match distance(distances, other) {
            None => None,
            Some(distance) => Some(Back {
                position,
                process: other,
                distance,
            }),
        },
    }
}

/// The kept cycle of the call, by the distances to its process.
pub fn kept_cycle(
    alloc: Global,
    graph: &Vec<Vec<u32>>,
    distances: &Vec<Option<u32>>,
    process: u32,
    back: Back,
) -> Result<Vec<u32>, NoMemory>
    requires distances { AreDistances (lists_of graph.now.items) process distances.now.items }
    requires back { IsFirstBack (lists_of graph.now.items) distances.now.items process back }
    ensures { IfOk result (λ cycle.
        IsKeptCycle (lists_of graph.now.items) process back.position cycle.items) }
{
    let mut cycle = Vec::new(alloc);
    cycle.push(process)?;
    let mut current = back.process;
    let mut left = back.distance;
    while left > 0 {
        cycle.push(current)?;
        left -= 1;
        current = next_near(graph, distances, current, left);
    }
    Ok(cycle)
}

// The process of the first call that has the distance.
fn next_near(graph: &Vec<Vec<u32>>, distances: &Vec<Option<u32>>, process: u32, wanted: u32) -> u32
    requires { (k : ℕ) × ((other : ℕ) × (IsCallAt (lists_of graph.now.items) process k other
        × (distance_in distances.now.items other ≡ Some wanted))) }
    ensures { IsNextNear (lists_of graph.now.items) distances.now.items process wanted result }
{
    for position in 0..call_count(graph, process) {
        if let Some(other) = near_at(graph, distances, process, position, wanted) {
            return other;
        }
    }
    unreachable!()
}

// The process of the call at the position, if it has the distance.
fn near_at(
    graph: &Vec<Vec<u32>>,
    distances: &Vec<Option<u32>>,
    process: u32,
    position: usize,
    wanted: u32,
) -> Option<u32>
    ensures { MatchOption result
        ((other : ℕ) → IsCallAt (lists_of graph.now.items) process position other
        → distance_in distances.now.items other ≡ Some wanted → ⊥)
        (λ found. IsCallAt (lists_of graph.now.items) process position found
        × (distance_in distances.now.items found ≡ Some wanted)) }
{
    match call(graph, process, position) {
        None => None,
        Some(other) => {
            if has_distance(distances, other, wanted) {
                Some(other)
            } else {
                None
            }
        }
    }
}

// Whether the process has the distance.
fn has_distance(distances: &Vec<Option<u32>>, process: u32, wanted: u32) -> bool
    ensures { IsTrue result ↔ (distance_in distances.now.items process ≡ Some wanted) }
{
    match distance(distances, process) {
        None => false,
        Some(known) => known == wanted,
    }
}
