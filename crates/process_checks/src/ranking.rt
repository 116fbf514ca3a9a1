//! The call that gives ranks, or refuses unguarded recursion.

ghost use Rattle.behaviour_tree.specs.DefinitionView.{specification_of};
ghost use Rattle.behaviour_semantics.specs.Guardedness.{IsGuarded};
ghost use Rattle.process_checks.specs.Calls.{call_graph_of};
ghost use Rattle.process_checks.specs.Cycles.{IsFirstBack};
ghost use Rattle.process_checks.specs.Graph.{IsCallAt, LiesOnCycle};
ghost use Rattle.process_checks.specs.GraphView.{lists_of};
ghost use Rattle.process_checks.specs.Ranks.{AreRanksOf, IsCyclic, IsSiteAt, RefusesRanks};
ghost use Rattle.process_checks.specs.Ways.{AreDistances, CallsHaveCycle};
ghost use Rattle.std.specs.Prelude.{
  ◌≡◌,
  ◌+◌,
  ◌<◌,
  ◌^◌,
  ℕ,
  IfErr,
  IfOk,
  MatchResult,
  length,
};

use crate::calls::{call_graph, sites};
use crate::cycles::{Back, first_back, kept_cycle};
use crate::distances::{callers, distances};
use crate::rank_table::{RankFault, Ranks};
use crate::search::order;
use behaviour_tree::Spec;
use lotos_base::{NoMemory, Place};
use std::alloc::Global;

/// Ranks of the processes: each is greater than those of the processes that the body calls
/// unguarded. `Unguarded` comes exactly where unguarded calls make a cycle. A specification of
/// 4,294,967,295 processes or more has no ranks for want of memory.
pub fn ranks(alloc: Global, spec: &Spec) -> Result<Ranks, RankFault>
    ensures exact { MatchResult result (λ ranks. AreRanksOf spec.now ranks)
        (λ fault. RefusesRanks spec.now fault) }
    ensures guarded { IfOk result (λ _. IsGuarded (specification_of spec.now).processes) }
    ensures unguarded { IfErr result
        (λ fault. IsCyclic fault → IsGuarded (specification_of spec.now).processes → ⊥) }
{
    let graph = call_graph(alloc, &spec.processes)?;
    if graph.len() >= u32::MAX as usize {
        return Err(RankFault::NoMemory);
    }
    match order(alloc, &graph)? {
        Some(of_process) => Ok(Ranks::of(of_process)),
        None => Err(unguarded(alloc, spec, &graph)?),
    }
}

// The refusal of a graph that has a cycle.
fn unguarded(alloc: Global, spec: &Spec, graph: &Vec<Vec<u32>>) -> Result<RankFault, NoMemory>
    requires graph { lists_of graph.now.items ≡ call_graph_of spec.now.processes.items }
    requires cyclic { CallsHaveCycle (lists_of graph.now.items) }
    requires room { length graph.now.items + 1 < 2 ^ 32 }
    ensures { IfOk result (λ fault. RefusesRanks spec.now fault) }
{
    let callers = callers(alloc, graph)?;
    for process in 0..graph.len() as u32 {
        let distances = distances(alloc, graph, &callers, process)?;
        if let Some(back) = first_back(graph, &distances, process) {
            return refusal(alloc, spec, graph, &distances, process, back);
        }
    }
    unreachable!()
}

// The refusal at the first call that lies on a cycle.
fn refusal(
    alloc: Global,
    spec: &Spec,
    graph: &Vec<Vec<u32>>,
    distances: &Vec<Option<u32>>,
    process: u32,
    back: Back,
) -> Result<RankFault, NoMemory>
    requires graph { lists_of graph.now.items ≡ call_graph_of spec.now.processes.items }
    requires distances { AreDistances (lists_of graph.now.items) process distances.now.items }
    requires back { IsFirstBack (lists_of graph.now.items) distances.now.items process back }
    requires first { (earlier k : ℕ) → earlier < process
        → LiesOnCycle (lists_of graph.now.items) earlier k → ⊥ }
    ensures { IfOk result (λ fault. RefusesRanks spec.now fault) }
{
    let cycle = kept_cycle(alloc, graph, distances, process, back)?;
    let place = place_of(alloc, spec, process, back.position)?;
    Ok(RankFault::Unguarded {
        place,
        process,
        cycle,
    })
}

// The place of a call.
fn place_of(alloc: Global, spec: &Spec, process: u32, position: usize) -> Result<Place, NoMemory>
    requires { (called : ℕ) × IsCallAt (call_graph_of spec.now.processes.items) process
        position called }
    ensures { IfOk result (λ place. IsSiteAt spec.now process position place) }
{
    let calls = sites(alloc, &spec.processes[process as usize].body)?;
    Ok(calls[position].place)
}
