//! The first mention on a cycle.

ghost use Rattle.std.specs.Prelude.{◌≡◌, ◌<◌, length, IfOk, MatchOption};
ghost use Rattle.type_definitions.specs.GraphView.{graph_of};
ghost use Rattle.type_definitions.specs.TypeGraph.{HasCycle, IsFirstMentionOnCycle};
ghost use Rattle.type_definitions.specs.FirstInRow.{IsFirstInRow, HasNoneInRow};

use crate::graph::MentionGraph;
use crate::reach::reaches;
use lotos_base::NoMemory;
use std::alloc::Global;

/// The first mention on a cycle, in text order: the type that has it, and its position there.
pub fn first_on_cycle(alloc: Global, graph: &MentionGraph) -> Result<(usize, usize), NoMemory>
    requires { HasCycle (graph_of graph.now) }
    ensures { IfOk result (λ found. IsFirstMentionOnCycle (graph_of graph.now) found.0 found.1) }
{
    for by in 0..graph.len() {
        let found = first_of_type(alloc, graph, by)?;
        if let Some(position) = found {
            return Ok((by, position));
        }
    }
    unreachable!()
}

// The first mention of one type that lies on a cycle.
fn first_of_type(alloc: Global, graph: &MentionGraph, by: usize) -> Result<Option<usize>, NoMemory>
    requires { by < length (graph_of graph.now) }
    ensures { IfOk result (λ found. MatchOption found (HasNoneInRow (graph_of graph.now) by)
        (λ position. IsFirstInRow (graph_of graph.now) by position)) }
{
    let mentioned = graph.mentioned(by);
    for position in 0..mentioned.len() {
        let on_cycle = reaches(alloc, graph, mentioned[position], by)?;
        if on_cycle {
            return Ok(Some(position));
        }
    }
    Ok(None)
}
