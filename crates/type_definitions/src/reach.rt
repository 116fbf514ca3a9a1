//! The search for what a type leads to.

ghost use Rattle.std.specs.Prelude.{◌≡◌, ◌<◌, ◌∷◌, [], ℕ, true, length, IfOk, OnOk, IsTrue, ◌↔◌};
ghost use Rattle.type_definitions.specs.GraphView.{graph_of};
ghost use Rattle.type_definitions.specs.Reaching.{Sees};
ghost use Rattle.type_definitions.specs.TypeGraph.{IsOnCycle, is_among};

use crate::graph::MentionGraph;
use lotos_base::NoMemory;
use std::alloc::Global;

/// Whether the two types are one, or the first leads to the second.
pub fn reaches(
    alloc: Global,
    graph: &MentionGraph,
    from: usize,
    to: usize,
) -> Result<bool, NoMemory>
    requires { from < length (graph_of graph.now) }
    ensures { IfOk result (λ answer. IsTrue answer ↔ IsOnCycle (graph_of graph.now) to from) }
{
    let mut seen = vec![in alloc; false; graph.len()]?;
    seen[from] = true;
    let mut work = Vec::new(alloc);
    work.push(from)?;
    while let Some(number) = work.pop() {
        if number == to {
            return Ok(true);
        }
        see(graph.mentioned(number), seen.as_mut_slice(), &mut work)?;
    }
    Ok(false)
}

// The mentioned types are seen, and wait if they are new.
fn see(mentioned: &[usize], seen: &mut [bool], work: &mut Vec<usize>) -> Result<(), NoMemory>
    requires { (i : ℕ) → is_among mentioned.now i ≡ true → i < length seen.old }
    ensures { OnOk result (Sees mentioned.now seen.old work.old.items seen.new work.new.items) }
{
    for number in mentioned {
        see_one(*number, seen, work)?;
    }
    Ok(())
}

// One type is seen, and waits if it is new.
fn see_one(number: usize, seen: &mut [bool], work: &mut Vec<usize>) -> Result<(), NoMemory>
    requires { number < length seen.old }
    ensures { OnOk result (Sees (number ∷ []) seen.old work.old.items seen.new work.new.items) }
{
    if seen[number] {
        return Ok(());
    }
    work.push(number)?;
    seen[number] = true;
    Ok(())
}
