//! The order in which types are flattened.

ghost use Rattle.std.specs.Prelude.{IfOk};
ghost use Rattle.type_definitions.specs.GraphView.{graph_of};
ghost use Rattle.type_definitions.specs.Ordered.{IsOrdered};

use crate::cycles::first_on_cycle;
use crate::graph::MentionGraph;
use crate::walk::{Progress, come_to};
use lotos_base::NoMemory;
use std::alloc::Global;

/// The order of flattening, or what stands against it.
#[derive(Debug, Drop)]
pub enum Ordered {
    /// The numbers of all types, each after those of the types that it mentions.
    InOrder(Vec<usize>),
    /// The first mention on a cycle.
    Cyclic {
        /// The number of the type that has it.
        by: usize,
        /// Its position among the mentions of the type.
        position: usize,
    },
}

/// The order in which the types are flattened: text order, but each after those that it mentions.
pub fn flattening_order(alloc: Global, graph: &MentionGraph) -> Result<Ordered, NoMemory>
    ensures { IfOk result (λ ordered. IsOrdered (graph_of graph.now) ordered) }
{
    let mut progress = vec![in alloc; Progress::Unseen; graph.len()]?;
    let mut order = Vec::new(alloc);
    for root in 0..graph.len() {
        let cyclic = come_to(alloc, graph, progress.as_mut_slice(), &mut order, root)?;
        if cyclic {
            let (by, position) = first_on_cycle(alloc, graph)?;
            return Ok(Ordered::Cyclic { by, position });
        }
    }
    Ok(Ordered::InOrder(order))
}
