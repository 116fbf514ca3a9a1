//! The walk through the types that comes to each of them after those that it mentions.

ghost use Rattle.std.specs.Prelude.{◌≡◌, ◌<◌, ◌∷◌, ◌++◌, [], ℕ, List, true, false, length, slice_index, IfOk, MatchOption};
ghost use Rattle.type_definitions.specs.FlatteningOrder.{FlatteningComesTo};
ghost use Rattle.type_definitions.specs.GraphView.{graph_of};
ghost use Rattle.type_definitions.specs.TypeGraph.{HasCycle};
ghost use Rattle.type_definitions.specs.Walking.{
  GoesOn,
  HasNoNext,
  IsNextMention,
  IsTypeWalk,
  WalkStarts,
};

use crate::graph::MentionGraph;
use lotos_base::NoMemory;
use std::alloc::Global;

/// How far a type has come.
#[derive(Clone, Copy, Debug, PartialEq, Eq)]
pub enum Progress {
    /// The walk has not come to it.
    Unseen,
    /// It waits for types that it mentions.
    Open,
    /// It has its place in the order.
    Done,
}

impl Progress {
    ghost use Rattle.type_definitions.specs.ProgressTests.{is_done, is_in_progress};

    /// Whether it has its place in the order.
    pub fn done(self) -> bool
        ensures { result ≡ is_done self }
    {
        match self {
            Progress::Unseen => false,
            Progress::Open => false,
            Progress::Done => true,
        }
    }

    /// Whether it waits for types that it mentions.
    pub fn open(self) -> bool
        ensures { result ≡ is_in_progress self }
    {
        match self {
            Progress::Unseen => false,
            Progress::Open => true,
            Progress::Done => false,
        }
    }
}

/// A type that waits for the types that it mentions.
#[derive(Clone, Copy, Debug, PartialEq, Eq)]
pub struct Frame {
    /// The number of the type.
    pub number: usize,
    /// The position of the first mention that may not be done.
    pub next: usize,
}

/// Comes to a type: it and all that it leads to get their places in the order, or the answer is
/// `true` where a mention lies on a cycle.
pub fn come_to(
    alloc: Global,
    graph: &MentionGraph,
    progress: &mut [Progress],
    order: &mut Vec<usize>,
    root: usize,
) -> Result<bool, NoMemory>
    requires is_type { root < length (graph_of graph.now) }
    requires walk { IsTypeWalk (graph_of graph.now) progress.old order.old.items [] }
    ensures { IfOk result (λ cyclic. (cyclic ≡ true → HasCycle (graph_of graph.now))
        × (cyclic ≡ false → IsTypeWalk (graph_of graph.now) progress.new order.new.items []
        × FlatteningComesTo (graph_of graph.now) order.old.items root order.new.items)) }
{
    let mut stack = first_frame(alloc, graph, progress, order, root)?;
    while let Some(frame) = stack.pop() {
        let cyclic = go_on(graph, progress, order, &mut stack, frame)?;
        if cyclic {
            return Ok(true);
        }
    }
    Ok(false)
}

// The type waits, if it is not done already.
fn first_frame(
    alloc: Global,
    graph: &MentionGraph,
    progress: &mut [Progress],
    order: &Vec<usize>,
    root: usize,
) -> Result<Vec<Frame>, NoMemory>
    requires is_type { root < length (graph_of graph.now) }
    requires walk { IsTypeWalk (graph_of graph.now) progress.old order.now.items [] }
    ensures { IfOk result (λ stack. WalkStarts (graph_of graph.now) progress.new order.now.items
        root
        stack.items) }
{
    let mut stack = Vec::new(alloc);
    if progress[root].done() {
        return Ok(stack);
    }
    stack.push(Frame {
        number: root,
        next: 0,
    })?;
    progress[root] = Progress::Open;
    Ok(stack)
}

// One step with the type that waits on top: it is done, or the first type that it mentions and
// that is not done waits too. The answer is `true` where that one waits already.
fn go_on(
    graph: &MentionGraph,
    progress: &mut [Progress],
    order: &mut Vec<usize>,
    stack: &mut Vec<Frame>,
    frame: Frame,
) -> Result<bool, NoMemory>
    requires { IsTypeWalk (graph_of graph.now) progress.old order.old.items
        (stack.old.items ++ frame ∷ []) }
    ensures { IfOk result (λ cyclic. (cyclic ≡ true → HasCycle (graph_of graph.now))
        × (cyclic ≡ false → GoesOn (graph_of graph.now) progress.old order.old.items
        (stack.old.items ++ frame ∷ []) progress.new order.new.items stack.new.items)) }
{
    let mentioned = graph.mentioned(frame.number);
    let Some(position) = next_waiting(mentioned, progress, frame.next) else {
        order.push(frame.number)?;
        progress[frame.number] = Progress::Done;
        return Ok(false);
    };
    let number = mentioned[position];
    if progress[number].open() {
        return Ok(true);
    }
    stack.push(Frame {
        number: frame.number,
        next: position,
    })?;
    stack.push(Frame { number, next: 0 })?;
    progress[number] = Progress::Open;
    Ok(false)
}

// The position of the first mention from a position on that is not done.
fn next_waiting(mentioned: &[usize], progress: &[Progress], from: usize) -> Option<usize>
    requires { (k : ℕ) → k < length mentioned.now → slice_index mentioned.now k
        < length progress.now }
    ensures { MatchOption result (HasNoNext mentioned.now progress.now from)
        (λ position. IsNextMention mentioned.now progress.now from position) }
{
    for position in from..mentioned.len() {
        let number = mentioned[position];
        let done = progress[number].done();
        if !done {
            return Some(position);
        }
    }
    None
}
