//! Gate `par`s of very many gates. The shapes of their events are as deep as they have gates, and
//! what is kept of them would be copied by recursion: the menu of a state that offers such events
//! is made anew.

ghost use Rattle.shared_entries.specs.HandedOn.{AreRanksOf};

use crate::rooms::Room;
use behaviour_tree::{Beh, Node, Spec, State};
use lotos_base::NoMemory;
use shared_entries::Ranks;

/// The most gates of a `par` whose menu is kept.
pub const MANY_GATES: usize = 1_000;

/// Which states of a specification offer the events of a gate `par` of more gates. No clause speaks
/// of it: with either answer the menus are the same.
#[derive(Drop)]
pub struct Widths {
    // Whether there is such a `par` anywhere.
    are_there: bool,
    // Whether each process begins with one: no event comes before it. It is asked for late.
    first: Option<Vec<bool>>,
}

impl Widths {
    /// Those of the specification.
    pub fn of(spec: &Spec) -> Widths {
        let mut are_there = has_many(&spec.body, None);
        for process in &spec.processes {
            are_there = are_there || has_many(&process.body, None);
        }
        let first = None;
        Widths { are_there, first }
    }

    /// Whether the state offers such events, or is too deep to tell.
    pub fn are_offered(&mut self, spec: &Spec, ranks: &Ranks, at: &State) -> Result<bool, NoMemory>
        requires { AreRanksOf spec.now ranks.now }
    {
        if !self.are_there {
            return Ok(false);
        }
        if self.first.is_none() {
            self.first = Some(beginnings(spec, ranks)?);
        }
        let first = self.first.as_ref();
        Ok(first.is_none_or(|first| offers_many(at.node(), first.as_slice(), Room::all())))
    }
}

// Whether each process begins with such a `par`: those that it calls first are looked at before.
fn beginnings(spec: &Spec, ranks: &Ranks) -> Result<Vec<bool>, NoMemory>
    requires { AreRanksOf spec.now ranks.now }
{
    let mut first = Vec::new(*spec.processes.allocator());
    let mut order = Vec::new(*spec.processes.allocator());
    for (process, _) in spec.processes.iter().enumerate() {
        let Ok(number) = u32::try_from(process) else {
            return Err(NoMemory);
        };
        first.push(false)?;
        order.push((ranks.rank(number), process))?;
    }
    order.sort()?;
    for (_, process) in &order {
        mark(spec, *process, &mut first);
    }
    Ok(first)
}

// Notes whether the process begins with such a `par`.
fn mark(spec: &Spec, process: usize, first: &mut Vec<bool>) {
    if process < spec.processes.len() && process < first.len() {
        first[process] = has_many(&spec.processes[process].body, Some(first.as_slice()));
    }
}

// Whether a process is noted.
fn is_noted(first: Option<&[bool]>, process: u32) -> bool {
    first.is_some_and(|first| first.get(process as usize) == Some(&true))
}

// Whether such a `par` is there: anywhere, or before any event, where it is noted which processes
// begin with one.
fn has_many(behaviour: &Beh, first: Option<&[bool]>) -> bool {
    match behaviour {
        Beh::Stop | Beh::Exit(_) => false,
        Beh::Action { next, .. } | Beh::Inner(next) => first.is_none() && has_many(next, first),
        Beh::Guard(_, next) => has_many(next, first),
        Beh::Choice(_, left, right) => has_many(left, first) || has_many(right, first),
        Beh::Parallel(_, _, left, right) => has_many(left, first) || has_many(right, first),
        Beh::Hide(_, next) => has_many(next, first),
        Beh::Enable(_, left, _, right) => {
            has_many(left, first) || (first.is_none() && has_many(right, first))
        }
        Beh::Disable(_, left, right) => has_many(left, first) || has_many(right, first),
        Beh::Let(_, next) => has_many(next, first),
        Beh::ChooseValue(_, next) => has_many(next, first),
        Beh::ChooseGate(_, _, next) => has_many(next, first),
        Beh::ParGate(_, gates, _, next) => gates.len() > MANY_GATES || has_many(next, first),
        Beh::Call { process, .. } => is_noted(first, *process),
    }
}

// Whether the node offers the events of such a `par`.
fn offers_many(node: &Node, first: &[bool], room: Room) -> bool {
    let Some(below) = room.below_level() else {
        return true;
    };
    match node {
        Node::Stop => false,
        Node::Part(behaviour, _) => has_many(behaviour, Some(first)),
        Node::Call { process, .. } => is_noted(Some(first), *process),
        Node::Parallel(_, left, right) | Node::Disable(left, right) => {
            offers_many(left, first, below) || offers_many(right, first, below)
        }
        Node::Hide(_, part) | Node::Enable(part, _, _, _) | Node::Relabel(_, part) => {
            offers_many(part, first, below)
        }
    }
}
