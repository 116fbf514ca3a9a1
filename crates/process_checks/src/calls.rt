//! The unguarded calls of bodies, and the graph that they make.

ghost use Rattle.process_checks.specs.Calls.{called_in, call_sites_of, call_graph_of};
ghost use Rattle.process_checks.specs.GraphView.{lists_of};
ghost use Rattle.std.specs.Prelude.{◌≡◌, ◌++◌, IfOk, map};

use behaviour_tree::{Beh, Process};
use lotos_base::{NoMemory, Place};
use std::alloc::Global;

/// An unguarded call of a body.
#[derive(Clone, Copy, Debug, PartialEq, Eq)]
pub struct CallSite {
    /// The place of the name.
    pub place: Place,
    /// The called process.
    pub process: u32,
}

/// Appends the unguarded calls of the behaviour in the order of the text.
pub fn collect(behaviour: &Beh, into: &mut Vec<CallSite>) -> Result<(), NoMemory>
    ensures { IfOk result (λ _. into.new.items ≡ into.old.items ++ call_sites_of behaviour.now) }
{
    match behaviour {
        Beh::Stop => Ok(()),
        Beh::Exit(_) => Ok(()),
        Beh::Action { .. } => Ok(()),
        Beh::Inner(_) => Ok(()),
        Beh::Guard(_, next) => collect(next, into),
        Beh::Choice(_, left, right) => {
            collect(left, into)?;
            collect(right, into)
        }
        Beh::Parallel(_, _, left, right) => {
            collect(left, into)?;
            collect(right, into)
        }
        Beh::Hide(_, next) => collect(next, into),
        Beh::Enable(_, left, _, _) => collect(left, into),
        Beh::Disable(_, left, right) => {
            collect(left, into)?;
            collect(right, into)
        }
        Beh::Let(_, next) => collect(next, into),
        Beh::ChooseValue(_, next) => collect(next, into),
        Beh::ChooseGate(_, _, next) => collect(next, into),
        Beh::ParGate(_, _, _, next) => collect(next, into),
        Beh::Call { place, process, .. } => Ok(into.push(CallSite {
            place: *place,
            process: *process,
        })?),
    }
}

/// The unguarded calls of a body.
pub fn sites(alloc: Global, body: &Beh) -> Result<Vec<CallSite>, NoMemory>
    ensures { IfOk result (λ made. made.items ≡ call_sites_of body.now) }
{
    let mut made = Vec::new(alloc);
    collect(body, &mut made)?;
    Ok(made)
}

// The processes that a body calls unguarded.
fn called(alloc: Global, body: &Beh) -> Result<Vec<u32>, NoMemory>
    ensures { IfOk result (λ made. made.items ≡ called_in body.now) }
{
    let calls = sites(alloc, body)?;
    let mut made = Vec::with_capacity(alloc, calls.len())?;
    for call in &calls {
        made.push(call.process)?;
    }
    Ok(made)
}

/// The graph of unguarded calls.
pub fn call_graph(alloc: Global, processes: &Vec<Process>) -> Result<Vec<Vec<u32>>, NoMemory>
    ensures { IfOk result (λ made. lists_of made.items ≡ call_graph_of processes.now.items) }
{
    let mut made = Vec::with_capacity(alloc, processes.len())?;
    for process in processes {
        made.push(called(alloc, &process.body)?)?;
    }
    Ok(made)
}
