//! A graph of calls: for each process the processes that it calls, in the order of the text.

ghost use Rattle.process_checks.specs.Graph.{calls_at};
ghost use Rattle.process_checks.specs.GraphView.{lists_of};
ghost use Rattle.std.specs.Prelude.{◌≡◌, length, slice_get};

/// The process that the call at the position is one of, if the process has so many calls.
pub fn call(graph: &Vec<Vec<u32>>, process: u32, position: usize) -> Option<u32>
    ensures { result ≡ slice_get (calls_at (lists_of graph.now.items) process) position }
{
    match graph.get(process as usize) {
        None => None,
        Some(calls) => calls.get(position).copied(),
    }
}

/// How many calls the process has.
pub fn call_count(graph: &Vec<Vec<u32>>, process: u32) -> usize
    ensures { result ≡ length (calls_at (lists_of graph.now.items) process) }
{
    match graph.get(process as usize) {
        None => 0,
        Some(calls) => calls.len(),
    }
}
