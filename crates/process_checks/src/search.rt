//! Ranks by a walk in depth over the graph of calls, with a chain of its own in place of recursion.

ghost use Rattle.process_checks.specs.Graph.{IsCallAt};
ghost use Rattle.process_checks.specs.GraphView.{lists_of};
ghost use Rattle.process_checks.specs.Search.{
  AreKept,
  IsLatest,
  IsPending,
  IsRanked,
  IsRoundFrom,
  IsSoundSearch,
  IsStep,
  left_in,
  position_of,
  rank_of,
  status_at,
};
ghost use Rattle.process_checks.specs.Ways.{CallsHaveCycle, RanksOf};
ghost use Rattle.process_checks.specs.declared.search.Status.TheVariants as status;
ghost use Rattle.std.specs.Prelude.{
  ◌≡◌,
  ◌≢◌,
  ◌+◌,
  ◌<◌,
  ◌≤◌,
  ◌^◌,
  ◌↔◌,
  ◌∷◌,
  ◌++◌,
  ℕ,
  [],
  IfOk,
  IsTrue,
  MatchOption,
  length,
  map,
  replicate,
  set,
  true,
  false,
};

use crate::graph::{call, call_count};
use lotos_base::NoMemory;
use std::alloc::Global;

/// What the walk knows of a process.
#[derive(Clone, Copy, Debug, PartialEq, Eq)]
pub enum Status {
    /// Nothing yet.
    New,
    /// It is on the chain, and its calls before the position lead to processes with ranks.
    Open(usize),
    /// Its rank.
    Ranked(u32),
}

/// A call whose process has no rank yet.
#[derive(Clone, Copy, Debug, PartialEq, Eq)]
pub struct Pending {
    /// The position of the call.
    pub position: usize,
    /// The called process.
    pub process: u32,
}

/// The walk: what is known of each process, the chain of calls that is open, and the next rank.
#[derive(Debug, Drop)]
pub struct Search {
    statuses: Vec<Status>,
    chain: Vec<u32>,
    next: u32,
}

/// Ranks for the processes of the graph, unless it has a cycle.
pub fn order(alloc: Global, graph: &Vec<Vec<u32>>) -> Result<Option<Vec<u32>>, NoMemory>
    requires { length graph.now.items + 1 < 2 ^ 32 }
    ensures { IfOk result (λ found. MatchOption found (CallsHaveCycle (lists_of graph.now.items))
        (λ ranks. RanksOf (lists_of graph.now.items) ranks.items)) }
{
    let mut search = begun(alloc, graph)?;
    for root in 0..graph.len() as u32 {
        if !search.rank_from(graph, root)? {
            return Ok(None);
        }
    }
    Ok(Some(ranks_in(alloc, &search.statuses)?))
}

// The walk over no process yet.
fn begun(alloc: Global, graph: &Vec<Vec<u32>>) -> Result<Search, NoMemory>
    ensures statuses { IfOk result (λ search. search.statuses.items
        ≡ replicate (length graph.now.items) status.New) }
    ensures chain { IfOk result (λ search. search.chain.items ≡ []) }
    ensures next { IfOk result (λ search. search.next ≡ 1) }
{
    let statuses = vec![in alloc; Status::New; graph.len()]?;
    Ok(Search {
        statuses,
        chain: Vec::new(alloc),
        next: 1,
    })
}

// The ranks of processes that all have one.
fn ranks_in(alloc: Global, statuses: &Vec<Status>) -> Result<Vec<u32>, NoMemory>
    ensures { IfOk result (λ made. made.items ≡ map rank_of statuses.now.items) }
{
    let mut made = Vec::with_capacity(alloc, statuses.len())?;
    for known in statuses {
        made.push(rank(*known))?;
    }
    Ok(made)
}

// The rank, if there is one.
fn rank(known: Status) -> u32
    ensures { result ≡ rank_of known }
{
    match known {
        Status::New => 0,
        Status::Open(_) => 0,
        Status::Ranked(rank) => rank,
    }
}

// What is known of the process; a process that there is not has the rank 0.
fn status_in(statuses: &Vec<Status>, process: u32) -> Status
    ensures { result ≡ status_at statuses.now.items process }
{
    match statuses.get(process as usize) {
        None => Status::Ranked(0),
        Some(known) => *known,
    }
}

// Whether the process has its rank.
fn is_ranked(statuses: &Vec<Status>, process: u32) -> bool
    ensures { IsTrue result ↔ IsRanked statuses.now.items process }
{
    match status_in(statuses, process) {
        Status::New => false,
        Status::Open(_) => false,
        Status::Ranked(_) => true,
    }
}

// The first call from the position on whose process has no rank.
fn first_pending(
    graph: &Vec<Vec<u32>>,
    statuses: &Vec<Status>,
    process: u32,
    from: usize,
) -> Option<Pending>
    ensures { MatchOption result
        ((k other : ℕ) → from ≤ k → IsCallAt (lists_of graph.now.items) process k other
        → IsRanked statuses.now.items other)
        (λ found. IsPending (lists_of graph.now.items) statuses.now.items process from found) }
{
    for position in from..call_count(graph, process) {
        if let Some(other) = unranked_at(graph, statuses, process, position) {
            return Some(Pending {
                position,
                process: other,
            });
        }
    }
    None
}

// The process of the call at the position, if it has no rank.
fn unranked_at(
    graph: &Vec<Vec<u32>>,
    statuses: &Vec<Status>,
    process: u32,
    position: usize,
) -> Option<u32>
    ensures { MatchOption result
        ((other : ℕ) → IsCallAt (lists_of graph.now.items) process position other
        → IsRanked statuses.now.items other)
        (λ found. IsCallAt (lists_of graph.now.items) process position found
        × (IsRanked statuses.now.items found → ⊥)) }
{
    match call(graph, process, position) {
        None => None,
        Some(other) => {
            if is_ranked(statuses, other) {
                None
            } else {
                Some(other)
            }
        }
    }
}

// Puts what is known of the process in its place.
fn put(statuses: &mut Vec<Status>, process: u32, known: Status)
    ensures { statuses.new.items ≡ set statuses.old.items process known }
{
    let place = process as usize;
    if place < statuses.len() {
        statuses[place] = known;
    }
}

// The position of an open process, and else 0.
fn position(known: Status) -> usize
    ensures { result ≡ position_of known }
{
    match known {
        Status::New => 0,
        Status::Open(position) => position,
        Status::Ranked(_) => 0,
    }
}

// Whether nothing is known of the process.
fn is_new(statuses: &Vec<Status>, process: u32) -> bool
    ensures { IsTrue result ↔ (status_at statuses.now.items process ≡ status.New) }
{
    match status_in(statuses, process) {
        Status::New => true,
        Status::Open(_) => false,
        Status::Ranked(_) => false,
    }
}

impl Search {
    // Gives the process a rank, unless it leads to a cycle.
    fn rank_from(&mut self, graph: &Vec<Vec<u32>>, root: u32) -> Result<bool, NoMemory>
        requires search { IsSoundSearch (lists_of graph.now.items) self.old }
        requires idle { self.old.chain.items ≡ [] }
        requires room { length graph.now.items + 1 < 2 ^ 32 }
        ensures ranked { IfOk result (λ going. going ≡ true
            → IsRoundFrom (lists_of graph.now.items) self.old self.new root) }
        ensures cyclic { IfOk result (λ going. going ≡ false
            → CallsHaveCycle (lists_of graph.now.items)) }
    {
        if !is_new(&self.statuses, root) {
            return Ok(true);
        }
        self.enter(root)?;
        self.finish(graph)
    }

    // Goes on until the chain is empty, unless there is a cycle.
    fn finish(&mut self, graph: &Vec<Vec<u32>>) -> Result<bool, NoMemory>
        requires search { IsSoundSearch (lists_of graph.now.items) self.old }
        requires room { length graph.now.items + 1 < 2 ^ 32 }
        ensures finished { IfOk result (λ going. going ≡ true
            → IsStep (lists_of graph.now.items) self.old self.new × (self.new.chain.items ≡ [])) }
        ensures cyclic { IfOk result (λ going. going ≡ false
            → CallsHaveCycle (lists_of graph.now.items)) }
    {
        while let Some(process) = self.latest() {
            if !self.advance(graph, process)? {
                return Ok(false);
            }
        }
        Ok(true)
    }

    // The latest process of the chain.
    fn latest(&self) -> Option<u32>
        ensures { MatchOption result (self.now.chain.items ≡ [])
            (λ process. IsLatest self.now.chain.items process) }
    {
        self.chain.last().copied()
    }

    // Takes the latest process on: to its next call whose process has no rank, or to its own rank.
    fn advance(&mut self, graph: &Vec<Vec<u32>>, process: u32) -> Result<bool, NoMemory>
        requires search { IsSoundSearch (lists_of graph.now.items) self.old }
        requires latest { IsLatest self.old.chain.items process }
        requires room { length graph.now.items + 1 < 2 ^ 32 }
        ensures going { IfOk result (λ going. going ≡ true
            → IsStep (lists_of graph.now.items) self.old self.new
            × (left_in self.new < left_in self.old)) }
        ensures cyclic { IfOk result (λ going. going ≡ false
            → CallsHaveCycle (lists_of graph.now.items)) }
    {
        let from = position(status_in(&self.statuses, process));
        match first_pending(graph, &self.statuses, process, from) {
            None => {
                self.close(process);
                Ok(true)
            }
            Some(found) => self.follow(graph, process, found),
        }
    }

    // Follows a call whose process has no rank: this process is the next of the chain, unless it is
    // on the chain already.
    fn follow(
        &mut self,
        graph: &Vec<Vec<u32>>,
        process: u32,
        found: Pending,
    ) -> Result<bool, NoMemory>
        requires search { IsSoundSearch (lists_of graph.now.items) self.old }
        requires latest { IsLatest self.old.chain.items process }
        requires found { IsPending (lists_of graph.now.items) self.old.statuses.items process
            (position_of (status_at self.old.statuses.items process)) found }
        ensures going { IfOk result (λ going. going ≡ true
            → IsStep (lists_of graph.now.items) self.old self.new
            × (left_in self.new < left_in self.old)) }
        ensures cyclic { IfOk result (λ going. going ≡ false
            → CallsHaveCycle (lists_of graph.now.items)) }
    {
        if !is_new(&self.statuses, found.process) {
            return Ok(false);
        }
        put(&mut self.statuses, process, Status::Open(found.position));
        self.enter(found.process)?;
        Ok(true)
    }

    // Puts the process on the chain.
    fn enter(&mut self, process: u32) -> Result<(), NoMemory>
        ensures statuses { IfOk result (λ _. self.new.statuses.items
            ≡ set self.old.statuses.items process (status.Open 0)) }
        ensures chain { IfOk result (λ _. self.new.chain.items
            ≡ self.old.chain.items ++ process ∷ []) }
        ensures next { self.new.next ≡ self.old.next }
    {
        self.chain.push(process)?;
        put(&mut self.statuses, process, Status::Open(0));
        Ok(())
    }

    // Gives the latest process of the chain the next rank and takes it off.
    fn close(&mut self, process: u32)
        requires latest { IsLatest self.old.chain.items process }
        requires room { self.old.next + 1 < 2 ^ 32 }
        ensures statuses { self.new.statuses.items
            ≡ set self.old.statuses.items process (status.Ranked self.old.next) }
        ensures chain { self.old.chain.items ≡ self.new.chain.items ++ process ∷ [] }
        ensures next { self.new.next ≡ self.old.next + 1 }
    {
        put(&mut self.statuses, process, Status::Ranked(self.next));
        self.next += 1;
        self.chain.pop();
    }
}
