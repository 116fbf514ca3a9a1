//! The trace, and its texts on a shelf.

ghost use Rattle.history_lines.specs.Calls.{CallsShelf, MayCallShelf};
ghost use Rattle.history_lines.specs.LinesView.{IsServing, basis_of, reached, standing_of};
ghost use Rattle.history_lines.specs.Serving.{moment_of, GivesAnswer, IsBeforeOrBehind};
ghost use Rattle.line_server.specs.Request.{save as save_trace};
ghost use Rattle.lotos_base.specs.Counts.{next_count};
ghost use Rattle.history_lines.specs.ShelfAnswer.{trace_limit};
ghost use Rattle.history_lines.specs.Standing.{shown_trace};
ghost use Rattle.session_log.specs.RefusalView.{TellsLength};
ghost use Rattle.std.specs.Prelude.{◌≡◌, ◌≤◌, IfOk, MatchResult, length};

use crate::lines::HistoryLines;
use crate::texts::name_line;
use lotos_base::{NoMemory, PutFault, Shelf};
use session_log::{MenuMaker, TraceFault};
use std::alloc::Global;

/// A trace has so many bytes at most.
pub const TRACE_LIMIT: usize = 268_435_456;

impl<M: MenuMaker> HistoryLines<'_, M> {
    /// The trace.
    pub fn trace_lines(&self, alloc: Global) -> Result<Vec<u8>, NoMemory>
        requires serving { IsServing M.suits self.now }
        ensures { IfOk result (λ text. text.items ≡ shown_trace (basis_of self.now)
            (reached self.now)) }
    {
        let mut text = Vec::new(alloc);
        self.session.trace(self.signature, &mut text)?;
        Ok(text)
    }

    /// Puts the trace on the shelf under the name.
    ///
    /// The line is refused as `TraceTooLong` where the trace has more than 268,435,456 bytes,
    /// before the shelf is called, and as `Unwritten` exactly where the shelf counted a fault.
    pub fn save_line<F: Shelf>(
        &self,
        alloc: Global,
        name: &str,
        shelf: &mut F,
    ) -> Result<Vec<u8>, NoMemory>
        requires serving { IsServing M.suits self.now }
        ensures answered { MatchResult result
            (λ line. GivesAnswer (moment_of (standing_of self.now (F.state shelf.old).texts)
            (F.state shelf.old).faults)
            (save_trace name.now) line.items
            (moment_of (standing_of self.now (F.state shelf.new).texts) (F.state shelf.new).faults))
            (λ _. IsBeforeOrBehind
            (moment_of (standing_of self.now (F.state shelf.old).texts) (F.state shelf.old).faults)
            (save_trace name.now)
            (moment_of (standing_of self.now (F.state shelf.new).texts)
            (F.state shelf.new).faults)) }
        ensures called { MatchResult result
            (λ _. CallsShelf (standing_of self.now (F.state shelf.old).texts) (save_trace name.now)
            (F.state shelf.old).calls (F.state shelf.new).calls)
            (λ _. MayCallShelf (save_trace name.now) (F.state shelf.old).calls
            (F.state shelf.new).calls) }
    {
        match self.short_trace(alloc) {
            Ok(trace) => self.put_trace(alloc, name, trace.as_slice(), shelf),
            Err(TraceFault::TooLong) => name_line(alloc, b"refused 809 TraceTooLong ", name),
            Err(TraceFault::NoMemory) => Err(NoMemory),
        }
    }

    // The trace, where it is not too long.
    fn short_trace(&self, alloc: Global) -> Result<Vec<u8>, TraceFault>
        requires serving { IsServing M.suits self.now }
        ensures { MatchResult result
            (λ text. (text.items ≡ shown_trace (basis_of self.now) (reached self.now))
            × (length text.items ≤ trace_limit))
            (TellsLength trace_limit
            (length (shown_trace (basis_of self.now) (reached self.now)))) }
    {
        self.session
            .trace_within(alloc, self.signature, TRACE_LIMIT)
    }

    // Puts the trace, which is not too long, on the shelf.
    fn put_trace<F: Shelf>(
        &self,
        alloc: Global,
        name: &str,
        trace: &[u8],
        shelf: &mut F,
    ) -> Result<Vec<u8>, NoMemory>
        requires trace { trace.now ≡ shown_trace (basis_of self.now) (reached self.now) }
        requires short { length trace.now ≤ trace_limit }
        ensures answered { MatchResult result
            (λ line. GivesAnswer (moment_of (standing_of self.now (F.state shelf.old).texts)
            (F.state shelf.old).faults)
            (save_trace name.now) line.items
            (moment_of (standing_of self.now (F.state shelf.new).texts) (F.state shelf.new).faults))
            (λ _. IsBeforeOrBehind
            (moment_of (standing_of self.now (F.state shelf.old).texts) (F.state shelf.old).faults)
            (save_trace name.now)
            (moment_of (standing_of self.now (F.state shelf.new).texts)
            (F.state shelf.new).faults)) }
        ensures called { (F.state shelf.new).calls ≡ next_count (F.state shelf.old).calls }
    {
        match shelf.put(name, trace) {
            Ok(()) => name_line(alloc, b"saved ", name),
            Err(PutFault::Failed) => name_line(alloc, b"refused 808 Unwritten ", name),
            Err(PutFault::NoMemory) => Err(NoMemory),
        }
    }
}
