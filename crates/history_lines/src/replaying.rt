//! Texts of a shelf that are replayed.

ghost use Rattle.history_lines.specs.LinesView.{
  IsServing,
  StaysServing,
  basis_of,
  reached,
  standing_of,
};
ghost use Rattle.history_lines.specs.Serving.{moment_of, GivesAnswer, IsBeforeOrBehind};
ghost use Rattle.history_lines.specs.ShelfAnswer.{StandsUnder, trace_limit};
ghost use Rattle.history_lines.specs.Standing.{shown_menu};
ghost use Rattle.line_server.specs.Request.{replay as replay_text};
ghost use Rattle.lotos_base.specs.Counts.{next_count};
ghost use Rattle.lotos_base.specs.Outside.{Gets, Texts};
ghost use Rattle.session_log.specs.HandedOn.{ReplayIs, first_situation, goes_on, stops};
ghost use Rattle.session_log.specs.RefusalView.{TellsReplay};
ghost use Rattle.std.specs.Prelude.{
  ◌≡◌,
  ◌+◌,
  ◌++◌,
  ◌≤◌,
  ℕ,
  IfOk,
  IfSome,
  List,
  MatchResult,
  Option,
  codes,
  decimal,
  length,
};

use crate::lines::HistoryLines;
use crate::saving::TRACE_LIMIT;
use crate::texts::{fault_line, name_line, replayed_line};
use lotos_base::{GetFault, NoMemory, Shelf};
use session_log::{MenuMaker, ReplayFault};
use std::alloc::Global;

impl<M: MenuMaker> HistoryLines<'_, M> {
    /// Replays the text with this name from the state in which the session began, and answers how
    /// many steps it has, and the menu behind them.
    ///
    /// The line is refused as `Unread` exactly where the shelf counted a fault or has no such text,
    /// as `TraceTooLong` where the text has more than 268,435,456 bytes, and at the first line of
    /// the text that is refused. A refusal leaves state, menu and history as they were.
    pub fn replay_line<F: Shelf>(
        &mut self,
        alloc: Global,
        name: &str,
        shelf: &mut F,
    ) -> Result<Vec<u8>, NoMemory>
        requires serving { IsServing M.suits self.old }
        ensures answered { MatchResult result
            (λ line. GivesAnswer (moment_of (standing_of self.old (F.state shelf.old).texts)
            (F.state shelf.old).faults)
            (replay_text name.now) line.items
            (moment_of (standing_of self.new (F.state shelf.new).texts) (F.state shelf.new).faults))
            (λ _. IsBeforeOrBehind
            (moment_of (standing_of self.old (F.state shelf.old).texts) (F.state shelf.old).faults)
            (replay_text name.now)
            (moment_of (standing_of self.new (F.state shelf.new).texts)
            (F.state shelf.new).faults)) }
        ensures called { (F.state shelf.new).calls ≡ next_count (F.state shelf.old).calls }
        ensures serving_after { IsServing M.suits self.new }
    {
        let mut text = Vec::new(alloc);
        match shelf.get(name, TRACE_LIMIT + 1, &mut text) {
            Ok(()) => self.replay_got(alloc, name, text.as_slice()),
            Err(GetFault::Missing) => name_line(alloc, b"refused 807 Unread ", name),
            Err(GetFault::Failed) => name_line(alloc, b"refused 807 Unread ", name),
            Err(GetFault::NoMemory) => Err(NoMemory),
        }
    }

    // Replays the text that was got, up to one byte more than a trace may have.
    fn replay_got(&mut self, alloc: Global, name: &str, got: &[u8]) -> Result<Vec<u8>, NoMemory>
        requires serving { IsServing M.suits self.old }
        ensures answered { (texts : Option Texts) (faults : ℕ)
            → IfSome texts (λ told. Gets told name.now (trace_limit + 1) got.now)
            → MatchResult result
            (λ line. GivesAnswer (moment_of (standing_of self.old texts) faults)
            (replay_text name.now)
            line.items (moment_of (standing_of self.new texts) faults))
            (λ _. IsBeforeOrBehind (moment_of (standing_of self.old texts) faults)
            (replay_text name.now) (moment_of (standing_of self.new texts) faults)) }
        ensures serving_after { IsServing M.suits self.new }
    {
        if got.len() > TRACE_LIMIT {
            return name_line(alloc, b"refused 809 TraceTooLong ", name);
        }
        self.replay_whole(alloc, got)
    }

    // Replays the whole text; under each name that it has.
    fn replay_whole(&mut self, alloc: Global, text: &[u8]) -> Result<Vec<u8>, NoMemory>
        requires serving { IsServing M.suits self.old }
        requires short { length text.now ≤ trace_limit }
        ensures answered { (name : List ℕ) (texts : Option Texts) (faults : ℕ)
            → StandsUnder texts name text.now
            → MatchResult result
            (λ line. GivesAnswer (moment_of (standing_of self.old texts) faults) (replay_text name)
            line.items (moment_of (standing_of self.new texts) faults))
            (λ _. IsBeforeOrBehind (moment_of (standing_of self.old texts) faults)
            (replay_text name) (moment_of (standing_of self.new texts) faults)) }
        ensures serving_after { IsServing M.suits self.new }
    {
        match self.take_all(text) {
            Ok(count) => self.replayed(alloc, count),
            Err(fault) => fault_line(alloc, self.session.spec().name.spelled(), &fault),
        }
    }

    // Takes the steps of the text.
    fn take_all(&mut self, text: &[u8]) -> Result<usize, ReplayFault>
        requires serving { IsServing M.suits self.old }
        requires short { length text.now ≤ trace_limit }
        ensures answered { MatchResult result
            (λ count. ReplayIs (basis_of self.old) (first_situation (reached self.old)) text.now
            (goes_on (reached self.new)) × (count ≡ length (reached self.new).steps))
            (λ fault. (reached self.new ≡ reached self.old)
            × TellsReplay (λ why. ReplayIs (basis_of self.old) (first_situation (reached self.old))
            text.now (stops why)) fault) }
        ensures stays { StaysServing M.suits self.old self.new }
    {
        let signature = self.signature;
        self.session.replay(signature, text, &mut self.book)
    }

    // How many steps were replayed, and the menu behind them.
    fn replayed(&self, alloc: Global, count: usize) -> Result<Vec<u8>, NoMemory>
        requires serving { IsServing M.suits self.now }
        ensures { IfOk result (λ line. line.items ≡ codes "replayed " ++ decimal count ++ codes "\n"
            ++ shown_menu (basis_of self.now) (reached self.now)) }
    {
        replayed_line(
            alloc,
            count,
            self.signature,
            self.session.spec(),
            self.session.menu(),
        )
    }
}
