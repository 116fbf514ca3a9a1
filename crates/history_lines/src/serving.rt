//! The answers to the lines of a session.

ghost use Rattle.history_lines.specs.Calls.{CallsShelf, MayCallShelf};
ghost use Rattle.history_lines.specs.LinesView.{IsServing, basis_of, reached, standing_of};
ghost use Rattle.history_lines.specs.Serving.{moment_of, GivesAnswer, IsBeforeOrBehind};
ghost use Rattle.line_server.specs.Request.{compare, list_instances, show_normal};
ghost use Rattle.value_lists.specs.ListOutcome.{ValuesComeTo};
ghost use Rattle.value_lists.specs.ListText.{listed_values_text};
ghost use Rattle.value_lists.specs.ListView.{AddsList};
ghost use Rattle.line_server.specs.RequestView.{wants};
ghost use Rattle.line_server.specs.RequestLaws.{Carries};
ghost use Rattle.lotos_base.specs.Outside.{Texts};
ghost use Rattle.history_lines.specs.Standing.{shown_menu, state_line};
ghost use Rattle.std.specs.Prelude.{
  ◌≡◌,
  ◌+◌,
  ◌<◌,
  ◌^◌,
  [],
  ℕ,
  IfOk,
  MatchResult,
  Option,
  length,
};

use crate::lines::HistoryLines;
use crate::listing::push_instances;
use crate::served::serve;
use crate::texts::{bare_line, menu_lines};
use line_server::{Answer, Lines, Request};
use lotos_base::{NoMemory, Shelf};
use session_log::{MenuMaker, push_comparison, push_normal, push_text, state_text};
use std::alloc::Global;
use value_lists::push_value_list;

impl<M: MenuMaker> HistoryLines<'_, M> {
    /// The answer to a request. A `step`, `undo` or `replay` that is not refused changes the
    /// session, and no other request does. `replay` makes one call of the shelf, `save` one at
    /// most, and no other request any. Where memory is wanted, session and shelf are those before
    /// the line or those behind it.
    pub fn answer<F: Shelf>(
        &mut self,
        alloc: Global,
        request: Request<'_>,
        shelf: &mut F,
    ) -> Result<Vec<u8>, NoMemory>
        requires serving { IsServing M.suits self.old }
        requires short { (n : ℕ) × (n + 1 < 2 ^ 32) × Carries n (wants request) }
        ensures answered { MatchResult result
            (λ line. GivesAnswer (moment_of (standing_of self.old (F.state shelf.old).texts)
            (F.state shelf.old).faults)
            (wants request.entry) line.items
            (moment_of (standing_of self.new (F.state shelf.new).texts) (F.state shelf.new).faults))
            (λ _. IsBeforeOrBehind
            (moment_of (standing_of self.old (F.state shelf.old).texts) (F.state shelf.old).faults)
            (wants request.entry)
            (moment_of (standing_of self.new (F.state shelf.new).texts)
            (F.state shelf.new).faults)) }
        ensures called { MatchResult result
            (λ _. CallsShelf (standing_of self.old (F.state shelf.old).texts) (wants request.entry)
            (F.state shelf.old).calls (F.state shelf.new).calls)
            (λ _. MayCallShelf (wants request.entry) (F.state shelf.old).calls
            (F.state shelf.new).calls) }
        ensures serving_after { IsServing M.suits self.new }
    {
        match request {
            Request::Step { number, terms } => self.step_line(alloc, number, terms),
            Request::Undo => self.undo_line(alloc),
            Request::Replay { name } => self.replay_line(alloc, name, shelf),
            Request::Save { name } => self.save_line(alloc, name, shelf),
            Request::Normal { terms } => self.normal_line(alloc, terms),
            Request::Equal { terms } => self.equal_line(alloc, terms),
            Request::Values { name, size } => self.values_line(alloc, name, size),
            Request::Instances { number, size } => self.instances_line(alloc, number, size),
            Request::Menu => self.menu_text(alloc),
            Request::Behaviour => self.state_line(alloc),
            Request::Trace => self.trace_lines(alloc),
            Request::Unknown => bare_line(alloc, b"refused 801 BadCommand\n"),
            Request::Skip => bare_line(alloc, b""),
            Request::Quit => bare_line(alloc, b""),
        }
    }

    // The normal form of the one term in the text.
    fn normal_line(&mut self, alloc: Global, terms: &[u8]) -> Result<Vec<u8>, NoMemory>
        requires serving { IsServing M.suits self.old }
        requires short { length terms.now + 1 < 2 ^ 32 }
        ensures answered { (texts : Option Texts) (faults : ℕ) → MatchResult result
            (λ line. GivesAnswer (moment_of (standing_of self.old texts) faults)
            (show_normal terms.now)
            line.items (moment_of (standing_of self.new texts) faults))
            (λ _. IsBeforeOrBehind (moment_of (standing_of self.old texts) faults)
            (show_normal terms.now) (moment_of (standing_of self.new texts) faults)) }
        ensures serving_after { IsServing M.suits self.new }
    {
        let mut text = Vec::new(alloc);
        push_normal(
            alloc,
            self.signature,
            &self.reader,
            &mut self.book,
            terms,
            &mut text,
        )?;
        Ok(text)
    }

    // Whether the two terms in the text are equal.
    fn equal_line(&mut self, alloc: Global, terms: &[u8]) -> Result<Vec<u8>, NoMemory>
        requires serving { IsServing M.suits self.old }
        requires short { length terms.now + 1 < 2 ^ 32 }
        ensures answered { (texts : Option Texts) (faults : ℕ) → MatchResult result
            (λ line. GivesAnswer (moment_of (standing_of self.old texts) faults) (compare terms.now)
            line.items (moment_of (standing_of self.new texts) faults))
            (λ _. IsBeforeOrBehind (moment_of (standing_of self.old texts) faults)
            (compare terms.now) (moment_of (standing_of self.new texts) faults)) }
        ensures serving_after { IsServing M.suits self.new }
    {
        let mut text = Vec::new(alloc);
        push_comparison(alloc, &self.reader, &mut self.book, terms, &mut text)?;
        Ok(text)
    }

    // The values of the sort with the name.
    fn values_line(&self, alloc: Global, name: &[u8], size: u32) -> Result<Vec<u8>, NoMemory>
        requires serving { IsServing M.suits self.now }
        ensures { IfOk result (λ text. AddsList (ValuesComeTo (basis_of self.now) name.now size)
            (listed_values_text (basis_of self.now)) [] text.items) }
    {
        let mut text = Vec::new(alloc);
        push_value_list(
            self.signature,
            &self.reader,
            self.book.rules(),
            name,
            size,
            &mut text,
        )?;
        Ok(text)
    }

    // The instances of the entry with this number.
    fn instances_line(&mut self, alloc: Global, number: u64, size: u32) -> Result<Vec<u8>, NoMemory>
        requires serving { IsServing M.suits self.old }
        ensures answered { (texts : Option Texts) (faults : ℕ) → MatchResult result
            (λ line. GivesAnswer (moment_of (standing_of self.old texts) faults)
            (list_instances number size) line.items (moment_of (standing_of self.new texts) faults))
            (λ _. IsBeforeOrBehind (moment_of (standing_of self.old texts) faults)
            (list_instances number size) (moment_of (standing_of self.new texts) faults)) }
        ensures serving_after { IsServing M.suits self.new }
    {
        let mut text = Vec::new(alloc);
        push_instances(
            self.signature,
            self.session.spec(),
            &mut self.book,
            self.session.menu(),
            number,
            size,
            &mut text,
        )?;
        Ok(text)
    }

    // The menu of the state that was reached.
    fn menu_text(&self, alloc: Global) -> Result<Vec<u8>, NoMemory>
        requires serving { IsServing M.suits self.now }
        ensures { IfOk result (λ text. text.items ≡ shown_menu (basis_of self.now)
            (reached self.now)) }
    {
        menu_lines(
            alloc,
            self.signature,
            self.session.spec(),
            self.session.menu(),
        )
    }

    // The state that was reached.
    fn state_line(&self, alloc: Global) -> Result<Vec<u8>, NoMemory>
        requires serving { IsServing M.suits self.now }
        ensures { IfOk result (λ text. text.items ≡ state_line (basis_of self.now)
            (reached self.now)) }
    {
        let mut text = Vec::new(alloc);
        state_text(
            self.signature,
            self.session.spec(),
            self.session.state(),
            &mut text,
        )?;
        push_text(&mut text, b"\n")?;
        Ok(text)
    }
}

impl<M: MenuMaker> Lines for HistoryLines<'_, M> {
    ghost use Rattle.history_lines.specs.LinesView.{IsServing, point_of};
    ghost use Rattle.history_lines.specs.SessionMachine.{SessionPoint, history_machine};

    ghost State = { SessionPoint };

    ghost state = { point_of };

    ghost machine = { history_machine };

    ghost is_ready = { IsServing M.suits };

    fn serve<F: Shelf>(
        &mut self,
        alloc: Global,
        line: &[u8],
        shelf: &mut F,
    ) -> Result<Answer, NoMemory> {
        let mut text = Vec::new(alloc);
        let served = serve(alloc, line, self, shelf, &mut text)?;
        Ok(Answer {
            text,
            quits: served.ends(),
        })
    }
}
