//! Steps and undo.

ghost use Rattle.history_lines.specs.Answer.{did_text};
ghost use Rattle.history_lines.specs.LinesView.{
  IsServing,
  StaysServing,
  basis_of,
  reached,
  standing_of,
};
ghost use Rattle.history_lines.specs.Serving.{moment_of, Declines, GivesAnswer, IsBeforeOrBehind};
ghost use Rattle.history_lines.specs.Serving.{undo_text};
ghost use Rattle.history_lines.specs.StepAnswer.{StepComesTo, took};
ghost use Rattle.history_lines.specs.Values.{ChoosesValues};
ghost use Rattle.line_server.specs.Request.{take_step, undo as undo_step};
ghost use Rattle.lotos_base.specs.Outside.{Texts};
ghost use Rattle.lotos_base.specs.WrittenView.{written_term_of};
ghost use Rattle.session_log.specs.HandedOn.{AreTermsOfLine, label_of};
ghost use Rattle.std.specs.Prelude.{
  ◌≡◌,
  ◌+◌,
  ◌<◌,
  ◌^◌,
  ℕ,
  IfOk,
  List,
  MatchResult,
  Option,
  length,
  map,
};

use crate::lines::HistoryLines;
use crate::refusals::Decline;
use crate::texts::{bare_line, decline_line, did_line, undone_line};
use lotos_base::{NoMemory, Written};
use session_log::entries::counted_entry;
use session_log::values::values_at;
use session_log::{Label, MenuMaker, read_terms};
use sort_terms::Sorted;
use std::alloc::Global;

impl<M: MenuMaker> HistoryLines<'_, M> {
    /// Takes the step by the entry with this number and the values in the text, and answers its
    /// label and the menu behind it.
    ///
    /// The line is refused, in this order, as `BadTerm` for the tokens, the grammar and the depth
    /// of the text, as `NoEntry` where the menu has no such entry, as `ValueCount` where there are
    /// more or fewer values than variables, as `BadTerm` at the first value that has not one
    /// reading at the sort of its variable, and as `Unmet` at the first condition that does not
    /// hold.
    pub fn step_line(
        &mut self,
        alloc: Global,
        number: u64,
        text: &[u8],
    ) -> Result<Vec<u8>, NoMemory>
        requires serving { IsServing M.suits self.old }
        requires short { length text.now + 1 < 2 ^ 32 }
        ensures answered { (texts : Option Texts) (faults : ℕ) → MatchResult result
            (λ line. GivesAnswer (moment_of (standing_of self.old texts) faults)
            (take_step number text.now)
            line.items (moment_of (standing_of self.new texts) faults))
            (λ _. IsBeforeOrBehind (moment_of (standing_of self.old texts) faults)
            (take_step number text.now) (moment_of (standing_of self.new texts) faults)) }
        ensures serving_after { IsServing M.suits self.new }
    {
        match self.take(alloc, number, text) {
            Ok(label) => self.did(alloc, &label),
            Err(decline) => decline_line(alloc, self.signature, &decline),
        }
    }

    // The label, and the menu behind it.
    fn did(&self, alloc: Global, label: &Label) -> Result<Vec<u8>, NoMemory>
        requires serving { IsServing M.suits self.now }
        ensures { IfOk result (λ line. line.items
            ≡ did_text (basis_of self.now) (label_of label.now) (reached self.now)) }
    {
        did_line(
            alloc,
            self.signature,
            self.session.spec(),
            label,
            self.session.menu(),
        )
    }

    // Takes the step.
    fn take(&mut self, alloc: Global, number: u64, text: &[u8]) -> Result<Label, Decline>
        requires serving { IsServing M.suits self.old }
        requires short { length text.now + 1 < 2 ^ 32 }
        ensures answered { MatchResult result
            (λ label. StepComesTo (basis_of self.old) (reached self.old) number text.now
            (took (label_of label) (reached self.new)))
            (λ decline. (reached self.new ≡ reached self.old)
            × Declines (StepComesTo (basis_of self.old) (reached self.old) number text.now)
            decline) }
        ensures stays { StaysServing M.suits self.old self.new }
    {
        let terms = read_terms(alloc, text, 0)?;
        let values = self.values_for(alloc, number, terms.as_slice())?;
        self.take_with(number, values)
    }

    // The values for the entry with this number, which are the readings of the terms; for each text
    // that has these terms.
    fn values_for(
        &self,
        alloc: Global,
        number: u64,
        terms: &[Written],
    ) -> Result<Vec<Sorted>, Decline>
        requires serving { IsServing M.suits self.now }
        ensures { (text : List ℕ) → AreTermsOfLine text (map written_term_of terms.now)
            → MatchResult result
            (λ values. ChoosesValues (basis_of self.now) (reached self.now) number text
            values.items)
            (Declines (StepComesTo (basis_of self.now) (reached self.now) number text)) }
    {
        let entry = counted_entry(self.session.menu(), number, terms.len())?;
        Ok(values_at(alloc, &self.reader, &entry.vars, terms)?)
    }

    // Takes the step with these values; for each text that has them.
    fn take_with(&mut self, number: u64, values: Vec<Sorted>) -> Result<Label, Decline>
        requires serving { IsServing M.suits self.old }
        requires chosen { (text : List ℕ) × ChoosesValues (basis_of self.old)
            (reached self.old) number text values.items }
        ensures answered { (text : List ℕ)
            → ChoosesValues (basis_of self.old) (reached self.old) number text values.items
            → MatchResult result
            (λ label. StepComesTo (basis_of self.old) (reached self.old) number text
            (took (label_of label) (reached self.new)))
            (λ decline. (reached self.new ≡ reached self.old)
            × Declines (StepComesTo (basis_of self.old) (reached self.old) number text)
            decline) }
        ensures stays { StaysServing M.suits self.old self.new }
    {
        Ok(self.session.step(number, values, &mut self.book)?)
    }

    /// Undoes the last step, and answers the menu before it, or that there is none.
    pub fn undo_line(&mut self, alloc: Global) -> Result<Vec<u8>, NoMemory>
        requires serving { IsServing M.suits self.old }
        ensures answered { (texts : Option Texts) (faults : ℕ) → MatchResult result
            (λ line. GivesAnswer (moment_of (standing_of self.old texts) faults) undo_step
            line.items (moment_of (standing_of self.new texts) faults))
            (λ _. IsBeforeOrBehind (moment_of (standing_of self.old texts) faults)
            undo_step (moment_of (standing_of self.new texts) faults)) }
        ensures serving_after { IsServing M.suits self.new }
    {
        let undone = self.session.undo();
        self.told(alloc, undone)
    }

    // Whether a step was undone, and the menu before it.
    fn told(&self, alloc: Global, undone: bool) -> Result<Vec<u8>, NoMemory>
        requires serving { IsServing M.suits self.now }
        ensures { IfOk result (λ line. line.items
            ≡ undo_text undone (basis_of self.now) (reached self.now)) }
    {
        if undone {
            undone_line(
                alloc,
                self.signature,
                self.session.spec(),
                self.session.menu(),
            )
        } else {
            bare_line(alloc, b"nothing to undo\n")
        }
    }
}
