//! Sessions.

ghost use Rattle.behaviour_tree.specs.BehaviourView.{terms_of};
ghost use Rattle.behaviour_tree.specs.MoveView.{label_of};
ghost use Rattle.lotos_base.specs.Equation.{Data};
ghost use Rattle.lotos_base.specs.Term.{Term};
ghost use Rattle.menu_builder.specs.HandedOn.{KeepsData};
ghost use Rattle.menu_builder.specs.Menus.{entries_in};
ghost use Rattle.session_histories.specs.Lawful.{HasStepped};
ghost use Rattle.session_histories.specs.Refusal.{step_refusal};
ghost use Rattle.session_histories.specs.Replay.{goes_on, ReplayIs, stops};
ghost use Rattle.session_histories.specs.Session.{first_situation};
ghost use Rattle.session_log.specs.CourseView.{basis_over, progress_of};
ghost use Rattle.session_log.specs.Courses.{AreClosedStates, IsUndone, written_trace};
ghost use Rattle.session_log.specs.Entries.{AreGiven};
ghost use Rattle.session_log.specs.Kept.{AreSuited, IsKeptState, IsLawfulSession};
ghost use Rattle.session_log.specs.RefusalView.{TellsLength, TellsReplay, TellsStep};
ghost use Rattle.sort_terms.specs.SignatureView.{signature_of};
ghost use Rattle.std.specs.Prelude.{
  ◌≡◌,
  ◌++◌,
  ◌<◌,
  ◌≤◌,
  ◌^◌,
  [],
  IfOk,
  MatchResult,
  length,
};

use crate::courses::Course;
use crate::refusals::{ReplayFault, StepRefusal, TraceFault};
use crate::replaying::{TraceGround, replay_text};
use crate::traces::trace_within;
use behaviour_tree::{Label, Spec, State};
use lotos_base::NoMemory;
use menu_builder::{Menu, MenuMaker, Ranks};
use sort_terms::{Deciding, Reader, Signature, Sorted};
use std::alloc::Global;

/// A session: a specification, a state of it with its menu, and the steps that led there.
#[derive(Drop)]
pub struct Session<M: MenuMaker> {
    spec: Spec,
    ranks: Ranks,
    maker: M,
    course: Course,
}

impl<M: MenuMaker> Session<M> {
    /// The session that begins in the state.
    pub fn open<D: Deciding>(
        alloc: Global,
        spec: Spec,
        ranks: Ranks,
        start: State,
        maker: M,
        data: &mut D,
    ) -> Result<Session<M>, NoMemory>
        requires suited { AreSuited M.suits (D.known_data data.old) (D.canon data.old) spec ranks
            maker }
        requires kept { IsKeptState (D.known_data data.old).signature spec start }
        ensures lawful { IfOk result
            (IsLawfulSession M.suits (D.known_data data.old) (D.canon data.old)) }
        ensures begins { IfOk result (λ session. (session.spec ≡ spec) × (session.ranks ≡ ranks)
            × (session.course.state ≡ start) × (session.course.history.items ≡ [])) }
        ensures same_known { KeepsData D.known_data D.canon data.old data.new }
    {
        let mut maker = maker;
        let course = Course::open(alloc, &spec, &ranks, &mut maker, start, data)?;
        Ok(Session {
            spec,
            ranks,
            maker,
            course,
        })
    }

    /// The specification.
    pub fn spec(&self) -> &Spec
        ensures { result.now ≡ self.now.spec }
    {
        &self.spec
    }

    /// The state that the session has come to.
    pub fn state(&self) -> &State
        ensures { result.now ≡ self.now.course.state }
    {
        self.course.state()
    }

    /// Its menu.
    pub fn menu(&self) -> &Menu
        ensures { result.now ≡ self.now.course.menu }
    {
        self.course.menu()
    }

    /// How many steps led there.
    pub fn length(&self) -> usize
        ensures { result ≡ length (progress_of self.now.course).steps }
    {
        self.course.history().len()
    }

    /// Takes the step by the entry with this number, counted from 1, and these values for its
    /// variables, and answers its label.
    ///
    /// The step is refused, in this order, as `NoEntry` where the number is outside 1 to the length
    /// of the menu, as `ValueCount` where there are more or fewer values than variables, as
    /// `ValueSort` at the first value of another sort, and as `Unmet` at the first condition that
    /// does not hold. A refusal leaves state, menu and history as they were.
    pub fn step<D: Deciding>(
        &mut self,
        number: u64,
        values: Vec<Sorted>,
        data: &mut D,
    ) -> Result<Label, StepRefusal>
        requires lawful { IsLawfulSession M.suits (D.known_data data.old) (D.canon data.old)
            self.old }
        requires given { AreGiven (D.known_data data.old).signature values.items }
        ensures answered { MatchResult result
            (λ label. HasStepped (basis_over (D.known_data data.old) (D.canon data.old)
            self.old.spec) (progress_of self.old.course) number (terms_of values.items)
            (label_of label) (progress_of self.new.course))
            (λ refusal. (progress_of self.new.course ≡ progress_of self.old.course)
            × TellsStep (step_refusal (basis_over (D.known_data data.old) (D.canon data.old)
            self.old.spec) (entries_in self.old.course.menu) number (terms_of values.items))
            refusal) }
        ensures lawful_after { IsLawfulSession M.suits (D.known_data data.old)
            (D.canon data.old) self.new }
        ensures same_spec { self.new.spec ≡ self.old.spec }
        ensures same_ranks { self.new.ranks ≡ self.old.ranks }
        ensures same_known { KeepsData D.known_data D.canon data.old data.new }
    {
        self.course.step(
            &self.spec,
            &self.ranks,
            &mut self.maker,
            number,
            values,
            data,
        )
    }

    /// Goes back to the state, the menu and the history before the last step. Answers `false` where
    /// there is none.
    pub fn undo(&mut self) -> bool
        ensures undone { IsUndone result (progress_of self.old.course)
            (progress_of self.new.course) }
        ensures lawful_after { (data_ : Data) (canon : Term → Term)
            → IsLawfulSession M.suits data_ canon self.old
            → IsLawfulSession M.suits data_ canon self.new }
        ensures same_spec { self.new.spec ≡ self.old.spec }
        ensures same_ranks { self.new.ranks ≡ self.old.ranks }
        ensures same_maker { self.new.maker ≡ self.old.maker }
    {
        self.course.undo()
    }

    /// Appends the trace: the line `lotos-trace 2 NAME` with the name of the specification, and for
    /// each step the line of its number, its values as they were given and its label, and the line
    /// `at STATE` of the state behind it. After a failure for want of memory the text is as it was.
    pub fn trace(&self, signature: &Signature, into: &mut Vec<u8>) -> Result<(), NoMemory>
        requires { AreClosedStates self.now.course }
        ensures { MatchResult result
            (λ _. into.new.items ≡ into.old.items
            ++ written_trace signature.now self.now.spec self.now.course)
            (λ _. into.new.items ≡ into.old.items) }
    {
        // A text has never more bytes than a `usize` counts.
        match self.trace_within(*into.allocator(), signature, usize::MAX) {
            Ok(text) => append(text, into),
            Err(_) => Err(NoMemory),
        }
    }

    /// The trace. Answers `TooLong` exactly where it has more bytes than the limit; then no more of
    /// it is written than the first lines that have.
    pub fn trace_within(
        &self,
        alloc: Global,
        signature: &Signature,
        limit: usize,
    ) -> Result<Vec<u8>, TraceFault>
        requires { AreClosedStates self.now.course }
        ensures { MatchResult result
            (λ text. (text.items ≡ written_trace signature.now self.now.spec self.now.course)
            × (length text.items ≤ limit))
            (TellsLength limit
            (length (written_trace signature.now self.now.spec self.now.course))) }
    {
        trace_within(alloc, signature, &self.spec, &self.course, limit)
    }

    /// Takes the steps of the trace from the oldest state that the session keeps, and where all
    /// succeed puts their session in the place of the present one and answers how many they are. A
    /// refusal leaves state, menu and history as they were.
    pub fn replay<D: Deciding>(
        &mut self,
        signature: &Signature,
        text: &[u8],
        data: &mut D,
    ) -> Result<usize, ReplayFault>
        requires lawful { IsLawfulSession M.suits (D.known_data data.old) (D.canon data.old)
            self.old }
        requires signature { signature_of signature.now ≡ (D.known_data data.old).signature }
        requires short { length text.now < 2 ^ 32 }
        ensures answered { MatchResult result
            (λ count. ReplayIs (basis_over (D.known_data data.old) (D.canon data.old)
            self.old.spec) (first_situation (progress_of self.old.course)) text.now
            (goes_on (progress_of self.new.course))
            × (count ≡ length (progress_of self.new.course).steps))
            (λ fault. (progress_of self.new.course ≡ progress_of self.old.course)
            × TellsReplay (λ why. ReplayIs (basis_over (D.known_data data.old)
            (D.canon data.old) self.old.spec) (first_situation (progress_of self.old.course))
            text.now (stops why)) fault) }
        ensures lawful_after { IsLawfulSession M.suits (D.known_data data.old)
            (D.canon data.old) self.new }
        ensures same_spec { self.new.spec ≡ self.old.spec }
        ensures same_ranks { self.new.ranks ≡ self.old.ranks }
        ensures same_known { KeepsData D.known_data D.canon data.old data.new }
    {
        let alloc = self.course.allocator();
        let first = self.course.first_state().copy(alloc)?;
        let reader = Reader::of(alloc, signature)?;
        let base = TraceGround {
            spec: &self.spec,
            ranks: &self.ranks,
            signature,
            reader,
        };
        let mut course = Course::open(
            alloc,
            &self.spec,
            &self.ranks,
            &mut self.maker,
            first,
            data,
        )?;
        replay_text(alloc, &base, &mut self.maker, &mut course, text, data)?;
        let count = course.history().len();
        self.course = course;
        Ok(count)
    }
}

// Appends the text, which is taken as it is where there is none before it.
fn append(text: Vec<u8>, into: &mut Vec<u8>) -> Result<(), NoMemory>
    ensures { MatchResult result
        (λ _. into.new.items ≡ into.old.items ++ text.items)
        (λ _. into.new.items ≡ into.old.items) }
{
    if into.is_empty() {
        *into = text;
        return Ok(());
    }
    Ok(into.extend_from_slice(text.as_slice())?)
}
