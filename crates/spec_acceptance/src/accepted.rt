//! The acceptance of a specification.

ghost use Rattle.refusal_lines.specs.WordLimits.{are_within, words_of};
ghost use Rattle.spec_acceptance.specs.Acceptance.{AcceptsText, IsAccepted};
ghost use Rattle.spec_acceptance.specs.AcceptedView.{AcceptsWith, asked_acceptance};
ghost use Rattle.spec_acceptance.specs.Doing.{Failed};
ghost use Rattle.std.specs.Prelude.{IsTrue, MatchResult, option_map};

use crate::files::file;
use crate::founded::founded;
use crate::not_accepted::NotAccepted;
use crate::starts::{started, valued};
use behaviour_tree::{Spec, State};
use lotos_base::Shelf;
use refusal_lines::{Book, Ranks};
use std::alloc::Global;

/// A specification that is accepted.
#[derive(Drop)]
pub struct Accepted {
    /// What the text stands for.
    pub spec: Spec,
    /// The ranks of its processes.
    pub ranks: Ranks,
    /// Its data, whose equality is decided.
    pub book: Book,
    /// The state in which it begins.
    pub start: State,
}

impl Accepted {
    /// Accepts the specification under the name `spec`, with the order file under the name `order`
    /// and the words `values` for its parameters, which keep the limits of a command line.
    /// It gets the specification, the files of the libraries that it mentions and the order file,
    /// once each and in this order, and nothing else.
    ///
    /// `File` comes exactly where the shelf's count of faults rose or it lacks a file, and no fault
    /// is named before that file's turn. `Spec` comes exactly where the order of faults names one,
    /// with that fault: of the text, of the libraries, of the types, of the scopes, of
    /// functionalities, of recursion, of the order file, of its items, of the orientation of an
    /// equation, of a critical pair, of the start values: of their words, of their number, of the
    /// readings of their terms. Where it is `NoMemory`, the shelf gave the first ones of these
    /// files, once each, and was called once more at most, for the one behind them.
    pub fn read<F: Shelf>(
        alloc: Global,
        spec: &str,
        order: Option<&str>,
        values: &[String],
        shelf: &mut F,
    ) -> Result<Accepted, NotAccepted>
        requires { IsTrue (are_within (words_of values.now)) }
        ensures { MatchResult result
            (AcceptsWith (F.state shelf.old) (F.state shelf.new)
            (IsAccepted (asked_acceptance spec.now (option_map (λ word. word.now) order.entry)
            (words_of values.now))))
            (Failed (F.state shelf.old) (F.state shelf.new)
            (IsAccepted (asked_acceptance spec.now (option_map (λ word. word.now) order.entry)
            (words_of values.now)))) }
    {
        let text = file(alloc, spec, shelf)?;
        Accepted::of_text(alloc, text.as_slice(), order, values, shelf)
    }

    /// Accepts the specification with this text, which is that of the name `spec` of
    /// [`Accepted::read`]; the rest is as there. It gets the files of the libraries that the text
    /// mentions and the order file, and nothing else.
    pub fn of_text<F: Shelf>(
        alloc: Global,
        text: &[u8],
        order: Option<&str>,
        values: &[String],
        shelf: &mut F,
    ) -> Result<Accepted, NotAccepted>
        requires { IsTrue (are_within (words_of values.now)) }
        ensures { MatchResult result
            (AcceptsWith (F.state shelf.old) (F.state shelf.new)
            (AcceptsText text.now (option_map (λ word. word.now) order.entry)
            (words_of values.now)))
            (Failed (F.state shelf.old) (F.state shelf.new)
            (AcceptsText text.now (option_map (λ word. word.now) order.entry) (words_of
            values.now))) }
    {
        let known = founded(alloc, text, order, shelf)?;
        let whole = valued(alloc, values, known)?;
        started(alloc, whole)
    }
}
