//! The start values, and the state in which the specification begins with them.

ghost use Rattle.lotos_base.specs.WrittenTerm.{ListedOperation};
ghost use Rattle.refusal_lines.specs.StartValues.{IsStartFault};
ghost use Rattle.refusal_lines.specs.WordLimits.{are_within, words_of};
ghost use Rattle.spec_acceptance.specs.Acceptance.{start_of};
ghost use Rattle.spec_acceptance.specs.Doing.{Faulty};
ghost use Rattle.spec_acceptance.specs.Ending.{with_spec};
ghost use Rattle.spec_acceptance.specs.Known.{
  KnowsBook,
  KnowsValues,
  MayStart,
  RefusesStarts,
  Resolved,
  StartsWith,
};
ghost use Rattle.std.specs.Prelude.{IfOk, IsTrue, List, MatchResult};

use crate::accepted::Accepted;
use crate::books::WithBook;
use crate::copies::flat_copy;
use crate::not_accepted::NotAccepted;
use crate::stages::WithSpec;
use behaviour_tree::State;
use lotos_base::NoMemory;
use refusal_lines::{SpecFault, StartFault, normal_values, start_values};
use sort_terms::Sorted;
use std::alloc::Global;

/// What is known of the specification with its book, and the start values as they are read.
#[derive(Drop)]
pub struct WithValues {
    /// What is known.
    pub known: WithBook,
    /// The values.
    pub values: Vec<Sorted>,
}

/// The same, with the values that the words behind `with` are for the parameters.
pub fn valued(alloc: Global, words: &[String], known: WithBook) -> Result<WithValues, NotAccepted>
    requires { IsTrue (are_within (words_of words.now)) }
    ensures { (whole : Resolved) (items : List ListedOperation) → KnowsBook whole items known
        → MatchResult result (KnowsValues whole items (words_of words.now))
        (Faulty (IsStartFault (start_of whole.data_ whole.spec (words_of words.now)))
        (with_spec whole.read whole.data_ whole.spec)) }
{
    let signature = &known.book.flat().signature;
    match start_values(alloc, signature, known.spec.parameters.as_slice(), words) {
        Ok(values) => Ok(WithValues { known, values }),
        Err(StartFault::Refused(fault)) => Err(start_refusal(alloc, known, fault)?),
        Err(StartFault::NoMemory) => Err(NotAccepted::NoMemory),
    }
}

// Start values that are refused.
fn start_refusal(alloc: Global, known: WithBook, fault: SpecFault) -> Result<NotAccepted, NoMemory>
    ensures { IfOk result (RefusesStarts known fault) }
{
    let flat = flat_copy(alloc, known.book.flat())?;
    let WithBook {
        libraries,
        spec,
        ..
    } = known;
    let known = WithSpec {
        libraries,
        flat,
        spec,
    };
    Ok(NotAccepted::Spec(known.refused(fault)))
}

/// The specification with the state in which it begins: its body with the normal forms of the
/// values.
pub fn started(alloc: Global, valued: WithValues) -> Result<Accepted, NotAccepted>
    requires { MayStart valued }
    ensures { StartsWith valued result }
{
    let WithValues { known, values } = valued;
    let mut known = known;
    let normal = normal_values(alloc, &mut known.book, values.as_slice())?;
    let start = State::start(alloc, &known.spec, normal)?;
    let WithBook {
        spec,
        ranks,
        book,
        ..
    } = known;
    Ok(Accepted {
        spec,
        ranks,
        book,
        start,
    })
}
