//! The values that the words behind `with` are for the parameters of a specification.

ghost use Rattle.behaviour_tree.specs.BehaviourTerms.{profiles_of};
ghost use Rattle.behaviour_tree.specs.BehaviourView.{terms_of};
ghost use Rattle.behaviour_tree.specs.Over.{AreTermsOf};
ghost use Rattle.sort_terms.specs.ProfiledTerm.{IsOf};
ghost use Rattle.sort_terms.specs.ReaderView.{signature_read};
ghost use Rattle.sort_terms.specs.ScopeView.{variables_in};
ghost use Rattle.sort_terms.specs.SignatureView.{signature_of};
ghost use Rattle.sort_terms.specs.SortedView.{profiled_in, term_in};
ghost use Rattle.refusal_lines.specs.Refusal.{start_values as miscounted_as};
ghost use Rattle.refusal_lines.specs.declared.spec_fault.SpecFault.TheVariants.{
  StartTerm as start_term,
};
ghost use Rattle.refusal_lines.specs.StartValues.{
  AreStartValues,
  HasStartValue,
  HaveTermFault,
  HaveValues,
  IsStartFault,
  IsTermFault,
};
ghost use Rattle.refusal_lines.specs.StartView.{
  FailsAs,
  TellsRefusal,
  TellsTerm,
  parameter_sorts,
  given_start_of,
  word_term_of,
};
ghost use Rattle.refusal_lines.specs.declared.faults.StartFault.TheVariants.{Refused as refused};
ghost use Rattle.refusal_lines.specs.WordLimits.{are_within, words_of};
ghost use Rattle.std.specs.Prelude.{◌≡◌, [], IfOk, IsTrue, MatchResult, length, map};

use crate::SpecFault;
use crate::faults::StartFault;
use crate::start_words::{WordTerm, in_word, word_terms};
use lotos_base::NoMemory;
use sort_terms::{Reader, Scope, Signature, SortFault, Sorted, Variable};
use std::alloc::Global;

/// The terms of the words, each at the sort of its parameter.
///
/// Refused for the first fault of the words; then where there are fewer terms or more than
/// parameters; then for the first term that has not one reading at its sort, in which there are no
/// variables (ISO 8807:1989, overloading of operations).
pub fn start_values(
    alloc: Global,
    signature: &Signature,
    parameters: &[Variable],
    words: &[String],
) -> Result<Vec<Sorted>, StartFault>
    requires { IsTrue (are_within (words_of words.now)) }
    ensures read { MatchResult result
        (λ values. AreStartValues
        (given_start_of signature.now parameters.now (words_of words.now)) (terms_of values.items))
        (FailsAs
        (IsStartFault (given_start_of signature.now parameters.now (words_of words.now)))) }
    ensures profiles { IfOk result
        (λ values. AreTermsOf (signature_of signature.now) (profiles_of values.items)) }
{
    let terms = word_terms(alloc, words)?;
    if terms.len() != parameters.len() {
        return Err(miscounted(parameters.len(), terms.len())?);
    }
    let reader = Reader::of(alloc, signature)?;
    let scope = Scope::new(alloc);
    term_values(alloc, &reader, &scope, parameters, terms.as_slice())
}

// The refusal of so many terms for so many parameters.
fn miscounted(wanted: usize, given: usize) -> Result<StartFault, NoMemory>
    ensures { IfOk result (TellsRefusal (miscounted_as wanted given)) }
{
    Ok(StartFault::Refused(SpecFault::StartValues {
        wanted: count(wanted)?,
        given: count(given)?,
    }))
}

// The number in 32 bits. There is no memory for more.
fn count(many: usize) -> Result<u32, NoMemory>
    ensures { IfOk result (λ n. n ≡ many) }
{
    if many > 0xffff_ffff {
        return Err(NoMemory);
    }
    Ok(many as u32)
}

// The values of the terms at the sorts of the parameters.
fn term_values(
    alloc: Global,
    reader: &Reader<'_>,
    scope: &Scope,
    parameters: &[Variable],
    terms: &[WordTerm],
) -> Result<Vec<Sorted>, StartFault>
    requires empty { variables_in scope.now ≡ [] }
    requires counted { length terms.now ≡ length parameters.now }
    ensures read { MatchResult result
        (λ values. HaveValues (signature_read reader.now) (parameter_sorts parameters.now)
        (map word_term_of terms.now) (terms_of values.items))
        (FailsAs (HaveTermFault (signature_read reader.now) (parameter_sorts parameters.now)
        (map word_term_of terms.now))) }
    ensures profiles { IfOk result
        (λ values. AreTermsOf (signature_read reader.now) (profiles_of values.items)) }
{
    let mut values = Vec::with_capacity(alloc, terms.len())?;
    for index in 0..terms.len() {
        values.push(value(reader, scope, &parameters[index], &terms[index])?)?;
    }
    Ok(values)
}

// The value of a term at the sort of a parameter.
fn value(
    reader: &Reader<'_>,
    scope: &Scope,
    parameter: &Variable,
    given: &WordTerm,
) -> Result<Sorted, StartFault>
    requires { variables_in scope.now ≡ [] }
    ensures read { MatchResult result
        (λ value. HasStartValue (signature_read reader.now) parameter.now.sort
        (word_term_of given.now) (term_in value))
        (FailsAs (IsTermFault (signature_read reader.now) parameter.now.sort
        (word_term_of given.now))) }
    ensures profiles { IfOk result (λ value. IsOf (signature_read reader.now)
        (profiled_in value)) }
{
    match reader.read_in(scope, &given.term, Some(parameter.sort)) {
        Ok(value) => Ok(value),
        Err(fault) => Err(term_fault(given.word, fault)),
    }
}

// The refusal of a term of the word with the number.
fn term_fault(word: u32, fault: SortFault) -> StartFault
    ensures { TellsTerm word fault result }
{
    match fault {
        SortFault::UnknownName { place } => misfitting(SortFault::UnknownName {
            place: in_word(word, place),
        }),
        SortFault::UnknownSort { place } => misfitting(SortFault::UnknownSort {
            place: in_word(word, place),
        }),
        SortFault::NoReading { place } => misfitting(SortFault::NoReading {
            place: in_word(word, place),
        }),
        SortFault::TwoReadings { place } => misfitting(SortFault::TwoReadings {
            place: in_word(word, place),
        }),
        SortFault::NoMemory => StartFault::NoMemory,
    }
}

// The refusal of a start value with the fault.
fn misfitting(fault: SortFault) -> StartFault
    ensures { result ≡ refused (start_term fault) }
{
    StartFault::Refused(SpecFault::StartTerm(fault))
}
