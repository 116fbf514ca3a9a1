//! The sides of a lemma.

ghost use Rattle.induct_check.specs.CertificateReading.{AreReadSides, IsWrittenSide, NamesAreKnown};
ghost use Rattle.induct_check.specs.KnownView.{HasKnownSignature, known_signature};
ghost use Rattle.induct_parts.specs.HandedOn.{Statement as PlainStatement};
ghost use Rattle.induct_parts.specs.StatementView.{IsStatementOf, statement_of};
ghost use Rattle.lotos_base.specs.WrittenTerm.{WrittenTerm};
ghost use Rattle.lotos_base.specs.WrittenView.{written_term_of};
ghost use Rattle.sort_terms.specs.EquationView.{variable_of};
ghost use Rattle.sort_terms.specs.Reading.{IsScopeOver};
ghost use Rattle.std.specs.Prelude.{
  ◌≡◌,
  ◌↔◌,
  ◌+◌,
  ◌<◌,
  ◌^◌,
  ◌∷◌,
  [],
  IfOk,
  IsTrue,
  MatchOption,
  length,
  map,
};

use crate::known::Known;
use induct_parts::statements::Statement;
use lotos_base::{NoMemory, Written};
use lotos_grammar::{ReadFault, read_terms, texts_have_one_outcome};
use sort_terms::laws::reading_comes_to_one_thing;
use sort_terms::{Scope, SortFault, Variable};

/// The term that the text of a side is, if it is one and its names are known.
pub fn side(known: &Known, variables: &[Variable], text: &[u8]) -> Result<Option<Written>, NoMemory>
    requires known { HasKnownSignature known.now }
    requires scope { IsScopeOver (known_signature known.now) (map variable_of variables.now) }
    requires short { length text.now + 1 < 2 ^ 32 }
    ensures { IfOk result (λ found. MatchOption found
        ((side : WrittenTerm) → ¬ IsWrittenSide (known_signature known.now)
        (map variable_of variables.now) text.now side)
        (λ w. IsWrittenSide (known_signature known.now) (map variable_of variables.now) text.now
        (written_term_of w))) }
{
    texts_have_one_outcome();
    match read_terms(known.alloc, text, 0) {
        Ok(terms) => one_side(known, variables, terms),
        Err(ReadFault::BadByte { .. }) => Ok(None),
        Err(ReadFault::OpenComment { .. }) => Ok(None),
        Err(ReadFault::TooLong) => Ok(None),
        Err(ReadFault::Syntax { .. }) => Ok(None),
        Err(ReadFault::TooDeep { .. }) => Ok(None),
        Err(ReadFault::NoMemory) => Err(NoMemory),
    }
}

// The one term, if there is one and its names are known.
fn one_side(
    known: &Known,
    variables: &[Variable],
    mut terms: Vec<Written>,
) -> Result<Option<Written>, NoMemory>
    requires known { HasKnownSignature known.now }
    requires scope { IsScopeOver (known_signature known.now) (map variable_of variables.now) }
    ensures { IfOk result (λ found. MatchOption found
        ((side : WrittenTerm) → map written_term_of terms.items ≡ side ∷ []
        → ¬ NamesAreKnown (known_signature known.now) (map variable_of variables.now) side)
        (λ w. (map written_term_of terms.items ≡ written_term_of w ∷ [])
        × NamesAreKnown (known_signature known.now) (map variable_of variables.now)
        (written_term_of w))) }
{
    let Some(term) = terms.pop() else {
        return Ok(None);
    };
    if !terms.is_empty() {
        return Ok(None);
    }
    if !are_names_known(known, variables, &term)? {
        return Ok(None);
    }
    Ok(Some(term))
}

// Whether the names of the term are known.
fn are_names_known(known: &Known, variables: &[Variable], term: &Written) -> Result<bool, NoMemory>
    requires known { HasKnownSignature known.now }
    requires scope { IsScopeOver (known_signature known.now) (map variable_of variables.now) }
    ensures { IfOk result (λ answer. IsTrue answer ↔ NamesAreKnown (known_signature known.now)
        (map variable_of variables.now) (written_term_of term.now)) }
{
    reading_comes_to_one_thing();
    let scope = Scope::of(known.alloc, variables)?;
    match known.reader.read_in(&scope, term, None) {
        Ok(_) => Ok(true),
        Err(SortFault::UnknownName { .. }) => Ok(false),
        Err(SortFault::UnknownSort { .. }) => Ok(false),
        Err(SortFault::NoReading { .. }) => Ok(true),
        Err(SortFault::TwoReadings { .. }) => Ok(true),
        Err(SortFault::NoMemory) => Err(NoMemory),
    }
}

/// The two sides, if they have one pair of readings with one sort.
pub fn both_sides(
    known: &Known,
    variables: &[Variable],
    left: &Written,
    right: &Written,
) -> Result<Option<Statement>, NoMemory>
    requires known { HasKnownSignature known.now }
    requires scope { IsScopeOver (known_signature known.now) (map variable_of variables.now) }
    ensures { IfOk result (λ found. MatchOption found
        ((statement : PlainStatement) → ¬ AreReadSides (known_signature known.now)
        (map variable_of variables.now) (written_term_of left.now) (written_term_of right.now)
        statement)
        (λ s. AreReadSides (known_signature known.now) (map variable_of variables.now)
        (written_term_of left.now) (written_term_of right.now) (statement_of s)
        × IsStatementOf (known_signature known.now) s)) }
{
    reading_comes_to_one_thing();
    let scope = Scope::of(known.alloc, variables)?;
    match known.reader.read_pair(&scope, left, right) {
        Ok((left, right)) => Ok(Some(Statement { left, right })),
        Err(SortFault::NoMemory) => Err(NoMemory),
        Err(_) => Ok(None),
    }
}
