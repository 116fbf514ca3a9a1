//! The premisses of formal equations.

ghost use Rattle.type_equations.specs.ScopeFor.{IsScopeFor};
ghost use Rattle.type_equations.specs.Truth.{IsTruth};
ghost use Rattle.sort_terms.specs.ReaderView.{signature_read};
ghost use Rattle.std.specs.Prelude.{◌≡◌, None, MatchResult, map};
ghost use Rattle.syntax_trees.specs.TreeViews.{premiss_of};
ghost use Rattle.type_definitions.specs.FaultView.{HoldsOfFault};
ghost use Rattle.type_definitions.specs.DeclaredEquations.{
  AreReadPremisses,
  AskedEquation,
  IsFirstPremissFault,
  IsPremissFault,
  IsReadPremiss,
};
ghost use Rattle.type_definitions.specs.Presentation.{Presentation as PlainPresentation};

use crate::equation_scope::EquationScope;
use sort_terms::{Reader, SortFault};
use syntax_trees::TestText;
use type_definitions::TypeFault;

/// Reads the premisses in text order, or refuses the first that cannot be read. One of a single
/// term is of the sort `Bool`, whose number is given where it has a constant `true`; without it,
/// such a premiss has no reading.
pub fn check_premisses(
    reader: &Reader<'_>,
    scope: &EquationScope<'_>,
    truth: Option<u32>,
    premisses: &[TestText],
) -> Result<(), TypeFault>
    requires { (p : PlainPresentation) × (asked : AskedEquation)
        × (p.signature ≡ signature_read reader.now)
        × IsScopeFor p asked.variables asked.sort scope.now }
    ensures { (p : PlainPresentation) (asked : AskedEquation)
        → p.signature ≡ signature_read reader.now
        → IsScopeFor p asked.variables asked.sort scope.now
        → IsTruth p truth → MatchResult result
        (λ _. AreReadPremisses p asked (map premiss_of premisses.now))
        (λ fault. HoldsOfFault fault (IsFirstPremissFault p asked
        (map premiss_of premisses.now))) }
{
    for premiss in premisses {
        check_premiss(reader, scope, truth, premiss)?;
    }
    Ok(())
}

// Reads one premiss.
fn check_premiss(
    reader: &Reader<'_>,
    scope: &EquationScope<'_>,
    truth: Option<u32>,
    premiss: &TestText,
) -> Result<(), TypeFault>
    requires { (p : PlainPresentation) × (asked : AskedEquation)
        × (p.signature ≡ signature_read reader.now)
        × IsScopeFor p asked.variables asked.sort scope.now }
    ensures { (p : PlainPresentation) (asked : AskedEquation)
        → p.signature ≡ signature_read reader.now
        → IsScopeFor p asked.variables asked.sort scope.now
        → IsTruth p truth → MatchResult result
        (λ _. IsReadPremiss p asked (premiss_of premiss.now).left (premiss_of premiss.now).right)
        (λ fault. HoldsOfFault fault (IsPremissFault p asked (premiss_of premiss.now).left
        (premiss_of premiss.now).right)) }
{
    match &premiss.right {
        Some(right) => {
            reader.read_pair(scope.scope, &premiss.left, right)?;
            Ok(())
        }
        None => check_single(reader, scope, truth, premiss),
    }
}

// Reads a premiss of a single term.
fn check_single(
    reader: &Reader<'_>,
    scope: &EquationScope<'_>,
    truth: Option<u32>,
    premiss: &TestText,
) -> Result<(), TypeFault>
    requires { (p : PlainPresentation) × (asked : AskedEquation)
        × (p.signature ≡ signature_read reader.now)
        × IsScopeFor p asked.variables asked.sort scope.now }
    ensures { (p : PlainPresentation) (asked : AskedEquation)
        → p.signature ≡ signature_read reader.now
        → IsScopeFor p asked.variables asked.sort scope.now
        → IsTruth p truth → MatchResult result
        (λ _. IsReadPremiss p asked (premiss_of premiss.now).left None)
        (λ fault. HoldsOfFault fault (IsPremissFault p asked (premiss_of premiss.now).left
        None)) }
{
    let Some(sort) = truth else {
        return Err(TypeFault::Term(SortFault::NoReading {
            place: premiss.left.place,
        }));
    };
    reader.read_in(scope.scope, &premiss.left, Some(sort))?;
    Ok(())
}
