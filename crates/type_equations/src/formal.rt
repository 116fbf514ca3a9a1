//! Formal equations: they are checked and stay requirements.

ghost use Rattle.type_equations.specs.ScopeFor.{IsScopeFor};
ghost use Rattle.type_equations.specs.Truth.{IsTruth};
ghost use Rattle.type_equations.specs.SectionScope.{IsSectionFor};
ghost use Rattle.sort_terms.specs.ReaderView.{signature_read};
ghost use Rattle.std.specs.Prelude.{◌≡◌, true, ℕ, List, MatchResult};
ghost use Rattle.syntax_trees.specs.TreeViews.{written_equation_of, equations_of, group_of};
ghost use Rattle.syntax_trees.specs.WrittenVariable.{WrittenVariable};
ghost use Rattle.type_definitions.specs.FaultView.{HoldsOfFault};
ghost use Rattle.type_definitions.specs.DeclaredEquations.{
  AskedEquation,
  GiveAll,
  GivesPresentation,
  QuestionHasFault,
  HasFirstFault,
  asked_of_group,
  asked_of_section,
  formal_asked,
};
ghost use Rattle.type_definitions.specs.Presentation.{Presentation as PlainPresentation};

use crate::equation_scope::Section;
use crate::sorts::add_variables;
use crate::{EquationScope, check_premisses, read_sides};
use sort_terms::Reader;
use std::alloc::Global;
use syntax_trees::{EqText, EqnsText, GroupText};
use type_definitions::TypeFault;

/// Checks the formal equations of a section over the signature of the reader, in text order: the
/// sorts of its variables, then its groups, each with its sort, its variables and its equations. An
/// equation is refused where a side has not one reading, the left side first, then at its first
/// premiss that cannot be read. One of a single term is of the sort `Bool`, whose number is given
/// where it has a constant `true`.
pub fn check_section(
    alloc: Global,
    reader: &Reader<'_>,
    truth: Option<u32>,
    section: &EqnsText,
) -> Result<(), TypeFault>
    ensures { (p : PlainPresentation) → p.signature ≡ signature_read reader.now → IsTruth p truth
        → MatchResult result (λ _. GiveAll p (asked_of_section true (equations_of section.now)) p)
        (λ fault. HoldsOfFault fault (λ f. (type_name : List ℕ) → HasFirstFault type_name p
        (asked_of_section true (equations_of section.now)) f)) }
{
    let mut variables = Vec::new(alloc);
    add_variables(alloc, reader, &mut variables, section.variables.as_slice())?;
    let shared = Section::of(alloc, variables)?;
    for group in &section.groups {
        check_group(alloc, reader, truth, &shared, group)?;
    }
    Ok(())
}

// Checks the equations of a group.
fn check_group(
    alloc: Global,
    reader: &Reader<'_>,
    truth: Option<u32>,
    section: &Section,
    group: &GroupText,
) -> Result<(), TypeFault>
    requires { (p : PlainPresentation) × (written : List WrittenVariable)
        × IsSectionFor p written (signature_read reader.now)
        section.now.variables.items }
    ensures { (p : PlainPresentation) (written : List WrittenVariable)
        → IsSectionFor p written (signature_read reader.now)
        section.now.variables.items → IsTruth p truth
        → MatchResult result (λ _. GiveAll p (asked_of_group true written (group_of group.now)) p)
        (λ fault. HoldsOfFault fault (λ f. (type_name : List ℕ) → HasFirstFault type_name p
        (asked_of_group true written (group_of group.now)) f)) }
{
    let mut room = Section::new(alloc);
    let scope = EquationScope::of_group(alloc, reader, section, &mut room, group)?;
    for equation in &group.equations {
        check_equation(reader, truth, &scope, equation)?;
    }
    Ok(())
}

// Checks an equation: its sides, then its premisses.
fn check_equation(
    reader: &Reader<'_>,
    truth: Option<u32>,
    scope: &EquationScope<'_>,
    equation: &EqText,
) -> Result<(), TypeFault>
    requires { (p : PlainPresentation) × (asked : AskedEquation)
        × (p.signature ≡ signature_read reader.now)
        × IsScopeFor p asked.variables asked.sort scope.now }
    ensures { (p : PlainPresentation) (asked : AskedEquation)
        → p.signature ≡ signature_read reader.now
        → IsScopeFor p asked.variables asked.sort scope.now
        → IsTruth p truth → asked.equation ≡ written_equation_of equation.now → MatchResult result
        (λ _. GivesPresentation p (formal_asked asked) p)
        (λ fault. HoldsOfFault fault (λ f. (type_name : List ℕ)
        → QuestionHasFault p type_name (formal_asked asked) f)) }
{
    read_sides(reader, scope, equation)?;
    check_premisses(reader, scope, truth, equation.premisses.as_slice())?;
    Ok(())
}
