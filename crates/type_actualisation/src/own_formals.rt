//! The formal equations that a type declares itself.

ghost use Rattle.sort_terms.specs.ReaderView.{signature_read};
ghost use Rattle.sort_terms.specs.SignatureView.{signature_of};
ghost use Rattle.std.specs.Prelude.{◌≡◌, ◌∷◌, [], List, OnOk, true};
ghost use Rattle.syntax_trees.specs.TreeViews.{written_equation_of, equations_of, group_of};
ghost use Rattle.syntax_trees.specs.WrittenVariable.{WrittenVariable};
ghost use Rattle.type_definitions.specs.DeclaredEquations.{
  AskedEquation,
  asked_of_group,
  asked_of_section,
  formal_asked,
};
ghost use Rattle.type_definitions.specs.FormalEquations.{has_premisses};
ghost use Rattle.type_equations.specs.ScopeFor.{IsScopeFor};
ghost use Rattle.type_equations.specs.SectionScope.{IsSectionFor};
ghost use Rattle.type_actualisation.specs.FormalLists.{AreFormalsOver, AreKeptFormals, over_signature};
ghost use Rattle.type_presentations.specs.PresentationView.{IsSound, IsWithinLimits, presentation_of};

use sort_terms::{Reader, Signature};
use std::alloc::Global;
use syntax_trees::{EqText, EqnsText, GroupText};
use type_definitions::TypeFault;
use type_equations::equation_scope::Section;
use type_equations::sorts::add_variables;
use type_equations::{EquationScope, equation_made, read_sides, signature_copy};
use type_presentations::{EquationList, Presentation};

/// Adds the formal equations of the section that have no premisses, read over the signature of the
/// presentation, in text order.
pub fn own_formals(
    alloc: Global,
    list: &mut EquationList,
    presentation: &Presentation,
    section: &EqnsText,
) -> Result<(), TypeFault>
    requires sound { IsSound presentation.now }
    requires within { IsWithinLimits presentation.now }
    requires over { AreFormalsOver (presentation_of presentation.now).signature list.old }
    ensures kept { OnOk result (AreKeptFormals
        (over_signature (presentation_of presentation.now).signature)
        (asked_of_section true (equations_of section.now)) list.old list.new) }
    ensures over { OnOk result (AreFormalsOver (presentation_of presentation.now).signature
        list.new) }
{
    let signature = signature_copy(alloc, presentation)?;
    own_formals_over(alloc, list, &signature, section)
}

// Adds those that are read over the signature.
fn own_formals_over(
    alloc: Global,
    list: &mut EquationList,
    signature: &Signature,
    section: &EqnsText,
) -> Result<(), TypeFault>
    requires { AreFormalsOver (signature_of signature.now) list.old }
    ensures kept { OnOk result (AreKeptFormals (over_signature (signature_of signature.now))
        (asked_of_section true (equations_of section.now)) list.old list.new) }
    ensures over { OnOk result (AreFormalsOver (signature_of signature.now) list.new) }
{
    let reader = Reader::of(alloc, signature)?;
    keep_section(alloc, list, &reader, section)
}

// Adds those of a section.
fn keep_section(
    alloc: Global,
    list: &mut EquationList,
    reader: &Reader<'_>,
    section: &EqnsText,
) -> Result<(), TypeFault>
    requires { AreFormalsOver (signature_read reader.now) list.old }
    ensures kept { OnOk result (AreKeptFormals (over_signature (signature_read reader.now))
        (asked_of_section true (equations_of section.now)) list.old list.new) }
    ensures over { OnOk result (AreFormalsOver (signature_read reader.now) list.new) }
{
    let mut variables = Vec::new(alloc);
    add_variables(alloc, reader, &mut variables, section.variables.as_slice())?;
    let shared = Section::of(alloc, variables)?;
    for group in &section.groups {
        keep_group(alloc, list, reader, &shared, group)?;
    }
    Ok(())
}

// Adds those of a group.
fn keep_group(
    alloc: Global,
    list: &mut EquationList,
    reader: &Reader<'_>,
    section: &Section,
    group: &GroupText,
) -> Result<(), TypeFault>
    requires over { AreFormalsOver (signature_read reader.now) list.old }
    requires section { (written : List WrittenVariable)
        × IsSectionFor (over_signature (signature_read reader.now)) written
        (signature_read reader.now) section.now.variables.items }
    ensures kept { OnOk result ((written : List WrittenVariable)
        → IsSectionFor (over_signature (signature_read reader.now)) written
        (signature_read reader.now) section.now.variables.items
        → AreKeptFormals (over_signature (signature_read reader.now))
        (asked_of_group true written (group_of group.now)) list.old list.new) }
    ensures over { OnOk result (AreFormalsOver (signature_read reader.now) list.new) }
{
    let mut room = Section::new(alloc);
    let scope = EquationScope::of_group(alloc, reader, section, &mut room, group)?;
    for equation in &group.equations {
        keep_equation(alloc, list, reader, &scope, equation)?;
    }
    Ok(())
}

// Adds the equation, unless it has premisses.
fn keep_equation(
    alloc: Global,
    list: &mut EquationList,
    reader: &Reader<'_>,
    scope: &EquationScope<'_>,
    equation: &EqText,
) -> Result<(), TypeFault>
    requires over { AreFormalsOver (signature_read reader.now) list.old }
    requires scoped { (asked : AskedEquation)
        × IsScopeFor (over_signature (signature_read reader.now)) asked.variables asked.sort
        scope.now × (asked.equation ≡ written_equation_of equation.now) }
    ensures kept { OnOk result ((asked : AskedEquation)
        → IsScopeFor (over_signature (signature_read reader.now)) asked.variables asked.sort
        scope.now → asked.equation ≡ written_equation_of equation.now
        → AreKeptFormals (over_signature (signature_read reader.now)) (formal_asked asked ∷ [])
        list.old list.new) }
    ensures over { OnOk result (AreFormalsOver (signature_read reader.now) list.new) }
{
    let premised = is_premised(equation);
    if premised {
        return Ok(());
    }
    let (left, right) = read_sides(reader, scope, equation)?;
    let made = equation_made(alloc, equation.place, scope.variables, &left, &right)?;
    list.append(alloc, made)?;
    Ok(())
}

// Whether the equation has premisses.
fn is_premised(equation: &EqText) -> bool
    ensures { result ≡ has_premisses (written_equation_of equation.now).premisses }
{
    let none = equation.premisses.is_empty();
    !none
}
