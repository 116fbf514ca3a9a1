//! The scope of the equations of a group.

ghost use Rattle.lotos_base.specs.Name.{spelling};
ghost use Rattle.sort_terms.specs.EquationView.{variable_of};
ghost use Rattle.sort_terms.specs.ScopeView.{variables_in};
ghost use Rattle.sort_terms.specs.ReaderView.{signature_read};
ghost use Rattle.std.specs.Prelude.{◌≡◌, ◌∷◌, ◌++◌, ℕ, List, IfOk, MatchResult, map};
ghost use Rattle.syntax_trees.specs.TreeViews.{group_of, written_variables_of};
ghost use Rattle.syntax_trees.specs.WrittenVariable.{WrittenVariable};
ghost use Rattle.type_definitions.specs.FaultView.{HoldsOfFault};
ghost use Rattle.type_definitions.specs.DeclaredEquations.{
  EquationQuestion,
  GiveAll,
  HasFirstFault,
  asked_of_variables,
  scope_from,
  sort_asked,
};
ghost use Rattle.type_definitions.specs.Presentation.{Presentation as PlainPresentation};

use crate::sorts::{add_variables, sort_at};
use lotos_base::NoMemory;
use sort_terms::{Reader, Scope, Variable};
use std::alloc::Global;
use syntax_trees::GroupText;
use type_definitions::TypeFault;

/// Variables, each with its position as its number.
#[derive(Drop)]
pub struct Section {
    /// The variables.
    pub variables: Vec<Variable>,
    /// The same, found by their names.
    pub scope: Scope,
    pub ghost same: { variables_in scope ≡ map variable_of variables.items },
}

impl Section {
    /// No variables.
    pub fn new(alloc: Global) -> Section {
        Section {
            variables: Vec::new(alloc),
            scope: Scope::new(alloc),
        }
    }

    /// The variables with their names.
    pub fn of(alloc: Global, variables: Vec<Variable>) -> Result<Section, NoMemory>
        ensures { IfOk result (λ s. s.variables ≡ variables) }
    {
        let scope = Scope::of(alloc, variables.as_slice())?;
        Ok(Section { variables, scope })
    }

    // The scope of equations whose sides have this sort.
    fn over(&self, sort: u32) -> EquationScope<'_>
        ensures variables { result.variables.now ≡ self.now.variables.items }
        ensures scope { result.scope.now ≡ self.now.scope }
        ensures sort { result.sort ≡ sort }
    {
        EquationScope {
            variables: self.variables.as_slice(),
            scope: &self.scope,
            sort,
        }
    }
}

/// The variables in scope of the equations of a group, each with its position as its number, and
/// the sort of their sides.
#[derive(Drop)]
pub struct EquationScope<'a> {
    /// The variables.
    pub variables: &'a [Variable],
    /// The same, found by their names.
    pub scope: &'a Scope,
    /// The sort of both sides of each equation.
    pub sort: u32,
}

impl<'a> EquationScope<'a> {
    ghost use Rattle.type_equations.specs.ScopeFor.{IsScopeFor, sorts_asked};

    /// The scope of a group, whose variables come behind those of the section: it is that of the
    /// section where the group has none, and else it is put where there is room. It is refused at
    /// the first name of no sort: that of the sides, then those of its variables.
    pub fn of_group(
        alloc: Global,
        reader: &Reader<'_>,
        section: &'a Section,
        room: &'a mut Section,
        group: &GroupText,
    ) -> Result<EquationScope<'a>, TypeFault>
        ensures { (p : PlainPresentation) (variables : List WrittenVariable)
            → p.signature ≡ signature_read reader.now → GiveAll p (asked_of_variables variables) p
            → map variable_of section.now.variables.items ≡ scope_from p 0 variables
            → MatchResult result (λ scope. GiveAll p (sorts_asked (group_of group.now)) p
            × IsScopeFor p (variables ++ written_variables_of group.now.variables.items)
            (spelling group.now.sort) scope)
            (λ fault. HoldsOfFault fault (λ f. (type_name : List ℕ) → HasFirstFault type_name p
            (sorts_asked (group_of group.now)) f)) }
    {
        let sort = sort_at(alloc, reader, group.place, &group.sort)?;
        if group.variables.is_empty() {
            return Ok(section.over(sort));
        }
        let mut variables = copies(alloc, section.variables.as_slice())?;
        add_variables(alloc, reader, &mut variables, group.variables.as_slice())?;
        *room = Section::of(alloc, variables)?;
        Ok(room.over(sort))
    }
}

// The same variables.
fn copies(alloc: Global, variables: &[Variable]) -> Result<Vec<Variable>, NoMemory>
    ensures { IfOk result (λ made. map variable_of made.items ≡ map variable_of variables.now) }
{
    let mut made = Vec::with_capacity(alloc, variables.len())?;
    for variable in variables {
        made.push(variable.copy(alloc)?)?;
    }
    Ok(made)
}
