//! What is known where a behaviour stands.

ghost use Rattle.sort_terms.specs.EquationView.{variable_of};
ghost use Rattle.sort_terms.specs.ReaderView.{signature_read};
ghost use Rattle.sort_terms.specs.Reading.{IsScopeOver};
ghost use Rattle.behaviour_semantics.specs.WellFormed.{Every};
ghost use Rattle.behaviour_scopes.specs.ResolverState.{
  nothing_declared,
  seeing,
  with_first_variables,
  with_last_gates,
};
ghost use Rattle.behaviour_scopes.specs.Grown.{Grown};
ghost use Rattle.scope_parts.specs.VisibleView.{visible_in};
ghost use Rattle.std.specs.Prelude.{◌≡◌, ◌+◌, ◌≤◌, ◌++◌, IfOk, OnOk, length, map};
ghost use Rattle.lotos_base.specs.Equation as equation;
ghost use Rattle.lotos_base.specs.Signature.{IsSort};

use lotos_base::NoMemory;
use scope_parts::callables::Callables;
use scope_parts::gate_table::GateTable;
use scope_parts::terms::Terms;
use scope_parts::visible::Visible;
use sort_terms::Variable;
use std::alloc::Global;

/// The signature, the gates that were declared so far, what is visible, and the next numbers.
#[derive(Drop)]
pub struct Resolver<'a> {
    /// What terms are read with.
    pub terms: Terms<'a>,
    /// The gates.
    pub gates: GateTable,
    /// The variables that are visible.
    pub variables: Visible,
    /// The processes that are visible.
    pub processes: Callables,
    /// The number of the next variable.
    pub next_variable: u64,
    /// The number of the next process.
    pub next_process: u32,
    pub ghost over: { IsScopeOver (signature_read terms.reader) (visible_in variables) },
}

impl<'a> Resolver<'a> {
    ghost use Rattle.behaviour_scopes.specs.ResolverView.{state_in};

    /// Before the first declaration of a text.
    pub fn new(alloc: Global, terms: Terms<'a>) -> Resolver<'a>
        ensures { state_in result ≡ nothing_declared (signature_read terms.entry.reader) }
    {
        Resolver {
            terms,
            gates: GateTable::new(alloc),
            variables: Visible::new(alloc),
            processes: Callables::new(alloc),
            next_variable: 0,
            next_process: 0,
        }
    }
}

impl Resolver<'_> {
    ghost use Rattle.behaviour_scopes.specs.ResolverView.{state_in};

    /// Makes variables visible, which have the next numbers.
    pub fn see(&mut self, alloc: Global, added: &Vec<Variable>) -> Result<(), NoMemory>
        requires { Every (λ (x : equation.Variable). IsSort (state_in self.old).signature x.sort)
            (map variable_of added.now.items) }
        ensures { OnOk result (state_in self.new
            ≡ seeing (map variable_of added.now.items) (state_in self.old)) }
    {
        push_all(alloc, &mut self.variables, added)?;
        self.next_variable = past_number(self.next_variable, added.len())?;
        Ok(())
    }

    /// Leaves so many variables, the first ones.
    pub fn forget_variables(&mut self, size: usize)
        requires { size ≤ length (state_in self.old).scope.variables }
        ensures { state_in self.new ≡ with_first_variables size (state_in self.old) }
    {
        self.variables.cut_to(size);
    }

    /// Leaves so many bindings of gates, the outermost ones.
    pub fn forget_gates(&mut self, size: usize)
        requires { size ≤ length (state_in self.old).scope.gates }
        ensures { state_in self.new ≡ with_last_gates size (state_in self.old) }
    {
        self.gates.visible.cut_to(size);
    }
}

// The number behind so many. There is no memory for so many declarations that there is none.
fn past_number(number: u64, many: usize) -> Result<u64, NoMemory>
    ensures { IfOk result (λ next. next ≡ number + many) }
{
    match number.checked_add(many as u64) {
        Some(next) => Ok(next),
        None => Err(NoMemory),
    }
}

// Adds variables, one after the other.
fn push_all(alloc: Global, visible: &mut Visible, variables: &Vec<Variable>) -> Result<(), NoMemory>
    ensures added { OnOk result (visible_in visible.new
        ≡ visible_in visible.old ++ map variable_of variables.now.items) }
    ensures grown { Grown (map variable_of variables.now.items) (visible_in visible.old)
        (visible_in visible.new) }
{
    for variable in variables {
        visible.push(alloc, variable.copy(alloc)?)?;
    }
    Ok(())
}
