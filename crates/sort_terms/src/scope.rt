//! The variables in scope.

ghost use Rattle.sort_terms.specs.EquationView.{variable_of};
ghost use Rattle.sort_terms.specs.NameIndex.{numbers_under};
ghost use Rattle.sort_terms.specs.Positions.{positions_of};
ghost use Rattle.sort_terms.specs.Reading.{IsLastNamed, NoneNamed};
ghost use Rattle.lotos_base.specs.Name.{spelling};
ghost use Rattle.std.proofs.Props.{props};
ghost use Rattle.std.specs.Prelude.{
  ◌≡◌,
  ◌∷◌,
  ◌++◌,
  [],
  ℕ,
  List,
  IfOk,
  OnErr,
  OnOk,
  MatchOption,
  map,
};

use crate::equations::Variable;
use crate::name_index::NameIndex;
use lotos_base::{Name, NoMemory};
use std::alloc::Global;

/// Variables in scope, the innermost last. A later variable of a name hides the earlier ones.
#[derive(Drop)]
pub struct Scope {
    variables: Vec<Variable>,
    index: NameIndex,
    pub ghost indexed: { (key : List ℕ) → numbers_under index key
        ≡ positions_of key (map (λ v. spelling v.name) variables.items) } by { Prim.hlevel props },
}

impl Scope {
    ghost use Rattle.sort_terms.specs.ScopeView.{variables_in};

    /// No variables.
    pub fn new(alloc: Global) -> Scope
        ensures { variables_in result ≡ [] }
    {
        Scope {
            variables: Vec::new(alloc),
            index: NameIndex::new(alloc),
        }
    }

    /// Copies of these variables, in their order.
    pub fn of(alloc: Global, variables: &[Variable]) -> Result<Scope, NoMemory>
        ensures { IfOk result (λ scope. variables_in scope ≡ map variable_of variables.now) }
    {
        let mut scope = Scope::new(alloc);
        for variable in variables {
            scope.push(alloc, variable.copy(alloc)?)?;
        }
        Ok(scope)
    }

    /// Adds a variable, which hides the earlier ones of its name.
    pub fn push(&mut self, alloc: Global, variable: Variable) -> Result<(), NoMemory>
        ensures added { OnOk result (variables_in self.new
            ≡ variables_in self.old ++ variable_of variable ∷ []) }
        ensures unchanged { OnErr result (variables_in self.new ≡ variables_in self.old) }
    {
        self.variables.reserve(1)?;
        self.index.add(alloc, &variable.name, self.variables.len())?;
        self.variables.push(variable)?;
        Ok(())
    }

    /// The last variable of this name, if there is one.
    pub fn last_named(&self, alloc: Global, name: &Name) -> Result<Option<&Variable>, NoMemory>
        ensures { IfOk result (λ found. MatchOption found
            (NoneNamed (variables_in self.now) (spelling name.now))
            (λ v. IsLastNamed (variables_in self.now) (spelling name.now) (variable_of v.now))) }
    {
        let numbers = self.index.numbers(alloc, name)?;
        match numbers.last() {
            Some(number) => Ok(Some(&self.variables[*number])),
            None => Ok(None),
        }
    }
}
