//! The variables that are visible where a term stands.

ghost use Rattle.lotos_base.specs.Name.{spelling};
ghost use Rattle.lotos_base.specs.WrittenTerm.{written_terms};
ghost use Rattle.lotos_base.specs.WrittenView.{written_term_of, written_terms_of};
ghost use Rattle.sort_terms.specs.EquationView.{variable_of};
ghost use Rattle.sort_terms.specs.ScopeView.{variables_in};
ghost use Rattle.scope_parts.specs.BindingsView.{bindings_in};
ghost use Rattle.scope_parts.specs.Seen.{
  found_list,
  positions_in,
  seen_in,
  seen_in_each,
  visible_named,
};
ghost use Rattle.std.proofs.Props.{props};
ghost use Rattle.std.specs.Prelude.{
  ◌≡◌,
  ◌≤◌,
  ◌∷◌,
  ◌++◌,
  [],
  IfOk,
  OnErr,
  OnOk,
  length,
  map,
  option_map,
  take,
};

use crate::bindings::Bindings;
use lotos_base::{Name, NoMemory, Written};
use sort_terms::{Scope, Variable};
use std::alloc::Global;

/// Variables in the order of their declarations, the innermost last.
#[derive(Drop)]
pub struct Visible {
    variables: Vec<Variable>,
    positions: Bindings,
    pub ghost positioned: { bindings_in positions
        ≡ positions_in (map variable_of variables.items) } by { Prim.hlevel props },
}

impl Visible {
    ghost use Rattle.scope_parts.specs.VisibleView.{visible_in};

    /// No variables.
    pub fn new(alloc: Global) -> Visible
        ensures { visible_in result ≡ [] }
    {
        Visible {
            variables: Vec::new(alloc),
            positions: Bindings::new(alloc),
        }
    }

    /// How many variables there are, the hidden ones among them.
    pub fn size(&self) -> usize
        ensures { result ≡ length (visible_in self.now) }
    {
        self.variables.len()
    }

    /// Adds a variable, which hides the earlier ones of its name.
    pub fn push(&mut self, alloc: Global, variable: Variable) -> Result<(), NoMemory>
        ensures added { OnOk result (visible_in self.new
            ≡ visible_in self.old ++ variable_of variable ∷ []) }
        ensures unchanged { OnErr result (visible_in self.new ≡ visible_in self.old) }
    {
        self.variables.reserve(1)?;
        self.positions
            .bind(alloc, &variable.name, self.variables.len())?;
        self.variables.push(variable)?;
        Ok(())
    }

    /// Takes off the innermost variables until so many are left.
    pub fn cut_to(&mut self, size: usize)
        requires { size ≤ length (visible_in self.old) }
        ensures { visible_in self.new ≡ take size (visible_in self.old) }
    {
        self.variables.truncate(size);
        self.positions.cut_to(size);
    }

    /// The variable of this name, if one is visible.
    pub fn named(&self, alloc: Global, name: &Name) -> Result<Option<&Variable>, NoMemory>
        ensures { IfOk result (λ found. option_map (λ v. variable_of v.now) found
            ≡ visible_named (visible_in self.now) (spelling name.now)) }
    {
        match self.positions.find(alloc, name)? {
            Some(position) => Ok(Some(&self.variables[position])),
            None => Ok(None),
        }
    }

    /// A scope with the variables that the names of a term mean.
    pub fn seen_by(&self, alloc: Global, written: &Written) -> Result<Scope, NoMemory>
        ensures { IfOk result (λ scope. variables_in scope
            ≡ seen_in (visible_in self.now) (written_term_of written.now)) }
    {
        let mut scope = Scope::new(alloc);
        self.add_seen(alloc, &mut scope, written)?;
        Ok(scope)
    }

    /// A scope with the variables that the names of two terms mean.
    pub fn seen_by_both(
        &self,
        alloc: Global,
        left: &Written,
        right: &Written,
    ) -> Result<Scope, NoMemory>
        ensures { IfOk result (λ scope. variables_in scope
            ≡ seen_in (visible_in self.now) (written_term_of left.now)
            ++ seen_in (visible_in self.now) (written_term_of right.now)) }
    {
        let mut scope = Scope::new(alloc);
        self.add_seen(alloc, &mut scope, left)?;
        self.add_seen(alloc, &mut scope, right)?;
        Ok(scope)
    }

    // Adds the variables that the names of the term mean.
    #[cycle(seeing)]
    fn add_seen(&self, alloc: Global, scope: &mut Scope, written: &Written) -> Result<(), NoMemory>
        ensures { OnOk result (variables_in scope.new ≡ variables_in scope.old
            ++ seen_in (visible_in self.now) (written_term_of written.now)) }
    {
        self.add_named(alloc, scope, &written.name)?;
        self.add_all_seen(alloc, scope, &written.args)
    }

    // Adds those of each of the terms.
    #[cycle(seeing)]
    fn add_all_seen(
        &self,
        alloc: Global,
        scope: &mut Scope,
        written: &Vec<Written>,
    ) -> Result<(), NoMemory>
        ensures { OnOk result (variables_in scope.new ≡ variables_in scope.old
            ++ seen_in_each (visible_in self.now)
            (written_terms (written_terms_of written.now.items))) }
    {
        for term in written {
            self.add_seen(alloc, scope, term)?;
        }
        Ok(())
    }

    // Adds the variable of the name, if one is visible.
    fn add_named(&self, alloc: Global, scope: &mut Scope, name: &Name) -> Result<(), NoMemory>
        ensures { OnOk result (variables_in scope.new ≡ variables_in scope.old
            ++ found_list (visible_named (visible_in self.now) (spelling name.now))) }
    {
        match self.named(alloc, name)? {
            Some(variable) => scope.push(alloc, variable.copy(alloc)?),
            None => Ok(()),
        }
    }
}
