//! Equations, each once.

ghost use Rattle.sort_terms.specs.EquationView.{equation_of};
ghost use Rattle.std.specs.Prelude.{◌≡◌, ◌∷◌, ◌++◌, [], OnOk, map};
ghost use Rattle.lotos_base.specs.Signature.{Signature};
ghost use Rattle.type_definitions.specs.Presentation.{is_same_equation, with_new};
ghost use Rattle.type_definitions.specs.Images.{equation_image};
ghost use Rattle.type_definitions.specs.ProfiledImage.{number_in};
ghost use Rattle.type_presentations.specs.OperationListView.{operations_in};

use crate::equation_keys::equation_key;
use crate::{KeySet, OperationList};
use lotos_base::NoMemory;
use sort_terms::Equation;
use std::alloc::Global;
use type_definitions::image_of_equation;

/// Equations, each once, in the order in which they came, with their keys.
#[derive(Drop)]
pub struct EquationList {
    equations: Vec<Equation>,
    keys: KeySet,
}

impl EquationList {
    ghost use Rattle.type_presentations.specs.EquationListView.{
      AllKeepProfiles,
      HasEquationKeys,
      HasSidesOver,
      HaveSidesOf,
      ImagesAreOf,
      equations_in,
    };

    /// No equations.
    pub fn new(alloc: Global) -> EquationList
        ensures keyed { HasEquationKeys result }
        ensures equations { equations_in result ≡ [] }
    {
        EquationList {
            equations: Vec::new(alloc),
            keys: KeySet::new(alloc),
        }
    }

    /// The equations.
    pub fn equations(&self) -> &[Equation]
        ensures same { result.now ≡ self.now.equations.items }
        ensures equations { map equation_of result.now ≡ equations_in self.now }
    {
        self.equations.as_slice()
    }

    /// The equations, without their keys.
    pub fn into_equations(self) -> Vec<Equation>
        ensures { result.items ≡ self.equations.items }
    {
        self.equations
    }

    /// Adds an equation at the end. An equation that is there stays alone.
    pub fn add(&mut self, alloc: Global, equation: Equation) -> Result<(), NoMemory>
        requires keyed { HasEquationKeys self.old }
        ensures keyed { OnOk result (HasEquationKeys self.new) }
        ensures equations { OnOk result (equations_in self.new
            ≡ with_new is_same_equation (equations_in self.old) (equation_of equation ∷ [])) }
        ensures sides { OnOk result ((signature : Signature)
            → HaveSidesOf signature self.old.equations.items → HasSidesOver signature equation
            → HaveSidesOf signature self.new.equations.items) }
    {
        let placed = self.keys.add(equation_key(alloc, &equation)?)?;
        if placed.is_new {
            self.equations.push(equation)?;
            return Ok(());
        }
        Ok(())
    }

    /// Adds an equation at the end, also where it is there already.
    pub fn append(&mut self, alloc: Global, equation: Equation) -> Result<(), NoMemory>
        requires keyed { HasEquationKeys self.old }
        ensures keyed { OnOk result (HasEquationKeys self.new) }
        ensures equations { OnOk result (equations_in self.new
            ≡ equations_in self.old ++ equation_of equation ∷ []) }
        ensures sides { OnOk result ((signature : Signature)
            → HaveSidesOf signature self.old.equations.items → HasSidesOver signature equation
            → HaveSidesOf signature self.new.equations.items) }
    {
        self.keys.add(equation_key(alloc, &equation)?)?;
        self.equations.push(equation)?;
        Ok(())
    }

    /// Adds the equations of the other list, one by one, with the new number of each sort and
    /// operation and with the profiles of the new operations.
    pub fn join(
        &mut self,
        alloc: Global,
        other: &EquationList,
        sorts: &[u32],
        ops: &[u32],
        profiles: &OperationList,
    ) -> Result<(), NoMemory>
        requires keyed { HasEquationKeys self.old }
        requires keeps { AllKeepProfiles (number_in sorts.now) (number_in ops.now)
            (operations_in profiles.now) other.now.equations.items }
        ensures keyed { OnOk result (HasEquationKeys self.new) }
        ensures equations { OnOk result (equations_in self.new
            ≡ with_new is_same_equation (equations_in self.old)
            (map (equation_image (number_in sorts.now) (number_in ops.now))
            (equations_in other.now))) }
        ensures sides { OnOk result ((signature : Signature)
            → HaveSidesOf signature self.old.equations.items
            → ImagesAreOf (number_in sorts.now) (number_in ops.now)
            (operations_in profiles.now) signature other.now.equations.items
            → HaveSidesOf signature self.new.equations.items) }
    {
        let shared = profiles.ops();
        for equation in other.equations.as_slice() {
            let image = image_of_equation(alloc, equation, sorts, ops, shared)?;
            self.add(alloc, image)?;
        }
        Ok(())
    }
}
