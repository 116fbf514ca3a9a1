//! The names that processes are given.

ghost use Rattle.behaviour_tree.specs.DefinitionView.{process_of};
ghost use Rattle.flat_text.specs.GivenNames.{given_name, given_names};
ghost use Rattle.lotos_base.specs.Name.{folded, spelling};
ghost use Rattle.scope_parts.specs.BindingsView.{bindings_in};
ghost use Rattle.scope_parts.specs.Scope.{bound_to};
ghost use Rattle.std.specs.Prelude.{◌≡◌, ◌∷◌, [], ℕ, List, None, Some, IfOk, map};

use crate::free_names::{least_free, with_number};
use behaviour_tree::Process;
use lotos_base::{Name, NoMemory};
use scope_parts::bindings::Bindings;
use std::alloc::Global;

/// The names of the processes so far, each with the number from which on one may be free behind it,
/// and all names that are taken.
#[derive(Drop)]
pub struct Giving {
    earlier: Bindings,
    taken: Bindings,
}

/// The names that the processes are given, in their order: each its own, or its own with `_` and
/// the least number from 2 that makes it differ from the names of all of them and from those given
/// before, where an earlier one has it. Letter case is not distinguished.
pub fn given_names(alloc: Global, processes: &Vec<Process>) -> Result<Vec<Name>, NoMemory>
    ensures { IfOk result (λ made. map spelling made.items
        ≡ given_names (map (λ p. p.name) (map process_of processes.now.items))) }
{
    let mut giving = Giving::beginning(alloc, processes)?;
    let mut given = Vec::with_capacity(alloc, processes.len())?;
    for process in processes {
        given.push(giving.give(alloc, &process.name)?)?;
    }
    Ok(given)
}

impl Giving {
    ghost use Rattle.flat_text.specs.GivingView.{HasGiven};

    // No earlier process, and the names of all of them taken.
    fn beginning(alloc: Global, processes: &Vec<Process>) -> Result<Giving, NoMemory>
        ensures { IfOk result (λ giving. HasGiven giving []
            (map (λ p. p.name) (map process_of processes.now.items))) }
    {
        let earlier = Bindings::new(alloc);
        let mut taken = Bindings::new(alloc);
        for process in processes {
            taken.bind(alloc, &process.name, 0)?;
        }
        Ok(Giving { earlier, taken })
    }

    // The name that a process with this name is given, and it is taken from now on.
    fn give(&mut self, alloc: Global, name: &Name) -> Result<Name, NoMemory>
        ensures { IfOk result (λ given. (earlier taken : List (List ℕ))
            → HasGiven self.old earlier taken
            → (spelling given ≡ given_name earlier taken (spelling name.now))
            × HasGiven self.new (spelling name.now ∷ earlier) (spelling given ∷ taken)) }
    {
        match self.earlier.find(alloc, name)? {
            None => self.keep(alloc, name),
            Some(from) => self.number(alloc, name, from),
        }
    }

    // The name itself, which no earlier process has.
    fn keep(&mut self, alloc: Global, name: &Name) -> Result<Name, NoMemory>
        requires { bound_to (bindings_in self.old.earlier) (folded (spelling name.now)) ≡ None }
        ensures { IfOk result (λ given. (earlier taken : List (List ℕ))
            → HasGiven self.old earlier taken
            → (spelling given ≡ given_name earlier taken (spelling name.now))
            × HasGiven self.new (spelling name.now ∷ earlier) (spelling given ∷ taken)) }
    {
        self.earlier.bind(alloc, name, 2)?;
        self.taken.bind(alloc, name, 0)?;
        Ok(name.copy(alloc)?)
    }

    // The name with a number.
    fn number(&mut self, alloc: Global, name: &Name, from: usize) -> Result<Name, NoMemory>
        requires { bound_to (bindings_in self.old.earlier) (folded (spelling name.now))
            ≡ Some from }
        ensures { IfOk result (λ given. (earlier taken : List (List ℕ))
            → HasGiven self.old earlier taken
            → (spelling given ≡ given_name earlier taken (spelling name.now))
            × HasGiven self.new (spelling name.now ∷ earlier) (spelling given ∷ taken)) }
    {
        let mut word = Vec::from_slice(alloc, name.spelled())?;
        word.push(b'_')?;
        let number = least_free(alloc, &self.taken, word.as_slice(), from)?;
        let given = with_number(alloc, word.as_slice(), number)?;
        self.earlier.bind(alloc, name, number)?;
        self.taken.bind(alloc, &given, 0)?;
        Ok(given)
    }
}
