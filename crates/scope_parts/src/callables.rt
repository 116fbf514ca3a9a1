//! The processes that are visible.

ghost use Rattle.lotos_base.specs.Name.{spelling};
ghost use Rattle.lotos_base.specs.WrittenView.{text_place_of};
ghost use Rattle.scope_parts.specs.Behaviours.{called_at};
ghost use Rattle.scope_parts.specs.BindingsView.{bindings_in};
ghost use Rattle.scope_parts.specs.CallablesView.{callable_in, callables_of, process_positions};
ghost use Rattle.scope_parts.specs.FaultView.{Answers};
ghost use Rattle.scope_parts.specs.Resolution.{Is};
ghost use Rattle.scope_parts.specs.Scope.{callable_named};
ghost use Rattle.std.proofs.Props.{props};
ghost use Rattle.std.specs.Prelude.{
  ◌≡◌,
  ◌-◌,
  ◌≤◌,
  ◌∷◌,
  [],
  IfOk,
  OnErr,
  OnOk,
  drop,
  length,
  option_map,
};

use crate::bindings::Bindings;
use crate::callable::Callable;
use lotos_base::{Name, NoMemory};
use std::alloc::Global;

/// Processes in the order of their declarations, the innermost last. An inner one hides the outer
/// ones of its name.
#[derive(Drop)]
pub struct Callables {
    entries: Vec<Callable>,
    positions: Bindings,
    pub ghost positioned: { bindings_in positions
        ≡ process_positions (callables_of entries.items) } by { Prim.hlevel props },
}

impl Callables {
    ghost use Rattle.scope_parts.specs.ProcessesView.{processes_in};

    /// No processes.
    pub fn new(alloc: Global) -> Callables
        ensures { processes_in result ≡ [] }
    {
        Callables {
            entries: Vec::new(alloc),
            positions: Bindings::new(alloc),
        }
    }

    /// How many processes there are, the hidden ones among them.
    pub fn size(&self) -> usize
        ensures { result ≡ length (processes_in self.now) }
    {
        self.entries.len()
    }

    /// Adds a process, which hides the earlier ones of its name.
    pub fn push(&mut self, alloc: Global, process: Callable) -> Result<(), NoMemory>
        ensures { OnOk result (processes_in self.new
            ≡ callable_in process ∷ processes_in self.old) }
    {
        self.entries.reserve(1)?;
        self.positions
            .bind(alloc, &process.name, self.entries.len())?;
        self.entries.push(process)?;
        Ok(())
    }

    /// Takes off the innermost processes until so many are left.
    pub fn cut_to(&mut self, size: usize)
        requires { size ≤ length (processes_in self.old) }
        ensures { processes_in self.new
            ≡ drop (length (processes_in self.old) - size) (processes_in self.old) }
    {
        self.entries.truncate(size);
        self.positions.cut_to(size);
    }

    /// The process of this name, if one is visible.
    pub fn named(&self, alloc: Global, name: &Name) -> Result<Option<&Callable>, NoMemory>
        ensures { IfOk result (λ found. option_map (λ p. callable_in p.now) found
            ≡ callable_named (processes_in self.now) (spelling name.now)) }
    {
        match self.positions.find(alloc, name)? {
            Some(position) => Ok(Some(&self.entries[position])),
            None => Ok(None),
        }
    }
}
