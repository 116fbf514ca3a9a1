//! Calls of processes.

ghost use Rattle.behaviour_tree.specs.BehaviourTerms.{profiles_in};
ghost use Rattle.behaviour_tree.specs.BehaviourView.{behaviour_of};
ghost use Rattle.behaviour_tree.specs.Over.{AreTermsOf};
ghost use Rattle.lotos_base.specs.Name.{spelling};
ghost use Rattle.lotos_base.specs.WrittenView.{text_place_of, written_terms_of};
ghost use Rattle.behaviour_scopes.specs.PlacesView.{places_in};
ghost use Rattle.scope_parts.specs.Behaviours.{CallIs, counted_call};
ghost use Rattle.scope_parts.specs.CallablesView.{callable_in};
ghost use Rattle.scope_parts.specs.FaultView.{Answers};
ghost use Rattle.scope_parts.specs.ProcessesView.{processes_in};
ghost use Rattle.scope_parts.specs.Resolution.{Is, and_then};
ghost use Rattle.scope_parts.specs.Scope.{callable_named, found_process};
ghost use Rattle.std.specs.Prelude.{◌≡◌, ◌∷◌, [], IfOk, length};
ghost use Rattle.syntax_trees.specs.TreeViews.{placed_names_of};

use crate::resolver::Resolver;
use behaviour_tree::Beh;
use lotos_base::{Name, NoMemory, Place, Written};
use scope_parts::ScopeFault;
use scope_parts::callable::Callable;
use scope_parts::callables::Callables;
use scope_parts::gates::gates_at;
use std::alloc::Global;
use syntax_trees::Named;

impl Resolver<'_> {
    ghost use Rattle.behaviour_scopes.specs.ResolverView.{state_in};

    /// A call: its process with the counts of gates and values, then its gates, then its values.
    pub fn call(
        &self,
        alloc: Global,
        place: Place,
        name: &Name,
        gates: &Vec<Named>,
        values: &Vec<Written>,
    ) -> Result<Beh, ScopeFault>
        ensures read { Answers behaviour_of result (CallIs (state_in self.now).signature
            (state_in self.now).scope (text_place_of place) (spelling name.now)
            (placed_names_of gates.now.items) (written_terms_of values.now.items)) }
        ensures profiles { IfOk result (λ b. AreTermsOf (state_in self.now).signature
            (profiles_in b)) }
        ensures places { IfOk result (λ b. places_in b ≡ text_place_of place ∷ []) }
    {
        let process = called(
            alloc,
            &self.processes,
            place,
            name,
            gates.len(),
            values.len(),
        )?;
        let actual = gates_at(alloc, &self.gates.visible, gates)?;
        let terms = self
            .terms
            .values(alloc, &self.variables, &process.sorts, values)?;
        Ok(Beh::Call {
            place,
            process: process.number,
            gates: actual,
            values: terms,
        })
    }
}

// The process that a call names, which has so many gates and so many parameters.
fn called<'p>(
    alloc: Global,
    processes: &'p Callables,
    place: Place,
    name: &Name,
    gates: usize,
    values: usize,
) -> Result<&'p Callable, ScopeFault>
    ensures read { Answers (λ p. callable_in p.now) result (Is (and_then
        (found_process (text_place_of place) (spelling name.now)
        (callable_named (processes_in processes.now) (spelling name.now)))
        (counted_call (text_place_of place) gates values))) }
    ensures counted { IfOk result (λ p. values ≡ length p.now.sorts.items) }
{
    match processes.named(alloc, name)? {
        Some(process) => counted(process, place, gates, values),
        None => {
            let name = name.copy(alloc)?;
            Err(ScopeFault::UnknownProcess { place, name })
        }
    }
}

// The process, if it has so many gates and so many parameters.
fn counted<'p>(
    process: &'p Callable,
    place: Place,
    gates: usize,
    values: usize,
) -> Result<&'p Callable, ScopeFault>
    ensures read { Answers (λ p. callable_in p.now) result
        (Is (counted_call (text_place_of place) gates values (callable_in process.now))) }
    ensures counted { IfOk result (λ p. values ≡ length p.now.sorts.items) }
{
    let given = count(gates)?;
    if given != process.gates {
        return Err(ScopeFault::GateCount {
            place,
            wanted: process.gates,
            given,
        });
    }
    let given = count(values)?;
    let wanted = count(process.sorts.len())?;
    if given != wanted {
        return Err(ScopeFault::ValueCount {
            place,
            wanted,
            given,
        });
    }
    Ok(process)
}

// The number in 32 bits. There is no memory for more.
fn count(many: usize) -> Result<u32, NoMemory>
    ensures { IfOk result (λ n. n ≡ many) }
{
    if many > 0xffff_ffff {
        return Err(NoMemory);
    }
    Ok(many as u32)
}
