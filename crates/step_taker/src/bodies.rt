//! Parts of behaviours with the values of their variables put in.

ghost use Rattle.behaviour_semantics.specs.Behaviour as plain;
ghost use Rattle.behaviour_semantics.specs.Derives.{leaves_in};
ghost use Rattle.behaviour_semantics.specs.Fault.{wrong_leaves};
ghost use Rattle.behaviour_semantics.specs.Replacement.{binding_of, with_values};
ghost use Rattle.behaviour_tree.specs.BehaviourTerms.{let_profile, profiles_in, profiles_of};
ghost use Rattle.behaviour_tree.specs.BehaviourView.{behaviour_of, let_of, terms_of};
ghost use Rattle.behaviour_tree.specs.DefinitionView.{process_of};
ghost use Rattle.behaviour_tree.specs.Over.{AreTermsOf, IsSpecOver};
ghost use Rattle.step_parts.specs.HandedOn.{KeepsData};
ghost use Rattle.sort_terms.specs.EquationView.{variable_of};
ghost use Rattle.std.specs.Prelude.{
  ◌≡◌,
  ◌≤◌,
  ◌+◌,
  ◌∷◌,
  ◌++◌,
  [],
  ℕ,
  IfOk,
  length,
  None,
  map,
  option_map,
  slice_get,
};
ghost use Rattle.step_parts.specs.StepFaults.{IsStepChecked, kept_number};
ghost use Rattle.lotos_base.specs.Signature.{Signature};
ghost use Rattle.step_taker.specs.Taken.{ground_of};
ghost use Rattle.step_taker.specs.Walked.{IsCalled, IsPassable, IsStepWalk};

use crate::moved::Walk;
use behaviour_tree::{Beh, Process, Spec};
use lotos_base::NoMemory;
use sort_terms::{Deciding, Sorted, Variable};
use step_parts::faults::{At, StepFault};
use step_parts::instance;
use step_parts::leaves::checked_leaves;
use step_parts::offers::{call_values, let_values, value_pair};

/// The part of a `let` with the values of its terms.
pub fn let_body<D: Deciding>(
    walk: &Walk<'_>,
    bindings: &Vec<(Variable, Sorted)>,
    next: &Beh,
    data: &mut D,
) -> Result<Beh, NoMemory>
    requires { IsPassable (ground_of (D.known_data data.old) (D.canon data.old) walk.now.spec.now)
        (plain.let_be (map let_of bindings.now.items) (behaviour_of next.now))
        (map let_profile bindings.now.items ++ profiles_in next.now) }
    ensures same { IfOk result (λ b. behaviour_of b
        ≡ with_values (binding_of (plain.let_variables (map let_of bindings.now.items))
        (map (D.canon data.old) (plain.let_terms (map let_of bindings.now.items))))
        (behaviour_of next.now)) }
    ensures terms { IfOk result
        (λ b. AreTermsOf (D.known_data data.old).signature (profiles_in b)) }
    ensures same_known { KeepsData D.known_data D.canon data.old data.new }
{
    let pairs = let_values(walk.alloc, bindings, data)?;
    instance(&pairs, next)
}

/// The part of a value choice with the leaf of this number.
pub fn value_body<D: Deciding>(
    walk: &Walk<'_>,
    variable: &Variable,
    next: &Beh,
    leaf: usize,
    data: &mut D,
) -> Result<Beh, NoMemory>
    requires walk { IsStepWalk
        (ground_of (D.known_data data.old) (D.canon data.old) walk.now.spec.now)
        walk.now.leaves.now leaf }
    requires part { IsPassable
        (ground_of (D.known_data data.old) (D.canon data.old) walk.now.spec.now)
        (plain.choose_value (variable_of variable.now) (behaviour_of next.now))
        (profiles_in next.now) }
    requires leaf { wrong_leaves (D.known_data data.old).signature (terms_of walk.now.leaves.now)
        leaf (variable.now.sort ∷ []) ≡ None }
    ensures same { IfOk result (λ b. behaviour_of b
        ≡ with_values (binding_of (variable_of variable.now ∷ []) (D.canon data.old
        (leaves_in (terms_of walk.now.leaves.now) leaf variable.now.sort) ∷ []))
        (behaviour_of next.now)) }
    ensures terms { IfOk result
        (λ b. AreTermsOf (D.known_data data.old).signature (profiles_in b)) }
    ensures same_known { KeepsData D.known_data D.canon data.old data.new }
{
    let value = data.normal(&walk.leaves[leaf])?;
    let pairs = value_pair(walk.alloc, variable.number, value)?;
    instance(&pairs, next)
}

/// The body of a called process with the values of its parameters.
pub fn call_body<D: Deciding>(
    walk: &Walk<'_>,
    called: &Process,
    values: &Vec<Sorted>,
    data: &mut D,
) -> Result<Beh, NoMemory>
    requires walk { IsSpecOver (D.known_data data.old).signature walk.now.spec.now }
    requires part { IsCalled
        (ground_of (D.known_data data.old) (D.canon data.old) walk.now.spec.now)
        called.now values.now.items }
    ensures same { IfOk result (λ b. behaviour_of b
        ≡ with_values (binding_of (process_of called.now).parameters
        (map (D.canon data.old) (terms_of values.now.items))) (process_of called.now).body) }
    ensures terms { IfOk result
        (λ b. AreTermsOf (D.known_data data.old).signature (profiles_in b)) }
    ensures same_known { KeepsData D.known_data D.canon data.old data.new }
{
    let pairs = call_values(walk.alloc, &called.parameters, values, data)?;
    instance(&pairs, &called.body)
}

/// Answers nothing where the first leaf from that of the place on is a value of the sort, or else
/// what is wrong with it.
pub fn checked_value(leaves: &[Sorted], at: At, sort: u32) -> Result<(), StepFault>
    ensures checked { (signature : Signature) (n : ℕ)
        → AreTermsOf signature (profiles_of leaves.now) → at.node ≡ kept_number n
        → IsStepChecked n (wrong_leaves signature (terms_of leaves.now) at.leaf (sort ∷ []))
        result }
    ensures there { IfOk result (λ _. at.leaf + 1 ≤ length leaves.now) }
{
    let sorts = [sort];
    checked_leaves(leaves, at, sorts.as_slice())
}

/// The gate at the position.
pub fn gate_at(gates: &Vec<u32>, position: u32) -> Option<u32>
    ensures { result ≡ slice_get gates.now.items position }
{
    gates.get(position as usize).copied()
}

/// The process with the number.
pub fn called_at<'a>(spec: &'a Spec, number: u32) -> Option<&'a Process>
    ensures { option_map (λ called. called.now) result
        ≡ slice_get spec.now.processes.items number }
{
    spec.processes.get(number as usize)
}
