//! Environments of the parts below binders.

ghost use Rattle.behaviour_semantics.specs.Behaviour.{let_terms, let_variables};
ghost use Rattle.behaviour_tree.specs.BehaviourView.{let_of, terms_of, variables_of};
ghost use Rattle.draft_parts.specs.BelowLaws.{binder_pairs};
ghost use Rattle.draft_parts.specs.Environments.{ArePairsOf};
ghost use Rattle.draft_parts.specs.HandedOn.{KeepsData};
ghost use Rattle.menu_builder.specs.Bound.{AreBindingsReady, AreValuesReady};
ghost use Rattle.sort_terms.specs.ProfiledTerm.{profiled_variable};
ghost use Rattle.std.specs.Prelude.{◌≡◌, ◌++◌, ◌∷◌, IfOk, length, map};
ghost use Rattle.term_match.specs.ProfiledInstance.{bare_pairs};
ghost use Rattle.term_match.specs.SubstView.{profiled_pairs};

use draft_parts::environments::{canonical, extended, leaf};
use lotos_base::NoMemory;
use sort_terms::{Deciding, Sorted, Variable};

/// The environment below `let`.
#[inline(never)]
pub fn let_environment<D: Deciding>(
    bindings: &Vec<(Variable, Sorted)>,
    environment: &Vec<(u64, Sorted)>,
    decider: &mut D,
) -> Result<Vec<(u64, Sorted)>, NoMemory>
    requires { AreBindingsReady (D.known_data decider.old).signature
        (profiled_pairs environment.now.items) bindings.now.items }
    ensures same { IfOk result (λ made. bare_pairs (profiled_pairs made.items)
        ≡ binder_pairs (D.canon decider.old) (let_variables (map let_of bindings.now.items))
        (let_terms (map let_of bindings.now.items))
        (bare_pairs (profiled_pairs environment.now.items))
        ++ bare_pairs (profiled_pairs environment.now.items)) }
    ensures is_of { IfOk result (λ made. ArePairsOf (D.known_data decider.old).signature
        (profiled_pairs environment.now.items)
        → ArePairsOf (D.known_data decider.old).signature (profiled_pairs made.items)) }
    ensures same_known { KeepsData D.known_data D.canon decider.old decider.new }
{
    let pairs = bound_values(bindings, environment, decider)?;
    extended(pairs, environment)
}

// The variables of `let` with their values.
fn bound_values<D: Deciding>(
    bindings: &Vec<(Variable, Sorted)>,
    environment: &Vec<(u64, Sorted)>,
    decider: &mut D,
) -> Result<Vec<(u64, Sorted)>, NoMemory>
    requires { AreBindingsReady (D.known_data decider.old).signature
        (profiled_pairs environment.now.items) bindings.now.items }
    ensures same { IfOk result (λ made. bare_pairs (profiled_pairs made.items)
        ≡ binder_pairs (D.canon decider.old) (let_variables (map let_of bindings.now.items))
        (let_terms (map let_of bindings.now.items))
        (bare_pairs (profiled_pairs environment.now.items))) }
    ensures is_of { IfOk result (λ made.
        ArePairsOf (D.known_data decider.old).signature (profiled_pairs made.items)) }
    ensures same_known { KeepsData D.known_data D.canon decider.old decider.new }
{
    let mut pairs = Vec::with_capacity(*environment.allocator(), bindings.len())?;
    for binding in bindings {
        let value = canonical(environment, &binding.1, decider)?;
        pairs.push((binding.0.number, value))?;
    }
    Ok(pairs)
}

/// The environment below a value choice with the leaf of this number.
pub fn value_environment(
    variable: &Variable,
    environment: &Vec<(u64, Sorted)>,
    number: u64,
) -> Result<Vec<(u64, Sorted)>, NoMemory>
    ensures { IfOk result (λ made. profiled_pairs made.items
        ≡ (variable.now.number, profiled_variable number variable.now.sort)
        ∷ profiled_pairs environment.now.items) }
{
    let mut pairs = Vec::new(*environment.allocator());
    pairs.push((variable.number, leaf(number, variable.sort)))?;
    extended(pairs, environment)
}

/// The environment of the body of a process that is called with these values.
pub fn call_environment<D: Deciding>(
    parameters: &Vec<Variable>,
    values: &Vec<Sorted>,
    environment: &Vec<(u64, Sorted)>,
    decider: &mut D,
) -> Result<Vec<(u64, Sorted)>, NoMemory>
    requires ready { AreValuesReady (D.known_data decider.old).signature
        (profiled_pairs environment.now.items) values.now.items }
    requires count { length values.now.items ≡ length parameters.now.items }
    ensures same { IfOk result (λ made. bare_pairs (profiled_pairs made.items)
        ≡ binder_pairs (D.canon decider.old) (variables_of parameters.now.items)
        (terms_of values.now.items) (bare_pairs (profiled_pairs environment.now.items))) }
    ensures is_of { IfOk result (λ made.
        ArePairsOf (D.known_data decider.old).signature (profiled_pairs made.items)) }
    ensures same_known { KeepsData D.known_data D.canon decider.old decider.new }
{
    let mut pairs = Vec::with_capacity(*environment.allocator(), values.len())?;
    for i in 0..values.len() {
        let value = canonical(environment, &values[i], decider)?;
        pairs.push((parameters[i].number, value))?;
    }
    Ok(pairs)
}
