//! Instances of behaviours.

ghost use Rattle.behaviour_instances.specs.InstanceTerms.{
  action_profiles,
  instance_profiles,
  let_placed,
  offer_terms_placed,
  terms_placed,
};
ghost use Rattle.behaviour_instances.specs.Instances.{IsInstance};
ghost use Rattle.behaviour_instances.specs.Suited.{SuitsWhere};
ghost use Rattle.behaviour_instances.specs.Unlisted.{profiled_without};
ghost use Rattle.behaviour_semantics.specs.Behaviour as plain;
ghost use Rattle.behaviour_semantics.specs.Replacement.{offer_with, test_with, with_values};
ghost use Rattle.behaviour_tree.specs.BehaviourTerms.{
  offer_profiles,
  option_profiles,
  profiles_in,
  profiles_of,
  test_profiles,
};
ghost use Rattle.behaviour_tree.specs.BehaviourView.{
  behaviour_of,
  let_of,
  meet_of,
  offer_of,
  terms_of,
  test_of,
  variables_of,
};
ghost use Rattle.behaviour_tree.specs.Closed.{IsFree, OccursInOffers, OccursInTestOption};
ghost use Rattle.behaviour_tree.specs.StateView.{environment_of};
ghost use Rattle.sort_terms.specs.EquationView.{variable_of};
ghost use Rattle.std.specs.Prelude.{◌≡◌, ◌++◌, ◌∷◌, [], IfOk, map, option_map};
ghost use Rattle.lotos_base.specs.Substitution.{binding, without};
ghost use Rattle.term_match.specs.ProfiledInstance.{profiled_binding};
ghost use Rattle.term_match.specs.SubstView.{profiled_pairs};

use crate::environments::{asks_nothing, below_accept, below_action, below_choice, below_let};
use crate::terms::{
    placed_bindings, placed_offers, placed_option, placed_results, placed_terms, placed_test,
};
use behaviour_tree::boxes::{owner, shared};
use behaviour_tree::copies::variable_copies;
use behaviour_tree::{Beh, Meet, Offer, Test};
use lotos_base::{NoMemory, Place};
use sort_terms::{Sorted, Variable};
use std::rc::Rc;

/// The behaviour with the values of the environment put for its free variables. A variable without
/// a pair stays; the first pair with a number counts. No binder is renamed.
#[cycle(instance)]
pub fn instance(environment: &Vec<(u64, Sorted)>, behaviour: &Beh) -> Result<Beh, NoMemory>
    requires { SuitsWhere (profiled_pairs environment.now.items)
        (λ n s. IsFree n s (behaviour_of behaviour.now)) }
    ensures same { IfOk result (λ b. behaviour_of b
        ≡ with_values (binding (environment_of environment.now.items))
        (behaviour_of behaviour.now)) }
    ensures terms { IfOk result (λ b. profiles_in b ≡ instance_profiles
        (profiled_binding (profiled_pairs environment.now.items)) behaviour.now) }
{
    match behaviour {
        Beh::Stop => Ok(Beh::Stop),
        Beh::Exit(values) => Ok(Beh::Exit(placed_results(environment, values)?)),
        Beh::Action {
            gate,
            offers,
            test,
            next,
        } => action_instance(environment, *gate, offers, test, next),
        Beh::Inner(next) => inner_instance(environment, next),
        Beh::Guard(test, next) => guard_instance(environment, test, next),
        Beh::Choice(place, left, right) => choice_instance(environment, *place, left, right),
        Beh::Parallel(place, meet, left, right) => {
            parallel_instance(environment, *place, meet, left, right)
        }
        Beh::Hide(gates, next) => hide_instance(environment, gates, next),
        Beh::Enable(place, left, variables, right) => {
            enable_instance(environment, *place, left, variables, right)
        }
        Beh::Disable(place, left, right) => disable_instance(environment, *place, left, right),
        Beh::Let(bindings, next) => let_instance(environment, bindings, next),
        Beh::ChooseValue(variable, next) => value_instance(environment, variable, next),
        Beh::ChooseGate(gate, gates, next) => gate_instance(environment, *gate, gates, next),
        Beh::ParGate(gate, gates, meet, next) => {
            par_instance(environment, *gate, gates, meet, next)
        }
        Beh::Call {
            place,
            process,
            gates,
            values,
        } => call_instance(environment, *place, *process, gates, values),
    }
}

// Of a call.
fn call_instance(
    environment: &Vec<(u64, Sorted)>,
    place: Place,
    process: u32,
    gates: &Vec<u32>,
    values: &Vec<Sorted>,
) -> Result<Beh, NoMemory>
    requires { SuitsWhere (profiled_pairs environment.now.items)
        (λ n s. IsFree n s (plain.call process gates.now.items (terms_of values.now.items))) }
    ensures same { IfOk result (λ b. behaviour_of b
        ≡ with_values (binding (environment_of environment.now.items))
        (plain.call process gates.now.items (terms_of values.now.items))) }
    ensures terms { IfOk result (λ b. profiles_in b ≡ terms_placed
        (profiled_binding (profiled_pairs environment.now.items)) (profiles_of values.now.items)) }
{
    let values = placed_terms(environment, values)?;
    let gates = Vec::from_slice(*environment.allocator(), gates)?;
    Ok(Beh::Call {
        place,
        process,
        gates,
        values,
    })
}

// The same of a part, shared. Where there is no value to put in, it is the part itself.
#[cycle(instance)]
fn shared_instance(environment: &Vec<(u64, Sorted)>, part: &Rc<Beh>) -> Result<Rc<Beh>, NoMemory>
    requires { SuitsWhere (profiled_pairs environment.now.items)
        (λ n s. IsFree n s (behaviour_of part.now.value)) }
    ensures { IfOk result (λ b. IsInstance environment.now.items part.now.value b.value) }
{
    if environment.len() == 0 {
        return owner(part);
    }
    let made = instance(environment, part)?;
    shared(*environment.allocator(), made)
}

// The same by an environment of its own.
#[cycle(instance)]
fn inside_instance(inner: Vec<(u64, Sorted)>, part: &Rc<Beh>) -> Result<Rc<Beh>, NoMemory>
    requires { SuitsWhere (profiled_pairs inner.items)
        (λ n s. IsFree n s (behaviour_of part.now.value)) }
    ensures { IfOk result (λ b. IsInstance inner.items part.now.value b.value) }
{
    shared_instance(&inner, part)
}

// The same of both sides of a form.
#[cycle(instance)]
fn both_instances(
    environment: &Vec<(u64, Sorted)>,
    left: &Rc<Beh>,
    right: &Rc<Beh>,
) -> Result<(Rc<Beh>, Rc<Beh>), NoMemory>
    requires left { SuitsWhere (profiled_pairs environment.now.items)
        (λ n s. IsFree n s (behaviour_of left.now.value)) }
    requires right { SuitsWhere (profiled_pairs environment.now.items)
        (λ n s. IsFree n s (behaviour_of right.now.value)) }
    ensures left { IfOk result
        (λ made. IsInstance environment.now.items left.now.value made.0.value) }
    ensures right { IfOk result
        (λ made. IsInstance environment.now.items right.now.value made.1.value) }
{
    let left = shared_instance(environment, left)?;
    let right = shared_instance(environment, right)?;
    Ok((left, right))
}

// Of an action. What stands below its offers sees their variables.
#[cycle(instance)]
#[inline(never)]
fn action_instance(
    environment: &Vec<(u64, Sorted)>,
    gate: u32,
    offers: &Vec<Offer>,
    test: &Option<Test>,
    next: &Rc<Beh>,
) -> Result<Beh, NoMemory>
    requires { SuitsWhere (profiled_pairs environment.now.items)
        (λ n s. IsFree n s (plain.action gate (map offer_of offers.now.items)
        (option_map test_of test.now) (behaviour_of next.now.value))) }
    ensures same { IfOk result (λ b. behaviour_of b
        ≡ with_values (binding (environment_of environment.now.items))
        (plain.action gate (map offer_of offers.now.items)
        (option_map test_of test.now) (behaviour_of next.now.value))) }
    ensures terms { IfOk result (λ b. profiles_in b ≡ action_profiles
        (profiled_binding (profiled_pairs environment.now.items)) offers.now.items test.now
        next.now.value) }
{
    if asks_nothing(offers) {
        return action_below(environment, environment, gate, offers, test, next);
    }
    let inner = below_action(environment, offers)?;
    action_below(environment, &inner, gate, offers, test, next)
}

// The same, by the environment for what stands below the offers.
#[cycle(instance)]
fn action_below(
    environment: &Vec<(u64, Sorted)>,
    inner: &Vec<(u64, Sorted)>,
    gate: u32,
    offers: &Vec<Offer>,
    test: &Option<Test>,
    next: &Rc<Beh>,
) -> Result<Beh, NoMemory>
    requires suited { SuitsWhere (profiled_pairs environment.now.items)
        (λ n s. IsFree n s (plain.action gate (map offer_of offers.now.items)
        (option_map test_of test.now) (behaviour_of next.now.value))) }
    requires profiled { profiled_binding (profiled_pairs inner.now.items)
        ≡ profiled_without (plain.numbers_of
        (plain.asked_variables (map offer_of offers.now.items)))
        (profiled_binding (profiled_pairs environment.now.items)) }
    requires plain { binding (environment_of inner.now.items)
        ≡ without (plain.numbers_of (plain.asked_variables (map offer_of offers.now.items)))
        (binding (environment_of environment.now.items)) }
    ensures same { IfOk result (λ b. behaviour_of b
        ≡ with_values (binding (environment_of environment.now.items))
        (plain.action gate (map offer_of offers.now.items)
        (option_map test_of test.now) (behaviour_of next.now.value))) }
    ensures terms { IfOk result (λ b. profiles_in b ≡ action_profiles
        (profiled_binding (profiled_pairs environment.now.items)) offers.now.items test.now
        next.now.value) }
{
    let next = shared_instance(inner, next)?;
    let head = placed_head(environment, inner, offers, test)?;
    Ok(Beh::Action {
        gate,
        offers: head.0,
        test: head.1,
        next,
    })
}

// Of `i; B`.
#[cycle(instance)]
#[inline(never)]
fn inner_instance(environment: &Vec<(u64, Sorted)>, next: &Rc<Beh>) -> Result<Beh, NoMemory>
    requires { SuitsWhere (profiled_pairs environment.now.items)
        (λ n s. IsFree n s (plain.inner_action (behaviour_of next.now.value))) }
    ensures same { IfOk result (λ b. behaviour_of b
        ≡ with_values (binding (environment_of environment.now.items))
        (plain.inner_action (behaviour_of next.now.value))) }
    ensures terms { IfOk result (λ b. profiles_in b ≡ instance_profiles
        (profiled_binding (profiled_pairs environment.now.items)) next.now.value) }
{
    let next = shared_instance(environment, next)?;
    Ok(Beh::Inner(next))
}

// Of a guard.
#[cycle(instance)]
#[inline(never)]
fn guard_instance(
    environment: &Vec<(u64, Sorted)>,
    test: &Test,
    next: &Rc<Beh>,
) -> Result<Beh, NoMemory>
    requires { SuitsWhere (profiled_pairs environment.now.items)
        (λ n s. IsFree n s (plain.guard (test_of test.now) (behaviour_of next.now.value))) }
    ensures same { IfOk result (λ b. behaviour_of b
        ≡ with_values (binding (environment_of environment.now.items))
        (plain.guard (test_of test.now) (behaviour_of next.now.value))) }
    ensures terms { IfOk result (λ b. profiles_in b ≡ terms_placed
        (profiled_binding (profiled_pairs environment.now.items)) (test_profiles test.now)
        ++ instance_profiles
        (profiled_binding (profiled_pairs environment.now.items)) next.now.value) }
{
    let next = shared_instance(environment, next)?;
    let test = placed_test(environment, test)?;
    Ok(Beh::Guard(test, next))
}

// Of a choice.
#[cycle(instance)]
#[inline(never)]
fn choice_instance(
    environment: &Vec<(u64, Sorted)>,
    place: Place,
    left: &Rc<Beh>,
    right: &Rc<Beh>,
) -> Result<Beh, NoMemory>
    requires { SuitsWhere (profiled_pairs environment.now.items)
        (λ n s. IsFree n s (plain.choice (behaviour_of left.now.value)
        (behaviour_of right.now.value))) }
    ensures same { IfOk result (λ b. behaviour_of b
        ≡ with_values (binding (environment_of environment.now.items))
        (plain.choice (behaviour_of left.now.value)
        (behaviour_of right.now.value))) }
    ensures terms { IfOk result (λ b. profiles_in b ≡ instance_profiles
        (profiled_binding (profiled_pairs environment.now.items)) left.now.value
        ++ instance_profiles
        (profiled_binding (profiled_pairs environment.now.items)) right.now.value) }
{
    let sides = both_instances(environment, left, right)?;
    Ok(Beh::Choice(place, sides.0, sides.1))
}

// Of a parallel.
#[cycle(instance)]
#[inline(never)]
fn parallel_instance(
    environment: &Vec<(u64, Sorted)>,
    place: Place,
    meet: &Meet,
    left: &Rc<Beh>,
    right: &Rc<Beh>,
) -> Result<Beh, NoMemory>
    requires { SuitsWhere (profiled_pairs environment.now.items)
        (λ n s. IsFree n s (plain.parallel (meet_of meet.now) (behaviour_of left.now.value)
        (behaviour_of right.now.value))) }
    ensures same { IfOk result (λ b. behaviour_of b
        ≡ with_values (binding (environment_of environment.now.items))
        (plain.parallel (meet_of meet.now) (behaviour_of left.now.value)
        (behaviour_of right.now.value))) }
    ensures terms { IfOk result (λ b. profiles_in b ≡ instance_profiles
        (profiled_binding (profiled_pairs environment.now.items)) left.now.value
        ++ instance_profiles
        (profiled_binding (profiled_pairs environment.now.items)) right.now.value) }
{
    let meet = meet.copy(*environment.allocator())?;
    let sides = both_instances(environment, left, right)?;
    Ok(Beh::Parallel(place, meet, sides.0, sides.1))
}

// Of a disabling.
#[cycle(instance)]
#[inline(never)]
fn disable_instance(
    environment: &Vec<(u64, Sorted)>,
    place: Place,
    left: &Rc<Beh>,
    right: &Rc<Beh>,
) -> Result<Beh, NoMemory>
    requires { SuitsWhere (profiled_pairs environment.now.items)
        (λ n s. IsFree n s (plain.disable (behaviour_of left.now.value)
        (behaviour_of right.now.value))) }
    ensures same { IfOk result (λ b. behaviour_of b
        ≡ with_values (binding (environment_of environment.now.items))
        (plain.disable (behaviour_of left.now.value)
        (behaviour_of right.now.value))) }
    ensures terms { IfOk result (λ b. profiles_in b ≡ instance_profiles
        (profiled_binding (profiled_pairs environment.now.items)) left.now.value
        ++ instance_profiles
        (profiled_binding (profiled_pairs environment.now.items)) right.now.value) }
{
    let sides = both_instances(environment, left, right)?;
    Ok(Beh::Disable(place, sides.0, sides.1))
}

// Of a hiding.
#[cycle(instance)]
#[inline(never)]
fn hide_instance(
    environment: &Vec<(u64, Sorted)>,
    gates: &Vec<u32>,
    next: &Rc<Beh>,
) -> Result<Beh, NoMemory>
    requires { SuitsWhere (profiled_pairs environment.now.items)
        (λ n s. IsFree n s (plain.hide gates.now.items (behaviour_of next.now.value))) }
    ensures same { IfOk result (λ b. behaviour_of b
        ≡ with_values (binding (environment_of environment.now.items))
        (plain.hide gates.now.items (behaviour_of next.now.value))) }
    ensures terms { IfOk result (λ b. profiles_in b ≡ instance_profiles
        (profiled_binding (profiled_pairs environment.now.items)) next.now.value) }
{
    let gates = Vec::from_slice(*environment.allocator(), gates)?;
    let next = shared_instance(environment, next)?;
    Ok(Beh::Hide(gates, next))
}

// Of an enabling. Its right side sees the variables that it accepts.
#[cycle(instance)]
#[inline(never)]
fn enable_instance(
    environment: &Vec<(u64, Sorted)>,
    place: Place,
    left: &Rc<Beh>,
    variables: &Vec<Variable>,
    right: &Rc<Beh>,
) -> Result<Beh, NoMemory>
    requires { SuitsWhere (profiled_pairs environment.now.items)
        (λ n s. IsFree n s (plain.enable (behaviour_of left.now.value)
        (variables_of variables.now.items) (behaviour_of right.now.value))) }
    ensures same { IfOk result (λ b. behaviour_of b
        ≡ with_values (binding (environment_of environment.now.items))
        (plain.enable (behaviour_of left.now.value)
        (variables_of variables.now.items) (behaviour_of right.now.value))) }
    ensures terms { IfOk result (λ b. profiles_in b ≡ instance_profiles
        (profiled_binding (profiled_pairs environment.now.items)) left.now.value
        ++ instance_profiles (profiled_without (plain.numbers_of (variables_of variables.now.items))
        (profiled_binding (profiled_pairs environment.now.items))) right.now.value) }
{
    let inner = below_accept(environment, variables)?;
    let right = inside_instance(inner, right)?;
    let left = shared_instance(environment, left)?;
    let variables = variable_copies(*environment.allocator(), variables)?;
    Ok(Beh::Enable(place, left, variables, right))
}

// Of a `let`. Its part sees its variables.
#[cycle(instance)]
#[inline(never)]
fn let_instance(
    environment: &Vec<(u64, Sorted)>,
    bindings: &Vec<(Variable, Sorted)>,
    next: &Rc<Beh>,
) -> Result<Beh, NoMemory>
    requires { SuitsWhere (profiled_pairs environment.now.items)
        (λ n s. IsFree n s (plain.let_be (map let_of bindings.now.items)
        (behaviour_of next.now.value))) }
    ensures same { IfOk result (λ b. behaviour_of b
        ≡ with_values (binding (environment_of environment.now.items))
        (plain.let_be (map let_of bindings.now.items) (behaviour_of next.now.value))) }
    ensures terms { IfOk result (λ b. profiles_in b ≡ map (let_placed
        (profiled_binding (profiled_pairs environment.now.items))) bindings.now.items
        ++ instance_profiles (profiled_without (plain.numbers_of (plain.let_variables
        (map let_of bindings.now.items))) (profiled_binding (profiled_pairs environment.now.items)))
        next.now.value) }
{
    let inner = below_let(environment, bindings)?;
    let next = inside_instance(inner, next)?;
    let bindings = placed_bindings(environment, bindings)?;
    Ok(Beh::Let(bindings, next))
}

// Of a value choice. Its part sees its variable.
#[cycle(instance)]
#[inline(never)]
fn value_instance(
    environment: &Vec<(u64, Sorted)>,
    variable: &Variable,
    next: &Rc<Beh>,
) -> Result<Beh, NoMemory>
    requires { SuitsWhere (profiled_pairs environment.now.items)
        (λ n s. IsFree n s (plain.choose_value (variable_of variable.now)
        (behaviour_of next.now.value))) }
    ensures same { IfOk result (λ b. behaviour_of b
        ≡ with_values (binding (environment_of environment.now.items))
        (plain.choose_value (variable_of variable.now) (behaviour_of next.now.value))) }
    ensures terms { IfOk result (λ b. profiles_in b ≡ instance_profiles
        (profiled_without (variable.now.number ∷ [])
        (profiled_binding (profiled_pairs environment.now.items))) next.now.value) }
{
    let inner = below_choice(environment, variable)?;
    let next = inside_instance(inner, next)?;
    let variable = variable.copy(*environment.allocator())?;
    Ok(Beh::ChooseValue(variable, next))
}

// Of a gate choice.
#[cycle(instance)]
#[inline(never)]
fn gate_instance(
    environment: &Vec<(u64, Sorted)>,
    gate: u32,
    gates: &Vec<u32>,
    next: &Rc<Beh>,
) -> Result<Beh, NoMemory>
    requires { SuitsWhere (profiled_pairs environment.now.items)
        (λ n s. IsFree n s (plain.choose_gate gate gates.now.items (behaviour_of next.now.value))) }
    ensures same { IfOk result (λ b. behaviour_of b
        ≡ with_values (binding (environment_of environment.now.items))
        (plain.choose_gate gate gates.now.items (behaviour_of next.now.value))) }
    ensures terms { IfOk result (λ b. profiles_in b ≡ instance_profiles
        (profiled_binding (profiled_pairs environment.now.items)) next.now.value) }
{
    let gates = Vec::from_slice(*environment.allocator(), gates)?;
    let next = shared_instance(environment, next)?;
    Ok(Beh::ChooseGate(gate, gates, next))
}

// Of a gate `par`.
#[cycle(instance)]
#[inline(never)]
fn par_instance(
    environment: &Vec<(u64, Sorted)>,
    gate: u32,
    gates: &Vec<u32>,
    meet: &Meet,
    next: &Rc<Beh>,
) -> Result<Beh, NoMemory>
    requires { SuitsWhere (profiled_pairs environment.now.items)
        (λ n s. IsFree n s (plain.par_gate gate gates.now.items (meet_of meet.now)
        (behaviour_of next.now.value))) }
    ensures same { IfOk result (λ b. behaviour_of b
        ≡ with_values (binding (environment_of environment.now.items))
        (plain.par_gate gate gates.now.items (meet_of meet.now)
        (behaviour_of next.now.value))) }
    ensures terms { IfOk result (λ b. profiles_in b ≡ instance_profiles
        (profiled_binding (profiled_pairs environment.now.items)) next.now.value) }
{
    let alloc = *environment.allocator();
    let gates = Vec::from_slice(alloc, gates)?;
    let meet = meet.copy(alloc)?;
    let next = shared_instance(environment, next)?;
    Ok(Beh::ParGate(gate, gates, meet, next))
}

// The offers and the test of an action, which sees the variables of the offers.
fn placed_head(
    environment: &Vec<(u64, Sorted)>,
    inner: &Vec<(u64, Sorted)>,
    offers: &Vec<Offer>,
    test: &Option<Test>,
) -> Result<(Vec<Offer>, Option<Test>), NoMemory>
    requires offers { SuitsWhere (profiled_pairs environment.now.items)
        (λ n s. OccursInOffers n s (map offer_of offers.now.items)) }
    requires test { SuitsWhere (profiled_pairs inner.now.items)
        (λ n s. OccursInTestOption n s (option_map test_of test.now)) }
    ensures offers { IfOk result (λ made. map offer_of made.0.items
        ≡ map (offer_with (binding (environment_of environment.now.items)))
        (map offer_of offers.now.items)) }
    ensures test { IfOk result (λ made. option_map test_of made.1
        ≡ option_map (test_with (binding (environment_of inner.now.items)))
        (option_map test_of test.now)) }
    ensures offered { IfOk result (λ made. map offer_profiles made.0.items ≡ map (offer_terms_placed
        (profiled_binding (profiled_pairs environment.now.items))) offers.now.items) }
    ensures tested { IfOk result (λ made. option_profiles made.1 ≡ terms_placed
        (profiled_binding (profiled_pairs inner.now.items)) (option_profiles test.now)) }
{
    let test = placed_option(inner, test)?;
    let offers = placed_offers(environment, offers)?;
    Ok((offers, test))
}
