//! The drafts of the moves of a behaviour under an environment.

ghost use Rattle.behaviour_semantics.specs.Behaviour.{Behaviour, call, choice, choose_gate, choose_value, disable, enable, guard, hide, let_be, par_gate, parallel};
ghost use Rattle.behaviour_tree.specs.BehaviourTerms.{let_profile, profiles_in, profiles_of, test_profiles};
ghost use Rattle.behaviour_tree.specs.BehaviourView.{behaviour_of, let_of, meet_of, terms_of, test_of, variables_of};
ghost use Rattle.behaviour_tree.specs.Over.{IsSpecOver};
ghost use Rattle.menu_builder.specs.Choices.{IsGathering};
ghost use Rattle.draft_parts.specs.HandedOn.{KeepsData};
ghost use Rattle.menu_builder.specs.Placed.{AreDraftsPlaced, AreSidesGathered, IsPlaced, menu_basis_of};
ghost use Rattle.process_checks.specs.Ranks.{AreRanksOf};
ghost use Rattle.sort_terms.specs.EquationView.{variable_of};
ghost use Rattle.sort_terms.specs.ProfiledTerm.{ProfiledTerm};
ghost use Rattle.std.specs.Prelude.{◌++◌, IfOk, List, OnOk, map};
ghost use Rattle.term_match.specs.SubstView.{profiled_pairs};

use crate::binders::{call_environment, let_environment, value_environment};
use crate::choices::ChoiceDrafts;
use crate::events::{action_moves, exit_moves, inner_moves};
use crate::guards::guarded_drafts;
use crate::levels::Levels;
use behaviour_tree::{Beh, Meet, Spec, Test};
use draft_parts::environments::{following, leaf};
use draft_parts::{
    Call, Draft, Rule, Variant, at_gates, beside, calls_beside, copies_beside, either,
};
use lotos_base::NoMemory;
use process_checks::Ranks;
use sort_terms::{Deciding, Sorted, Variable};

/// The drafts of the moves of the behaviour under the environment, whose leaves are numbered from
/// `first` on, where the rules nest no deeper than so many levels.
#[cycle(listing)]
pub fn behaviour_moves<D: Deciding>(
    spec: &Spec,
    ranks: &Ranks,
    behaviour: &Beh,
    environment: &Vec<(u64, Sorted)>,
    first: u64,
    levels: Levels,
    decider: &mut D,
) -> Result<Vec<Draft>, NoMemory>
    requires over { IsSpecOver (D.known_data decider.old).signature spec.now }
    requires ranks { AreRanksOf spec.now ranks.now }
    requires placed { IsPlaced
        (menu_basis_of (D.known_data decider.old) (D.canon decider.old) spec.now) first
        (behaviour_of behaviour.now) (profiles_in behaviour.now)
        (profiled_pairs environment.now.items) }
    ensures listed { IfOk result (λ made. AreDraftsPlaced
        (menu_basis_of (D.known_data decider.old) (D.canon decider.old) spec.now) first
        (behaviour_of behaviour.now) (profiles_in behaviour.now)
        (profiled_pairs environment.now.items) made.items) }
    ensures same_known { KeepsData D.known_data D.canon decider.old decider.new }
{
    match behaviour {
        Beh::Stop => Ok(Vec::new(*environment.allocator())),
        Beh::Exit(results) => exit_moves(results, environment, first, decider),
        Beh::Action {
            gate,
            offers,
            test,
            next: _,
        } => action_moves(*gate, offers, test, environment, first, decider),
        Beh::Inner(_) => inner_moves(*environment.allocator()),
        Beh::Guard(test, part) => guard_moves(
            spec,
            ranks,
            test,
            part,
            environment,
            first,
            levels,
            decider,
        ),
        Beh::Choice(_, left, right) => choice_moves(
            spec,
            ranks,
            left,
            right,
            environment,
            first,
            levels,
            decider,
        ),
        Beh::Parallel(_, meet, left, right) => parallel_moves(
            spec,
            ranks,
            meet,
            left,
            right,
            environment,
            first,
            levels,
            decider,
        ),
        Beh::Hide(gates, part) => hide_moves(
            spec,
            ranks,
            gates,
            part,
            environment,
            first,
            levels,
            decider,
        ),
        Beh::Enable(_, left, variables, _) => enable_moves(
            spec,
            ranks,
            left,
            variables,
            environment,
            first,
            levels,
            decider,
        ),
        Beh::Disable(_, left, right) => disable_moves(
            spec,
            ranks,
            left,
            right,
            environment,
            first,
            levels,
            decider,
        ),
        Beh::Let(bindings, part) => let_moves(
            spec,
            ranks,
            bindings,
            part,
            environment,
            first,
            levels,
            decider,
        ),
        Beh::ChooseValue(variable, part) => value_moves(
            spec,
            ranks,
            variable,
            part,
            environment,
            first,
            levels,
            decider,
        ),
        Beh::ChooseGate(gate, gates, part) => gate_moves(
            spec,
            ranks,
            *gate,
            gates,
            part,
            environment,
            first,
            levels,
            decider,
        ),
        Beh::ParGate(gate, gates, meet, part) => par_moves(
            spec,
            ranks,
            *gate,
            gates,
            meet,
            part,
            environment,
            first,
            levels,
            decider,
        ),
        Beh::Call {
            place: _,
            process,
            gates,
            values,
        } => call_moves(
            spec,
            ranks,
            *process,
            gates,
            values,
            environment,
            first,
            levels,
            decider,
        ),
    }
}

// Of a guard.
#[cycle(listing)]
#[inline(never)]
fn guard_moves<D: Deciding>(
    spec: &Spec,
    ranks: &Ranks,
    test: &Test,
    part: &Beh,
    environment: &Vec<(u64, Sorted)>,
    first: u64,
    levels: Levels,
    decider: &mut D,
) -> Result<Vec<Draft>, NoMemory>
    requires over { IsSpecOver (D.known_data decider.old).signature spec.now }
    requires ranks { AreRanksOf spec.now ranks.now }
    requires placed { IsPlaced
        (menu_basis_of (D.known_data decider.old) (D.canon decider.old) spec.now) first
        (guard (test_of test.now) (behaviour_of part.now))
        (test_profiles test.now ++ profiles_in part.now) (profiled_pairs environment.now.items) }
    ensures listed { IfOk result (λ made. AreDraftsPlaced
        (menu_basis_of (D.known_data decider.old) (D.canon decider.old) spec.now) first
        (guard (test_of test.now) (behaviour_of part.now))
        (test_profiles test.now ++ profiles_in part.now) (profiled_pairs environment.now.items)
        made.items) }
    ensures same_known { KeepsData D.known_data D.canon decider.old decider.new }
{
    let below = levels.below()?;
    let parts = behaviour_moves(spec, ranks, part, environment, first, below, decider)?;
    guarded_drafts(test, environment, parts)
}

// Of a choice.
#[cycle(listing)]
#[inline(never)]
fn choice_moves<D: Deciding>(
    spec: &Spec,
    ranks: &Ranks,
    left: &Beh,
    right: &Beh,
    environment: &Vec<(u64, Sorted)>,
    first: u64,
    levels: Levels,
    decider: &mut D,
) -> Result<Vec<Draft>, NoMemory>
    requires over { IsSpecOver (D.known_data decider.old).signature spec.now }
    requires ranks { AreRanksOf spec.now ranks.now }
    requires placed { IsPlaced
        (menu_basis_of (D.known_data decider.old) (D.canon decider.old) spec.now) first
        (choice (behaviour_of left.now) (behaviour_of right.now))
        (profiles_in left.now ++ profiles_in right.now) (profiled_pairs environment.now.items) }
    ensures listed { IfOk result (λ made. AreDraftsPlaced
        (menu_basis_of (D.known_data decider.old) (D.canon decider.old) spec.now) first
        (choice (behaviour_of left.now) (behaviour_of right.now))
        (profiles_in left.now ++ profiles_in right.now) (profiled_pairs environment.now.items)
        made.items) }
    ensures same_known { KeepsData D.known_data D.canon decider.old decider.new }
{
    let mut gathered = ChoiceDrafts::new(*environment.allocator())?;
    gather_choice(
        spec,
        ranks,
        left,
        right,
        environment,
        first,
        levels,
        decider,
        &mut gathered,
    )?;
    Ok(gathered.into_drafts())
}

// Gathers the drafts of both sides of a choice.
#[cycle(listing)]
#[inline(never)]
fn gather_choice<D: Deciding>(
    spec: &Spec,
    ranks: &Ranks,
    left: &Beh,
    right: &Beh,
    environment: &Vec<(u64, Sorted)>,
    first: u64,
    levels: Levels,
    decider: &mut D,
    gathered: &mut ChoiceDrafts,
) -> Result<(), NoMemory>
    requires over { IsSpecOver (D.known_data decider.old).signature spec.now }
    requires ranks { AreRanksOf spec.now ranks.now }
    requires placed { IsPlaced
        (menu_basis_of (D.known_data decider.old) (D.canon decider.old) spec.now) first
        (choice (behaviour_of left.now) (behaviour_of right.now))
        (profiles_in left.now ++ profiles_in right.now) (profiled_pairs environment.now.items) }
    requires gathering { IsGathering gathered.old }
    ensures gathers { OnOk result (AreSidesGathered
        (menu_basis_of (D.known_data decider.old) (D.canon decider.old) spec.now) first
        (choice (behaviour_of left.now) (behaviour_of right.now))
        (profiles_in left.now ++ profiles_in right.now) (profiled_pairs environment.now.items)
        gathered.old gathered.new) }
    ensures same_known { KeepsData D.known_data D.canon decider.old decider.new }
{
    let below = levels.below()?;
    gathered.enter(Variant::Left)?;
    gather(
        spec,
        ranks,
        left,
        environment,
        first,
        below,
        decider,
        gathered,
    )?;
    gathered.leave();
    gathered.enter(Variant::Right)?;
    gather(
        spec,
        ranks,
        right,
        environment,
        first,
        below,
        decider,
        gathered,
    )?;
    gathered.leave();
    Ok(())
}

// Gathers the drafts of a side of a choice. Where it is a choice too, its sides are gathered one by
// one.
#[cycle(listing)]
#[inline(never)]
fn gather<D: Deciding>(
    spec: &Spec,
    ranks: &Ranks,
    behaviour: &Beh,
    environment: &Vec<(u64, Sorted)>,
    first: u64,
    levels: Levels,
    decider: &mut D,
    gathered: &mut ChoiceDrafts,
) -> Result<(), NoMemory>
    requires over { IsSpecOver (D.known_data decider.old).signature spec.now }
    requires ranks { AreRanksOf spec.now ranks.now }
    requires placed { IsPlaced
        (menu_basis_of (D.known_data decider.old) (D.canon decider.old) spec.now) first
        (behaviour_of behaviour.now) (profiles_in behaviour.now)
        (profiled_pairs environment.now.items) }
    requires gathering { IsGathering gathered.old }
    ensures gathers { OnOk result (AreSidesGathered
        (menu_basis_of (D.known_data decider.old) (D.canon decider.old) spec.now) first
        (behaviour_of behaviour.now) (profiles_in behaviour.now)
        (profiled_pairs environment.now.items) gathered.old gathered.new) }
    ensures same_known { KeepsData D.known_data D.canon decider.old decider.new }
{
    match behaviour {
        Beh::Choice(_, left, right) => gather_choice(
            spec,
            ranks,
            left,
            right,
            environment,
            first,
            levels,
            decider,
            gathered,
        ),
        _ => {
            let drafts = behaviour_moves(
                spec,
                ranks,
                behaviour,
                environment,
                first,
                levels,
                decider,
            )?;
            gathered.add(drafts)
        }
    }
}

// Of a parallel.
#[cycle(listing)]
#[inline(never)]
fn parallel_moves<D: Deciding>(
    spec: &Spec,
    ranks: &Ranks,
    meet: &Meet,
    left: &Beh,
    right: &Beh,
    environment: &Vec<(u64, Sorted)>,
    first: u64,
    levels: Levels,
    decider: &mut D,
) -> Result<Vec<Draft>, NoMemory>
    requires over { IsSpecOver (D.known_data decider.old).signature spec.now }
    requires ranks { AreRanksOf spec.now ranks.now }
    requires placed { IsPlaced
        (menu_basis_of (D.known_data decider.old) (D.canon decider.old) spec.now) first
        (parallel (meet_of meet.now) (behaviour_of left.now) (behaviour_of right.now))
        (profiles_in left.now ++ profiles_in right.now) (profiled_pairs environment.now.items) }
    ensures listed { IfOk result (λ made. AreDraftsPlaced
        (menu_basis_of (D.known_data decider.old) (D.canon decider.old) spec.now) first
        (parallel (meet_of meet.now) (behaviour_of left.now) (behaviour_of right.now))
        (profiles_in left.now ++ profiles_in right.now) (profiled_pairs environment.now.items)
        made.items) }
    ensures same_known { KeepsData D.known_data D.canon decider.old decider.new }
{
    let below = levels.below()?;
    let lefts = behaviour_moves(spec, ranks, left, environment, first, below, decider)?;
    let rights = behaviour_moves(spec, ranks, right, environment, first, below, decider)?;
    beside(lefts, rights, meet, first)
}

// Of a hiding.
#[cycle(listing)]
#[inline(never)]
fn hide_moves<D: Deciding>(
    spec: &Spec,
    ranks: &Ranks,
    gates: &Vec<u32>,
    part: &Beh,
    environment: &Vec<(u64, Sorted)>,
    first: u64,
    levels: Levels,
    decider: &mut D,
) -> Result<Vec<Draft>, NoMemory>
    requires over { IsSpecOver (D.known_data decider.old).signature spec.now }
    requires ranks { AreRanksOf spec.now ranks.now }
    requires placed { IsPlaced
        (menu_basis_of (D.known_data decider.old) (D.canon decider.old) spec.now) first
        (hide gates.now.items (behaviour_of part.now))
        (profiles_in part.now) (profiled_pairs environment.now.items) }
    ensures listed { IfOk result (λ made. AreDraftsPlaced
        (menu_basis_of (D.known_data decider.old) (D.canon decider.old) spec.now) first
        (hide gates.now.items (behaviour_of part.now))
        (profiles_in part.now) (profiled_pairs environment.now.items) made.items) }
    ensures same_known { KeepsData D.known_data D.canon decider.old decider.new }
{
    let below = levels.below()?;
    let parts = behaviour_moves(spec, ranks, part, environment, first, below, decider)?;
    Rule::Hidden(gates.as_slice()).apply_to_all(parts)
}

// Of an enabling, whatever its right side is.
#[cycle(listing)]
#[inline(never)]
fn enable_moves<D: Deciding>(
    spec: &Spec,
    ranks: &Ranks,
    left: &Beh,
    variables: &Vec<Variable>,
    environment: &Vec<(u64, Sorted)>,
    first: u64,
    levels: Levels,
    decider: &mut D,
) -> Result<Vec<Draft>, NoMemory>
    requires over { IsSpecOver (D.known_data decider.old).signature spec.now }
    requires ranks { AreRanksOf spec.now ranks.now }
    requires placed { IsPlaced
        (menu_basis_of (D.known_data decider.old) (D.canon decider.old) spec.now) first
        (behaviour_of left.now) (profiles_in left.now) (profiled_pairs environment.now.items) }
    ensures listed { IfOk result (λ made. (right : Behaviour) → (terms : List ProfiledTerm)
        → AreDraftsPlaced (menu_basis_of (D.known_data decider.old) (D.canon decider.old) spec.now)
        first
        (enable (behaviour_of left.now) (variables_of variables.now.items) right)
        (profiles_in left.now ++ terms) (profiled_pairs environment.now.items) made.items) }
    ensures same_known { KeepsData D.known_data D.canon decider.old decider.new }
{
    let below = levels.below()?;
    let parts = behaviour_moves(spec, ranks, left, environment, first, below, decider)?;
    Rule::Enabled(variables).apply_to_all(parts)
}

// Of a disabling.
#[cycle(listing)]
#[inline(never)]
fn disable_moves<D: Deciding>(
    spec: &Spec,
    ranks: &Ranks,
    left: &Beh,
    right: &Beh,
    environment: &Vec<(u64, Sorted)>,
    first: u64,
    levels: Levels,
    decider: &mut D,
) -> Result<Vec<Draft>, NoMemory>
    requires over { IsSpecOver (D.known_data decider.old).signature spec.now }
    requires ranks { AreRanksOf spec.now ranks.now }
    requires placed { IsPlaced
        (menu_basis_of (D.known_data decider.old) (D.canon decider.old) spec.now) first
        (disable (behaviour_of left.now) (behaviour_of right.now))
        (profiles_in left.now ++ profiles_in right.now) (profiled_pairs environment.now.items) }
    ensures listed { IfOk result (λ made. AreDraftsPlaced
        (menu_basis_of (D.known_data decider.old) (D.canon decider.old) spec.now) first
        (disable (behaviour_of left.now) (behaviour_of right.now))
        (profiles_in left.now ++ profiles_in right.now) (profiled_pairs environment.now.items)
        made.items) }
    ensures same_known { KeepsData D.known_data D.canon decider.old decider.new }
{
    let below = levels.below()?;
    let lefts = behaviour_moves(spec, ranks, left, environment, first, below, decider)?;
    let rights = behaviour_moves(spec, ranks, right, environment, first, below, decider)?;
    either(lefts, rights)
}

// Of a `let`.
#[cycle(listing)]
#[inline(never)]
fn let_moves<D: Deciding>(
    spec: &Spec,
    ranks: &Ranks,
    bindings: &Vec<(Variable, Sorted)>,
    part: &Beh,
    environment: &Vec<(u64, Sorted)>,
    first: u64,
    levels: Levels,
    decider: &mut D,
) -> Result<Vec<Draft>, NoMemory>
    requires over { IsSpecOver (D.known_data decider.old).signature spec.now }
    requires ranks { AreRanksOf spec.now ranks.now }
    requires placed { IsPlaced
        (menu_basis_of (D.known_data decider.old) (D.canon decider.old) spec.now) first
        (let_be (map let_of bindings.now.items) (behaviour_of part.now))
        (map let_profile bindings.now.items ++ profiles_in part.now)
        (profiled_pairs environment.now.items) }
    ensures listed { IfOk result (λ made. AreDraftsPlaced
        (menu_basis_of (D.known_data decider.old) (D.canon decider.old) spec.now) first
        (let_be (map let_of bindings.now.items) (behaviour_of part.now))
        (map let_profile bindings.now.items ++ profiles_in part.now)
        (profiled_pairs environment.now.items) made.items) }
    ensures same_known { KeepsData D.known_data D.canon decider.old decider.new }
{
    let inner = let_environment(bindings, environment, decider)?;
    let below = levels.below()?;
    let parts = behaviour_moves(spec, ranks, part, &inner, first, below, decider)?;
    Rule::Below(Variant::Bound).apply_to_all(parts)
}

// Of a value choice.
#[cycle(listing)]
#[inline(never)]
fn value_moves<D: Deciding>(
    spec: &Spec,
    ranks: &Ranks,
    variable: &Variable,
    part: &Beh,
    environment: &Vec<(u64, Sorted)>,
    first: u64,
    levels: Levels,
    decider: &mut D,
) -> Result<Vec<Draft>, NoMemory>
    requires over { IsSpecOver (D.known_data decider.old).signature spec.now }
    requires ranks { AreRanksOf spec.now ranks.now }
    requires placed { IsPlaced
        (menu_basis_of (D.known_data decider.old) (D.canon decider.old) spec.now) first
        (choose_value (variable_of variable.now) (behaviour_of part.now))
        (profiles_in part.now) (profiled_pairs environment.now.items) }
    ensures listed { IfOk result (λ made. AreDraftsPlaced
        (menu_basis_of (D.known_data decider.old) (D.canon decider.old) spec.now) first
        (choose_value (variable_of variable.now) (behaviour_of part.now))
        (profiles_in part.now) (profiled_pairs environment.now.items) made.items) }
    ensures same_known { KeepsData D.known_data D.canon decider.old decider.new }
{
    let inner = value_environment(variable, environment, first)?;
    let next = following(first)?;
    let below = levels.below()?;
    let parts = behaviour_moves(spec, ranks, part, &inner, next, below, decider)?;
    let chosen = leaf(first, variable.sort);
    Rule::Valued(&chosen).apply_to_all(parts)
}

// Of a gate choice.
#[cycle(listing)]
#[inline(never)]
fn gate_moves<D: Deciding>(
    spec: &Spec,
    ranks: &Ranks,
    gate: u32,
    gates: &Vec<u32>,
    part: &Beh,
    environment: &Vec<(u64, Sorted)>,
    first: u64,
    levels: Levels,
    decider: &mut D,
) -> Result<Vec<Draft>, NoMemory>
    requires over { IsSpecOver (D.known_data decider.old).signature spec.now }
    requires ranks { AreRanksOf spec.now ranks.now }
    requires placed { IsPlaced
        (menu_basis_of (D.known_data decider.old) (D.canon decider.old) spec.now) first
        (choose_gate gate gates.now.items (behaviour_of part.now))
        (profiles_in part.now) (profiled_pairs environment.now.items) }
    ensures listed { IfOk result (λ made. AreDraftsPlaced
        (menu_basis_of (D.known_data decider.old) (D.canon decider.old) spec.now) first
        (choose_gate gate gates.now.items (behaviour_of part.now))
        (profiles_in part.now) (profiled_pairs environment.now.items) made.items) }
    ensures same_known { KeepsData D.known_data D.canon decider.old decider.new }
{
    let below = levels.below()?;
    let parts = behaviour_moves(spec, ranks, part, environment, first, below, decider)?;
    at_gates(*environment.allocator(), gate, gates, &parts)
}

/// The drafts of the moves of a call: those of the body of its process, relabelled.
#[cycle(listing)]
#[inline(never)]
pub fn call_moves<D: Deciding>(
    spec: &Spec,
    ranks: &Ranks,
    process: u32,
    gates: &Vec<u32>,
    values: &Vec<Sorted>,
    environment: &Vec<(u64, Sorted)>,
    first: u64,
    levels: Levels,
    decider: &mut D,
) -> Result<Vec<Draft>, NoMemory>
    requires over { IsSpecOver (D.known_data decider.old).signature spec.now }
    requires ranks { AreRanksOf spec.now ranks.now }
    requires placed { IsPlaced
        (menu_basis_of (D.known_data decider.old) (D.canon decider.old) spec.now) first
        (call process gates.now.items (terms_of values.now.items)) (profiles_of values.now.items)
        (profiled_pairs environment.now.items) }
    ensures listed { IfOk result (λ made. AreDraftsPlaced
        (menu_basis_of (D.known_data decider.old) (D.canon decider.old) spec.now) first
        (call process gates.now.items (terms_of values.now.items)) (profiles_of values.now.items)
        (profiled_pairs environment.now.items) made.items) }
    ensures same_known { KeepsData D.known_data D.canon decider.old decider.new }
{
    let called = &spec.processes[process as usize];
    let inner = call_environment(&called.parameters, values, environment, decider)?;
    let below = levels.below()?;
    let body = behaviour_moves(spec, ranks, &called.body, &inner, first, below, decider)?;
    let call = Call {
        formals: &called.gates,
        actuals: gates,
    };
    let pairs = call.relabelled(*environment.allocator(), &[])?;
    Rule::Relabelled(pairs.as_slice(), Variant::Called).apply_to_all(body)
}

// Of a gate `par`. Below a relabelling a call is the call with its actual gates relabelled, and
// `stop` is `stop`.
#[cycle(listing)]
#[inline(never)]
fn par_moves<D: Deciding>(
    spec: &Spec,
    ranks: &Ranks,
    gate: u32,
    gates: &Vec<u32>,
    meet: &Meet,
    part: &Beh,
    environment: &Vec<(u64, Sorted)>,
    first: u64,
    levels: Levels,
    decider: &mut D,
) -> Result<Vec<Draft>, NoMemory>
    requires over { IsSpecOver (D.known_data decider.old).signature spec.now }
    requires ranks { AreRanksOf spec.now ranks.now }
    requires placed { IsPlaced
        (menu_basis_of (D.known_data decider.old) (D.canon decider.old) spec.now) first
        (par_gate gate gates.now.items (meet_of meet.now) (behaviour_of part.now))
        (profiles_in part.now) (profiled_pairs environment.now.items) }
    ensures listed { IfOk result (λ made. AreDraftsPlaced
        (menu_basis_of (D.known_data decider.old) (D.canon decider.old) spec.now) first
        (par_gate gate gates.now.items (meet_of meet.now) (behaviour_of part.now))
        (profiles_in part.now) (profiled_pairs environment.now.items) made.items) }
    ensures same_known { KeepsData D.known_data D.canon decider.old decider.new }
{
    match part {
        Beh::Stop => Ok(Vec::new(*environment.allocator())),
        Beh::Call {
            place: _,
            process,
            gates: actuals,
            values,
        } => {
            let called = &spec.processes[*process as usize];
            let inner = call_environment(&called.parameters, values, environment, decider)?;
            let below = levels.below_sides(gates.len())?;
            let body = behaviour_moves(spec, ranks, &called.body, &inner, first, below, decider)?;
            let call = Call {
                formals: &called.gates,
                actuals,
            };
            calls_beside(gate, gates, meet, &call, &body, first)
        }
        _ => {
            let below = levels.below_sides(gates.len())?;
            let parts = behaviour_moves(spec, ranks, part, environment, first, below, decider)?;
            copies_beside(gate, gates, meet, &parts, first)
        }
    }
}
