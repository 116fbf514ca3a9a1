//! The walk over the processes of a `where` and those in them, in the order of the text. Nothing
//! recurses, since `where` nests without limit.

ghost use Rattle.behaviour_tree.specs.BehaviourTerms.{profiles_in};
ghost use Rattle.behaviour_tree.specs.DefinitionView.{process_of};
ghost use Rattle.behaviour_tree.specs.Over.{AreTermsOf};
ghost use Rattle.behaviour_tree.specs.declared.definitions.Process.{Process};
ghost use Rattle.behaviour_semantics.specs.WellFormed.{Every};
ghost use Rattle.static_scope.specs.ProcessView.{process_heading, written_definition};
ghost use Rattle.static_scope.specs.Points.{numbers_of_point};
ghost use Rattle.static_scope.specs.PointsView.{point_in};
ghost use Rattle.static_scope.specs.Sizes.{BeginsAt, sizes_of_all};
ghost use Rattle.static_scope.specs.SizesView.{written_inners};
ghost use Rattle.static_scope.specs.KeptPlaces.{places_of_process, places_of_processes};
ghost use Rattle.static_scope.specs.TextPlaces.{inners_text_places};
ghost use Rattle.static_scope.specs.Walk.{WalkGoesOn, AreSizesKnown, WalkIs, declaration_in_front, steps_of};
ghost use Rattle.static_scope.specs.WalkView.{
  process_listed,
  processes_made,
  places_of_made,
  task_of,
  tasks_in,
  walk_at,
};
ghost use Rattle.scope_parts.specs.BindingsView.{bindings_in};
ghost use Rattle.scope_parts.specs.Definitions.{InnersAre, new_process};
ghost use Rattle.scope_parts.specs.FaultView.{Answers, FaultIs};
ghost use Rattle.scope_parts.specs.Numbering.{inners_gates};
ghost use Rattle.scope_parts.specs.Resolution.{Is, faulty};
ghost use Rattle.scope_parts.specs.Scope.{bind};
ghost use Rattle.std.specs.Option.{ForSome};
ghost use Rattle.std.specs.Prelude.{
  ◌≡◌,
  ◌<◌,
  ◌++◌,
  ◌∷◌,
  [],
  suc,
  IfErr,
  IfOk,
  OnOk,
  map,
};
ghost use Rattle.syntax_trees.specs.TreeViews.{inner_of};

use crate::declaring::declare;
use crate::definitions::process;
use crate::frames::Frame;
use behaviour_scopes::Resolver;
use behaviour_tree::Process;
use lotos_base::NoMemory;
use scope_parts::ScopeFault;
use scope_parts::bindings::Bindings;
use std::alloc::Global;
use syntax_trees::{InnerText, ProcessText};

/// The processes that a `where` declares, with those in them, in the order of the text. The
/// processes of the `where` are visible already, and so many processes each process declares.
pub fn processes(
    alloc: Global,
    resolver: &mut Resolver,
    sizes: &Vec<usize>,
    inner: &[InnerText],
) -> Result<Vec<Process>, ScopeFault>
    requires { BeginsAt (sizes_of_all (written_inners inner.now))
        (point_in resolver.old).process sizes.now.items }
    ensures read { Answers (λ made. map process_of made.items) result (InnersAre
        (point_in resolver.old).signature (point_in resolver.old).processes []
        (numbers_of_point (point_in resolver.old)) (written_inners inner.now)) }
    ensures names { OnOk result ((point_in resolver.new).names
        ≡ (point_in resolver.old).names ++ inners_gates (written_inners inner.now)) }
    ensures profiles { IfOk result (λ made. Every (λ (p : Process). AreTermsOf
        (point_in resolver.old).signature (profiles_in p.body)) made.items) }
    ensures places { IfOk result (λ made. places_of_processes made.items
        ≡ inners_text_places (written_inners inner.now)) }
{
    let mut made = Vec::new(alloc);
    let mut stack = Vec::new(alloc);
    stack.push(Frame {
        rest: inner,
        before: Bindings::new(alloc),
        outside: 0,
    })?;
    while let Some(frame) = stack.pop() {
        let definition = go_on(alloc, resolver, sizes, &mut stack, frame)?;
        add(&mut made, definition)?;
    }
    Ok(made)
}

// Adds the process, if there is one.
fn add(made: &mut Vec<Process>, definition: Option<Process>) -> Result<(), NoMemory>
    ensures { OnOk result (made.new.items ≡ made.old.items ++ process_listed definition) }
{
    if let Some(definition) = definition {
        made.push(definition)?;
    }
    Ok(())
}

// One step with the innermost `where`: it ends, or its next declaration is looked at.
fn go_on<'t>(
    alloc: Global,
    resolver: &mut Resolver,
    sizes: &Vec<usize>,
    stack: &mut Vec<Frame<'t>>,
    frame: Frame<'t>,
) -> Result<Option<Process>, ScopeFault>
    requires { AreSizesKnown sizes.now.items
        (walk_at resolver.old (task_of frame ∷ tasks_in stack.old.items)) }
    ensures on { IfOk result (λ made. WalkGoesOn sizes.now.items
        (walk_at resolver.old (task_of frame.entry ∷ tasks_in stack.old.items))
        (walk_at resolver.new (tasks_in stack.new.items)) (processes_made made)
        (places_of_made made)) }
    ensures less { OnOk result (steps_of (tasks_in stack.new.items)
        < steps_of (task_of frame.entry ∷ tasks_in stack.old.items)) }
    ensures profiles { IfOk result (λ made. ForSome made (λ (p : Process). AreTermsOf
        (point_in resolver.old).signature (profiles_in p.body))) }
    ensures fault { IfErr result (λ fault. FaultIs fault (λ f. WalkIs
        (walk_at resolver.old (task_of frame.entry ∷ tasks_in stack.old.items)) (faulty f))) }
{
    match frame.rest.split_first() {
        None => {
            resolver.processes.cut_to(frame.outside);
            Ok(None)
        }
        Some((first, rest)) => {
            let left = Frame {
                rest,
                before: frame.before,
                outside: frame.outside,
            };
            next_declared(alloc, resolver, sizes, stack, left, first)
        }
    }
}

// The next declaration of the innermost `where`.
fn next_declared<'t>(
    alloc: Global,
    resolver: &mut Resolver,
    sizes: &Vec<usize>,
    stack: &mut Vec<Frame<'t>>,
    left: Frame<'t>,
    first: &'t InnerText,
) -> Result<Option<Process>, ScopeFault>
    requires { AreSizesKnown sizes.now.items (walk_at resolver.old
        (declaration_in_front (inner_of first.now) (task_of left) ∷ tasks_in stack.old.items)) }
    ensures on { IfOk result (λ made. WalkGoesOn sizes.now.items
        (walk_at resolver.old (declaration_in_front (inner_of first.now) (task_of left.entry)
        ∷ tasks_in stack.old.items)) (walk_at resolver.new (tasks_in stack.new.items))
        (processes_made made) (places_of_made made)) }
    ensures less { OnOk result (steps_of (tasks_in stack.new.items)
        < steps_of (declaration_in_front (inner_of first.now) (task_of left.entry)
        ∷ tasks_in stack.old.items)) }
    ensures profiles { IfOk result (λ made. ForSome made (λ (p : Process). AreTermsOf
        (point_in resolver.old).signature (profiles_in p.body))) }
    ensures fault { IfErr result (λ fault. FaultIs fault (λ f. WalkIs (walk_at resolver.old
        (declaration_in_front (inner_of first.now) (task_of left.entry) ∷ tasks_in stack.old.items))
        (faulty f))) }
{
    match first {
        InnerText::Item(_) => {
            stack.push(left)?;
            Ok(None)
        }
        InnerText::Process(text) => {
            let made = enter(alloc, resolver, sizes, stack, left, text)?;
            Ok(Some(made))
        }
    }
}

// A process, whose own `where` comes next.
fn enter<'t>(
    alloc: Global,
    resolver: &mut Resolver,
    sizes: &Vec<usize>,
    stack: &mut Vec<Frame<'t>>,
    left: Frame<'t>,
    text: &'t ProcessText,
) -> Result<Process, ScopeFault>
    requires { AreSizesKnown sizes.now.items (walk_at resolver.old
        (declaration_in_front (written_definition text.now) (task_of left)
        ∷ tasks_in stack.old.items)) }
    ensures on { IfOk result (λ made. WalkGoesOn sizes.now.items
        (walk_at resolver.old
        (declaration_in_front (written_definition text.now) (task_of left.entry)
        ∷ tasks_in stack.old.items)) (walk_at resolver.new (tasks_in stack.new.items))
        (process_of made ∷ []) (places_of_process made)) }
    ensures less { OnOk result (steps_of (tasks_in stack.new.items)
        < steps_of (declaration_in_front (written_definition text.now) (task_of left.entry)
        ∷ tasks_in stack.old.items)) }
    ensures profiles { IfOk result (λ made. AreTermsOf (point_in resolver.old).signature
        (profiles_in made.body)) }
    ensures fault { IfErr result (λ fault. FaultIs fault (λ f. WalkIs (walk_at resolver.old
        (declaration_in_front (written_definition text.now) (task_of left.entry)
        ∷ tasks_in stack.old.items)) (faulty f))) }
{
    let before = with_name(alloc, left.before, text)?;
    let next = next_process(resolver.next_process)?;
    resolver.next_process = next;
    let outside = resolver.processes.size();
    declare(alloc, resolver, sizes, &text.inner)?;
    stack.push(Frame {
        rest: left.rest,
        before,
        outside: left.outside,
    })?;
    stack.push(Frame {
        rest: text.inner.as_slice(),
        before: Bindings::new(alloc),
        outside,
    })?;
    let made = process(alloc, resolver, text)?;
    Ok(made)
}

// The names with that of the process, or the fault that it is there already.
fn with_name(alloc: Global, before: Bindings, text: &ProcessText) -> Result<Bindings, ScopeFault>
    ensures new { Answers (λ _. (process_heading text.now).name) result
        (Is (new_process (bindings_in before) (process_heading text.now))) }
    ensures bound { IfOk result (λ names. bindings_in names
        ≡ bind (process_heading text.now).name 0 (bindings_in before)) }
{
    let mut names = before;
    let found = names.find(alloc, &text.name)?;
    match found {
        Some(_) => {
            let name = text.name.copy(alloc)?;
            Err(ScopeFault::DoubleName {
                place: text.place,
                name,
            })
        }
        None => {
            names.bind(alloc, &text.name, 0)?;
            Ok(names)
        }
    }
}

// The next number. There is no memory for so many processes that there is none.
fn next_process(number: u32) -> Result<u32, NoMemory>
    ensures { IfOk result (λ next. next ≡ suc number) }
{
    match number.checked_add(1) {
        Some(next) => Ok(next),
        None => Err(NoMemory),
    }
}
