//! Tasks done one after another, in place of recursion over terms.

ghost use Rattle.std.specs.Prelude.{◌≡◌, ◌++◌, ◌∷◌, ◌<◌, [], IfOk, Some, length};
ghost use Rattle.term_rewriter.specs.FirstIndexView.{IsIndexOf};
ghost use Rattle.term_store.specs.Kept.{kept_at};
ghost use Rattle.term_store.specs.SharedView.{keys_in};
ghost use Rattle.term_store.specs.Tasks.{begun_tasks, form_task, form_tasks};
ghost use Rattle.term_store.specs.Turns.{Advances, AreSound, CanBeDone, IsWholeOf, StaySound};
ghost use Rattle.term_store.specs.declared.tasks.Task.TheVariants.{Apply};

use crate::forms::Forms;
use crate::steps::step;
use crate::tasks::{Lists, Task};
use crate::wholes::whole;
use lotos_base::NoMemory;
use path_order::Rules;
use std::alloc::Global;
use term_rewriter::first_index::FirstIndex;

/// The number of the chosen form of the term with this number; it is kept from then on.
pub fn chosen(
    alloc: Global,
    rules: &Rules,
    index: &FirstIndex,
    forms: &mut Forms,
    number: u32,
) -> Result<u32, NoMemory>
    requires index { IsIndexOf rules.now index.now }
    requires sound { AreSound rules.now forms.old }
    requires within { number < length (keys_in forms.old.shared) }
    ensures stay { StaySound rules.now forms.old forms.new }
    ensures kept { IfOk result (λ form. kept_at forms.new.kept.items number ≡ Some form) }
{
    let mut lists = Lists::new(alloc);
    let mut tasks = Vec::new(alloc);
    tasks.push(Task::Form(number))?;
    while let Some(task) = tasks.pop() {
        turn(rules, index, forms, &mut lists, &mut tasks, task)?;
    }
    Ok(forms.form_or_same(number))
}

// Does the task; what is to be done before is put behind the other tasks.
fn turn(
    rules: &Rules,
    index: &FirstIndex,
    forms: &mut Forms,
    lists: &mut Lists,
    tasks: &mut Vec<Task>,
    task: Task,
) -> Result<(), NoMemory>
    requires index { IsIndexOf rules.now index.now }
    requires sound { AreSound rules.now forms.old }
    requires ready { CanBeDone rules.now forms.old (tasks.old.items ++ task ∷ []) }
    ensures stay { StaySound rules.now forms.old forms.new }
    ensures advances { IfOk result (λ done. Advances rules.now forms.old
        (tasks.old.items ++ task ∷ []) forms.new tasks.new.items) }
{
    match task {
        Task::Form(number) => begin(forms, tasks, number),
        Task::Apply(number) => apply(rules, index, forms, lists, tasks, number),
        Task::Keep { term, whole, next } => forms.keep_both(term, whole, forms.form_or_same(next)),
    }
}

// Puts the tasks of finding the form of the term behind the others, where it is not kept.
fn begin(forms: &Forms, tasks: &mut Vec<Task>, number: u32) -> Result<(), NoMemory>
    requires { number < length (keys_in forms.now.shared) }
    ensures { IfOk result (λ done. tasks.new.items ≡ tasks.old.items
        ++ begun_tasks forms.now.kept.items (keys_in forms.now.shared) number
        (kept_at forms.now.kept.items number)) }
{
    match forms.form(number) {
        Some(_) => Ok(()),
        None => {
            tasks.push(Task::Apply(number))?;
            match forms.shared.operation(number as usize) {
                Some((_, arguments)) => add_tasks(forms, tasks, arguments),
                None => Ok(()),
            }
        }
    }
}

// Puts the tasks of finding the forms of the terms behind the others, where they are not kept.
fn add_tasks(forms: &Forms, tasks: &mut Vec<Task>, numbers: &[u32]) -> Result<(), NoMemory>
    ensures { IfOk result (λ done. tasks.new.items ≡ tasks.old.items
        ++ form_tasks forms.now.kept.items numbers.now) }
{
    for number in numbers {
        add_task(forms, tasks, *number)?;
    }
    Ok(())
}

// The same for one term.
fn add_task(forms: &Forms, tasks: &mut Vec<Task>, number: u32) -> Result<(), NoMemory>
    ensures { IfOk result (λ done. tasks.new.items ≡ tasks.old.items
        ++ form_task number (kept_at forms.now.kept.items number)) }
{
    match forms.form(number) {
        Some(_) => Ok(()),
        None => Ok(tasks.push(Task::Form(number))?),
    }
}

// Finds the form of an operation, for whose arguments forms are kept: that of the operation on
// these forms.
fn apply(
    rules: &Rules,
    index: &FirstIndex,
    forms: &mut Forms,
    lists: &mut Lists,
    tasks: &mut Vec<Task>,
    number: u32,
) -> Result<(), NoMemory>
    requires index { IsIndexOf rules.now index.now }
    requires sound { AreSound rules.now forms.old }
    requires ready { CanBeDone rules.now forms.old (tasks.old.items ++ Apply number ∷ []) }
    ensures stay { StaySound rules.now forms.old forms.new }
    ensures advances { IfOk result (λ done. Advances rules.now forms.old
        (tasks.old.items ++ Apply number ∷ []) forms.new tasks.new.items) }
{
    let whole = whole(forms, &mut lists.numbers, number)?;
    match forms.form(whole) {
        Some(form) => forms.keep(number, form),
        None => rewrite(rules, index, forms, lists, tasks, number, whole),
    }
}

// Finds the form of a term by way of the operation on the forms of its arguments: that operation
// itself where no rule matches it, else the form of what the first rule makes of it.
fn rewrite(
    rules: &Rules,
    index: &FirstIndex,
    forms: &mut Forms,
    lists: &mut Lists,
    tasks: &mut Vec<Task>,
    term: u32,
    whole: u32,
) -> Result<(), NoMemory>
    requires index { IsIndexOf rules.now index.now }
    requires sound { AreSound rules.now forms.old }
    requires ready { CanBeDone rules.now forms.old (tasks.old.items ++ Apply term ∷ []) }
    requires whole { IsWholeOf rules.now (keys_in forms.old.shared) term whole }
    ensures stay { StaySound rules.now forms.old forms.new }
    ensures advances { IfOk result (λ done. Advances rules.now forms.old
        (tasks.old.items ++ Apply term ∷ []) forms.new tasks.new.items) }
{
    match step(rules, index, &mut forms.shared, lists, whole)? {
        None => forms.keep_both(term, whole, whole),
        Some(next) => {
            tasks.push(Task::Keep { term, whole, next })?;
            Ok(tasks.push(Task::Form(next))?)
        }
    }
}
