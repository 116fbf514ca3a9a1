//! The processes of a `where` as callers see them.

ghost use Rattle.static_scope.specs.CallableList.{callables_in};
ghost use Rattle.static_scope.specs.ProcessView.{process_heading};
ghost use Rattle.static_scope.specs.OwnCallables.{own_callable};
ghost use Rattle.static_scope.specs.Sizes.{BeginsAt, definition_sizes, sizes_of_all};
ghost use Rattle.static_scope.specs.SizesView.{written_inners};
ghost use Rattle.sort_terms.specs.ReaderView.{signature_read};
ghost use Rattle.scope_parts.specs.CallablesView.{callable_in};
ghost use Rattle.scope_parts.specs.Definitions.{callable_of, callables};
ghost use Rattle.scope_parts.specs.Numbering.{process_count};
ghost use Rattle.scope_parts.specs.ProcessesView.{processes_in};
ghost use Rattle.scope_parts.specs.Sorts.{sorts_if as sorts_if_of};
ghost use Rattle.std.specs.Prelude.{◌≡◌, ◌+◌, ◌++◌, IfOk, OnOk};
ghost use Rattle.syntax_trees.specs.TreeViews.{inner_of, written_variables_of};

use lotos_base::NoMemory;
use scope_parts::callable::Callable;
use scope_parts::callables::Callables;
use sort_terms::Reader;
use std::alloc::Global;
use syntax_trees::{InnerText, ProcessText, VarText};

/// Makes the processes of a `where` visible, numbered from a number on. Of two of one name the
/// first one is called. So many processes as the sizes say stand behind each.
pub fn make_visible(
    alloc: Global,
    reader: &Reader,
    sizes: &Vec<usize>,
    first: usize,
    inner: &Vec<InnerText>,
    visible: &mut Callables,
) -> Result<(), NoMemory>
    requires { BeginsAt (sizes_of_all (written_inners inner.now.items)) first sizes.now.items }
    ensures { OnOk result (processes_in visible.new ≡ callables (signature_read reader.now) first
        (written_inners inner.now.items) ++ processes_in visible.old) }
{
    let added = own_processes(alloc, reader, sizes, first, inner)?;
    push_all(alloc, visible, added)?;
    Ok(())
}

// Adds the processes, the last one first, so that the first one is innermost.
fn push_all(alloc: Global, visible: &mut Callables, added: Vec<Callable>) -> Result<(), NoMemory>
    ensures { OnOk result (processes_in visible.new
        ≡ callables_in added.items ++ processes_in visible.old) }
{
    let mut rest = added;
    while let Some(process) = rest.pop() {
        visible.push(alloc, process)?;
    }
    Ok(())
}

// The processes in the order of the text, numbered from a number on.
fn own_processes(
    alloc: Global,
    reader: &Reader,
    sizes: &Vec<usize>,
    first: usize,
    inner: &Vec<InnerText>,
) -> Result<Vec<Callable>, NoMemory>
    requires { BeginsAt (sizes_of_all (written_inners inner.now.items)) first sizes.now.items }
    ensures { IfOk result (λ made. callables_in made.items
        ≡ callables (signature_read reader.now) first (written_inners inner.now.items)) }
{
    let mut made = Vec::new(alloc);
    let mut number = first;
    for declared in inner {
        let next = add_own(alloc, reader, sizes, &mut made, number, declared)?;
        number = next;
    }
    Ok(made)
}

// Adds a process with its number, and answers the number of the next one. An item changes nothing.
fn add_own(
    alloc: Global,
    reader: &Reader,
    sizes: &Vec<usize>,
    made: &mut Vec<Callable>,
    number: usize,
    declared: &InnerText,
) -> Result<usize, NoMemory>
    requires { BeginsAt (definition_sizes (inner_of declared.now)) number sizes.now.items }
    ensures next { IfOk result (λ next. next ≡ number + process_count (inner_of declared.now)) }
    ensures added { OnOk result (callables_in made.new.items ≡ callables_in made.old.items
        ++ own_callable (signature_read reader.now) number (inner_of declared.now)) }
{
    match declared {
        InnerText::Item(_) => Ok(number),
        InnerText::Process(text) => {
            let process = callable(alloc, reader, number, text)?;
            made.push(process)?;
            let next = past(number, sizes[number])?;
            Ok(next)
        }
    }
}

// A process as its callers see it.
fn callable(
    alloc: Global,
    reader: &Reader,
    number: usize,
    text: &ProcessText,
) -> Result<Callable, NoMemory>
    ensures { IfOk result (λ made. callable_in made
        ≡ callable_of (signature_read reader.now) number (process_heading text.now)) }
{
    let name = text.name.copy(alloc)?;
    let number = count(number)?;
    let gates = count(text.gates.len())?;
    let sorts = sorts_if(alloc, reader, &text.params)?;
    Ok(Callable {
        name,
        number,
        gates,
        sorts,
    })
}

// The sorts of variables, None for one that the data lack.
fn sorts_if(
    alloc: Global,
    reader: &Reader,
    texts: &Vec<VarText>,
) -> Result<Vec<Option<u32>>, NoMemory>
    ensures { IfOk result (λ made. made.items
        ≡ sorts_if_of (signature_read reader.now) (written_variables_of texts.now.items)) }
{
    let mut made = Vec::with_capacity(alloc, texts.len())?;
    for text in texts {
        let found = reader.sort_named(&text.sort)?;
        made.push(found)?;
    }
    Ok(made)
}

// The number behind so many. There is no memory for so many processes that there is none.
fn past(number: usize, many: usize) -> Result<usize, NoMemory>
    ensures { IfOk result (λ next. next ≡ number + many) }
{
    match number.checked_add(many) {
        Some(next) => Ok(next),
        None => Err(NoMemory),
    }
}

// The number in 32 bits. There is no memory for more.
fn count(many: usize) -> Result<u32, NoMemory>
    ensures { IfOk result (λ n. n ≡ many) }
{
    if many > 0xffff_ffff {
        return Err(NoMemory);
    }
    Ok(many as u32)
}
