//! Names that are not taken.

ghost use Rattle.flat_text.specs.FreeNames.{with_number};
ghost use Rattle.flat_text.specs.WritingView.{IsLeastUnbound};
ghost use Rattle.lotos_base.specs.Name.{spelling};
ghost use Rattle.scope_parts.specs.BindingsView.{bindings_in};
ghost use Rattle.scope_parts.specs.Scope.{is_bound};
ghost use Rattle.std.specs.Prelude.{◌≡◌, ◌+◌, ◌<◌, ◌^◌, IfOk, length, suc};

use lotos_base::{Name, NoMemory};
use report_text::push_number;
use scope_parts::bindings::Bindings;
use std::alloc::Global;

/// A word with a number behind it.
pub fn with_number(alloc: Global, word: &[u8], number: usize) -> Result<Name, NoMemory>
    ensures { IfOk result (λ name. spelling name ≡ with_number word.now number) }
{
    let mut spelled = Vec::from_slice(alloc, word)?;
    push_number(&mut spelled, number as u128)?;
    Ok(Name::of(spelled))
}

/// Whether the name is one of the table.
pub fn is_taken(alloc: Global, taken: &Bindings, name: &Name) -> Result<bool, NoMemory>
    ensures { IfOk result (λ found. found ≡ is_bound (bindings_in taken.now) (spelling name.now)) }
{
    let found = taken.find(alloc, name)?;
    Ok(found.is_some())
}

/// The least number, from one on, that gives the word a name that is not in the table. One of so
/// many numbers as the table has names, and one more, does.
pub fn least_free(
    alloc: Global,
    taken: &Bindings,
    word: &[u8],
    from: usize,
) -> Result<usize, NoMemory>
    ensures least { IfOk result (λ found.
        IsLeastUnbound (bindings_in taken.now) word.now from found) }
    ensures room { IfOk result (λ _. from + suc (length (bindings_in taken.now)) < 2 ^ 64) }
{
    let Some(last) = from.checked_add(taken.size()) else {
        return Err(NoMemory);
    };
    let end = following(last)?;
    for number in from..end {
        let name = with_number(alloc, word, number)?;
        let is_taken = is_taken(alloc, taken, &name)?;
        if !is_taken {
            return Ok(number);
        }
    }
    unreachable!()
}

/// The number behind this one.
pub fn following(number: usize) -> Result<usize, NoMemory>
    ensures next { IfOk result (λ next. next ≡ suc number) }
    ensures room { IfOk result (λ _. suc number < 2 ^ 64) }
{
    match number.checked_add(1) {
        None => Err(NoMemory),
        Some(next) => Ok(next),
    }
}
