//! How many processes each process declares. Nothing recurses, since `where` nests without limit.

ghost use Rattle.static_scope.specs.Sizes.{
  counted_out,
  sizes_of_all,
  steps_left,
  with_own_open,
  with_own_size,
};
ghost use Rattle.static_scope.specs.SizesView.{
  uncounted_in,
  uncounted_of,
  written_inners,
};
ghost use Rattle.std.specs.Prelude.{◌≡◌, ◌<◌, ◌∷◌, IfOk, OnOk, reverse};
ghost use Rattle.syntax_trees.specs.TreeViews.{inner_of};

use lotos_base::NoMemory;
use std::alloc::Global;
use syntax_trees::InnerText;

/// A list of declarations that are not counted yet, the last one first.
#[derive(Drop)]
pub struct Waiting<'t> {
    /// The declarations.
    pub rest: &'t [InnerText],
    /// How many sizes there were when the process of this `where` was come to, None for the `where`
    /// of the specification.
    pub behind: Option<usize>,
}

/// How many processes each process declares at any depth, itself among them, in the order of the
/// text.
pub fn sizes(alloc: Global, inner: &[InnerText]) -> Result<Vec<usize>, NoMemory>
    ensures { IfOk result (λ made. made.items ≡ sizes_of_all (written_inners inner.now)) }
{
    let mut made = Vec::new(alloc);
    let mut stack = Vec::new(alloc);
    stack.push(Waiting {
        rest: inner,
        behind: None,
    })?;
    while let Some(entry) = stack.pop() {
        count_last(&mut stack, &mut made, entry)?;
    }
    made.reverse();
    Ok(made)
}

// Counts the last declaration of the list, or ends the list where there is none.
fn count_last<'t>(
    stack: &mut Vec<Waiting<'t>>,
    made: &mut Vec<usize>,
    entry: Waiting<'t>,
) -> Result<(), NoMemory>
    ensures same { OnOk result (counted_out (uncounted_in stack.new.items)
        (reverse made.new.items)
        ≡ counted_out (uncounted_of entry.entry ∷ uncounted_in stack.old.items)
        (reverse made.old.items)) }
    ensures less { OnOk result (steps_left (uncounted_in stack.new.items)
        < steps_left (uncounted_of entry.entry ∷ uncounted_in stack.old.items)) }
{
    match entry.rest.split_last() {
        None => {
            add_size(made, entry.behind)?;
            Ok(())
        }
        Some((last, rest)) => {
            stack.push(Waiting {
                rest,
                behind: entry.behind,
            })?;
            open_own(stack, made.len(), last)?;
            Ok(())
        }
    }
}

// Adds the size of the process whose `where` is counted, if it is one.
fn add_size(made: &mut Vec<usize>, behind: Option<usize>) -> Result<(), NoMemory>
    ensures { OnOk result (reverse made.new.items
        ≡ with_own_size behind (reverse made.old.items)) }
{
    if let Some(before) = behind {
        let declared = made.len().saturating_sub(before);
        made.push(declared + 1)?;
    }
    Ok(())
}

// Opens the `where` of a process; another declaration has none.
fn open_own<'t>(
    stack: &mut Vec<Waiting<'t>>,
    behind: usize,
    declared: &'t InnerText,
) -> Result<(), NoMemory>
    ensures { OnOk result (uncounted_in stack.new.items
        ≡ with_own_open (inner_of declared.now) behind (uncounted_in stack.old.items)) }
{
    match declared {
        InnerText::Item(_) => Ok(()),
        InnerText::Process(text) => {
            stack.push(Waiting {
                rest: text.inner.as_slice(),
                behind: Some(behind),
            })?;
            Ok(())
        }
    }
}
