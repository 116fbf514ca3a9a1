//! Taking the items out of a text. Nothing recurses, since processes nest without limit.

ghost use Rattle.std.specs.Prelude.{◌≡◌, ◌+◌, ◌<◌, ◌≤◌, ◌++◌, [], IfOk, OnErr, OnOk, map, vec_capacity, vec_len};
ghost use Rattle.syntax_trees.specs.TakenItems.{declarations_among, declarations_in, items_of_inners, items_of_specification, processes_of, without_items};
ghost use Rattle.syntax_trees.specs.TreeViews.{inner_list_of, inner_of, item_of, written_specification_of};
ghost use Rattle.syntax_trees.specs.WrittenDefinition.{inners_of, list_of_inners};

use crate::definitions::{InnerText, SpecText};
use crate::items::ItemText;
use crate::levels::{Level, Outer};
use lotos_base::NoMemory;
use std::alloc::{AllocError, Global};
use std::mem;

/// One more, where it can be counted.
fn one_more(count: usize) -> Result<usize, AllocError>
    ensures { IfOk result (λ more. more ≡ count + 1) }
{
    count.checked_add(1).ok_or(AllocError)
}

/// What a process declares; an item declares nothing.
fn own_declarations(inner: &InnerText) -> &[InnerText]
    ensures { declarations_in (inner_of inner.now)
        ≡ 1 + declarations_among (inners_of (inner_list_of result.now)) }
{
    match inner {
        InnerText::Item(_) => &[],
        InnerText::Process(process) => process.inner.as_slice(),
    }
}

/// How many items and processes are declared at every depth.
fn count_declarations(alloc: Global, inner: &[InnerText]) -> Result<usize, AllocError>
    ensures { IfOk result (λ count. count ≡ declarations_among
        (inners_of (inner_list_of inner.now))) }
{
    let mut waiting: Vec<&[InnerText]> = Vec::new(alloc);
    waiting.push(inner)?;
    let mut count: usize = 0;
    while let Some(list) = waiting.pop() {
        if let Some((first, rest)) = list.split_first() {
            count = one_more(count)?;
            waiting.push(rest)?;
            waiting.push(own_declarations(first))?;
        }
    }
    Ok(count)
}

/// Moves the items of the declarations, at every depth, to the end of `items`, and gives back what
/// is left.
fn move_items(
    alloc: Global,
    inner: Vec<InnerText>,
    outer: Vec<Outer>,
    items: &mut Vec<ItemText>,
) -> Vec<InnerText>
    requires outermost { outer.items ≡ [] }
    requires room { declarations_among (inners_of (inner_list_of inner.items))
        ≤ vec_capacity outer }
    requires space { vec_len items.old + declarations_among (inners_of (inner_list_of inner.items))
        ≤ vec_capacity items.old }
    ensures taken { map item_of items.new.items ≡ map item_of items.old.items
        ++ items_of_inners (inners_of (inner_list_of inner.items)) }
    ensures left { inner_list_of result.items
        ≡ list_of_inners (processes_of (inners_of (inner_list_of inner.items))) }
{
    let mut outer = outer;
    let mut level = Level::of(inner);
    loop {
        match level.take_next(alloc) {
            Some(InnerText::Item(item)) => items.push_reserved(item),
            Some(InnerText::Process(process)) => {
                let (above, list) = Outer::of(process, level);
                outer.push_reserved(above);
                level = Level::of(list);
            }
            None => match outer.pop() {
                Some(above) => level = above.close(level.finish()),
                None => return level.finish(),
            },
        }
    }
}

impl SpecText {
    /// Moves all items out: first those before the behaviour, then those of `where` at every depth,
    /// in text order. All else stays. Only want of memory may come instead, and then the text is as
    /// before.
    pub fn take_items(&mut self, alloc: Global) -> Result<Vec<ItemText>, NoMemory>
        ensures taken { IfOk result (λ items. map item_of items.items
            ≡ items_of_specification (written_specification_of self.old)) }
        ensures left { OnOk result (written_specification_of self.new
            ≡ without_items (written_specification_of self.old)) }
        ensures unchanged { OnErr result
            (written_specification_of self.new ≡ written_specification_of self.old) }
    {
        let count = count_declarations(alloc, &self.inner)?;
        let outer = Vec::with_capacity(alloc, count)?;
        self.items.reserve(count)?;
        let mut items = mem::replace(&mut self.items, Vec::new(alloc));
        let inner = mem::replace(&mut self.inner, Vec::new(alloc));
        self.inner = move_items(alloc, inner, outer, &mut items);
        Ok(items)
    }
}
