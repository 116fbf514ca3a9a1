//! Lists of declarations whose items are being taken out.

ghost use Rattle.std.specs.Prelude.{◌≡◌, ◌<◌, ◌≤◌, ◌++◌, ◌∷◌, [], MatchOption, drop, length, take};
ghost use Rattle.syntax_trees.specs.TreeViews.{heading_of, written_behaviour_of, inner_list_of, written_process_of};
ghost use Rattle.syntax_trees.specs.WrittenDefinition.{inners_of, process};

use crate::behaviours::BehText;
use crate::definitions::{InnerText, ProcessText};
use crate::items::{ItemBody, ItemText};
use crate::named::{Named, VarText};
use lotos_base::{Name, Place};
use std::alloc::Global;
use std::mem;

/// A declaration that stands where another was taken out.
fn vacant(alloc: Global) -> InnerText {
    InnerText::Item(ItemText {
        place: Place {
            text: 0,
            line: 0,
            col: 0,
        },
        body: ItemBody::Library(Vec::new(alloc)),
    })
}

/// A list of declarations: what stays of it, and what is still to be looked at.
#[derive(Drop)]
pub struct Level {
    /// The declarations.
    pub list: Vec<InnerText>,
    /// How many processes, without their items, stand at the front.
    pub kept: usize,
    /// Where the first declaration stands that is not taken out yet.
    pub next: usize,
    ghost in_range: { (kept ≤ next) × (next ≤ length list.items) },
}

impl Level {
    /// Of which nothing is taken out yet.
    pub fn of(list: Vec<InnerText>) -> Level
        ensures kept { take result.kept result.list.items ≡ [] }
        ensures ahead { drop result.next result.list.items ≡ list.items }
    {
        Level {
            list,
            kept: 0,
            next: 0,
        }
    }

    /// Takes the next declaration out.
    pub fn take_next(&mut self, alloc: Global) -> Option<InnerText>
        ensures kept { take self.new.kept self.new.list.items
            ≡ take self.old.kept self.old.list.items }
        ensures next { MatchOption result (drop self.new.next self.new.list.items ≡ [])
            (λ inner. drop self.old.next self.old.list.items
            ≡ inner ∷ drop self.new.next self.new.list.items) }
        ensures last { MatchOption result (drop self.old.next self.old.list.items ≡ [])
            (λ _. self.new.kept < self.new.next) }
    {
        if self.next == self.list.len() {
            return None;
        }
        let inner = mem::replace(&mut self.list[self.next], vacant(alloc));
        self.next += 1;
        Some(inner)
    }

    /// Puts a process without items behind those that stay.
    pub fn keep(&mut self, process: ProcessText)
        requires { self.old.kept < self.old.next }
        ensures kept { take self.new.kept self.new.list.items
            ≡ take self.old.kept self.old.list.items ++ InnerText.Process process ∷ [] }
        ensures ahead { drop self.new.next self.new.list.items
            ≡ drop self.old.next self.old.list.items }
    {
        self.list[self.kept] = InnerText::Process(process);
        self.kept += 1;
    }

    /// What stays of the list.
    pub fn finish(self) -> Vec<InnerText>
        ensures { result.items ≡ take self.kept self.list.items }
    {
        let Level {
            mut list,
            kept,
            next: _,
        } = self;
        list.truncate(kept);
        list
    }
}

/// A process whose own declarations are being looked at, with the list that it stands in.
#[derive(Drop)]
pub struct Outer {
    /// The place of its name.
    pub place: Place,
    /// Its name.
    pub name: Name,
    /// Its formal gates.
    pub gates: Vec<Named>,
    /// Its formal parameters.
    pub params: Vec<VarText>,
    /// The sorts of its `exit`, or none for `noexit`.
    pub func: Option<Vec<Named>>,
    /// Its behaviour.
    pub body: BehText,
    /// The list.
    pub level: Level,
    ghost taken: { level.kept < level.next },
}

impl Outer {
    /// A process that was taken out of the list, and its own declarations.
    pub fn of(definition: ProcessText, level: Level) -> (Outer, Vec<InnerText>)
        requires { level.kept < level.next }
        ensures level { result.0.level ≡ level }
        ensures process { written_process_of definition
            ≡ process (heading_of result.0.place result.0.name result.0.gates.items
            result.0.params.items result.0.func) (written_behaviour_of result.0.body)
            (inners_of (inner_list_of result.1.items)) }
    {
        let ProcessText {
            place,
            name,
            gates,
            params,
            func,
            body,
            inner,
        } = definition;
        let outer = Outer {
            place,
            name,
            gates,
            params,
            func,
            body,
            level,
        };
        (outer, inner)
    }

    /// The list that the process stands in, where the process has these declarations and stays.
    pub fn close(self, inner: Vec<InnerText>) -> Level
        ensures kept { inner_list_of (take result.kept result.list.items)
            ≡ inner_list_of (take self.level.kept self.level.list.items)
            ++ process (heading_of self.place self.name self.gates.items self.params.items
            self.func) (written_behaviour_of self.body)
            (inners_of (inner_list_of inner.items)) ∷ [] }
        ensures ahead { drop result.next result.list.items
            ≡ drop self.level.next self.level.list.items }
    {
        let Outer {
            place,
            name,
            gates,
            params,
            func,
            body,
            mut level,
        } = self;
        level.keep(ProcessText {
            place,
            name,
            gates,
            params,
            func,
            body,
            inner,
        });
        level
    }
}
