//! The events of a state whose menu has no variables.

ghost use Rattle.behaviour_semantics.specs.Menu.{IsEntry};
ghost use Rattle.behaviour_tree.specs.StateView.{state_of};
ghost use Rattle.bisim_check.specs.Events.{event_of, HasNewEvent, IsEventOf};
ghost use Rattle.bisim_check.specs.Matching.{AreEvents};
ghost use Rattle.bisim_check.specs.Readings.{HasClosedEntries};
ghost use Rattle.bisim_check.specs.Surveys.{IsSideOf, IsSurveyed, side_over};
ghost use Rattle.menu_builder.specs.HandedOn.{Entry, IsEntryOf, KeepsData, plain_entry, menu_entries};
ghost use Rattle.menu_builder.specs.Menus.{entries_in};
ghost use Rattle.std.specs.Prelude.{◌≡◌, ◌++◌, ◌∷◌, [], IfOk, OnOk, Some, map, slice_get};

use crate::surveys::{Surveyed, target};
use behaviour_tree::{Label, Spec, State};
use lotos_base::NoMemory;
use menu_builder::{Entry, label_copy};
use sort_terms::Deciding;
use std::alloc::Global;

/// An event: the label of an entry without variables, and the state that the entry leads to.
#[derive(Drop)]
pub struct Event {
    /// The label.
    pub label: Label,
    /// The state.
    pub target: State,
}

/// The events of the entries of the state's menu, one by one.
pub fn events<D: Deciding>(
    alloc: Global,
    spec: &Spec,
    surveyed: &Surveyed,
    data: &mut D,
) -> Result<Vec<Event>, NoMemory>
    requires side { IsSideOf (D.known_data data.old).signature spec.now }
    requires surveyed { IsSurveyed (D.known_data data.old) (D.canon data.old) spec.now
        surveyed.now }
    requires closed { HasClosedEntries surveyed.now.menu }
    ensures events { IfOk result (λ made. AreEvents
        (side_over (D.known_data data.old) (D.canon data.old) spec.now)
        (state_of surveyed.now.state) (entries_in surveyed.now.menu)
        (map event_of made.items)) }
    ensures same_known { KeepsData D.known_data D.canon data.old data.new }
{
    let mut made = Vec::new(alloc);
    for position in 0..surveyed.menu.len() {
        add_event(alloc, &mut made, spec, surveyed, position, data)?;
    }
    Ok(made)
}

// Puts the event of the entry at the position, if there is one, behind the others.
fn add_event<D: Deciding>(
    alloc: Global,
    events: &mut Vec<Event>,
    spec: &Spec,
    surveyed: &Surveyed,
    position: usize,
    data: &mut D,
) -> Result<(), NoMemory>
    requires side { IsSideOf (D.known_data data.old).signature spec.now }
    requires surveyed { IsSurveyed (D.known_data data.old) (D.canon data.old) spec.now
        surveyed.now }
    requires closed { HasClosedEntries surveyed.now.menu }
    ensures added { OnOk result ((entry : Entry)
        → slice_get (menu_entries surveyed.now.menu) position ≡ Some entry
        → HasNewEvent (side_over (D.known_data data.old) (D.canon data.old) spec.now)
        (state_of surveyed.now.state) (plain_entry entry) (map event_of events.old.items)
        (map event_of events.new.items)) }
    ensures same_known { KeepsData D.known_data D.canon data.old data.new }
{
    match surveyed.menu.entry(position) {
        None => Ok(()),
        Some(entry) => {
            let made = event_at(alloc, spec, surveyed, entry, data)?;
            Ok(push_event(events, made)?)
        }
    }
}

// The event of the entry.
fn event_at<D: Deciding>(
    alloc: Global,
    spec: &Spec,
    surveyed: &Surveyed,
    entry: &Entry,
    data: &mut D,
) -> Result<Event, NoMemory>
    requires side { IsSideOf (D.known_data data.old).signature spec.now }
    requires surveyed { IsSurveyed (D.known_data data.old) (D.canon data.old) spec.now
        surveyed.now }
    requires there { IsEntry (entries_in surveyed.now.menu) (plain_entry entry.now) }
    requires over { IsEntryOf (D.known_data data.old).signature entry.now }
    requires closed { entry.now.vars.items ≡ [] }
    ensures event { IfOk result (λ made. IsEventOf
        (side_over (D.known_data data.old) (D.canon data.old) spec.now)
        (state_of surveyed.now.state) (plain_entry entry.now) (event_of made)) }
    ensures same_known { KeepsData D.known_data D.canon data.old data.new }
{
    let label = label_copy(alloc, &entry.label)?;
    let reached = target(spec, surveyed, entry, data)?;
    Ok(Event {
        label,
        target: reached,
    })
}

// The events with one more.
fn push_event(events: &mut Vec<Event>, event: Event) -> Result<(), NoMemory>
    ensures { OnOk result (events.new.items ≡ events.old.items ++ event ∷ []) }
{
    Ok(events.push(event)?)
}
