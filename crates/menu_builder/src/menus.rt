//! The menu of a state.

ghost use Rattle.behaviour_semantics.specs.Draft.{
  above_processes as above_declared,
  draft_with,
  numbered_from_zero,
};
ghost use Rattle.behaviour_semantics.specs.DraftOrder.{IsInOrder};
ghost use Rattle.behaviour_semantics.specs.Listing.{AllSolveTo};
ghost use Rattle.behaviour_semantics.specs.Menu.{Exact};
ghost use Rattle.behaviour_semantics.specs.WellFormed.{Every};
ghost use Rattle.behaviour_tree.specs.Closed.{IsClosedNode};
ghost use Rattle.behaviour_tree.specs.DefinitionView.{specification_of};
ghost use Rattle.behaviour_tree.specs.Over.{IsSpecOver, IsStateOf};
ghost use Rattle.behaviour_tree.specs.StateView.{stands_for, state_of};
ghost use Rattle.draft_parts.specs.DraftTerms.{HasTermsOf};
ghost use Rattle.draft_parts.specs.HandedOn.{IsEntryOver, KeepsData, plain_draft, plain_entry, menu_entries};
ghost use Rattle.draft_parts.specs.Lists.{plain_drafts};
ghost use Rattle.lotos_base.specs.Signature.{IsWellFormedSignature, Signature};
ghost use Rattle.menu_builder.specs.Menus.{entries_in};
ghost use Rattle.menu_builder.specs.Nodes.{IsKnownNode};
ghost use Rattle.menu_builder.specs.OpenMenus.{lowered_drafts};
ghost use Rattle.process_checks.specs.Ranks.{AreRanksOf};
ghost use Rattle.std.specs.Prelude.{◌≡◌, ◌≤◌, ◌++◌, IfOk, map, option_to_list};

use crate::levels::Levels;
use crate::nodes::node_moves;
use crate::numbers::{above_node, above_processes};
use behaviour_tree::{Node, Spec, State};
use draft_parts::{Draft, Entry, Menu, Renaming};
use draft_solving::solve;
use lotos_base::NoMemory;
use process_checks::Ranks;
use sort_terms::Deciding;
use std::alloc::Global;

/// The exact menu of the state, over the data and the canon of the object: for each shape that
/// fits, in order, the solved form of its draft. Where rules nest deeper than 4,000 levels, along
/// the parts of the state and the calls that stand before an event, this is want of memory.
pub fn menu<D: Deciding>(
    alloc: Global,
    spec: &Spec,
    ranks: &Ranks,
    state: &State,
    decider: &mut D,
) -> Result<Menu, NoMemory>
    requires signature { IsWellFormedSignature (D.known_data decider.old).signature }
    requires over { IsSpecOver (D.known_data decider.old).signature spec.now }
    requires ranks { AreRanksOf spec.now ranks.now }
    requires state { IsStateOf (D.known_data decider.old).signature spec.now state.now }
    requires closed { IsClosedNode state.now.node }
    ensures exact { IfOk result (λ menu. Exact (D.known_data decider.old) (D.canon decider.old)
        (specification_of spec.now).processes (state_of state.now) (entries_in menu)) }
    ensures over { IfOk result
        (λ menu. Every (IsEntryOver (D.known_data decider.old).signature) (menu_entries menu)) }
    ensures same_known { KeepsData D.known_data D.canon decider.old decider.new }
{
    let node = state.node();
    let least = above_processes(spec, 0)?;
    let entries = node_entries(alloc, spec, ranks, node, least, Levels::all(), decider)?;
    Ok(Menu::of(entries))
}

/// The entries of the exact menu of what the node stands for. `least` is a number above those of
/// all variables that processes declare; it is the same for all nodes of a specification. Where the
/// rules nest deeper than so many levels it answers `NoMemory`.
pub fn node_entries<D: Deciding>(
    alloc: Global,
    spec: &Spec,
    ranks: &Ranks,
    node: &Node,
    least: u64,
    levels: Levels,
    decider: &mut D,
) -> Result<Vec<Entry>, NoMemory>
    requires signature { IsWellFormedSignature (D.known_data decider.old).signature }
    requires over { IsSpecOver (D.known_data decider.old).signature spec.now }
    requires ranks { AreRanksOf spec.now ranks.now }
    requires node { IsKnownNode (D.known_data decider.old).signature spec.now node.now }
    requires least { above_declared (specification_of spec.now).processes ≤ least }
    ensures exact { IfOk result (λ made. Exact (D.known_data decider.old) (D.canon decider.old)
        (specification_of spec.now).processes (stands_for node.now)
        (map plain_entry made.items)) }
    ensures over { IfOk result
        (λ made. Every (IsEntryOver (D.known_data decider.old).signature) made.items) }
    ensures same_known { KeepsData D.known_data D.canon decider.old decider.new }
{
    let base = above_node(node, least)?;
    let drafts = node_moves(alloc, spec, ranks, node, base, levels, decider)?;
    solved(drafts, base, decider)
}

// The drafts with their variables numbered from 0, each solved.
fn solved<D: Deciding>(
    drafts: Vec<Draft>,
    base: u64,
    decider: &mut D,
) -> Result<Vec<Entry>, NoMemory>
    requires terms { Every (HasTermsOf (D.known_data decider.old).signature) drafts.items }
    requires order { Every (IsInOrder (D.known_data decider.old).signature)
        (lowered_drafts base (plain_drafts drafts.items)) }
    ensures solved { IfOk result (λ made. AllSolveTo (D.canon decider.old)
        (lowered_drafts base (plain_drafts drafts.items)) (map plain_entry made.items)) }
    ensures over { IfOk result
        (λ made. Every (IsEntryOver (D.known_data decider.old).signature) made.items) }
    ensures same_known { KeepsData D.known_data D.canon decider.old decider.new }
{
    let mut entries = Vec::with_capacity(*drafts.allocator(), drafts.len())?;
    let mut rest = drafts;
    rest.reverse();
    while let Some(draft) = rest.pop() {
        let entry = solve(lowered(draft, base)?, decider)?;
        push_solved(&mut entries, entry)?;
    }
    Ok(entries)
}

// The draft with its variables from `base` on numbered from 0.
fn lowered(draft: Draft, base: u64) -> Result<Draft, NoMemory>
    ensures same { IfOk result (λ made. plain_draft made
        ≡ draft_with (numbered_from_zero base) (plain_draft draft)) }
    ensures over { IfOk result (λ made. (signature : Signature) → HasTermsOf signature draft
        → HasTermsOf signature made) }
{
    let renaming = Renaming::Lowered(base);
    let label = renaming.label(&draft.label)?;
    let leaves = renaming.terms(&draft.leaves)?;
    let conditions = renaming.conditions(&draft.conditions)?;
    Ok(Draft {
        shape: draft.shape,
        label,
        leaves,
        conditions,
    })
}

// The entries with one more, where there is one.
fn push_solved(entries: &mut Vec<Entry>, entry: Option<Entry>) -> Result<(), NoMemory>
    ensures { IfOk result (λ _. entries.new.items ≡ entries.old.items ++ option_to_list entry) }
{
    match entry {
        None => Ok(()),
        Some(entry) => Ok(entries.push(entry)?),
    }
}
