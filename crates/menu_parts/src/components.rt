//! Menus that are made as a whole.

ghost use Rattle.menu_parts.specs.KeptMenus.{IsKeptFor, IsMaking};
ghost use Rattle.std.specs.Prelude.{IfOk};
ghost use Rattle.step_taker.specs.HandedOn.{KeepsData};
ghost use Rattle.step_taker.specs.Taken.{ground_of};
ghost use Rattle.step_taker.specs.Walked.{IsPassableNode};

use crate::kept::{Kept, Listed};
use crate::rooms::Room;
use behaviour_tree::boxes::{owner, shared};
use behaviour_tree::{Node, Spec};
use lotos_base::NoMemory;
use shared_entries::items::items_of;
use shared_entries::{Levels, Ranks, node_entries};
use sort_terms::Deciding;
use std::alloc::Global;
use std::rc::Rc;

/// What menus are made over: the specification with the ranks of its processes, and a number above
/// those of all variables that processes declare.
#[derive(Drop)]
pub struct Making<'a> {
    /// The specification.
    pub spec: &'a Spec,
    /// The ranks of its processes.
    pub ranks: &'a Ranks,
    /// The number.
    pub least: u64,
    /// Where memory is taken.
    pub alloc: Global,
}

/// The menu of a node that is one component, where there is so much room. A level above counts as
/// one of those of a menu.
pub fn whole<D: Deciding>(
    making: &Making<'_>,
    node: &Rc<Node>,
    room: Room,
    decider: &mut D,
) -> Result<Rc<Kept>, NoMemory>
    requires base { IsMaking (D.known_data decider.old) (D.canon decider.old) making.now }
    requires node { IsPassableNode
        (ground_of (D.known_data decider.old) (D.canon decider.old) making.now.spec.now)
        node.now.value }
    ensures kept { IfOk result (λ made. IsKeptFor
        (ground_of (D.known_data decider.old) (D.canon decider.old) making.now.spec.now)
        node.now.value made.value) }
    ensures same_known { KeepsData D.known_data D.canon decider.old decider.new }
{
    let used = room.used();
    let left = Levels::all().below_many(used)?;
    let entries = node_entries(
        making.alloc,
        making.spec,
        making.ranks,
        node,
        making.least,
        left,
        decider,
    )?;
    let items = items_of(entries)?;
    let node = owner(node)?;
    shared(making.alloc, Kept::Whole(Listed { node, items }))
}
