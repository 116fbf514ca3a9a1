//! Menus brought to the next state: what is the same as before is used again.

ghost use Rattle.behaviour_semantics.specs.Behaviour.{no_gates};
ghost use Rattle.behaviour_tree.specs.BehaviourView.{meet_of};
ghost use Rattle.behaviour_tree.specs.StateView.{stands_for};
ghost use Rattle.menu_parts.specs.Forms.{IsMadeBeside, IsMadeOf, IsMadeOfEither};
ghost use Rattle.menu_parts.specs.KeptMenus.{AreKeptBelow, IsKept, IsKeptFor, IsMaking, IsSpreadFor};
ghost use Rattle.menu_parts.specs.Spread.{IsRelabelled, by_way, of_left, of_right};
ghost use Rattle.std.specs.Prelude.{IfOk, IfSome};
ghost use Rattle.step_taker.specs.HandedOn.{KeepsData};
ghost use Rattle.step_taker.specs.Taken.{ground_of};
ghost use Rattle.step_taker.specs.Walked.{IsPassableNode};

use crate::components::{Making, whole};
use crate::forms::{Form, node_form};
use crate::kept::{Kept, Listed, Spread};
use crate::moving::{part_moved, sides_moved};
use crate::opening::{Opened, open_node, spreads};
use crate::parts::{closed_node, compared, first_of, going_on, second_of};
use crate::rooms::Room;
use crate::spreading::{beside_kept, both_made, side_made, under_made};
use crate::spreads::{left_of, right_of, same_side, side_of, spread_of, under_of};
use crate::ways::Way;
use behaviour_tree::boxes::{owner, shared};
use behaviour_tree::{Meet, Node};
use lotos_base::NoMemory;
use shared_entries::joins::{beside, either};
use shared_entries::rules::PartRule;
use sort_terms::Deciding;
use std::rc::Rc;
use step_taker::moved::Walk;

/// The menu of the node, with those of its parts as far as there is room. Where a kept menu is for
/// the same behaviour it is used again; a node that is known to have moved is not compared.
#[cycle(bringing)]
pub fn brought<D: Deciding>(
    making: &Making<'_>,
    node: &Rc<Node>,
    kept: Option<&Rc<Kept>>,
    moved: bool,
    room: Room,
    decider: &mut D,
) -> Result<Rc<Kept>, NoMemory>
    requires base { IsMaking (D.known_data decider.old) (D.canon decider.old) making.now }
    requires node { IsPassableNode
        (ground_of (D.known_data decider.old) (D.canon decider.old) making.now.spec.now)
        node.now.value }
    requires kept { IfSome kept (λ k. IsKept
        (ground_of (D.known_data decider.old) (D.canon decider.old) making.now.spec.now)
        k.now.value) }
    ensures kept { IfOk result (λ made. IsKeptFor
        (ground_of (D.known_data decider.old) (D.canon decider.old) making.now.spec.now)
        node.now.value made.value) }
    ensures same_known { KeepsData D.known_data D.canon decider.old decider.new }
{
    if let Some(earlier) = compared(kept, moved) {
        if earlier.is_for(node) {
            return owner(earlier);
        }
    }
    renewed(making, node, kept, room, decider)
}

// The menu of a node for which none is kept. Its parts are looked for among those of the kept one.
#[cycle(bringing)]
fn renewed<D: Deciding>(
    making: &Making<'_>,
    node: &Rc<Node>,
    kept: Option<&Rc<Kept>>,
    room: Room,
    decider: &mut D,
) -> Result<Rc<Kept>, NoMemory>
    requires base { IsMaking (D.known_data decider.old) (D.canon decider.old) making.now }
    requires node { IsPassableNode
        (ground_of (D.known_data decider.old) (D.canon decider.old) making.now.spec.now)
        node.now.value }
    requires kept { IfSome kept (λ k. IsKept
        (ground_of (D.known_data decider.old) (D.canon decider.old) making.now.spec.now)
        k.now.value) }
    ensures kept { IfOk result (λ made. IsKeptFor
        (ground_of (D.known_data decider.old) (D.canon decider.old) making.now.spec.now)
        node.now.value made.value) }
    ensures same_known { KeepsData D.known_data D.canon decider.old decider.new }
{
    let closed = closed_node(making.alloc, node)?;
    match room.below_menu() {
        None => whole(making, &closed, room, decider),
        Some(below) => made_anew(making, &closed, going_on(kept), below, decider),
    }
}

// The same by the form of the node.
#[cycle(bringing)]
fn formed<D: Deciding>(
    making: &Making<'_>,
    node: &Rc<Node>,
    kept: Option<&Rc<Kept>>,
    room: Room,
    decider: &mut D,
) -> Result<Rc<Kept>, NoMemory>
    requires base { IsMaking (D.known_data decider.old) (D.canon decider.old) making.now }
    requires node { IsPassableNode
        (ground_of (D.known_data decider.old) (D.canon decider.old) making.now.spec.now)
        node.now.value }
    requires kept { IfSome kept (λ k. IsKept
        (ground_of (D.known_data decider.old) (D.canon decider.old) making.now.spec.now)
        k.now.value) }
    ensures kept { IfOk result (λ made. IsKeptFor
        (ground_of (D.known_data decider.old) (D.canon decider.old) making.now.spec.now)
        node.now.value made.value) }
    ensures same_known { KeepsData D.known_data D.canon decider.old decider.new }
{
    let walk = Walk {
        spec: making.spec,
        leaves: &[],
        alloc: making.alloc,
    };
    let form = node_form(&walk, node, decider)?;
    match form {
        Form::Whole => whole(making, node, room, decider),
        Form::One(rule, part) => one(making, node, &rule, &part, kept, room, decider),
        Form::Either(left, right) => { of_either(making, node, &left, &right, kept, room, decider) }
        Form::Beside(meet, left, right) => {
            of_parallel(making, node, meet, &left, &right, kept, room, decider)
        }
    }
}

// The menu of a node that a rule makes of that of one part.
#[cycle(bringing)]
fn one<D: Deciding>(
    making: &Making<'_>,
    node: &Rc<Node>,
    rule: &PartRule<'_>,
    part: &Rc<Node>,
    kept: Option<&Rc<Kept>>,
    room: Room,
    decider: &mut D,
) -> Result<Rc<Kept>, NoMemory>
    requires base { IsMaking (D.known_data decider.old) (D.canon decider.old) making.now }
    requires part { IsPassableNode
        (ground_of (D.known_data decider.old) (D.canon decider.old) making.now.spec.now)
        part.now.value }
    requires form { IsMadeOf
        (ground_of (D.known_data decider.old) (D.canon decider.old) making.now.spec.now)
        rule.now (stands_for part.now.value) (stands_for node.now.value) }
    requires kept { IfSome kept (λ k. IsKept
        (ground_of (D.known_data decider.old) (D.canon decider.old) making.now.spec.now)
        k.now.value) }
    ensures kept { IfOk result (λ made. IsKeptFor
        (ground_of (D.known_data decider.old) (D.canon decider.old) making.now.spec.now)
        node.now.value made.value) }
    ensures same_known { KeepsData D.known_data D.canon decider.old decider.new }
{
    let moved = part_moved(node, kept);
    let below = brought(making, part, first_of(kept), moved, room, decider)?;
    let given = below.items();
    let items = rule.apply_to_all(given)?;
    let node = owner(node)?;
    shared(making.alloc, Kept::One(Listed { node, items }, below))
}

// The menus of both sides, of which some are known to have moved.
#[cycle(bringing)]
fn both<D: Deciding>(
    making: &Making<'_>,
    left: &Rc<Node>,
    right: &Rc<Node>,
    kept: Option<&Rc<Kept>>,
    moved: (bool, bool),
    room: Room,
    decider: &mut D,
) -> Result<(Rc<Kept>, Rc<Kept>), NoMemory>
    requires base { IsMaking (D.known_data decider.old) (D.canon decider.old) making.now }
    requires left { IsPassableNode
        (ground_of (D.known_data decider.old) (D.canon decider.old) making.now.spec.now)
        left.now.value }
    requires right { IsPassableNode
        (ground_of (D.known_data decider.old) (D.canon decider.old) making.now.spec.now)
        right.now.value }
    requires kept { IfSome kept (λ k. IsKept
        (ground_of (D.known_data decider.old) (D.canon decider.old) making.now.spec.now)
        k.now.value) }
    ensures left { IfOk result (λ made. IsKeptFor
        (ground_of (D.known_data decider.old) (D.canon decider.old) making.now.spec.now)
        left.now.value made.0.value) }
    ensures right { IfOk result (λ made. IsKeptFor
        (ground_of (D.known_data decider.old) (D.canon decider.old) making.now.spec.now)
        right.now.value made.1.value) }
    ensures same_known { KeepsData D.known_data D.canon decider.old decider.new }
{
    let first = brought(making, left, first_of(kept), moved.0, room, decider)?;
    let second = brought(making, right, second_of(kept), moved.1, room, decider)?;
    Ok((first, second))
}

// The menu of a disabling.
#[cycle(bringing)]
fn of_either<D: Deciding>(
    making: &Making<'_>,
    node: &Rc<Node>,
    left: &Rc<Node>,
    right: &Rc<Node>,
    kept: Option<&Rc<Kept>>,
    room: Room,
    decider: &mut D,
) -> Result<Rc<Kept>, NoMemory>
    requires base { IsMaking (D.known_data decider.old) (D.canon decider.old) making.now }
    requires left { IsPassableNode
        (ground_of (D.known_data decider.old) (D.canon decider.old) making.now.spec.now)
        left.now.value }
    requires right { IsPassableNode
        (ground_of (D.known_data decider.old) (D.canon decider.old) making.now.spec.now)
        right.now.value }
    requires form { IsMadeOfEither
        (ground_of (D.known_data decider.old) (D.canon decider.old) making.now.spec.now)
        (stands_for left.now.value) (stands_for right.now.value) (stands_for node.now.value) }
    requires kept { IfSome kept (λ k. IsKept
        (ground_of (D.known_data decider.old) (D.canon decider.old) making.now.spec.now)
        k.now.value) }
    ensures kept { IfOk result (λ made. IsKeptFor
        (ground_of (D.known_data decider.old) (D.canon decider.old) making.now.spec.now)
        node.now.value made.value) }
    ensures same_known { KeepsData D.known_data D.canon decider.old decider.new }
{
    let moved = sides_moved(node, kept);
    let sides = both(making, left, right, kept, moved, room, decider)?;
    let lefts = sides.0.items();
    let rights = sides.1.items();
    let items = either(lefts, rights)?;
    let node = owner(node)?;
    shared(
        making.alloc,
        Kept::Two(Listed { node, items }, sides.0, sides.1),
    )
}

// The menu of a parallel.
#[cycle(bringing)]
fn of_parallel<D: Deciding>(
    making: &Making<'_>,
    node: &Rc<Node>,
    meet: &Meet,
    left: &Rc<Node>,
    right: &Rc<Node>,
    kept: Option<&Rc<Kept>>,
    room: Room,
    decider: &mut D,
) -> Result<Rc<Kept>, NoMemory>
    requires base { IsMaking (D.known_data decider.old) (D.canon decider.old) making.now }
    requires left { IsPassableNode
        (ground_of (D.known_data decider.old) (D.canon decider.old) making.now.spec.now)
        left.now.value }
    requires right { IsPassableNode
        (ground_of (D.known_data decider.old) (D.canon decider.old) making.now.spec.now)
        right.now.value }
    requires form { IsMadeBeside
        (ground_of (D.known_data decider.old) (D.canon decider.old) making.now.spec.now)
        (meet_of meet.now) (stands_for left.now.value) (stands_for right.now.value)
        (stands_for node.now.value) }
    requires kept { IfSome kept (λ k. IsKept
        (ground_of (D.known_data decider.old) (D.canon decider.old) making.now.spec.now)
        k.now.value) }
    ensures kept { IfOk result (λ made. IsKeptFor
        (ground_of (D.known_data decider.old) (D.canon decider.old) making.now.spec.now)
        node.now.value made.value) }
    ensures same_known { KeepsData D.known_data D.canon decider.old decider.new }
{
    let moved = sides_moved(node, kept);
    let sides = both(making, left, right, kept, moved, room, decider)?;
    let lefts = sides.0.items();
    let rights = sides.1.items();
    let items = beside(meet, lefts, rights, decider)?;
    let node = owner(node)?;
    shared(
        making.alloc,
        Kept::Two(Listed { node, items }, sides.0, sides.1),
    )
}

// The same by its form, or by its parts side by side.
#[cycle(bringing)]
fn made_anew<D: Deciding>(
    making: &Making<'_>,
    node: &Rc<Node>,
    kept: Option<&Rc<Kept>>,
    room: Room,
    decider: &mut D,
) -> Result<Rc<Kept>, NoMemory>
    requires base { IsMaking (D.known_data decider.old) (D.canon decider.old) making.now }
    requires node { IsPassableNode
        (ground_of (D.known_data decider.old) (D.canon decider.old) making.now.spec.now)
        node.now.value }
    requires kept { IfSome kept (λ k. IsKept
        (ground_of (D.known_data decider.old) (D.canon decider.old) making.now.spec.now)
        k.now.value) }
    ensures kept { IfOk result (λ made. IsKeptFor
        (ground_of (D.known_data decider.old) (D.canon decider.old) making.now.spec.now)
        node.now.value made.value) }
    ensures same_known { KeepsData D.known_data D.canon decider.old decider.new }
{
    if spreads(node) {
        return of_spread(making, node, kept, room, decider);
    }
    formed(making, node, kept, room, decider)
}

// The menu of a node with parts side by side.
#[cycle(bringing)]
fn of_spread<D: Deciding>(
    making: &Making<'_>,
    node: &Rc<Node>,
    kept: Option<&Rc<Kept>>,
    room: Room,
    decider: &mut D,
) -> Result<Rc<Kept>, NoMemory>
    requires base { IsMaking (D.known_data decider.old) (D.canon decider.old) making.now }
    requires node { IsPassableNode
        (ground_of (D.known_data decider.old) (D.canon decider.old) making.now.spec.now)
        node.now.value }
    requires kept { IfSome kept (λ k. IsKept
        (ground_of (D.known_data decider.old) (D.canon decider.old) making.now.spec.now)
        k.now.value) }
    ensures kept { IfOk result (λ made. IsKeptFor
        (ground_of (D.known_data decider.old) (D.canon decider.old) making.now.spec.now)
        node.now.value made.value) }
    ensures same_known { KeepsData D.known_data D.canon decider.old decider.new }
{
    let spread = spread_at(making, node, &Way::Top, spread_of(kept), room, decider)?;
    beside_kept(making.alloc, node, spread)
}

// The menus of parts side by side, which stand at the end of the way.
#[cycle(bringing)]
fn spread_at<D: Deciding>(
    making: &Making<'_>,
    node: &Rc<Node>,
    way: &Way<'_>,
    earlier: Option<&Rc<Spread>>,
    room: Room,
    decider: &mut D,
) -> Result<Rc<Spread>, NoMemory>
    requires base { IsMaking (D.known_data decider.old) (D.canon decider.old) making.now }
    requires node { IsPassableNode
        (ground_of (D.known_data decider.old) (D.canon decider.old) making.now.spec.now)
        node.now.value }
    requires earlier { IfSome earlier (λ s. AreKeptBelow
        (ground_of (D.known_data decider.old) (D.canon decider.old) making.now.spec.now)
        (by_way way.now) s.now.value) }
    ensures spread { IfOk result (λ made. IsSpreadFor
        (ground_of (D.known_data decider.old) (D.canon decider.old) making.now.spec.now)
        (by_way way.now) (stands_for node.now.value) made.value) }
    ensures same_known { KeepsData D.known_data D.canon decider.old decider.new }
{
    if let Some(same) = same_side(earlier, node) {
        return owner(same);
    }
    if spreads(node) {
        if let Some(below) = room.below_level() {
            return spread_below(making, node, way, earlier, below, decider);
        }
    }
    one_side(making, node, way, side_of(earlier), room, decider)
}

// The menu of one part, which is known to have moved.
#[cycle(bringing)]
fn one_side<D: Deciding>(
    making: &Making<'_>,
    node: &Rc<Node>,
    way: &Way<'_>,
    kept: Option<&Rc<Kept>>,
    room: Room,
    decider: &mut D,
) -> Result<Rc<Spread>, NoMemory>
    requires base { IsMaking (D.known_data decider.old) (D.canon decider.old) making.now }
    requires node { IsPassableNode
        (ground_of (D.known_data decider.old) (D.canon decider.old) making.now.spec.now)
        node.now.value }
    requires kept { IfSome kept (λ k. IsKept
        (ground_of (D.known_data decider.old) (D.canon decider.old) making.now.spec.now)
        k.now.value) }
    ensures spread { IfOk result (λ made. IsSpreadFor
        (ground_of (D.known_data decider.old) (D.canon decider.old) making.now.spec.now)
        (by_way way.now) (stands_for node.now.value) made.value) }
    ensures same_known { KeepsData D.known_data D.canon decider.old decider.new }
{
    let made = brought(making, node, kept, true, room, decider)?;
    side_made(making.alloc, way, made)
}

// The menus of the parts side by side of a node.
#[cycle(bringing)]
fn spread_below<D: Deciding>(
    making: &Making<'_>,
    node: &Rc<Node>,
    way: &Way<'_>,
    earlier: Option<&Rc<Spread>>,
    room: Room,
    decider: &mut D,
) -> Result<Rc<Spread>, NoMemory>
    requires base { IsMaking (D.known_data decider.old) (D.canon decider.old) making.now }
    requires node { IsPassableNode
        (ground_of (D.known_data decider.old) (D.canon decider.old) making.now.spec.now)
        node.now.value }
    requires earlier { IfSome earlier (λ s. AreKeptBelow
        (ground_of (D.known_data decider.old) (D.canon decider.old) making.now.spec.now)
        (by_way way.now) s.now.value) }
    ensures spread { IfOk result (λ made. IsSpreadFor
        (ground_of (D.known_data decider.old) (D.canon decider.old) making.now.spec.now)
        (by_way way.now) (stands_for node.now.value) made.value) }
    ensures same_known { KeepsData D.known_data D.canon decider.old decider.new }
{
    let closed = closed_node(making.alloc, node)?;
    let form = open_node(making.alloc, &closed)?;
    match form {
        Opened::Alone => one_side(making, &closed, way, None, room, decider),
        Opened::Relabelled(pairs, part) => {
            under(making, &closed, pairs, &part, way, earlier, room, decider)
        }
        Opened::Beside(left, right) => {
            side_by_side(making, &closed, &left, &right, way, earlier, room, decider)
        }
    }
}

// The menus of the parts side by side under a relabelling.
#[cycle(bringing)]
fn under<D: Deciding>(
    making: &Making<'_>,
    node: &Rc<Node>,
    pairs: Vec<(u32, u32)>,
    part: &Rc<Node>,
    way: &Way<'_>,
    earlier: Option<&Rc<Spread>>,
    room: Room,
    decider: &mut D,
) -> Result<Rc<Spread>, NoMemory>
    requires base { IsMaking (D.known_data decider.old) (D.canon decider.old) making.now }
    requires part { IsPassableNode
        (ground_of (D.known_data decider.old) (D.canon decider.old) making.now.spec.now)
        part.now.value }
    requires form { IsRelabelled
        (ground_of (D.known_data decider.old) (D.canon decider.old) making.now.spec.now)
        pairs.items (stands_for part.now.value) (stands_for node.now.value) }
    requires earlier { IfSome earlier (λ s. AreKeptBelow
        (ground_of (D.known_data decider.old) (D.canon decider.old) making.now.spec.now)
        (by_way way.now) s.now.value) }
    ensures spread { IfOk result (λ made. IsSpreadFor
        (ground_of (D.known_data decider.old) (D.canon decider.old) making.now.spec.now)
        (by_way way.now) (stands_for node.now.value) made.value) }
    ensures same_known { KeepsData D.known_data D.canon decider.old decider.new }
{
    let below = Way::Under(&pairs, &*way);
    let inner = spread_at(
        making,
        part,
        &below,
        under_of(earlier, &pairs),
        room,
        decider,
    )?;
    under_made(making.alloc, node, pairs, way, inner)
}

// The menus of the parts side by side of a left and of a right side.
#[cycle(bringing)]
fn side_by_side<D: Deciding>(
    making: &Making<'_>,
    node: &Rc<Node>,
    left: &Rc<Node>,
    right: &Rc<Node>,
    way: &Way<'_>,
    earlier: Option<&Rc<Spread>>,
    room: Room,
    decider: &mut D,
) -> Result<Rc<Spread>, NoMemory>
    requires base { IsMaking (D.known_data decider.old) (D.canon decider.old) making.now }
    requires left { IsPassableNode
        (ground_of (D.known_data decider.old) (D.canon decider.old) making.now.spec.now)
        left.now.value }
    requires right { IsPassableNode
        (ground_of (D.known_data decider.old) (D.canon decider.old) making.now.spec.now)
        right.now.value }
    requires form { IsMadeBeside
        (ground_of (D.known_data decider.old) (D.canon decider.old) making.now.spec.now)
        no_gates (stands_for left.now.value) (stands_for right.now.value)
        (stands_for node.now.value) }
    requires earlier { IfSome earlier (λ s. AreKeptBelow
        (ground_of (D.known_data decider.old) (D.canon decider.old) making.now.spec.now)
        (by_way way.now) s.now.value) }
    ensures spread { IfOk result (λ made. IsSpreadFor
        (ground_of (D.known_data decider.old) (D.canon decider.old) making.now.spec.now)
        (by_way way.now) (stands_for node.now.value) made.value) }
    ensures same_known { KeepsData D.known_data D.canon decider.old decider.new }
{
    let sides = both_spreads(making, left, right, way, earlier, room, decider)?;
    both_made(making, node, left, right, way, sides.0, sides.1, decider)
}

// Those of the left side and those of the right side.
#[cycle(bringing)]
fn both_spreads<D: Deciding>(
    making: &Making<'_>,
    left: &Rc<Node>,
    right: &Rc<Node>,
    way: &Way<'_>,
    earlier: Option<&Rc<Spread>>,
    room: Room,
    decider: &mut D,
) -> Result<(Rc<Spread>, Rc<Spread>), NoMemory>
    requires base { IsMaking (D.known_data decider.old) (D.canon decider.old) making.now }
    requires left { IsPassableNode
        (ground_of (D.known_data decider.old) (D.canon decider.old) making.now.spec.now)
        left.now.value }
    requires right { IsPassableNode
        (ground_of (D.known_data decider.old) (D.canon decider.old) making.now.spec.now)
        right.now.value }
    requires earlier { IfSome earlier (λ s. AreKeptBelow
        (ground_of (D.known_data decider.old) (D.canon decider.old) making.now.spec.now)
        (by_way way.now) s.now.value) }
    ensures left { IfOk result (λ made. IsSpreadFor
        (ground_of (D.known_data decider.old) (D.canon decider.old) making.now.spec.now)
        (λ entries. by_way way.now (of_left entries)) (stands_for left.now.value)
        made.0.value) }
    ensures right { IfOk result (λ made. IsSpreadFor
        (ground_of (D.known_data decider.old) (D.canon decider.old) making.now.spec.now)
        (λ entries. by_way way.now (of_right entries)) (stands_for right.now.value)
        made.1.value) }
    ensures same_known { KeepsData D.known_data D.canon decider.old decider.new }
{
    let below = Way::Left(&*way);
    let first = spread_at(making, left, &below, left_of(earlier), room, decider)?;
    let below = Way::Right(&*way);
    let second = spread_at(making, right, &below, right_of(earlier), room, decider)?;
    Ok((first, second))
}
