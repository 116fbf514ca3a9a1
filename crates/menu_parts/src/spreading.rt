//! Kept menus of parts side by side, made of those of the parts.

ghost use Rattle.behaviour_semantics.specs.Behaviour.{Behaviour, no_gates};
ghost use Rattle.behaviour_semantics.specs.WellFormed.{Every};
ghost use Rattle.behaviour_tree.specs.StateView.{stands_for};
ghost use Rattle.lotos_base.specs.Signature.{Signature};
ghost use Rattle.shared_entries.specs.HandedOn.{KeepsData, part_entries};
ghost use Rattle.shared_entries.specs.Items.{HasItemTerms};
ghost use Rattle.menu_parts.specs.Forms.{IsLawfulGround, IsMadeBeside};
ghost use Rattle.menu_parts.specs.KeptMenus.{HasBoth, IsKeptAs, IsKeptFor, IsSpreadFor};
ghost use Rattle.shared_entries.specs.PartMenus.{relabel_menu};
ghost use Rattle.menu_parts.specs.Spread.{AreEntriesOf, IsRelabelled, by_way, of_left, of_right};
ghost use Rattle.std.specs.Prelude.{IfOk};
ghost use Rattle.step_taker.specs.Taken.{Ground, ground_of};
ghost use Rattle.step_taker.specs.Walked.{IsPassableNode};

use crate::components::Making;
use crate::kept::{Kept, Listed, Spread};
use crate::spreads::push_items;
use crate::ways::Way;
use behaviour_tree::boxes::{owner, shared};
use behaviour_tree::{Meet, Node};
use lotos_base::NoMemory;
use shared_entries::MenuPart;
use shared_entries::items::{Item, entries_of};
use shared_entries::joins::beside;
use shared_entries::rules::PartRule;
use sort_terms::Deciding;
use std::alloc::Global;
use std::rc::Rc;

/// What is kept for a part that stands at the end of the way.
pub fn side_made(alloc: Global, way: &Way<'_>, kept: Rc<Kept>) -> Result<Rc<Spread>, NoMemory>
    ensures { IfOk result (λ made. (basis : Ground) (b : Behaviour)
        → IsKeptAs basis b kept.value → IsSpreadFor basis (by_way way.now) b made.value) }
{
    let own = way.entries(kept.items())?;
    let part = part_of(alloc, &own)?;
    shared(alloc, Spread::Side(kept, own, part))
}

// The entries, as menus share them.
fn part_of(alloc: Global, items: &Vec<Item>) -> Result<MenuPart, NoMemory>
    ensures { IfOk result (λ made. (signature : Signature)
        → Every (HasItemTerms signature) items.now.items
        → AreEntriesOf signature items.now.items (part_entries made)) }
{
    let entries = entries_of(items)?;
    MenuPart::of(alloc, entries)
}

/// What is kept for a node with parts side by side, as the menu of that node.
pub fn beside_kept(alloc: Global, node: &Rc<Node>, spread: Rc<Spread>) -> Result<Rc<Kept>, NoMemory>
    ensures { IfOk result (λ made. (basis : Ground)
        → IsSpreadFor basis (λ entries. entries) (stands_for node.now.value) spread.value
        → IsKeptFor basis node.now.value made.value) }
{
    let mut items = Vec::new(alloc);
    push_items(&mut items, &spread)?;
    let node = owner(node)?;
    shared(alloc, Kept::Beside(Listed { node, items }, spread))
}

/// What is kept for a relabelling, from what is kept for its part.
pub fn under_made(
    alloc: Global,
    node: &Rc<Node>,
    pairs: Vec<(u32, u32)>,
    way: &Way<'_>,
    inner: Rc<Spread>,
) -> Result<Rc<Spread>, NoMemory>
    ensures { IfOk result (λ made. (basis : Ground) (part : Behaviour)
        → IsRelabelled basis pairs.items part (stands_for node.now.value)
        → IsSpreadFor basis (λ entries. by_way way.now (relabel_menu pairs.items entries)) part
        inner.value → IsSpreadFor basis (by_way way.now) (stands_for node.now.value) made.value) }
{
    match inner.ending() {
        None => shared(alloc, Spread::Under(pairs, inner)),
        Some(kept) => {
            let made = relabelled_kept(alloc, node, &pairs, kept)?;
            side_made(alloc, way, made)
        }
    }
}

// The menu of a relabelling, from that of its part.
fn relabelled_kept(
    alloc: Global,
    node: &Rc<Node>,
    pairs: &Vec<(u32, u32)>,
    kept: &Rc<Kept>,
) -> Result<Rc<Kept>, NoMemory>
    ensures { IfOk result (λ made. (basis : Ground) (part : Behaviour)
        → IsRelabelled basis pairs.now.items part (stands_for node.now.value)
        → IsKeptAs basis part kept.now.value
        → IsKeptFor basis node.now.value made.value) }
{
    let items = PartRule::Under(pairs).apply_to_all(kept.items())?;
    let node = owner(node)?;
    let below = owner(kept)?;
    shared(alloc, Kept::One(Listed { node, items }, below))
}

/// What is kept for a parallel whose sides meet at no gate, from what is kept for the sides.
pub fn both_made<D: Deciding>(
    making: &Making<'_>,
    node: &Rc<Node>,
    left: &Rc<Node>,
    right: &Rc<Node>,
    way: &Way<'_>,
    first: Rc<Spread>,
    second: Rc<Spread>,
    decider: &mut D,
) -> Result<Rc<Spread>, NoMemory>
    requires base { IsLawfulGround
        (ground_of (D.known_data decider.old) (D.canon decider.old) making.now.spec.now) }
    requires left { IsPassableNode
        (ground_of (D.known_data decider.old) (D.canon decider.old) making.now.spec.now)
        left.now.value }
    requires right { IsPassableNode
        (ground_of (D.known_data decider.old) (D.canon decider.old) making.now.spec.now)
        right.now.value }
    requires form { IsMadeBeside
        (ground_of (D.known_data decider.old) (D.canon decider.old) making.now.spec.now)
        no_gates (stands_for left.now.value) (stands_for right.now.value)
        (stands_for node.now.value) }
    requires first { IsSpreadFor
        (ground_of (D.known_data decider.old) (D.canon decider.old) making.now.spec.now)
        (λ entries. by_way way.now (of_left entries)) (stands_for left.now.value)
        first.value }
    requires second { IsSpreadFor
        (ground_of (D.known_data decider.old) (D.canon decider.old) making.now.spec.now)
        (λ entries. by_way way.now (of_right entries)) (stands_for right.now.value)
        second.value }
    ensures made { IfOk result (λ made. IsSpreadFor
        (ground_of (D.known_data decider.old) (D.canon decider.old) making.now.spec.now)
        (by_way way.now) (stands_for node.now.value) made.value) }
    ensures same_known { KeepsData D.known_data D.canon decider.old decider.new }
{
    match first.ending() {
        None => both_of(making.alloc, first, second),
        Some(one) => match second.ending() {
            None => both_of(making.alloc, first, second),
            Some(other) => {
                let made = both_kept(making, node, left, right, one, other, decider)?;
                side_made(making.alloc, way, made)
            }
        },
    }
}

// The parts of both sides, which do not end together.
fn both_of(alloc: Global, first: Rc<Spread>, second: Rc<Spread>) -> Result<Rc<Spread>, NoMemory>
    ensures { IfOk result (λ made. HasBoth first.value second.value made.value) }
{
    let part = MenuPart::joined(alloc, first.part(), second.part())?;
    shared(alloc, Spread::Both(first, second, part))
}

// The menu of a parallel whose sides meet at no gate, from those of the sides.
fn both_kept<D: Deciding>(
    making: &Making<'_>,
    node: &Rc<Node>,
    left: &Rc<Node>,
    right: &Rc<Node>,
    first: &Rc<Kept>,
    second: &Rc<Kept>,
    decider: &mut D,
) -> Result<Rc<Kept>, NoMemory>
    requires base { IsLawfulGround
        (ground_of (D.known_data decider.old) (D.canon decider.old) making.now.spec.now) }
    requires left { IsPassableNode
        (ground_of (D.known_data decider.old) (D.canon decider.old) making.now.spec.now)
        left.now.value }
    requires right { IsPassableNode
        (ground_of (D.known_data decider.old) (D.canon decider.old) making.now.spec.now)
        right.now.value }
    requires form { IsMadeBeside
        (ground_of (D.known_data decider.old) (D.canon decider.old) making.now.spec.now)
        no_gates (stands_for left.now.value) (stands_for right.now.value)
        (stands_for node.now.value) }
    requires first { IsKeptAs
        (ground_of (D.known_data decider.old) (D.canon decider.old) making.now.spec.now)
        (stands_for left.now.value) first.now.value }
    requires second { IsKeptAs
        (ground_of (D.known_data decider.old) (D.canon decider.old) making.now.spec.now)
        (stands_for right.now.value) second.now.value }
    ensures kept { IfOk result (λ made. IsKeptFor
        (ground_of (D.known_data decider.old) (D.canon decider.old) making.now.spec.now)
        node.now.value made.value) }
    ensures same_known { KeepsData D.known_data D.canon decider.old decider.new }
{
    let lefts = first.items();
    let rights = second.items();
    let items = beside(&Meet::Nothing, lefts, rights, decider)?;
    let node = owner(node)?;
    let one = owner(first)?;
    let other = owner(second)?;
    shared(making.alloc, Kept::Two(Listed { node, items }, one, other))
}
