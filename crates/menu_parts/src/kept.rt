//! Menus that are kept: for a node, and for its parts.

ghost use Rattle.behaviour_tree.specs.StateView.{stands_for};
ghost use Rattle.menu_parts.specs.KeptMenus.{AreKeptBelow, IsKept, IsListedMenu};
ghost use Rattle.menu_parts.specs.Spread.{listed_for, spread_items};
ghost use Rattle.shared_entries.specs.Items.{plain_item};
ghost use Rattle.std.specs.Prelude.{◌≡◌, ◌↔◌, IfSome, IsTrue, map};
ghost use Rattle.step_taker.specs.Taken.{Ground};

use behaviour_tree::Node;
use shared_entries::MenuPart;
use shared_entries::items::Item;
use std::rc::Rc;

/// The exact menu of what a node stands for.
#[derive(Drop)]
pub struct Listed {
    /// The node.
    pub node: Rc<Node>,
    /// The entries.
    pub items: Vec<Item>,
}

/// The menu of a node, with those of its parts from which it was made.
#[derive(Drop)]
#[cycle(keeping)]
pub enum Kept {
    /// It was made as a whole.
    Whole(Listed),
    /// It was made from that of one part.
    One(Listed, Rc<Kept>),
    /// It was made from those of two sides.
    Two(Listed, Rc<Kept>, Rc<Kept>),
    /// It was made from those of parts side by side.
    Beside(Listed, Rc<Spread>),
}

/// Parts that stand side by side, where none waits for another, with their menus. The entries of
/// the whole are those that stand here with each part, in order.
#[derive(Drop)]
#[cycle(keeping)]
pub enum Spread {
    /// A part, and its entries as they are for the whole, also as menus share them.
    Side(Rc<Kept>, Vec<Item>, MenuPart),
    /// The parts under a relabelling.
    Under(Vec<(u32, u32)>, Rc<Spread>),
    /// The parts of the left side, and those of the right side; and the entries of both as they are
    /// for the whole, as menus share them.
    Both(Rc<Spread>, Rc<Spread>, MenuPart),
}

impl Kept {
    /// The menu of the node itself.
    pub fn listed(&self) -> &Listed
        ensures same { result.now ≡ listed_for self.now }
        ensures kept { (basis : Ground) → IsKept basis self.now → IsListedMenu basis result.now }
    {
        match self {
            Kept::Whole(listed) => listed,
            Kept::One(listed, _) => listed,
            Kept::Two(listed, _, _) => listed,
            Kept::Beside(listed, _) => listed,
        }
    }

    /// Whether it is the menu of what the other node stands for.
    pub fn is_for(&self, node: &Node) -> bool
        ensures { IsTrue result
            ↔ (stands_for (listed_for self.now).node.value ≡ stands_for node.now) }
    {
        self.listed().node.same(node)
    }

    /// The entries of the menu of the node itself.
    pub fn items(&self) -> &Vec<Item>
        ensures { result.now ≡ (listed_for self.now).items }
    {
        &self.listed().items
    }

    /// The menus of the one part, or of the left side, if it was made from parts.
    pub fn first(&self) -> Option<&Rc<Kept>>
        ensures { (basis : Ground) → IsKept basis self.now
            → IfSome result (λ part. IsKept basis part.now.value) }
    {
        match self {
            Kept::Whole(_) | Kept::Beside(_, _) => None,
            Kept::One(_, part) => Some(part),
            Kept::Two(_, left, _) => Some(left),
        }
    }

    /// The menus of the right side, if it was made from two sides.
    pub fn second(&self) -> Option<&Rc<Kept>>
        ensures { (basis : Ground) → IsKept basis self.now
            → IfSome result (λ part. IsKept basis part.now.value) }
    {
        match self {
            Kept::Whole(_) | Kept::One(_, _) | Kept::Beside(_, _) => None,
            Kept::Two(_, _, right) => Some(right),
        }
    }

    /// The parts side by side, if it was made from such.
    pub fn spread(&self) -> Option<&Rc<Spread>>
        ensures kept { (basis : Ground) → IsKept basis self.now
            → IfSome result (λ s. AreKeptBelow basis (λ entries. entries) s.now.value) }
        ensures listed { (basis : Ground) → IsKept basis self.now
            → IfSome result (λ s. map plain_item (listed_for self.now).items.items
            ≡ map plain_item (spread_items s.now.value)) }
    {
        match self {
            Kept::Beside(_, spread) => Some(spread),
            _ => None,
        }
    }
}
