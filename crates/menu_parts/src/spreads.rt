//! Kept menus of parts side by side.

ghost use Rattle.behaviour_semantics.specs.Rule.{is_exit};
ghost use Rattle.behaviour_semantics.specs.Solving.{Entry};
ghost use Rattle.behaviour_semantics.specs.WellFormed.{Every};
ghost use Rattle.behaviour_tree.specs.StateView.{stands_for};
ghost use Rattle.lotos_base.specs.Signature.{Signature};
ghost use Rattle.shared_entries.specs.Items.{HasItemTerms, plain_item};
ghost use Rattle.menu_parts.specs.KeptMenus.{AreKeptBelow, IsKept, IsSpreadFor};
ghost use Rattle.shared_entries.specs.PartMenus.{relabel_menu};
ghost use Rattle.menu_parts.specs.Spread.{
  NoneEnds,
  listed_for,
  of_left,
  of_right,
  part_for,
  spread_items,
  spread_menu,
};
ghost use Rattle.std.specs.Prelude.{
  ◌≡◌,
  ◌++◌,
  ◌↔◌,
  Bool,
  IfNone,
  IfOk,
  IfSome,
  IsTrue,
  List,
  map,
};
ghost use Rattle.step_taker.specs.Taken.{Ground};

use crate::kept::{Kept, Spread};
use behaviour_tree::{Label, Node};
use lotos_base::NoMemory;
use shared_entries::MenuPart;
use shared_entries::items::Item;
use shared_entries::rules::PartRule;
use std::rc::Rc;

/// The parts side by side of the kept menus, if there are any.
pub fn spread_of(kept: Option<&Rc<Kept>>) -> Option<&Rc<Spread>>
    ensures { (basis : Ground) → IfSome kept.entry (λ k. IsKept basis k.now.value)
        → IfSome result (λ s. AreKeptBelow basis (λ entries. entries) s.now.value) }
{
    match kept {
        None => None,
        Some(whole) => whole.spread(),
    }
}

/// What is kept under this relabelling, if anything.
pub fn under_of<'a>(
    earlier: Option<&'a Rc<Spread>>,
    pairs: &Vec<(u32, u32)>,
) -> Option<&'a Rc<Spread>>
    ensures { (basis : Ground) (way : List Entry → List Entry)
        → IfSome earlier.entry (λ s. AreKeptBelow basis way s.now.value)
        → IfSome result (λ s. AreKeptBelow basis
        (λ entries. way (relabel_menu pairs.now.items entries)) s.now.value) }
{
    match earlier {
        None => None,
        Some(whole) => whole.under(pairs),
    }
}

/// What is kept for the left side, if anything.
pub fn left_of(earlier: Option<&Rc<Spread>>) -> Option<&Rc<Spread>>
    ensures { (basis : Ground) (way : List Entry → List Entry)
        → IfSome earlier.entry (λ s. AreKeptBelow basis way s.now.value)
        → IfSome result (λ s. AreKeptBelow basis (λ entries. way (of_left entries)) s.now.value) }
{
    match earlier {
        None => None,
        Some(whole) => whole.left(),
    }
}

/// What is kept for the right side, if anything.
pub fn right_of(earlier: Option<&Rc<Spread>>) -> Option<&Rc<Spread>>
    ensures { (basis : Ground) (way : List Entry → List Entry)
        → IfSome earlier.entry (λ s. AreKeptBelow basis way s.now.value)
        → IfSome result (λ s. AreKeptBelow basis (λ entries. way (of_right entries)) s.now.value) }
{
    match earlier {
        None => None,
        Some(whole) => whole.right(),
    }
}

/// What is kept for the one part, if it is one.
pub fn side_of(earlier: Option<&Rc<Spread>>) -> Option<&Rc<Kept>>
    ensures { (basis : Ground) (way : List Entry → List Entry)
        → IfSome earlier.entry (λ s. AreKeptBelow basis way s.now.value)
        → IfSome result (λ k. IsKept basis k.now.value) }
{
    match earlier {
        None => None,
        Some(whole) => whole.side(),
    }
}

/// What is kept, if it is for the one part that the node is.
pub fn same_side<'a>(earlier: Option<&'a Rc<Spread>>, node: &Node) -> Option<&'a Rc<Spread>>
    ensures { (basis : Ground) (way : List Entry → List Entry)
        → IfSome earlier.entry (λ s. AreKeptBelow basis way s.now.value)
        → IfSome result (λ s. IsSpreadFor basis way (stands_for node.now) s.now.value) }
{
    match earlier {
        None => None,
        Some(whole) => {
            if whole.is_side_for(node) {
                return Some(whole);
            }
            None
        }
    }
}

impl Spread {
    // The menus of the one part, if it is one.
    fn side(&self) -> Option<&Rc<Kept>>
        ensures { (basis : Ground) (way : List Entry → List Entry)
            → AreKeptBelow basis way self.now → IfSome result (λ k. IsKept basis k.now.value) }
    {
        match self {
            Spread::Side(kept, _, _) => Some(kept),
            _ => None,
        }
    }

    // The parts under this relabelling, if they stand under it.
    fn under(&self, pairs: &Vec<(u32, u32)>) -> Option<&Rc<Spread>>
        ensures { (basis : Ground) (way : List Entry → List Entry)
            → AreKeptBelow basis way self.now → IfSome result (λ s. AreKeptBelow basis
            (λ entries. way (relabel_menu pairs.now.items entries)) s.now.value) }
    {
        match self {
            Spread::Under(others, part) => {
                if same_pairs(others, pairs) {
                    return Some(part);
                }
                None
            }
            _ => None,
        }
    }

    // The parts of the left side, if there are two.
    fn left(&self) -> Option<&Rc<Spread>>
        ensures { (basis : Ground) (way : List Entry → List Entry)
            → AreKeptBelow basis way self.now
            → IfSome result (λ s. AreKeptBelow basis (λ entries. way (of_left entries))
            s.now.value) }
    {
        match self {
            Spread::Both(left, _, _) => Some(left),
            _ => None,
        }
    }

    // The parts of the right side, if there are two.
    fn right(&self) -> Option<&Rc<Spread>>
        ensures { (basis : Ground) (way : List Entry → List Entry)
            → AreKeptBelow basis way self.now
            → IfSome result (λ s. AreKeptBelow basis (λ entries. way (of_right entries))
            s.now.value) }
    {
        match self {
            Spread::Both(_, right, _) => Some(right),
            _ => None,
        }
    }

    // Whether it is one part, which stands for the same as the node.
    fn is_side_for(&self, node: &Node) -> bool
        ensures { IsTrue result → (basis : Ground) (way : List Entry → List Entry)
            → AreKeptBelow basis way self.now
            → IsSpreadFor basis way (stands_for node.now) self.now }
    {
        match self {
            Spread::Side(kept, _, _) => kept.is_for(node),
            _ => false,
        }
    }

    /// The entries of all parts as they are for the whole, as menus share them.
    pub fn part(&self) -> &MenuPart
        ensures { result.now ≡ part_for self.now }
    {
        match self {
            Spread::Side(_, _, part) => part,
            Spread::Under(_, inner) => inner.part(),
            Spread::Both(_, _, part) => part,
        }
    }

    /// The menus of the one part, if it is one and an entry of its menu ends. Sides that do not end
    /// together never end.
    pub fn ending(&self) -> Option<&Rc<Kept>>
        ensures kept { (basis : Ground) (way : List Entry → List Entry)
            → AreKeptBelow basis way self.now → IfSome result (λ k. IsKept basis k.now.value) }
        ensures menu { IfSome result (λ k. spread_menu self.now
            ≡ map plain_item (listed_for k.now.value).items.items) }
        ensures none_ends { (basis : Ground) (way : List Entry → List Entry)
            → AreKeptBelow basis way self.now
            → IfNone result (NoneEnds (spread_menu self.now)) }
    {
        match self {
            Spread::Side(kept, _, _) => {
                if any_ends(kept.items()) {
                    return Some(kept);
                }
                None
            }
            Spread::Under(_, _) => None,
            Spread::Both(_, _, _) => None,
        }
    }
}

// Whether the two lists have the same pairs of gates in the same order.
fn same_pairs(pairs: &Vec<(u32, u32)>, others: &Vec<(u32, u32)>) -> bool
    ensures { IsTrue result ↔ (pairs.now.items ≡ others.now.items) }
{
    pairs.as_slice() == others.as_slice()
}

// Whether an entry ends.
fn any_ends(items: &Vec<Item>) -> bool
    ensures { result ≡ Bool.false → NoneEnds (map plain_item items.now.items) }
{
    for item in items {
        if ends(item) {
            return true;
        }
    }
    false
}

// Whether the entry is a successful termination.
fn ends(item: &Item) -> bool
    ensures { result ≡ is_exit (plain_item item.now).label }
{
    match &*item.label {
        Label::Inner => false,
        Label::Gate(_, _) => false,
        Label::Exit(_) => true,
    }
}

/// The items with those of all parts behind them, as they are for the whole.
pub fn push_items(items: &mut Vec<Item>, spread: &Spread) -> Result<(), NoMemory>
    ensures same { IfOk result (λ _. (signature : Signature)
        → Every (HasItemTerms signature) (spread_items spread.now)
        → map plain_item items.new.items
        ≡ map plain_item items.old.items ++ map plain_item (spread_items spread.now)) }
    ensures terms { IfOk result (λ _. (signature : Signature)
        → Every (HasItemTerms signature) items.old.items
        → Every (HasItemTerms signature) (spread_items spread.now)
        → Every (HasItemTerms signature) items.new.items) }
{
    match spread {
        Spread::Side(_, own, _) => push_own(items, own),
        Spread::Under(_, part) => push_items(items, part),
        Spread::Both(left, right, _) => {
            push_items(items, left)?;
            push_items(items, right)
        }
    }
}

// The items with those of a part behind them.
fn push_own(items: &mut Vec<Item>, own: &Vec<Item>) -> Result<(), NoMemory>
    ensures same { IfOk result (λ _. (signature : Signature)
        → Every (HasItemTerms signature) own.now.items → map plain_item items.new.items
        ≡ map plain_item items.old.items ++ map plain_item own.now.items) }
    ensures terms { IfOk result (λ _. (signature : Signature)
        → Every (HasItemTerms signature) items.old.items
        → Every (HasItemTerms signature) own.now.items
        → Every (HasItemTerms signature) items.new.items) }
{
    let mut copies = PartRule::Same.apply_to_all(own)?;
    Ok(items.append(&mut copies)?)
}
