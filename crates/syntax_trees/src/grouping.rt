//! The grouping of flat lists of operands and signs.

ghost use Rattle.std.specs.Prelude.{◌≡◌, ℕ, ◌+◌, ◌<◌, ◌≤◌, ◌++◌, ◌∷◌, [], IfOk, MatchOption, OnOk, Some, length, map};
ghost use Rattle.syntax_trees.specs.Grouping.{IsGrouped, closed, grouped};
ghost use Rattle.syntax_trees.specs.Waiting.{EndsWeaker, Takes};

use std::alloc::{AllocError, Global};

/// What can stand between signs and be joined by them.
pub trait Operand: Sized + Drop {
    /// The signs.
    type Sign: Drop;

    ghost Plain: { Type 0 };

    ghost PlainSign: { Type 0 };

    ghost plain: { Self → Plain };

    ghost plain_sign: { Self.Sign → PlainSign };
    /// How strongly a sign binds.
    ghost binds: { PlainSign → ℕ };
    /// The tree of a sign and its two sides.
    ghost joined: { PlainSign → Plain → Plain → Plain };

    /// How strongly the sign binds.
    fn strength(sign: &Self::Sign) -> u8
        ensures { result ≡ binds (plain_sign sign.now) };

    /// The tree of the sign and its two sides.
    fn join(alloc: Global, sign: Self::Sign, left: Self, right: Self) -> Result<Self, AllocError>
        ensures { IfOk result (λ tree. plain tree
            ≡ joined (plain_sign sign) (plain left) (plain right)) };
}

/// Takes the last of the signs that wait for their left sides, each with its right side, where it
/// binds at least as strongly.
fn take_no_weaker<O: Operand>(waiting: &mut Vec<(O::Sign, O)>, strength: u8) -> Option<(O::Sign, O)>
    ensures { MatchOption result
        ((waiting.new ≡ waiting.old) × EndsWeaker (λ (w : O.Sign × O). O.binds (O.plain_sign w.0))
        strength waiting.old.items)
        (λ last. (waiting.old.items ≡ waiting.new.items ++ last ∷ [])
        × (strength ≤ O.binds (O.plain_sign last.0))) }
{
    match waiting.last() {
        Some(last) if O::strength(&last.0) >= strength => waiting.pop(),
        _ => None,
    }
}

/// Closes the signs that wait and bind at least as strongly: the tree becomes the left side of the
/// last one, and so on.
fn close<O: Operand>(
    alloc: Global,
    waiting: &mut Vec<(O::Sign, O)>,
    tree: O,
    strength: u8,
) -> Result<O, AllocError>
    ensures tree { IfOk result (λ it.
        Takes (λ (w : O.Sign × O). O.binds (O.plain_sign w.0))
        (λ (w : O.Sign × O). (O.plain_sign w.0, O.plain w.1)) O.joined
        strength waiting.old.items waiting.new.items (O.plain tree) (O.plain it)) }
    ensures rest { OnOk result (EndsWeaker (λ (w : O.Sign × O). O.binds (O.plain_sign w.0)) strength
        waiting.new.items) }
{
    let mut tree = tree;
    while let Some(last) = take_no_weaker::<O>(waiting, strength) {
        tree = O::join(alloc, last.0, tree, last.1)?;
    }
    Ok(tree)
}

/// The tree of the operands with the signs between them: the list is split at its first sign of the
/// weakest strength, and both parts are grouped likewise. Nothing recurses: the list is gone
/// through from its end.
pub fn group_operands<O: Operand>(
    alloc: Global,
    mut operands: Vec<O>,
    mut signs: Vec<O::Sign>,
) -> Result<O, AllocError>
    requires { length operands.items ≡ length signs.items + 1 }
    ensures { IfOk result (λ tree. grouped O.binds O.joined (map O.plain operands.items)
        (map O.plain_sign signs.items) ≡ Some (O.plain tree)) }
{
    let mut waiting: Vec<(O::Sign, O)> = Vec::new(alloc);
    let Some(mut tree) = operands.pop() else {
        unreachable!()
    };
    while let Some(sign) = signs.pop() {
        let Some(left) = operands.pop() else {
            unreachable!()
        };
        let strength = O::strength(&sign);
        let right = close(alloc, &mut waiting, tree, strength)?;
        waiting.push((sign, right))?;
        tree = left;
    }
    close(alloc, &mut waiting, tree, 0)
}
