//! Grouping of behaviours.

ghost use Rattle.std.specs.Prelude.{◌≡◌, ◌+◌, IfOk, Some, length, map};
ghost use Rattle.syntax_trees.specs.Grouping.{IsGrouped, grouped};
ghost use Rattle.syntax_trees.specs.Strength.{PlacedSign, joined_by_sign, strength_of};
ghost use Rattle.syntax_trees.specs.TreeViews.{written_behaviour_of, placed_sign_of};
ghost use Rattle.syntax_trees.specs.WrittenBehaviour.{WrittenBehaviour};

use crate::behaviours::{BehForm, BehText, Sign};
use crate::grouping::{Operand, group_operands};
use lotos_base::{NoMemory, Place};
use std::alloc::{AllocError, Global};

impl Operand for BehText {
    type Sign = (Place, Sign);

    ghost Plain = { WrittenBehaviour };

    ghost PlainSign = { PlacedSign };

    ghost plain = { written_behaviour_of };

    ghost plain_sign = { placed_sign_of };

    ghost binds = { strength_of };

    ghost joined = { joined_by_sign };

    fn strength(sign: &(Place, Sign)) -> u8
        ensures { result ≡ strength_of (placed_sign_of sign.now) }
    {
        match sign.1 {
            Sign::Enable(_) => 0,
            Sign::Disable => 1,
            Sign::Interleave | Sign::Full | Sign::Gates(_) => 2,
            Sign::Choice => 3,
        }
    }

    fn join(
        alloc: Global,
        sign: (Place, Sign),
        left: BehText,
        right: BehText,
    ) -> Result<BehText, AllocError>
        ensures { IfOk result (λ tree. written_behaviour_of tree
            ≡ joined_by_sign (placed_sign_of sign) (written_behaviour_of left)
            (written_behaviour_of right)) }
    {
        let form = BehForm::Binary(sign.1, Box::new(alloc, left)?, Box::new(alloc, right)?);
        Ok(BehText {
            place: sign.0,
            form,
        })
    }
}

/// The behaviour of the operands with the signs between them. The list is split at its first sign
/// of the weakest strength, and both parts are grouped likewise; from the weakest the signs are
/// `>>`, `[>`, the parallel ones and `[]` (ISO 8807:1989, behaviour expressions). Nothing recurses.
/// Only want of memory may come instead.
pub fn group(
    alloc: Global,
    operands: Vec<BehText>,
    signs: Vec<(Place, Sign)>,
) -> Result<BehText, NoMemory>
    requires { length operands.items ≡ length signs.items + 1 }
    ensures computed { IfOk result (λ tree.
        grouped strength_of joined_by_sign (map written_behaviour_of operands.items)
        (map placed_sign_of signs.items) ≡ Some (written_behaviour_of tree)) }
    ensures split { IfOk result (λ tree. IsGrouped strength_of joined_by_sign
        (map written_behaviour_of operands.items) (map placed_sign_of signs.items)
        (written_behaviour_of tree)) }
{
    Ok(group_operands(alloc, operands, signs)?)
}
