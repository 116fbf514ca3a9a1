//! The grouping of first nodes: as that of a flat list of behaviours, with the strengths of its
//! signs.

ghost use Rattle.std.specs.Prelude.{◌≡◌, ℕ, IfOk};
ghost use Rattle.syntax_trees.specs.Firsts.{Firsts, firsts_between};
ghost use Rattle.syntax_trees.specs.FirstsView.{firsts_of};

use crate::firsts::FirstNodes;
use crate::grouping::Operand;
use std::alloc::{AllocError, Global};

impl Operand for FirstNodes {
    type Sign = u8;

    ghost Plain = { Firsts };

    ghost PlainSign = { ℕ };

    ghost plain = { firsts_of };

    ghost plain_sign = { λ strength. strength };

    ghost binds = { λ strength. strength };

    ghost joined = { λ strength. firsts_between };

    fn strength(sign: &u8) -> u8
        ensures { result ≡ sign.now }
    {
        *sign
    }

    fn join(
        _alloc: Global,
        _sign: u8,
        left: FirstNodes,
        right: FirstNodes,
    ) -> Result<FirstNodes, AllocError>
        ensures { IfOk result (λ nodes. firsts_of nodes
            ≡ firsts_between (firsts_of left) (firsts_of right)) }
    {
        left.between(right)
    }
}
