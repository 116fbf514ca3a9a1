//! What is wrong with a derivation.

ghost use Rattle.step_parts.specs.StepFaults.{kept_number, TellsWrong};
ghost use Rattle.behaviour_semantics.specs.Fault.{not_fitting};
ghost use Rattle.std.specs.Prelude.{◌≡◌, ℕ, suc};

use lotos_base::NoMemory;
use sort_terms::Sorted;

/// What is wrong with a derivation, at its first faulty node. Nodes of the shape and leaves are
/// numbered from 0 in preorder; a number above 4,294,967,295 is given as 4,294,967,295.
#[derive(Debug, Drop)]
pub enum StepFault {
    /// The rule of the node does not fit the behaviour there, there are too few leaves for it, or
    /// the labels below it are not as it asks. Leaves left over are told with the number just past
    /// the last node.
    NotFitting {
        /// The number of the node.
        node: u32,
    },
    /// The leaf is not ground or has another sort than the node wants.
    BadValue {
        /// The number of the leaf.
        leaf: u32,
    },
    /// The test of the node does not hold, or the values that it matches differ: the normal forms
    /// of both sides, of the first pair that differs.
    Unmet {
        /// The number of the node.
        node: u32,
        /// The left side.
        left: Sorted,
        /// The right side.
        right: Sorted,
    },
    /// There is no memory for the step.
    NoMemory,
}

impl From<NoMemory> for StepFault {
    ghost use Rattle.step_parts.specs.declared.faults.StepFault.TheVariants.{
      NoMemory as out_of_memory,
    };

    ghost from_gives = { λ _ fault. fault ≡ out_of_memory };

    fn from(_fault: NoMemory) -> StepFault {
        StepFault::NoMemory
    }
}

/// Where a walk stands: the number of the node, given as 4,294,967,295 where it is greater, and the
/// number of its first leaf.
#[derive(Clone, Copy, Debug)]
pub struct At {
    /// The number of the node.
    pub node: u32,
    /// The number of its first leaf.
    pub leaf: usize,
}

impl At {
    /// The first part of the node, whose leaves begin where those of the node do.
    pub fn below(self) -> At
        ensures leaf { result.leaf ≡ self.leaf }
        ensures node { (n : ℕ) → self.node ≡ kept_number n → result.node ≡ kept_number (suc n) }
    {
        At {
            node: self.node.saturating_add(1),
            leaf: self.leaf,
        }
    }
}

/// The node does not fit.
pub fn misfit(at: At) -> StepFault
    ensures { (n : ℕ) → at.node ≡ kept_number n → TellsWrong n not_fitting result }
{
    StepFault::NotFitting { node: at.node }
}

/// The number, or 4,294,967,295 where it is greater.
pub fn kept(number: usize) -> u32
    ensures { result ≡ kept_number number }
{
    if number > u32::MAX as usize {
        return u32::MAX;
    }
    number as u32
}
