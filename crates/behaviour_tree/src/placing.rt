//! Environments below binders.

ghost use Rattle.behaviour_tree.specs.Placings.{found_in, values_of};
ghost use Rattle.behaviour_tree.specs.StateView.{environment_of};
ghost use Rattle.lotos_base.specs.Substitution.{binding};
ghost use Rattle.std.specs.Prelude.{◌≡◌, ℕ};

use crate::binders::Binders;
use sort_terms::Sorted;

/// An environment, and the binders that were passed since: a variable that one of them binds has no
/// value.
#[derive(Clone, Copy)]
pub struct Placing<'a> {
    /// Variables by their numbers with their values. The first pair with a number counts.
    pub environment: &'a [(u64, Sorted)],
    /// The binders that were passed.
    pub binders: Binders<'a>,
}

impl Placing<'_> {
    /// The value of the variable with this number, if it has one.
    pub fn value(&self, number: u64) -> Option<&Sorted>
        ensures { (sort : ℕ) → values_of self.now number sort ≡ found_in result number sort }
    {
        if self.binders.bind(number) {
            return None;
        }
        first(self.environment, number)
    }
}

// The value of the first pair with this number.
fn first(environment: &[(u64, Sorted)], number: u64) -> Option<&Sorted>
    ensures { (sort : ℕ) → binding (environment_of environment.now) number sort
        ≡ found_in result number sort }
{
    for pair in environment {
        if pair.0 == number {
            return Some(&pair.1);
        }
    }
    None
}
