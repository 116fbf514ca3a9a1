//! Laws of the values of derivations: each function's contract is a law, and its body is empty.

ghost use Rattle.ll_engine.specs.Values.{KeepsValues, HasValue};
ghost use Rattle.std.specs.Prelude.{ℕ, List};
ghost use Rattle.ll_engine.specs.Derivation.{Production};

use crate::actions::Actions;

/// The rows keep what it is to have a value: where a row gives a value from the values of its
/// parts, its own part has it.
pub fn values_are_kept<A: Actions>(actions: &A)
    ensures { (rows : List Production) → KeepsValues (A.value_of actions.now) A.keeps A.kind rows
        (HasValue (A.value_of actions.now) A.keeps A.kind rows) }
{}
