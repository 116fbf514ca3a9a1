//! Menus. Each function carries one law as its contract and does nothing.

ghost use Rattle.behaviour_semantics.specs.MenuLaws.{
  ExactMenusGiveOwnValues,
  SolvedMenusAreExact,
  SolvingKeepsTheValues,
};

/// Solving the draft of a shape has an outcome, loses no values and adds none.
pub fn solving_keeps_the_values()
    ensures { SolvingKeepsTheValues }
{}

/// A list whose shapes rise and fit, and which has the solved forms of the drafts and nothing else,
/// is the exact menu.
pub fn solved_menus_are_exact()
    ensures { SolvedMenusAreExact }
{}

/// The values that a derivation gives its entry in an exact menu are equal to its leaves where the
/// variables stand.
pub fn exact_menus_give_own_values()
    ensures { ExactMenusGiveOwnValues }
{}
