//! The laws of the names in flat texts. Each function carries a law as its contract and does
//! nothing.

ghost use Rattle.flat_text.specs.NameLaws.{
  EquationNamesAreApart,
  GivenNamesAreApart,
  LeastFreeNumbersAreFound,
};

/// Of the names that a word makes with the numbers from one on, the first is found that is not
/// taken: there is one among as many as there are taken names, and one more.
pub fn least_free_numbers_are_found()
    ensures { LeastFreeNumbersAreFound }
{}

/// Each process is given a name, and no two processes are given one name.
pub fn given_names_are_apart()
    ensures { GivenNamesAreApart }
{}

/// The variables of an equation have names each, no two of them one, and none that is the name of
/// an operation, in whichever form and letter case.
pub fn equation_names_are_apart()
    ensures { EquationNamesAreApart }
{}
