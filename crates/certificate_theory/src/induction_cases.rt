//! Worked certificates, which show that the definitions say what a textbook says.

ghost use Rattle.certificate_theory.specs.CommutativityCases.{CommutativityCases};
ghost use Rattle.certificate_theory.specs.RefusedCases.{EmptySortCases, RefusedCases, SingleSortCases};

/// The addition of natural numbers is commutative, by a certificate with two lemmas before it.
pub fn commutativity_is_certified()
    ensures { CommutativityCases }
{}

/// Certificates that are refused, each at its line, among them two for false lemmas.
pub fn wrong_certificates_are_refused()
    ensures addition { RefusedCases }
    ensures empty_sort { EmptySortCases }
    ensures single_sort { SingleSortCases }
{}
