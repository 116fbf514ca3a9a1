//! Laws of functionality. Each function carries a law as its contract and does nothing.

ghost use Rattle.session_laws.specs.AgreementLaws.{NoDisagreementIsAgreement};
ghost use Rattle.session_laws.specs.ExitLaws.{ExitsHaveTheirSorts, OneFunctionality};

use process_checks::laws::disagreements_are_different_lists;
use sort_terms::laws::terms_with_profiles_are_well_sorted;

/// A behaviour has one functionality at most (ISO 8807:1989, functionality of behaviour
/// expressions).
pub fn behaviours_have_one_functionality()
    ensures { OneFunctionality }
{}

/// Where all definitions agree, a behaviour with a functionality ends with values of these sorts
/// alone, one with `noexit` never ends, and each goes on to one with the same functionality or with
/// `noexit`.
pub fn exits_have_their_sorts()
    ensures { ExitsHaveTheirSorts }
{}

/// What `exits` looks for is there in no sign and in no definition exactly where all agree: each
/// behaviour has a functionality, and the bodies of definitions have the declared ones or `noexit`.
pub fn no_disagreement_is_agreement()
    ensures { NoDisagreementIsAgreement }
{
    terms_with_profiles_are_well_sorted();
    disagreements_are_different_lists();
}
