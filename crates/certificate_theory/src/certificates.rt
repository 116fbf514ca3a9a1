//! Certificates of bisimulation. Each function carries a law as its contract and does nothing.

ghost use Rattle.certificate_theory.specs.CertificateLaws.{
  AcceptedCertificatesShowBisimilarity,
  AcceptedStartsDoTheSame,
  CertificatesComeToOneThing,
};

use behaviour_semantics::instances::drafts_are_derivations;
use behaviour_semantics::order::at_most_one_menu_is_exact;
use behaviour_semantics::solving::entries_are_solved;
use behaviour_semantics::targets::targets_are_well_formed;
use behaviour_semantics::transition::{moves_are_determined, transitions_are_derived};

/// An accepted certificate shows that the two start behaviours are strongly bisimilar, by the
/// transitions of the standard (ISO 8807:1989, dynamic semantics of behaviour expressions).
pub fn accepted_certificates_show_bisimilarity()
    ensures { AcceptedCertificatesShowBisimilarity }
{
    transitions_are_derived();
    moves_are_determined();
    drafts_are_derivations();
    entries_are_solved();
    targets_are_well_formed();
    at_most_one_menu_is_exact();
}

/// What either start of an accepted certificate does, transition after transition, the other one
/// does too, with labels that agree one by one.
pub fn accepted_starts_do_the_same()
    ensures { AcceptedStartsDoTheSame }
{
    accepted_certificates_show_bisimilarity();
}

/// A certificate is accepted with one number of pairs or refused for one fault, and never both.
pub fn certificates_come_to_one_thing()
    ensures { CertificatesComeToOneThing }
{
    moves_are_determined();
    at_most_one_menu_is_exact();
}
