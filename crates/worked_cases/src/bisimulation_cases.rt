//! Worked cases on bisimulations and their certificates.

ghost use Rattle.worked_cases.specs.BisimulationCases.{
  AlikeSaysNothingOfSorts,
  TwoBuffersAreATwoPlaceBuffer,
  ValuesAgreeByTheEquations,
};
ghost use Rattle.worked_cases.specs.CertificateCases.{FaultsAreNamed, FaultsComeInOrder};
ghost use Rattle.worked_cases.specs.IdentityCases.{DataAreCompared, IdentityIsTested};

use behaviour_semantics::transition::moves_are_determined;
use certificate_theory::certificates::accepted_certificates_show_bisimilarity;

/// Two one-place buffers side by side are strongly bisimilar with a two-place buffer.
pub fn two_buffers_are_a_two_place_buffer()
    ensures { TwoBuffersAreATwoPlaceBuffer }
{
    accepted_certificates_show_bisimilarity();
}

/// Values agree where the equations say so, however they are written.
pub fn values_agree_by_the_equations()
    ensures { ValuesAgreeByTheEquations }
{}

/// Below a variable of a sort without values, terms are alike whatever their sorts are.
pub fn alike_says_nothing_of_sorts()
    ensures { AlikeSaysNothingOfSorts }
{}

/// Each fault of a certificate is named with its line.
pub fn faults_are_named()
    ensures { FaultsAreNamed }
{
    moves_are_determined();
}

/// The faults of a certificate come in one order.
pub fn faults_come_in_order()
    ensures { FaultsComeInOrder }
{}

/// Identity of behaviours is that of the written terms, with bound names and lists in their order.
pub fn identity_is_tested()
    ensures { IdentityIsTested }
{}

/// Data are the same one by one, whatever the spellings and origins.
pub fn data_are_compared()
    ensures { DataAreCompared }
{}
