//! The laws of certificates of induction. Each function carries laws as its contract and does
//! nothing.

ghost use Rattle.certificate_theory.specs.InductionLaws.{
  CertificatesAreDecided,
  CoversHold,
  FirstFaultsAreOne,
  LemmasHold,
  MetIsNotOpen,
  MetRequirementsHold,
  ProofFaultsGoOn,
  ProofLinesGoOn,
  RequirementsAreMetOnce,
  RightOnesHaveNoFault,
  TreeFaultsGoOn,
  TreeLinesGoOn,
};

/// In a right certificate each covered sort is covered, and each lemma holds by induction: every
/// ground instance of it is an equality that the equations derive.
pub fn right_certificates_hold()
    ensures covers { CoversHold }
    ensures lemmas { LemmasHold }
{}

/// Each ground instance of a requirement that is met by a lemma of a right certificate is an
/// equality. A requirement is met by one lemma, or is open.
pub fn met_requirements_hold()
    ensures hold { MetRequirementsHold }
    ensures one { RequirementsAreMetOnce }
    ensures not_open { MetIsNotOpen }
{}

/// A certificate has at most one first fault, and a right one has none.
pub fn first_faults_are_one()
    ensures one { FirstFaultsAreOne }
    ensures none { RightOnesHaveNoFault }
{}

/// A certificate over the signature is right or has a first fault.
pub fn certificates_are_decided()
    ensures { CertificatesAreDecided }
{}

/// Lines may be looked at one after another, with what is left kept as a stack: what the rest of
/// them comes to is what all of them come to.
pub fn lines_go_on()
    ensures proofs { ProofLinesGoOn }
    ensures proof_faults { ProofFaultsGoOn }
    ensures trees { TreeLinesGoOn }
    ensures tree_faults { TreeFaultsGoOn }
{}
