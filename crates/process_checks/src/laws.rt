//! Laws of disagreements. The function carries laws as its contract and does nothing.

ghost use Rattle.process_checks.specs.FunctionalityLaws.{DefinitionsAgree, SignsAgree};

/// A sign and a definition have something wrong exactly where the lists there differ.
pub fn disagreements_are_different_lists()
    ensures signs { SignsAgree }
    ensures definitions { DefinitionsAgree }
{}
