//! Worked cases on labels, entries and runs.

ghost use Rattle.worked_cases.specs.ComparisonCases.{LabelsAreCompared, EntriesHaveTheirShapes, RunsGoOn};

/// Labels are equal where kind, gate and values agree.
pub fn labels_are_compared()
    ensures { LabelsAreCompared }
{}

/// An entry stands for derivations of its shape and with its label.
pub fn entries_have_their_shapes()
    ensures { EntriesHaveTheirShapes }
{}

/// A run goes from behaviour to behaviour.
pub fn runs_go_on()
    ensures { RunsGoOn }
{}
