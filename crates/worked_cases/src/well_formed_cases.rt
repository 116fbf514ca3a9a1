//! Worked cases on what is not well formed.

ghost use Rattle.worked_cases.specs.WellFormedCases.{WhatIsNotWellFormed};

/// Behaviours and specifications that break one rule each are not well formed.
pub fn these_are_not_well_formed()
    ensures { WhatIsNotWellFormed }
{}
