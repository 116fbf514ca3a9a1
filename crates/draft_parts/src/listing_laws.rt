//! The laws. Each function carries its law as its contract and does nothing.

ghost use Rattle.draft_parts.specs.EnvironmentLaws.{EnvironmentsNest};
ghost use Rattle.draft_parts.specs.HigherLists.{HigherListsAreRaised};

/// The moves with higher leaves are the moves with the variables raised.
pub fn higher_lists_are_raised()
    ensures { HigherListsAreRaised }
{}

/// Values put in under a binder, and then terms for what it binds, are put in by one environment.
pub fn environments_nest()
    ensures { EnvironmentsNest }
{}
