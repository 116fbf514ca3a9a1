//! Laws of rules. The function carries the law as its contract and does nothing.

ghost use Rattle.path_order.specs.RuleTest.{GivenRulesAreTested};

/// A test that computes tells which rules equations give, so that this can be kept beside code.
pub fn given_rules_are_tested()
    ensures { GivenRulesAreTested }
{}
