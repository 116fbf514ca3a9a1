//! Rules that are confluent.

ghost use Rattle.path_order.specs.RulesView.{plain_rules_in};
ghost use Rattle.rewriting_theory.specs.Rewriting.{AreConfluent};
ghost use Rattle.std.specs.Prelude.{◌≡◌};

use path_order::Rules;

/// Confluent rules.
#[derive(Drop)]
pub struct Joined {
    rules: Rules,
    pub ghost confluent: { ∥ AreConfluent (plain_rules_in rules) ∥₁ },
}

impl Joined {
    /// These rules, which are confluent.
    pub fn of(rules: Rules) -> Joined
        requires { ∥ AreConfluent (plain_rules_in rules) ∥₁ }
        ensures { result.rules ≡ rules }
    {
        Joined { rules }
    }

    /// The rules.
    pub fn rules(&self) -> &Rules
        ensures { result.now ≡ self.now.rules }
    {
        &self.rules
    }
}
