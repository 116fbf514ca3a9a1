//! Rules: equations turned toward their smaller side.

ghost use Rattle.path_order.specs.RuleView.{numbered_rule_of, numbered_rules};
ghost use Rattle.std.specs.Prelude.{◌≡◌, ◌∷◌, ◌++◌, [], IfOk};
ghost use Rattle.path_order.specs.RuleSides.{all_sides, sides_of};
ghost use Rattle.path_order.specs.MadeRule.{numbered_rule, sides};
ghost use Rattle.sort_terms.specs.SortedView.{profiled_in, term_in};

use lotos_base::NoMemory;
use sort_terms::Sorted;

/// A rule: an instance of its left side is replaced by that of its right side.
#[derive(Debug, Drop)]
pub struct Rule {
    /// The number of the equation that it comes from.
    pub equation: u32,
    /// The side that is replaced.
    pub left: Sorted,
    /// The side that is put in its place.
    pub right: Sorted,
}

impl Rule {
    /// The same rule.
    pub fn copy(&self) -> Result<Rule, NoMemory>
        ensures rule { IfOk result (λ copy. numbered_rule_of copy ≡ numbered_rule_of self.now) }
        ensures sides { IfOk result (λ copy. sides_of copy ≡ sides_of self.now) }
    {
        Ok(Rule {
            equation: self.equation,
            left: self.left.copy()?,
            right: self.right.copy()?,
        })
    }
}

/// The same rules.
pub fn rule_copies(rules: &Vec<Rule>) -> Result<Vec<Rule>, NoMemory>
    ensures rules { IfOk result (λ made. numbered_rules made.items
        ≡ numbered_rules rules.now.items) }
    ensures sides { IfOk result (λ made. all_sides made.items ≡ all_sides rules.now.items) }
{
    let mut made = Vec::with_capacity(*rules.allocator(), rules.len())?;
    for rule in rules {
        made.push(rule.copy()?)?;
    }
    Ok(made)
}

/// The rules with one more at the end, of these sides.
pub fn with_rule(
    mut rules: Vec<Rule>,
    equation: u32,
    left: &Sorted,
    right: &Sorted,
) -> Result<Vec<Rule>, NoMemory>
    ensures rules { IfOk result (λ more. numbered_rules more.items ≡ numbered_rules rules.items
        ++ numbered_rule equation (term_in left.now) (term_in right.now) ∷ []) }
    ensures sides { IfOk result (λ more. all_sides more.items ≡ all_sides rules.items
        ++ sides (profiled_in left.now) (profiled_in right.now) ∷ []) }
{
    rules.push(Rule {
        equation,
        left: left.copy()?,
        right: right.copy()?,
    })?;
    Ok(rules)
}
