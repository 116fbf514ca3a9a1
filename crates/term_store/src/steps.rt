//! What the first rule that matches a term makes of it.

ghost use Rattle.path_order.specs.RulesView.{signature_in};
ghost use Rattle.std.specs.Prelude.{◌<◌, IfOk, MatchOption, length};
ghost use Rattle.term_rewriter.specs.FirstIndexView.{IsIndexOf};
ghost use Rattle.term_store.specs.Cells.{Grows, HaveTermsOf};
ghost use Rattle.term_store.specs.SharedView.{keys_in};
ghost use Rattle.term_store.specs.Turns.{CannotStep, StepsTo};

use crate::first_rule::first_rule;
use crate::instances::instance;
use crate::shared::SharedTerms;
use crate::tasks::Lists;
use lotos_base::NoMemory;
use path_order::Rules;
use term_rewriter::first_index::FirstIndex;
use term_rewriter::first_match::rule_at;

/// The number of what the first rule that matches the term at its root makes of it, or none where
/// no rule does.
pub fn step(
    rules: &Rules,
    index: &FirstIndex,
    shared: &mut SharedTerms,
    lists: &mut Lists,
    number: u32,
) -> Result<Option<u32>, NoMemory>
    requires index { IsIndexOf rules.now index.now }
    requires have { HaveTermsOf (signature_in rules.now) (keys_in shared.old) }
    requires within { number < length (keys_in shared.old) }
    ensures grows { Grows (keys_in shared.old) (keys_in shared.new) }
    ensures have { HaveTermsOf (signature_in rules.now) (keys_in shared.new) }
    ensures step { IfOk result (λ o. MatchOption o
        (CannotStep rules.now (keys_in shared.new) number)
        (λ next. StepsTo rules.now (keys_in shared.new) number next)) }
{
    match first_rule(rules, index, shared, number, lists)? {
        None => Ok(None),
        Some(rule) => {
            let right = rule_at(rules, rule).right.term();
            Ok(Some(instance(shared, right, lists.pairs.as_slice(), &mut lists.numbers)?))
        }
    }
}
