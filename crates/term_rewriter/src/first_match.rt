//! The first rule that matches a term at its root.

ghost use Rattle.sort_terms.specs.TermView.{profiled_of};
ghost use Rattle.std.specs.Prelude.{◌≡◌, ◌<◌, IfOk, MatchOption, Some, length, slice_get};
ghost use Rattle.term_rewriter.specs.FirstMatch.{IsFirstRule, NoneMatches};

use lotos_base::NoMemory;
use path_order::{Rule, Rules};
use sort_terms::Term;
use std::alloc::Global;
use term_match::bindings::search;

/// The number of the first rule whose left side matches the term, or none where no left side does.
/// Only the rules with the operation at the head are tried.
pub fn first_match(alloc: Global, rules: &Rules, term: &Term) -> Result<Option<usize>, NoMemory>
    ensures { IfOk result (λ o. MatchOption o
        (NoneMatches rules.now.rules.items (profiled_of term.now))
        (λ number. IsFirstRule rules.now.rules.items number (profiled_of term.now))) }
{
    let Term::Node { op, .. } = term else {
        return Ok(None);
    };
    let candidates = rules.headed(*op);
    for number in candidates {
        let rule = *number;
        let left = rule_at(rules, rule).left.term();
        if let Some(_) = search(left, term, Vec::new(alloc))? {
            return Ok(Some(rule));
        }
    }
    Ok(None)
}

/// The rule with this number.
pub fn rule_at(rules: &Rules, number: usize) -> &Rule
    requires { number < length rules.now.rules.items }
    ensures { slice_get rules.now.rules.items number ≡ Some result.now }
{
    &rules.list()[number]
}
