//! The first rule that matches a term that is kept.

ghost use Rattle.path_order.specs.RulesView.{signature_in};
ghost use Rattle.sort_terms.specs.ProfiledTerm.{all_bare};
ghost use Rattle.std.specs.Prelude.{◌≡◌, ◌<◌, IfOk, MatchOption, Some, length};
ghost use Rattle.term_rewriter.specs.FirstHead.{first_head};
ghost use Rattle.term_rewriter.specs.FirstIndexView.{IsIndexOf};
ghost use Rattle.term_store.specs.Cells.{AreBelow, HaveTermsOf, key_terms, members};
ghost use Rattle.term_store.specs.FirstRule.{
  AreRuleNumbers,
  BeginsAs,
  HasAllRules,
  IsFirstAmong,
  IsFirstRuleAt,
  NoRule,
  NoneAmong,
  earlier_of,
  found_with,
};
ghost use Rattle.term_store.specs.SharedView.{keys_in};

use crate::matching::search;
use crate::shared::SharedTerms;
use crate::tasks::Lists;
use lotos_base::NoMemory;
use path_order::Rules;
use std::mem::swap;
use term_rewriter::first_index::FirstIndex;
use term_rewriter::first_match::rule_at;

/// The number of the first rule whose left side matches the term with the number, with what its
/// variables have among the lists; or none where no left side does. Only rules with the operation
/// at the head are tried, whose first argument does not begin with another operation than that of
/// the term.
pub fn first_rule(
    rules: &Rules,
    index: &FirstIndex,
    shared: &SharedTerms,
    number: u32,
    lists: &mut Lists,
) -> Result<Option<usize>, NoMemory>
    requires index { IsIndexOf rules.now index.now }
    requires have { HaveTermsOf (signature_in rules.now) (keys_in shared.now) }
    requires within { number < length (keys_in shared.now) }
    ensures { IfOk result (λ o. MatchOption o (NoRule rules.now (keys_in shared.now) number)
        (λ rule. IsFirstRuleAt rules.now (keys_in shared.now) number rule lists.new.pairs.items)) }
{
    let Some((op, arguments)) = shared.operation(number as usize) else {
        return Ok(None);
    };
    let begun = beginning(rules, index, shared, op, arguments);
    let open = first_among(
        rules,
        shared,
        index.open.under(op),
        number,
        &mut lists.others,
    )?;
    let other = first_among(rules, shared, begun, number, &mut lists.pairs)?;
    Ok(earlier(open, other, lists))
}

// The numbers of some rules, with all that have the operation at the head and whose first argument
// begins as the first of these terms does; none where it is no operation or missing.
fn beginning<'a>(
    rules: &'a Rules,
    index: &'a FirstIndex,
    shared: &SharedTerms,
    op: u32,
    numbers: &[u32],
) -> &'a [usize]
    requires index { IsIndexOf rules.now index.now }
    requires have { HaveTermsOf (signature_in rules.now) (keys_in shared.now) }
    requires below { AreBelow (length (keys_in shared.now)) numbers.now }
    ensures { HasAllRules rules.now (BeginsAs op (first_head (all_bare
        (members (key_terms (signature_in rules.now) (keys_in shared.now)) numbers.now))))
        result.now }
{
    match first_operation(rules, shared, numbers) {
        None => &[],
        Some(first) => begun_with(rules, index, op, first),
    }
}

// The same where the first of the terms begins with this operation: the shorter of two lists that
// have these rules.
fn begun_with<'a>(rules: &'a Rules, index: &'a FirstIndex, op: u32, first: u32) -> &'a [usize]
    requires { IsIndexOf rules.now index.now }
    ensures { HasAllRules rules.now (BeginsAs op (Some first)) result.now }
{
    let headed = rules.headed(op);
    let firsts = index.firsts.under(first);
    if firsts.len() < headed.len() {
        firsts
    } else {
        headed
    }
}

// The operation at the head of the first of these terms, if one is there.
fn first_operation(rules: &Rules, shared: &SharedTerms, numbers: &[u32]) -> Option<u32>
    requires have { HaveTermsOf (signature_in rules.now) (keys_in shared.now) }
    requires below { AreBelow (length (keys_in shared.now)) numbers.now }
    ensures { result ≡ first_head (all_bare
        (members (key_terms (signature_in rules.now) (keys_in shared.now)) numbers.now)) }
{
    if numbers.is_empty() {
        return None;
    }
    match shared.operation(numbers[0] as usize) {
        None => None,
        Some((op, _)) => Some(op),
    }
}

// The first of the rules with these numbers whose left side matches the term, with what its
// variables have; or none where none of their left sides does.
fn first_among(
    rules: &Rules,
    shared: &SharedTerms,
    candidates: &[usize],
    number: u32,
    pairs: &mut Vec<(u64, u32)>,
) -> Result<Option<usize>, NoMemory>
    requires numbers { AreRuleNumbers rules.now candidates.now }
    requires have { HaveTermsOf (signature_in rules.now) (keys_in shared.now) }
    requires within { number < length (keys_in shared.now) }
    ensures { IfOk result (λ o. MatchOption o
        (NoneAmong rules.now (keys_in shared.now) number candidates.now)
        (λ rule. IsFirstAmong rules.now (keys_in shared.now) number candidates.now rule
        pairs.new.items)) }
{
    for candidate in candidates {
        let rule = *candidate;
        let left = rule_at(rules, rule).left.term();
        pairs.clear();
        if search(shared, left, number, pairs)? {
            return Ok(Some(rule));
        }
    }
    Ok(None)
}

// The one of the two with the lesser number, if there are two; what its variables have is put into
// the list of pairs.
fn earlier(one: Option<usize>, other: Option<usize>, lists: &mut Lists) -> Option<usize>
    ensures { found_with result lists.new.pairs.items
        ≡ earlier_of (found_with one lists.old.others.items)
        (found_with other lists.old.pairs.items) }
{
    match one {
        None => other,
        Some(first) => match other {
            None => {
                swap(&mut lists.pairs, &mut lists.others);
                Some(first)
            }
            Some(rival) => {
                if rival < first {
                    return Some(rival);
                }
                swap(&mut lists.pairs, &mut lists.others);
                Some(first)
            }
        },
    }
}
