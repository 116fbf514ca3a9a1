//! Whether the two sides of each critical pair can be joined.

ghost use Rattle.critical_pairs.specs.Finding.{IsFinderOf};
ghost use Rattle.critical_pairs.specs.Joining.{
  AnswersFirst,
  AnswersPair,
  AreJoinedAt,
  HoldsOfPairFault,
  IsPairFaultOver,
  IsAnswerOver,
  NoneUnjoinedAmong,
  StaysJoined,
};
ghost use Rattle.critical_pairs.specs.Listing.{ArePairsOver};
ghost use Rattle.critical_pairs.specs.OverlapPair.{ArePairTermsOf};
ghost use Rattle.critical_pairs.specs.PairView.{critical_pair_of, critical_pairs_in, terms_in};
ghost use Rattle.path_order.specs.RulesView.{plain_rules_in, rules_in, signature_in};
ghost use Rattle.rewriting_theory.specs.Places.{places_with};
ghost use Rattle.rewriting_theory.specs.Rule.{Rule as PlainRule, IsRuleAt};
ghost use Rattle.std.specs.Prelude.{◌≡◌, ◌↔◌, ◌∷◌, ◌<◌, [], IfErr, IfNone, IfOk, IfSome, IsTrue, length};
ghost use Rattle.term_store.specs.HandedOn.{IsIndexOf};

use crate::finding::Finder;
use crate::joined::Joined;
use crate::listing::{pairs, pairs_of_first};
use crate::pair::Pair;
use crate::pair_fault::PairFault;
use lotos_base::NoMemory;
use path_order::Rules;
use sort_terms::Sorted;
use std::alloc::Global;
use term_store::{FirstIndex, indexed};

/// The first critical pair whose two sides have different chosen forms, with these forms.
#[derive(Debug, Drop)]
pub struct Unjoined {
    /// The number of the equation of the first rule.
    pub first: u32,
    /// The number of the equation of the second rule.
    pub second: u32,
    /// The peak of the pair.
    pub peak: Sorted,
    /// The chosen form of what the first rule makes of the peak.
    pub left: Sorted,
    /// The chosen form of what the second rule makes of the peak.
    pub right: Sorted,
}

/// The rules, which are confluent, or `Unjoined` exactly where they are not: for the first critical
/// pair whose two sides have different chosen forms, with these two irreducible terms, to both of
/// which the peak rewrites. The three terms are of the signature, with its profiles.
pub fn all_join(alloc: Global, rules: Rules) -> Result<Joined, PairFault>
    ensures joined { IfOk result (λ joined. joined.rules ≡ rules) }
    ensures confluent { IfOk result (λ joined. StaysJoined (plain_rules_in joined.rules)) }
    ensures unjoined { IfErr result
        (λ fault. HoldsOfPairFault (signature_in rules) (rules_in rules) fault) }
    ensures over { IfErr result (λ fault. IsPairFaultOver (signature_in rules) fault) }
{
    let mut finder = Finder::opened(alloc, &rules)?;
    let joined = are_joined(alloc, &rules, &mut finder)?;
    if joined {
        return Ok(Joined::of(rules));
    }
    let found = pairs(alloc, &rules)?;
    match first_unjoined(alloc, &rules, &mut finder, found.as_slice())? {
        None => Ok(Joined::of(rules)),
        Some(unjoined) => Err(PairFault::Unjoined {
            first: unjoined.first,
            second: unjoined.second,
            peak: unjoined.peak,
            left: unjoined.left,
            right: unjoined.right,
        }),
    }
}

// Whether the two sides of each critical pair have one chosen form. The pairs of one first rule are
// kept at a time.
fn are_joined(alloc: Global, rules: &Rules, finder: &mut Finder) -> Result<bool, NoMemory>
    requires { IsFinderOf rules.now finder.old }
    ensures finder { IsFinderOf rules.now finder.new }
    ensures joined { IfOk result
        (λ joined. IsTrue joined → StaysJoined (plain_rules_in rules.now)) }
{
    let index = indexed(alloc, rules)?;
    for first in 0..rules.list().len() {
        let joined = are_joined_with(alloc, rules, &index, finder, first)?;
        if !joined {
            return Ok(false);
        }
    }
    Ok(true)
}

// The same of the pairs of this first rule.
fn are_joined_with(
    alloc: Global,
    rules: &Rules,
    index: &FirstIndex,
    finder: &mut Finder,
    first: usize,
) -> Result<bool, NoMemory>
    requires index { IsIndexOf rules.now index.now }
    requires finder { IsFinderOf rules.now finder.old }
    requires first { first < length rules.now.rules.items }
    ensures finder { IsFinderOf rules.now finder.new }
    ensures joined { IfOk result (λ joined. IsTrue joined → (rule : PlainRule)
        → IsRuleAt (plain_rules_in rules.now) first rule
        → AreJoinedAt (plain_rules_in rules.now)
        (places_with first rule 0 (plain_rules_in rules.now))) }
{
    let found = pairs_of_first(alloc, rules, index, first, Vec::new(alloc))?;
    match first_unjoined(alloc, rules, finder, found.as_slice())? {
        None => Ok(true),
        Some(_) => Ok(false),
    }
}

// The first of the pairs that is unjoined, if one is.
fn first_unjoined(
    alloc: Global,
    rules: &Rules,
    finder: &mut Finder,
    pairs: &[Pair],
) -> Result<Option<Unjoined>, NoMemory>
    requires finder { IsFinderOf rules.now finder.old }
    requires over { ArePairsOver (signature_in rules.now) pairs.now }
    ensures finder { IsFinderOf rules.now finder.new }
    ensures none { IfOk result (λ o. IfNone o
        (NoneUnjoinedAmong (plain_rules_in rules.now) (critical_pairs_in pairs.now))) }
    ensures some { IfOk result (λ o. IfSome o (λ answer.
        AnswersFirst (plain_rules_in rules.now) (critical_pairs_in pairs.now) answer)) }
    ensures over { IfOk result (λ o. IfSome o (λ answer.
        IsAnswerOver (signature_in rules.now) answer)) }
{
    for pair in pairs {
        if let Some(unjoined) = unjoined_at(alloc, rules, finder, pair)? {
            return Ok(Some(unjoined));
        }
    }
    Ok(None)
}

// The pair with the chosen forms of its sides, if they differ.
fn unjoined_at(
    alloc: Global,
    rules: &Rules,
    finder: &mut Finder,
    pair: &Pair,
) -> Result<Option<Unjoined>, NoMemory>
    requires finder { IsFinderOf rules.now finder.old }
    requires over { ArePairTermsOf (signature_in rules.now) (terms_in pair.now) }
    ensures finder { IsFinderOf rules.now finder.new }
    ensures none { IfOk result (λ o. IfNone o
        (NoneUnjoinedAmong (plain_rules_in rules.now) (critical_pair_of pair.now ∷ []))) }
    ensures some { IfOk result (λ o. IfSome o (λ answer.
        AnswersPair (plain_rules_in rules.now) (critical_pair_of pair.now) answer)) }
    ensures over { IfOk result (λ o. IfSome o (λ answer.
        IsAnswerOver (signature_in rules.now) answer)) }
{
    let one = finder.number(alloc, rules, &pair.left)?;
    let other = finder.number(alloc, rules, &pair.right)?;
    if is_one(one, other) {
        return Ok(None);
    }
    let left = finder.form(alloc, rules, &pair.left, one)?;
    let right = finder.form(alloc, rules, &pair.right, other)?;
    let peak = pair.peak.copy()?;
    Ok(Some(Unjoined {
        first: pair.first,
        second: pair.second,
        peak,
        left,
        right,
    }))
}

// Whether the two numbers are one.
fn is_one(one: usize, other: usize) -> bool
    ensures { IsTrue result ↔ (one ≡ other) }
{
    one == other
}
