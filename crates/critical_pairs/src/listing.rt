//! The list of all critical pairs.

ghost use Rattle.critical_pairs.specs.Extended.{AddsPairsOf, IsPairAt, paths_in, listed_option};
ghost use Rattle.critical_pairs.specs.Listing.{ArePairsOver, ListsAll};
ghost use Rattle.critical_pairs.specs.OverlapPair.{HaveOneSignature, HaveNoOverlap};
ghost use Rattle.critical_pairs.specs.PairView.{critical_pairs_in};
ghost use Rattle.path_order.specs.RuleSides.{sides_of};
ghost use Rattle.path_order.specs.RulesView.{plain_rules_in, rules_in, signature_in};
ghost use Rattle.rewriting_theory.specs.Places.{is_root, places_at, places_with};
ghost use Rattle.rewriting_theory.specs.Rule.{Rule as PlainRule, IsRuleAt};
ghost use Rattle.std.specs.Prelude.{◌≡◌, ◌<◌, ◌∷◌, ◌++◌, ◌&&◌, [], IfNone, IfOk, IfSome, length, nat_eq};
ghost use Rattle.term_store.specs.HandedOn.{IsIndexOf};

use crate::candidates::next_candidate;
use crate::overlap;
use crate::pair::Pair;
use crate::places::{NodePlace, places_of};
use lotos_base::NoMemory;
use path_order::{Rule, Rules};
use std::alloc::Global;
use term_store::{FirstIndex, indexed};

/// All critical pairs of the rules: by the first rule, then by the second rule, then by the place
/// in the left side of the first rule in preorder. A rule with itself at the root is no place.
pub fn pairs(alloc: Global, rules: &Rules) -> Result<Vec<Pair>, NoMemory>
    ensures listed { IfOk result
        (λ found. ListsAll (rules_in rules.now) (critical_pairs_in found.items)) }
    ensures is_of { IfOk result (λ found. ArePairsOver (signature_in rules.now) found.items) }
{
    let index = indexed(alloc, rules)?;
    let mut found = Vec::new(alloc);
    for first in 0..rules.list().len() {
        found = pairs_of_first(alloc, rules, &index, first, found)?;
    }
    Ok(found)
}

/// The pairs found before and those of this first rule. Second rules are found by the operations in
/// the left side of the first one, so that rules with other heads or first arguments cost nothing.
pub fn pairs_of_first(
    alloc: Global,
    rules: &Rules,
    index: &FirstIndex,
    first: usize,
    mut found: Vec<Pair>,
) -> Result<Vec<Pair>, NoMemory>
    requires index { IsIndexOf rules.now index.now }
    requires first { first < length rules.now.rules.items }
    ensures { IfOk result (λ more. (rule : PlainRule)
        → IsRuleAt (plain_rules_in rules.now) first rule
        → AddsPairsOf rules.now (places_with first rule 0 (plain_rules_in rules.now)) found.items
        more.items) }
{
    let places = places_of(alloc, rules.list()[first].left.term())?;
    let mut next = 0;
    while let Some(second) = next_candidate(rules, index, places.as_slice(), next) {
        found = pairs_of_two(alloc, rules, (first, second), places.as_slice(), found)?;
        next = second + 1;
    }
    Ok(found)
}

// The pairs found before and those of the two rules with these numbers.
fn pairs_of_two(
    alloc: Global,
    rules: &Rules,
    numbers: (usize, usize),
    places: &[NodePlace],
    mut found: Vec<Pair>,
) -> Result<Vec<Pair>, NoMemory>
    requires first { numbers.0 < length rules.now.rules.items }
    requires second { numbers.1 < length rules.now.rules.items }
    ensures { IfOk result (λ more. AddsPairsOf rules.now
        (places_at numbers.0 numbers.1 (paths_in places.now)) found.items more.items) }
{
    for place in places {
        found = with_pair_at(alloc, rules, numbers, place, found)?;
    }
    Ok(found)
}

// The pairs found before and that of the two rules at the place, if there is one.
fn with_pair_at(
    alloc: Global,
    rules: &Rules,
    numbers: (usize, usize),
    place: &NodePlace,
    found: Vec<Pair>,
) -> Result<Vec<Pair>, NoMemory>
    requires first { numbers.0 < length rules.now.rules.items }
    requires second { numbers.1 < length rules.now.rules.items }
    ensures { IfOk result (λ more. AddsPairsOf rules.now
        (places_at numbers.0 numbers.1 (place.now.path.items ∷ [])) found.items more.items) }
{
    if is_same_root(numbers, place) {
        return Ok(found);
    }
    let first = &rules.list()[numbers.0];
    let second = &rules.list()[numbers.1];
    with_found(found, pair_at(alloc, first, second, place)?)
}

// The pairs and one more, if there is one.
fn with_found(mut found: Vec<Pair>, pair: Option<Pair>) -> Result<Vec<Pair>, NoMemory>
    ensures { IfOk result (λ more. more.items ≡ found.items ++ listed_option pair) }
{
    match pair {
        None => Ok(found),
        Some(pair) => {
            found.push(pair)?;
            Ok(found)
        }
    }
}

// Whether the numbers are one and the place is the root.
fn is_same_root(numbers: (usize, usize), place: &NodePlace) -> bool
    ensures { result ≡ (nat_eq numbers.0 numbers.1 && is_root place.now.path.items) }
{
    numbers.0 == numbers.1 && place.path.is_empty()
}

// The pair of the two rules at the place, if there is one.
fn pair_at(
    alloc: Global,
    first: &Rule,
    second: &Rule,
    place: &NodePlace,
) -> Result<Option<Pair>, NoMemory>
    requires { HaveOneSignature (sides_of first.now) (sides_of second.now) }
    ensures none { IfOk result (λ o. IfNone o
        (HaveNoOverlap (sides_of first.now) (sides_of second.now) place.now.path.items)) }
    ensures some { IfOk result (λ o. IfSome o (λ pair. IsPairAt first.now second.now
        place.now.path.items pair)) }
{
    match overlap(alloc, first, second, place.path.as_slice())? {
        None => Ok(None),
        Some(terms) => Ok(Some(Pair {
            first: first.equation,
            second: second.equation,
            path: Vec::from_slice(alloc, place.path.as_slice())?,
            peak: terms.peak,
            left: terms.left,
            right: terms.right,
        })),
    }
}
