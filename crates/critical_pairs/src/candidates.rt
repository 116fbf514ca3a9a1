//! The rules that may overlap a term, found by the operations in it.

ghost use Rattle.critical_pairs.specs.Candidates.{all_least, least_from, lesser_of, place_least};
ghost use Rattle.critical_pairs.specs.PairView.{node_place_of};
ghost use Rattle.path_order.specs.RulesView.{plain_rules_in};
ghost use Rattle.std.specs.List.Sorted.{IsNonDecreasing};
ghost use Rattle.std.specs.Prelude.{◌≡◌, None, Some, map, nat_lt};
ghost use Rattle.term_store.specs.HandedOn.{IsIndexOf};

use crate::places::NodePlace;
use path_order::Rules;
use term_store::FirstIndex;

/// The number of the first rule from this number on whose left side may overlap what stands at one
/// of the places, if there is one: it has the operation of the place at its head, and the first
/// argument does not begin with another operation than that at the place.
pub fn next_candidate(
    rules: &Rules,
    index: &FirstIndex,
    places: &[NodePlace],
    from: usize,
) -> Option<usize>
    requires { IsIndexOf rules.now index.now }
    ensures { result ≡ all_least (plain_rules_in rules.now) from None
        (map node_place_of places.now) }
{
    let mut best = None;
    for place in places {
        best = least_at(rules, index, place, from, best);
    }
    best
}

// The same of one place, and of the number known before.
fn least_at(
    rules: &Rules,
    index: &FirstIndex,
    place: &NodePlace,
    from: usize,
    known: Option<usize>,
) -> Option<usize>
    requires { IsIndexOf rules.now index.now }
    ensures { result ≡ place_least (plain_rules_in rules.now) from known place.now.head
        place.now.first }
{
    match place.first {
        None => least(rules.headed(place.head), from, known),
        Some(first) => {
            let open = least(index.open.under(place.head), from, known);
            least(index.firsts.under(first), from, open)
        }
    }
}

// The least number from this one on of the list, whose numbers rise, and of the one known before,
// if there is one.
fn least(numbers: &[usize], from: usize, known: Option<usize>) -> Option<usize>
    requires { IsNonDecreasing numbers.now }
    ensures { result ≡ least_from from known numbers.now }
{
    let position = numbers.partition_point(
        |number: &usize| -> bool
            ensures { result ≡ nat_lt number.now from }
        { *number < from },
    );
    match numbers.get(position) {
        None => known,
        Some(number) => Some(lesser(*number, known)),
    }
}

// The lesser one of the number and the one known before, if there is one.
fn lesser(number: usize, known: Option<usize>) -> usize
    ensures { Some result ≡ lesser_of known number }
{
    match known {
        None => number,
        Some(best) => if best <= number { best } else { number },
    }
}
