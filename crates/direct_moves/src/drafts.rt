//! Parts of menus put together by hand.

use behaviour_tree::{Label, Shape};
use draft_parts::environments::following;
use draft_parts::rules::relabelled;
use draft_parts::variants::Variant;
use event_offers::drafts::Draft;
use event_offers::joining::join_offers;
use lotos_base::NoMemory;
use sort_terms::{Sorted, Term};
use std::alloc::Global;
use std::test::Fail;

// The variable 0 of the sort 0 alone.
fn one_variable(alloc: Global) -> Result<Vec<Sorted>, NoMemory> {
    let mut terms = Vec::new(alloc);
    terms.push(Sorted::of(Term::Var { number: 0, sort: 0 }))?;
    Ok(terms)
}

// The draft of `g ?x`: its leaf is a variable, and so is the value of its label.
fn asking(alloc: Global, gate: u32) -> Result<Draft, NoMemory> {
    let values = one_variable(alloc)?;
    let leaves = one_variable(alloc)?;
    Ok(Draft {
        shape: Shape::Act,
        label: Label::Gate(gate, values),
        leaves,
        conditions: Vec::new(alloc),
    })
}

// The number of a variable, or 9 for another term.
fn number_of(term: &Sorted) -> u64 {
    match term.term() {
        Term::Var { number, .. } => *number,
        Term::Node { .. } => 9,
    }
}

// Whether these are the variables 0 and 1.
fn are_both(one: &Sorted, other: &Sorted) -> bool {
    number_of(one) == 0 && number_of(other) == 1
}

// Whether the leaves are those of both sides, one behind the other.
fn are_leaves(leaves: &[Sorted]) -> bool {
    match leaves {
        [one, other] => are_both(one, other),
        _ => false,
    }
}

// Whether the one condition is that both values are equal.
fn are_conditions(conditions: &[(Sorted, Sorted)]) -> bool {
    match conditions {
        [only] => are_both(&only.0, &only.1),
        _ => false,
    }
}

// The left side joined with `g ?x` at this gate.
fn joined_with(alloc: Global, left: &Draft, gate: u32) -> Result<Option<Draft>, NoMemory> {
    let right = asking(alloc, gate)?;
    join_offers(left, &right)
}

// `g ?x` at the gate 0 joined with the same at this gate.
fn joined(alloc: Global, gate: u32) -> Result<Option<Draft>, NoMemory> {
    let left = asking(alloc, 0)?;
    joined_with(alloc, &left, gate)
}

#[test]
fn sides_meet_at_one_gate(rt: HostRuntime) -> Result<(), Fail> {
    let alloc = rt.alloc();
    assert!(rt; joined(alloc, 1)?.is_none());
    let met = match joined(alloc, 0)? {
        Some(both) => are_leaves(&both.leaves) && are_conditions(&both.conditions),
        None => false,
    };
    assert!(rt; met);
    Ok(())
}

// A text has each formal gate once.
#[test]
fn the_first_of_two_pairs_counts(rt: HostRuntime) -> Result<(), Fail> {
    let draft = asking(rt.alloc(), 1)?;
    let made = relabelled(draft, &[(1, 5), (1, 6)], Variant::Called)?;
    assert!(rt; matches!(made.label, Label::Gate(5, _)));
    Ok(())
}

// No text has so many leaves.
#[test]
fn numbers_of_leaves_end(rt: HostRuntime) -> Result<(), Fail> {
    assert_eq!(rt; following(20)?, 21);
    assert!(rt; following(u64::MAX).is_err());
    Ok(())
}
