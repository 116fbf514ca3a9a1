//! Premisses, and what actions offer.

ghost use Rattle.behaviour_tree.specs.BehaviourView.{offer_of, test_of, variables_of};
ghost use Rattle.report_text.specs.NamingView.{naming_of};
ghost use Rattle.printed_texts.specs.BehaviourText.{
  equation_text,
  is_constant,
  offer_text,
  offers_text,
  predicate_text,
  premiss_text,
  test_text,
};
ghost use Rattle.sort_terms.specs.TermView.{term_of};
ghost use Rattle.std.specs.Prelude.{◌≡◌, ◌++◌, OnOk, map, option_map};

use crate::members::{push_declared, push_term};
use crate::naming::Naming;
use crate::squares::{close_square, open_square};
use behaviour_tree::{Offer, Test};
use lotos_base::NoMemory;
use printed_texts::brackets::push_text;
use sort_terms::{Term, Variable};

// Appends both sides of a premiss.
fn push_equation(
    naming: &Naming<'_>,
    names: &[Variable],
    test: &Test,
    into: &mut Vec<u8>,
) -> Result<(), NoMemory>
    ensures { OnOk result (into.new.items ≡ into.old.items ++ equation_text
        (naming_of naming.now) (variables_of names.now) (test_of test.now)) }
{
    push_term(naming.signature, names, &test.left, into)?;
    push_text(into, b" = ")?;
    push_term(naming.signature, names, &test.right, into)
}

// Whether the term is the constant with this number.
fn is_constant(truth: Option<u32>, term: &Term) -> bool
    ensures { result ≡ is_constant truth (term_of term.now) }
{
    let Some(constant) = truth else {
        return false;
    };
    match term {
        Term::Var { .. } => false,
        Term::Node { op, arguments, .. } => arguments.items().is_empty() && *op == constant,
    }
}

// Appends both sides of a premiss, or its left side alone where the right one is left out.
fn push_sides(
    naming: &Naming<'_>,
    names: &[Variable],
    test: &Test,
    into: &mut Vec<u8>,
) -> Result<(), NoMemory>
    ensures { OnOk result (into.new.items ≡ into.old.items ++ premiss_text
        (naming_of naming.now) (variables_of names.now) (test_of test.now)) }
{
    if is_constant(naming.truth, test.right.term()) {
        push_term(naming.signature, names, &test.left, into)
    } else {
        push_equation(naming, names, test, into)
    }
}

/// Appends a premiss in its brackets.
pub fn push_test(
    naming: &Naming<'_>,
    names: &[Variable],
    test: &Test,
    into: &mut Vec<u8>,
) -> Result<(), NoMemory>
    ensures { OnOk result (into.new.items ≡ into.old.items ++ test_text
        (naming_of naming.now) (variables_of names.now) (test_of test.now)) }
{
    let position = open_square(into)?;
    push_sides(naming, names, test, into)?;
    close_square(into, position)
}

/// Appends the selection predicate of an action behind a blank, if there is one.
pub fn push_predicate(
    naming: &Naming<'_>,
    names: &[Variable],
    test: &Option<Test>,
    into: &mut Vec<u8>,
) -> Result<(), NoMemory>
    ensures { OnOk result (into.new.items ≡ into.old.items ++ predicate_text
        (naming_of naming.now) (variables_of names.now) (option_map test_of test.now)) }
{
    match test {
        None => Ok(()),
        Some(test) => {
            push_text(into, b" ")?;
            push_test(naming, names, test, into)
        }
    }
}

// Appends an offer behind a blank.
fn push_offer(
    naming: &Naming<'_>,
    names: &[Variable],
    offer: &Offer,
    into: &mut Vec<u8>,
) -> Result<(), NoMemory>
    ensures { OnOk result (into.new.items ≡ into.old.items ++ offer_text
        (naming_of naming.now) (variables_of names.now) (offer_of offer.now)) }
{
    match offer {
        Offer::Give(term) => {
            push_text(into, b" !")?;
            push_term(naming.signature, names, term, into)
        }
        Offer::Ask(variable) => {
            push_text(into, b" ?")?;
            push_declared(naming, variable, into)
        }
    }
}

/// Appends offers, each behind a blank.
pub fn push_offers(
    naming: &Naming<'_>,
    names: &[Variable],
    offers: &Vec<Offer>,
    into: &mut Vec<u8>,
) -> Result<(), NoMemory>
    ensures { OnOk result (into.new.items ≡ into.old.items ++ offers_text
        (naming_of naming.now) (variables_of names.now)
        (map offer_of offers.now.items)) }
{
    for offer in offers {
        push_offer(naming, names, offer, into)?;
    }
    Ok(())
}
