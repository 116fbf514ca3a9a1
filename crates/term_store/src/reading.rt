//! Terms taken out of those that are kept.

ghost use Rattle.path_order.specs.RulesView.{signature_in};
ghost use Rattle.sort_terms.specs.MadeTerms.{made_of};
ghost use Rattle.sort_terms.specs.Operations.{operation_of};
ghost use Rattle.sort_terms.specs.TermView.{profiled_of};
ghost use Rattle.std.specs.Prelude.{◌≡◌, ◌+◌, ◌<◌, ◌∷◌, ◌++◌, [], IfOk, OnOk, None, length, map};
ghost use Rattle.std.proofs.Common.{get_or};
ghost use Rattle.term_store.specs.Cells.{HaveTermsOf, operation_in};
ghost use Rattle.term_store.specs.Made.{
  AreMadeOf,
  all_made,
  number_of_making,
  making_turns,
  making_turns_of,
  with_made,
};
ghost use Rattle.term_store.specs.Numbered.{term_at};
ghost use Rattle.term_store.specs.SharedView.{keys_in};
ghost use Rattle.term_store.specs.declared.reading.Making.TheVariants.{Term as term_making};

use crate::shared::SharedTerms;
use lotos_base::NoMemory;
use path_order::Rules;
use sort_terms::copying::taken;
use sort_terms::{Op, Term};
use std::alloc::Global;
use std::rc::Rc;

/// The operations, to be shared by terms.
pub fn profiles_of(alloc: Global, ops: &[Op]) -> Result<Vec<Rc<Op>>, NoMemory>
    ensures { IfOk result (λ made. map (λ p. operation_of p.value) made.items
        ≡ map operation_of ops.now) }
{
    let mut made = Vec::with_capacity(alloc, ops.len())?;
    for op in ops {
        made.push(Rc::new(alloc, op.copy()?)?)?;
    }
    Ok(made)
}

/// What is still to be done until a term is made.
#[derive(Clone, Copy, Debug)]
pub enum Making {
    /// To make the term with this number.
    Term(usize),
    /// To make the operation at the head of the term with this number. Its arguments are the last
    /// terms made, the first one last.
    Operation(usize),
}

/// The term with this number, with these profiles.
pub fn read(
    alloc: Global,
    rules: &Rules,
    profiles: &Vec<Rc<Op>>,
    shared: &SharedTerms,
    number: usize,
) -> Result<Term, NoMemory>
    requires profiled { map (λ p. operation_of p.value) profiles.now.items
        ≡ (signature_in rules.now).operations }
    requires have { HaveTermsOf (signature_in rules.now) (keys_in shared.now) }
    requires within { number < length (keys_in shared.now) }
    ensures { IfOk result (λ t. profiled_of t
        ≡ term_at (signature_in rules.now) (keys_in shared.now) number) }
{
    let mut left = Vec::new(alloc);
    let mut made = Vec::new(alloc);
    left.push(Making::Term(number))?;
    while let Some(next) = left.pop() {
        make(alloc, rules, profiles, shared, next, &mut left, &mut made)?;
    }
    let Some(term) = made.pop() else {
        return Err(NoMemory);
    };
    Ok(term)
}

// Does what comes next.
fn make(
    alloc: Global,
    rules: &Rules,
    profiles: &Vec<Rc<Op>>,
    shared: &SharedTerms,
    next: Making,
    left: &mut Vec<Making>,
    made: &mut Vec<Term>,
) -> Result<(), NoMemory>
    requires profiled { map (λ p. operation_of p.value) profiles.now.items
        ≡ (signature_in rules.now).operations }
    requires have { HaveTermsOf (signature_in rules.now) (keys_in shared.now) }
    requires within { number_of_making next < length (keys_in shared.now) }
    ensures same { OnOk result (all_made (signature_in rules.now) (keys_in shared.now)
        left.new.items (made_of made.new.items) ≡ all_made (signature_in rules.now)
        (keys_in shared.now) left.old.items (with_made (signature_in rules.now)
        (keys_in shared.now) next (made_of made.old.items))) }
    ensures within { OnOk result (AreMadeOf (keys_in shared.now) left.old.items
        → AreMadeOf (keys_in shared.now) left.new.items) }
    ensures less { OnOk result (making_turns_of (signature_in rules.now) (keys_in shared.now)
        left.new.items < making_turns (signature_in rules.now) (keys_in shared.now) next
        + making_turns_of (signature_in rules.now) (keys_in shared.now) left.old.items) }
{
    match next {
        Making::Term(number) => begin(rules, shared, number, left, made),
        Making::Operation(number) => match shared.operation(number) {
            None => Ok(()),
            Some((op, arguments)) => {
                let parts = taken(alloc, arguments.len(), made)?;
                let term = Term::node(op, profiles[op as usize].clone()?, parts)?;
                Ok(made.push(term)?)
            }
        },
    }
}

// Makes a variable, and puts what is to be done for an operation on the list.
fn begin(
    rules: &Rules,
    shared: &SharedTerms,
    number: usize,
    left: &mut Vec<Making>,
    made: &mut Vec<Term>,
) -> Result<(), NoMemory>
    requires have { HaveTermsOf (signature_in rules.now) (keys_in shared.now) }
    requires within { number < length (keys_in shared.now) }
    ensures same { OnOk result (all_made (signature_in rules.now) (keys_in shared.now)
        left.new.items (made_of made.new.items) ≡ all_made (signature_in rules.now)
        (keys_in shared.now) left.old.items
        (term_at (signature_in rules.now) (keys_in shared.now) number ∷ made_of made.old.items)) }
    ensures within { OnOk result (AreMadeOf (keys_in shared.now) left.old.items
        → AreMadeOf (keys_in shared.now) left.new.items) }
    ensures less { OnOk result (making_turns_of (signature_in rules.now) (keys_in shared.now)
        left.new.items < making_turns (signature_in rules.now) (keys_in shared.now)
        (term_making number)
        + making_turns_of (signature_in rules.now) (keys_in shared.now) left.old.items) }
{
    match shared.operation(number) {
        None => Ok(made.push(read_variable(rules, shared, number))?),
        Some((_, arguments)) => {
            left.push(Making::Operation(number))?;
            add_terms(arguments, left)
        }
    }
}

// Puts the making of these terms on the list, the first one first.
fn add_terms(numbers: &[u32], left: &mut Vec<Making>) -> Result<(), NoMemory>
    ensures { OnOk result (left.new.items ≡ left.old.items ++ map term_making numbers.now) }
{
    for number in numbers {
        left.push(Making::Term(*number as usize))?;
    }
    Ok(())
}

// The variable with this number among the terms.
fn read_variable(rules: &Rules, shared: &SharedTerms, number: usize) -> Term
    requires have { HaveTermsOf (signature_in rules.now) (keys_in shared.now) }
    requires within { number < length (keys_in shared.now) }
    requires variable { operation_in (get_or (keys_in shared.now) number []) ≡ None }
    ensures { profiled_of result ≡ term_at (signature_in rules.now) (keys_in shared.now) number }
{
    match shared.key(number).variable() {
        Some((number, sort)) => Term::Var { number, sort },
        None => Term::Var { number: 0, sort: 0 },
    }
}
