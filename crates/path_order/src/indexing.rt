//! The index of rules by the operations at the heads of their left sides.

ghost use Rattle.path_order.specs.HeadIndexView.{numbers_at};
ghost use Rattle.path_order.specs.RuleHead.{headed};
ghost use Rattle.path_order.specs.RuleSides.{AreRulesOver};
ghost use Rattle.path_order.specs.RuleView.{plain_rules, rule_of};
ghost use Rattle.path_order.specs.HeadBelow.{IsHeadBelow};
ghost use Rattle.sort_terms.specs.SignatureView.{signature_of};
ghost use Rattle.std.specs.Prelude.{◌≡◌, ◌∷◌, ◌++◌, [], ℕ, IfOk, OnOk, if◌then◌else◌, length};
ghost use Rattle.path_order.specs.RuleHead.{has_head};
ghost use Rattle.sort_terms.specs.SortedView.{term_in};

use crate::head_index::HeadIndex;
use crate::rule::Rule;
use lotos_base::NoMemory;
use sort_terms::{Signature, Sorted, Term};

/// The numbers of the rules, each under the operation at the head of its left side.
pub fn indexed(signature: &Signature, rules: &Vec<Rule>) -> Result<HeadIndex, NoMemory>
    requires { AreRulesOver (signature_of signature.now) rules.now.items }
    ensures { IfOk result (λ index. (f : ℕ) → numbers_at index f
        ≡ headed f (plain_rules rules.now.items)) }
{
    let mut made = HeadIndex::new(*rules.allocator(), signature.ops().len())?;
    for number in 0..rules.len() {
        add(&mut made, &rules[number].left, number)?;
    }
    Ok(made)
}

// Adds a number under the operation at the head of the term; under none where it is a variable.
fn add(index: &mut HeadIndex, term: &Sorted, number: usize) -> Result<(), NoMemory>
    requires { IsHeadBelow (length index.old.numbers.items) (term_in term.now) }
    ensures added { OnOk result ((f : ℕ) → numbers_at index.new f
        ≡ numbers_at index.old f ++ (if has_head f (term_in term.now) then number ∷ [] else [])) }
    ensures room { length index.new.numbers.items ≡ length index.old.numbers.items }
{
    match term.term() {
        Term::Var { .. } => Ok(()),
        Term::Node { op, .. } => index.add(*op as usize, number),
    }
}
