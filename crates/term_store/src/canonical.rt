//! The numbers of canonical terms.

ghost use Rattle.path_order.specs.RulesView.{plain_rules_in, signature_in};
ghost use Rattle.rewriting_theory.specs.Rewriting.{IsNormal};
ghost use Rattle.sort_terms.specs.ProfiledTerm.{IsOf};
ghost use Rattle.sort_terms.specs.SortedView.{profiled_in, term_in};
ghost use Rattle.std.specs.Prelude.{IfOk, IsTrue};
ghost use Rattle.term_rewriter.specs.FirstIndexView.{IsIndexOf};
ghost use Rattle.term_store.specs.Canonical.{NumbersForm};
ghost use Rattle.term_store.specs.Turns.{AreSound, StaySound};

use crate::forms::Forms;
use crate::numbering::number_of;
use crate::turns::chosen;
use lotos_base::NoMemory;
use path_order::Rules;
use sort_terms::Sorted;
use std::alloc::Global;
use term_rewriter::first_index::FirstIndex;

/// The number of the chosen form of a term, and whether the term is seen to be this form itself.
#[derive(Clone, Copy, Debug)]
pub struct ChosenNumber {
    /// The number of the form.
    pub number: usize,
    /// Whether the term has this number too.
    pub is_own: bool,
}

/// The number of the chosen form of the term, and whether it is that of the term too.
pub fn canonical(
    alloc: Global,
    rules: &Rules,
    index: &FirstIndex,
    forms: &mut Forms,
    term: &Sorted,
) -> Result<ChosenNumber, NoMemory>
    requires index { IsIndexOf rules.now index.now }
    requires sound { AreSound rules.now forms.old }
    requires term { IsOf (signature_in rules.now) (profiled_in term.now) }
    ensures stay { StaySound rules.now forms.old forms.new }
    ensures canonical { IfOk result
        (λ found. NumbersForm rules.now forms.new (term_in term.now) found.number) }
    ensures own { IfOk result
        (λ found. IsTrue found.is_own → IsNormal (plain_rules_in rules.now) (term_in term.now)) }
{
    let number = number_of(alloc, &mut forms.shared, term.term())?;
    let form = chosen(alloc, rules, index, forms, number)?;
    Ok(ChosenNumber {
        number: form as usize,
        is_own: form == number,
    })
}
