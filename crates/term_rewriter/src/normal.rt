//! Chosen forms of terms.

ghost use Rattle.path_order.specs.RulesView.{plain_rules_in, signature_in};
ghost use Rattle.rewriting_theory.specs.ChosenForm.{Chosen};
ghost use Rattle.rewriting_theory.specs.Reduction.{Reaches};
ghost use Rattle.rewriting_theory.specs.Rewriting.{IsNormal, Rewrites};
ghost use Rattle.sort_terms.specs.ProfiledTerm.{IsOf};
ghost use Rattle.sort_terms.specs.SortedView.{profiled_in, term_in};
ghost use Rattle.std.specs.Prelude.{◌≡◌, IfOk};

use crate::forms::form;
use lotos_base::NoMemory;
use path_order::Rules;
use sort_terms::Sorted;
use std::alloc::Global;

/// The chosen form of the term: the arguments are put in their chosen forms, then the first rule
/// that matches at the root is used, and so on. It is irreducible and reached by rewriting.
pub fn normalise(alloc: Global, rules: &Rules, term: &Sorted) -> Result<Sorted, NoMemory>
    requires { IsOf (signature_in rules.now) (profiled_in term.now) }
    ensures chosen { IfOk result
        (λ form. Chosen (plain_rules_in rules.now) (term_in term.now) (term_in form)) }
    ensures normal { IfOk result (λ form. IsNormal (plain_rules_in rules.now) (term_in form)) }
    ensures reached { IfOk result (λ form. Reaches (Rewrites (plain_rules_in rules.now))
        (term_in term.now) (term_in form)) }
    ensures is_of { IfOk result (λ form. IsOf (signature_in rules.now) (profiled_in form)) }
    ensures sort { IfOk result (λ form. form.sort ≡ term.now.sort) }
{
    let instance = term.term().copy()?;
    Ok(Sorted::of(form(alloc, rules, term.term(), instance)?))
}
