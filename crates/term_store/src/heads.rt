//! The operations at the heads of the left sides of rules, as bits.

ghost use Rattle.path_order.specs.RulesView.{plain_rules_in};
ghost use Rattle.sort_terms.specs.TermView.{term_of};
ghost use Rattle.std.specs.Prelude.{◌≡◌, true};
ghost use Rattle.term_store.specs.Heads.{has_head_bit, have_head_bits};

use path_order::Rules;
use sort_terms::Term;
use sort_terms::facts::head_bit;

/// The bits of the operations at the heads of the left sides.
pub fn heads_of(rules: &Rules) -> u64
    ensures { have_head_bits result (plain_rules_in rules.now) ≡ true }
{
    let mut heads = 0;
    for rule in rules.list() {
        heads |= head_of(rule.left.term());
    }
    heads
}

// The bit of the operation at the head of the term, if it is no variable.
fn head_of(term: &Term) -> u64
    ensures { has_head_bit result (term_of term.now) ≡ true }
{
    match term {
        Term::Var { .. } => 0,
        Term::Node { op, .. } => head_bit(*op),
    }
}
