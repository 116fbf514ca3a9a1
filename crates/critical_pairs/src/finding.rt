//! Chosen forms of terms, by terms that are kept once.

ghost use Rattle.path_order.specs.RulesView.{plain_rules_in, signature_in};
ghost use Rattle.rewriting_theory.specs.ChosenForm.{Chosen};
ghost use Rattle.sort_terms.specs.ProfiledTerm.{IsOf};
ghost use Rattle.sort_terms.specs.SortedView.{profiled_in, term_in};
ghost use Rattle.std.specs.Prelude.{◌≡◌, IfOk};
ghost use Rattle.term_store.specs.Canonical.{NumbersForm};
ghost use Rattle.term_store.specs.Kept.{chosen_form};
ghost use Rattle.term_store.specs.Turns.{StaySound};

use lotos_base::NoMemory;
use path_order::Rules;
use sort_terms::{Op, Sorted};
use std::alloc::Global;
use std::rc::Rc;
use term_store::canonical::canonical;
use term_store::forms::Forms;
use term_store::reading::{profiles_of, read};
use term_store::{FirstIndex, indexed};

/// An index of rules, their operations, and terms that are kept with their chosen forms.
#[derive(Drop)]
pub struct Finder {
    index: FirstIndex,
    profiles: Vec<Rc<Op>>,
    forms: Forms,
}

impl Finder {
    ghost use Rattle.critical_pairs.specs.Finding.{IsFinderOf};

    /// No term is kept yet.
    pub fn opened(alloc: Global, rules: &Rules) -> Result<Finder, NoMemory>
        ensures { IfOk result (λ finder. IsFinderOf rules.now finder) }
    {
        let index = indexed(alloc, rules)?;
        let profiles = profiles_of(alloc, rules.signature().ops())?;
        Ok(Finder {
            index,
            profiles,
            forms: Forms::new(alloc),
        })
    }

    /// The number of the chosen form of the term.
    pub fn number(&mut self, alloc: Global, rules: &Rules, term: &Sorted) -> Result<usize, NoMemory>
        requires finder { IsFinderOf rules.now self.old }
        requires term { IsOf (signature_in rules.now) (profiled_in term.now) }
        ensures finder { IsFinderOf rules.now self.new }
        ensures stay { StaySound rules.now self.old.forms self.new.forms }
        ensures number { IfOk result
            (λ n. NumbersForm rules.now self.new.forms (term_in term.now) n) }
    {
        let found = canonical(alloc, rules, &self.index, &mut self.forms, term)?;
        Ok(found.number)
    }

    /// The chosen form of the term, which has this number.
    pub fn form(
        &self,
        alloc: Global,
        rules: &Rules,
        term: &Sorted,
        number: usize,
    ) -> Result<Sorted, NoMemory>
        requires finder { IsFinderOf rules.now self.now }
        requires term { IsOf (signature_in rules.now) (profiled_in term.now) }
        requires number { NumbersForm rules.now self.now.forms (term_in term.now) number }
        ensures form { IfOk result
            (λ form. term_in form ≡ chosen_form rules.now (term_in term.now)) }
        ensures chosen { IfOk result
            (λ form. Chosen (plain_rules_in rules.now) (term_in term.now) (term_in form)) }
        ensures is_of { IfOk result (λ form. IsOf (signature_in rules.now) (profiled_in form)) }
    {
        let made = read(alloc, rules, &self.profiles, &self.forms.shared, number)?;
        Ok(Sorted::of(made))
    }
}
