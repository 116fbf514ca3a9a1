//! Canonical terms by a store.

ghost use Rattle.path_order.proofs.RulesLemmas.{rules_data};
ghost use Rattle.path_order.specs.RulesView.{plain_rules_in, signature_in};
ghost use Rattle.rewriting_theory.specs.Reduction.{Reaches};
ghost use Rattle.rewriting_theory.specs.Rewriting.{IsNormal, Rewrites};
ghost use Rattle.sort_terms.specs.ProfiledTerm.{IsOf};
ghost use Rattle.sort_terms.specs.SortedView.{profiled_in, term_in};
ghost use Rattle.std.specs.Prelude.{◌≡◌, ◌↔◌, IfOk, IsTrue};
ghost use Rattle.term_store.specs.Canonical.{NumbersForm};
ghost use Rattle.term_store.specs.StoreCanon.{store_canon, store_is_canon};
ghost use Rattle.term_store.specs.Turns.{StaySound};

use crate::canonical::{ChosenNumber, canonical};
use crate::reading::read;
use crate::store::Store;
use lotos_base::NoMemory;
use sort_terms::{Deciding, Sorted};

impl Deciding for Store {
    ghost known_data = { λ it. rules_data it.rules };

    ghost canon = { λ it t. store_canon it t };

    ghost is_canon = { λ it. store_is_canon it };

    fn normal(&mut self, term: &Sorted) -> Result<Sorted, NoMemory> {
        self.canonical_term(term)
    }
}

impl Store {
    /// The canonical term of the term: the one irreducible term that it rewrites to.
    pub fn canonical_term(&mut self, term: &Sorted) -> Result<Sorted, NoMemory>
        requires { IsOf (signature_in self.old.rules) (profiled_in term.now) }
        ensures canonical { IfOk result
            (λ form. term_in form ≡ store_canon self.old (term_in term.now)) }
        ensures normal { IfOk result
            (λ form. IsNormal (plain_rules_in self.old.rules) (term_in form)) }
        ensures reached { IfOk result (λ form. Reaches (Rewrites (plain_rules_in self.old.rules))
            (term_in term.now) (term_in form)) }
        ensures is_of { IfOk result
            (λ form. IsOf (signature_in self.old.rules) (profiled_in form)) }
        ensures rules { self.new.rules ≡ self.old.rules }
    {
        if self.leaves(term) {
            return term.copy();
        }
        self.form_of(term)
    }

    // Whether it is seen at once that no rule can be used anywhere in the term: none of its
    // operations stands at the head of a left side.
    fn leaves(&self, term: &Sorted) -> bool
        ensures { IsTrue result → IsNormal (plain_rules_in self.now.rules) (term_in term.now) }
    {
        term.facts().heads & self.heads == 0
    }

    // The canonical term, by the terms that are kept. A term that is its own canonical term is
    // shared.
    fn form_of(&mut self, term: &Sorted) -> Result<Sorted, NoMemory>
        requires { IsOf (signature_in self.old.rules) (profiled_in term.now) }
        ensures canonical { IfOk result
            (λ form. term_in form ≡ store_canon self.old (term_in term.now)) }
        ensures normal { IfOk result
            (λ form. IsNormal (plain_rules_in self.old.rules) (term_in form)) }
        ensures reached { IfOk result (λ form. Reaches (Rewrites (plain_rules_in self.old.rules))
            (term_in term.now) (term_in form)) }
        ensures is_of { IfOk result
            (λ form. IsOf (signature_in self.old.rules) (profiled_in form)) }
        ensures rules { self.new.rules ≡ self.old.rules }
    {
        let found = self.number(term)?;
        if found.is_own {
            return term.copy();
        }
        let alloc = *self.profiles.allocator();
        let made = read(
            alloc,
            &self.rules,
            &self.profiles,
            &self.forms.shared,
            found.number,
        )?;
        Ok(Sorted::of(made))
    }

    /// Whether the canonical terms of both are identical.
    pub fn same(&mut self, left: &Sorted, right: &Sorted) -> Result<bool, NoMemory>
        requires left { IsOf (signature_in self.old.rules) (profiled_in left.now) }
        requires right { IsOf (signature_in self.old.rules) (profiled_in right.now) }
        ensures exactly { IfOk result (λ same. IsTrue same
            ↔ (store_canon self.old (term_in left.now) ≡ store_canon self.old (term_in right.now))) }
        ensures rules { self.new.rules ≡ self.old.rules }
    {
        let one = self.number(left)?;
        let other = self.number(right)?;
        Ok(one.number == other.number)
    }

    // The number of the canonical term of the term, and whether it is that of the term too.
    fn number(&mut self, term: &Sorted) -> Result<ChosenNumber, NoMemory>
        requires { IsOf (signature_in self.old.rules) (profiled_in term.now) }
        ensures rules { self.new.rules ≡ self.old.rules }
        ensures stay { StaySound self.old.rules self.old.forms self.new.forms }
        ensures number { IfOk result
            (λ found. NumbersForm self.old.rules self.new.forms (term_in term.now) found.number) }
        ensures own { IfOk result (λ found. IsTrue found.is_own
            → IsNormal (plain_rules_in self.old.rules) (term_in term.now)) }
    {
        let alloc = *self.profiles.allocator();
        canonical(alloc, &self.rules, &self.index, &mut self.forms, term)
    }
}
