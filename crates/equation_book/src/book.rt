//! Data with the confluent rules of their equations.

ghost use Rattle.equation_book.specs.SortedSides.{AreSortedSides};
ghost use Rattle.equation_book.specs.SortedSidesFacts.{AreSortedSides-prop};
ghost use Rattle.path_order.specs.RuleTest.{gives_rules};
ghost use Rattle.path_order.specs.RulesView.{
  plain_rules_in,
  precedence_in,
  rules_in,
  signature_in,
};
ghost use Rattle.sort_terms.specs.EquationView.{data_of};
ghost use Rattle.sort_terms.specs.SignatureView.{signature_of};
ghost use Rattle.std.specs.Prelude.{◌≡◌, true};

use critical_pairs::joined::Joined;
use path_order::Rules;
use sort_terms::Flat;
use term_store::Store;

/// Data, and the rules of their equations, which are confluent, with terms of the data that are
/// kept once.
#[derive(Drop)]
pub struct Book {
    flat: Flat,
    joined: Joined,
    pub(crate) store: Store,
    pub ghost sides: { AreSortedSides flat } by { AreSortedSides-prop flat },
    pub ghost oriented: { gives_rules (precedence_in joined.rules) 0 (data_of flat).equations
        (rules_in joined.rules) ≡ true },
    pub ghost over: { ∥ signature_in joined.rules ≡ signature_of flat.signature ∥₁ },
    pub ghost stored: { ∥ plain_rules_in store.rules ≡ plain_rules_in joined.rules ∥₁ },
    pub ghost stored_over: { ∥ signature_in store.rules ≡ signature_in joined.rules ∥₁ },
}

impl Book {
    /// The data with the rules of their equations, and a store over the same rules.
    pub fn of(flat: Flat, joined: Joined, store: Store) -> Book
        requires sides { AreSortedSides flat }
        requires oriented { gives_rules (precedence_in joined.rules) 0 (data_of flat).equations
            (rules_in joined.rules) ≡ true }
        requires over { ∥ signature_in joined.rules ≡ signature_of flat.signature ∥₁ }
        requires stored { rules_in store.rules ≡ rules_in joined.rules }
        requires stored_over { signature_in store.rules ≡ signature_in joined.rules }
        ensures flat { result.flat ≡ flat }
        ensures joined { result.joined ≡ joined }
    {
        Book {
            flat,
            joined,
            store,
        }
    }

    /// The data.
    pub fn flat(&self) -> &Flat
        ensures { result.now ≡ self.now.flat }
    {
        &self.flat
    }

    /// The rules.
    pub fn rules(&self) -> &Rules
        ensures { result.now ≡ self.now.joined.rules }
    {
        self.joined.rules()
    }
}
