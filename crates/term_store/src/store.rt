//! Terms kept once, with their canonical terms.

ghost use Rattle.path_order.specs.RulesView.{plain_rules_in};
ghost use Rattle.rewriting_theory.specs.Rewriting.{AreConfluent};
ghost use Rattle.sort_terms.specs.Operations.{operation_of};
ghost use Rattle.std.proofs.Props.{props};
ghost use Rattle.std.specs.Prelude.{◌≡◌, map, true};
ghost use Rattle.term_rewriter.specs.FirstIndexView.{IsIndexOf};
ghost use Rattle.term_store.specs.Heads.{have_head_bits};
ghost use Rattle.term_store.specs.SharedView.{keys_in};
ghost use Rattle.term_store.specs.SoundProps.{IsIndexOf-prop, IsSound-prop};
ghost use Rattle.term_store.specs.Turns.{AreSound};

use crate::forms::Forms;
use crate::heads::heads_of;
use crate::reading::profiles_of;
use lotos_base::NoMemory;
use path_order::Rules;
use sort_terms::Op;
use std::alloc::Global;
use std::rc::Rc;
use term_rewriter::first_index::{FirstIndex, indexed};

/// Confluent rules with the operations at the heads of their left sides, and terms of their
/// signature, each kept once, some with their canonical terms.
#[derive(Drop)]
pub struct Store {
    pub(crate) rules: Rules,
    pub(crate) index: FirstIndex,
    pub(crate) forms: Forms,
    pub(crate) profiles: Vec<Rc<Op>>,
    pub(crate) heads: u64,
    pub ghost confluent: { ∥ AreConfluent (plain_rules_in rules) ∥₁ },
    pub ghost indexed: { IsIndexOf rules index } by { IsIndexOf-prop rules index },
    pub ghost sound: { AreSound rules forms } by { IsSound-prop rules (keys_in forms.shared)
        forms.kept.items },
    pub ghost headed: { have_head_bits heads (plain_rules_in rules) ≡ true },
    pub ghost profiled: { map (λ p. operation_of p.value) profiles.items
        ≡ map operation_of rules.signature.ops.items } by { Prim.hlevel props },
}

impl Store {
    ghost use Rattle.path_order.specs.RulesView.{rules_in, signature_in};
    ghost use Rattle.std.specs.Prelude.{IfOk};

    /// A store over a copy of the rules, which are confluent. No term is kept yet.
    pub fn open(alloc: Global, rules: &Rules) -> Result<Store, NoMemory>
        requires { ∥ AreConfluent (plain_rules_in rules.now) ∥₁ }
        ensures rules { IfOk result (λ store. rules_in store.rules ≡ rules_in rules.now) }
        ensures signature { IfOk result
            (λ store. signature_in store.rules ≡ signature_in rules.now) }
    {
        let rules = rules.copy()?;
        let index = indexed(alloc, &rules)?;
        let profiles = profiles_of(alloc, rules.signature().ops())?;
        let heads = heads_of(&rules);
        Ok(Store {
            rules,
            index,
            forms: Forms::new(alloc),
            profiles,
            heads,
        })
    }

    /// The rules.
    pub fn rules(&self) -> &Rules
        ensures { result.now ≡ self.now.rules }
    {
        &self.rules
    }
}
