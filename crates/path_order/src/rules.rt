//! The rules of data, with the precedence that orients them and the signature that they are over.

ghost use Rattle.path_order.specs.HeadIndexView.{numbers_at};
ghost use Rattle.path_order.specs.PrecedenceView.{precedence_of};
ghost use Rattle.path_order.specs.RuleHead.{are_oriented, headed};
ghost use Rattle.path_order.specs.RuleSides.{AreAllOver-prop, AreRulesOver, all_sides};
ghost use Rattle.path_order.specs.RuleView.{plain_rules};
ghost use Rattle.sort_terms.specs.SignatureView.{signature_of};
ghost use Rattle.std.proofs.Props.{props};
ghost use Rattle.std.specs.Prelude.{◌≡◌, ℕ, IfOk, true};

use crate::head_index::HeadIndex;
use crate::indexing::indexed;
use crate::precedence::Precedence;
use crate::rule::{Rule, rule_copies};
use lotos_base::NoMemory;
use sort_terms::Signature;

/// Rules over a signature. The left side of each is greater than its right side.
#[derive(Drop)]
pub struct Rules {
    rules: Vec<Rule>,
    precedence: Precedence,
    signature: Signature,
    heads: HeadIndex,
    pub ghost oriented: { are_oriented (precedence_of precedence)
        (plain_rules rules.items) ≡ true },
    pub ghost over: { AreRulesOver (signature_of signature)
        rules.items } by { AreAllOver-prop (signature_of signature)
            (all_sides rules.items) },
    pub ghost indexed: { (f : ℕ) → numbers_at heads f ≡ headed f
        (plain_rules rules.items) } by { Prim.hlevel props },
}

impl Rules {
    ghost use Rattle.path_order.specs.RulesView.{rules_in, signature_in};

    /// These rules, with their index.
    pub fn of(
        signature: Signature,
        precedence: Precedence,
        rules: Vec<Rule>,
    ) -> Result<Rules, NoMemory>
        requires oriented { are_oriented (precedence_of precedence) (plain_rules rules.items)
            ≡ true }
        requires over { AreRulesOver (signature_of signature) rules.items }
        ensures rules { IfOk result (λ made. made.rules ≡ rules) }
        ensures precedence { IfOk result (λ made. made.precedence ≡ precedence) }
        ensures signature { IfOk result (λ made. made.signature ≡ signature) }
    {
        let heads = indexed(&signature, &rules)?;
        Ok(Rules {
            rules,
            precedence,
            signature,
            heads,
        })
    }

    /// The rules in the order of their equations.
    pub fn list(&self) -> &[Rule]
        ensures { result.now ≡ self.now.rules.items }
    {
        self.rules.as_slice()
    }

    /// The numbers of the rules whose left sides have the operation at the head, in their order.
    pub fn headed(&self, op: u32) -> &[usize]
        ensures { result.now ≡ headed op (plain_rules self.now.rules.items) }
    {
        self.heads.under(op)
    }

    /// The precedence that orients the rules.
    pub fn precedence(&self) -> &Precedence
        ensures { result.now ≡ self.now.precedence }
    {
        &self.precedence
    }

    /// The signature that the rules are over.
    pub fn signature(&self) -> &Signature
        ensures { result.now ≡ self.now.signature }
    {
        &self.signature
    }

    /// The same rules and precedence over the same signature.
    pub fn copy(&self) -> Result<Rules, NoMemory>
        ensures rules { IfOk result (λ copy. rules_in copy ≡ rules_in self.now) }
        ensures precedence { IfOk result (λ copy. precedence_of copy.precedence
            ≡ precedence_of self.now.precedence) }
        ensures signature { IfOk result (λ copy. signature_in copy ≡ signature_in self.now) }
    {
        Rules::of(
            self.signature.copy()?,
            self.precedence.copy()?,
            rule_copies(&self.rules)?,
        )
    }
}
