//! A rule over the drafts of one part.

ghost use Rattle.behaviour_semantics.specs.WellFormed.{Every};
ghost use Rattle.behaviour_tree.specs.BehaviourView.{meet_of};
ghost use Rattle.draft_parts.specs.DraftRules.{draft_within};
ghost use Rattle.draft_parts.specs.Lists.{AreMadeBy};
ghost use Rattle.draft_parts.specs.Parting.{alone_among};
ghost use Rattle.draft_parts.specs.VariantView.{variant_of};
ghost use Rattle.draft_parts.specs.RuleView.{IsDraftRuleOver, made_by};
ghost use Rattle.event_offers.specs.OfferView.{plain_draft};
ghost use Rattle.draft_parts.specs.DraftTerms.{HasTermsOf};
ghost use Rattle.std.specs.Option.{option_map};
ghost use Rattle.std.specs.Prelude.{◌≡◌, ◌++◌, IfOk, IfSome, OnOk, Some, option_to_list};
ghost use Rattle.lotos_base.specs.Signature.{Signature};

use crate::Variant;
use crate::meeting::enabled;
use crate::rules::{alone, below, guarded, hidden, may_move_alone, put_below, relabelled, valued};
use behaviour_tree::Meet;
use event_offers::Draft;
use lotos_base::NoMemory;
use sort_terms::{Sorted, Variable};

/// A rule that makes a draft, or none, of the draft of one part.
#[derive(Drop)]
pub enum Rule<'a> {
    /// Each draft, below a variant of shapes.
    Below(Variant),
    /// A side of a parallel that moves alone, below the variant.
    Alone(&'a Meet, Variant),
    /// Under `hide`, with these gates.
    Hidden(&'a [u32]),
    /// Under a relabelling, below the variant.
    Relabelled(&'a [(u32, u32)], Variant),
    /// Below a guard with these two sides.
    Guarded(&'a Sorted, &'a Sorted),
    /// Under a value choice with this leaf.
    Valued(&'a Sorted),
    /// A left side of `>>`, which ends with values for these variables or goes on.
    Enabled(&'a Vec<Variable>),
}

impl Rule<'_> {
    /// What the rule makes of a draft.
    pub fn apply(&self, draft: Draft) -> Result<Option<Draft>, NoMemory>
        ensures same { IfOk result (λ o. (signature : Signature) → HasTermsOf signature draft
            → option_map plain_draft o ≡ made_by signature self.now (plain_draft draft)) }
        ensures over { IfOk result (λ o. IfSome o (λ made. (signature : Signature)
            → IsDraftRuleOver signature self.now → HasTermsOf signature draft
            → HasTermsOf signature made)) }
    {
        match self {
            Rule::Below(variant) => Ok(Some(below(draft, *variant)?)),
            Rule::Alone(meet, variant) => alone(draft, meet, *variant),
            Rule::Hidden(gates) => Ok(Some(hidden(draft, gates)?)),
            Rule::Relabelled(pairs, variant) => Ok(Some(relabelled(draft, pairs, *variant)?)),
            Rule::Guarded(left, right) => Ok(Some(guarded(draft, left.copy()?, right.copy()?)?)),
            Rule::Valued(leaf) => Ok(Some(valued(draft, leaf.copy()?)?)),
            Rule::Enabled(variables) => enabled(draft, variables),
        }
    }

    /// What the rule makes of each of the drafts, in order.
    pub fn apply_to_all(&self, drafts: Vec<Draft>) -> Result<Vec<Draft>, NoMemory>
        ensures { IfOk result (λ made. (signature : Signature) → IsDraftRuleOver signature self.now
            → Every (HasTermsOf signature) drafts.items
            → AreMadeBy signature (made_by signature self.now) drafts.items made.items) }
    {
        match self {
            Rule::Below(variant) => all_below(drafts, *variant),
            Rule::Alone(meet, variant) => all_below(alone_drafts(drafts, meet), *variant),
            _ => self.apply_to_each(drafts),
        }
    }

    // What the rule makes of each of the drafts, in order.
    fn apply_to_each(&self, drafts: Vec<Draft>) -> Result<Vec<Draft>, NoMemory>
        ensures { IfOk result (λ made. (signature : Signature) → IsDraftRuleOver signature self.now
            → Every (HasTermsOf signature) drafts.items
            → AreMadeBy signature (made_by signature self.now) drafts.items made.items) }
    {
        let mut made = Vec::with_capacity(*drafts.allocator(), drafts.len())?;
        let mut rest = drafts;
        rest.reverse();
        while let Some(draft) = rest.pop() {
            let next = self.apply(draft)?;
            push_made(&mut made, next)?;
        }
        Ok(made)
    }
}

// The drafts that a side of a parallel makes alone.
fn alone_drafts(drafts: Vec<Draft>, meet: &Meet) -> Vec<Draft>
    ensures { result.items ≡ alone_among (meet_of meet.now) drafts.items }
{
    let mut made = drafts;
    made.retain(|draft| may_move_alone(meet, &draft.label));
    made
}

// The drafts, each below the variant.
fn all_below(drafts: Vec<Draft>, variant: Variant) -> Result<Vec<Draft>, NoMemory>
    ensures { IfOk result (λ made. (signature : Signature)
        → Every (HasTermsOf signature) drafts.items
        → AreMadeBy signature (λ d. Some (draft_within (variant_of variant) d))
        drafts.items made.items) }
{
    let mut made = drafts;
    put_all_below(&mut made, variant)?;
    Ok(made)
}

// Puts the variant over the shape of each of the drafts.
fn put_all_below(drafts: &mut Vec<Draft>, variant: Variant) -> Result<(), NoMemory>
    ensures { OnOk result ((signature : Signature)
        → Every (HasTermsOf signature) drafts.old.items
        → AreMadeBy signature (λ d. Some (draft_within (variant_of variant) d))
        drafts.old.items drafts.new.items) }
{
    for i in 0..drafts.len() {
        put_below(&mut drafts[i], variant)?;
    }
    Ok(())
}

/// The drafts with one more, where there is one.
pub fn push_made(drafts: &mut Vec<Draft>, draft: Option<Draft>) -> Result<(), NoMemory>
    ensures { IfOk result (λ _. drafts.new.items ≡ drafts.old.items ++ option_to_list draft) }
{
    match draft {
        None => Ok(()),
        Some(draft) => Ok(drafts.push(draft)?),
    }
}
