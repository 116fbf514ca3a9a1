//! The offers of an action.

ghost use Rattle.behaviour_tree.specs.BehaviourTerms.{joined, offer_profiles};
ghost use Rattle.behaviour_tree.specs.BehaviourView.{offer_of};
ghost use Rattle.behaviour_tree.specs.Over.{AreTermsOf};
ghost use Rattle.sort_terms.specs.ReaderView.{signature_read};
ghost use Rattle.sort_terms.specs.Reading.{IsScopeOver};
ghost use Rattle.scope_parts.specs.FaultView.{Answers};
ghost use Rattle.scope_parts.specs.Terms.{OfferIs, OffersAre, OffersFollow, past_offer};
ghost use Rattle.scope_parts.specs.VisibleView.{visible_in};
ghost use Rattle.std.specs.Prelude.{◌≡◌, IfOk, map};
ghost use Rattle.syntax_trees.specs.TreeViews.{written_offer_of as written_offer};

use crate::doubles::first_double;
use crate::fault_order::beside;
use crate::scope_faults::ScopeFault;
use crate::sorts::{next_number, variable_at};
use crate::terms::Terms;
use crate::visible::Visible;
use behaviour_tree::Offer;
use lotos_base::NoMemory;
use std::alloc::Global;
use syntax_trees::OfferText;

impl Terms<'_> {
    /// The offers of an action, whose variables are numbered from a number on. The terms do not see
    /// these variables, and are read without an expected sort. No variable may stand twice.
    pub fn offers(
        &self,
        alloc: Global,
        visible: &Visible,
        first: u64,
        texts: &Vec<OfferText>,
    ) -> Result<Vec<Offer>, ScopeFault>
        requires { IsScopeOver (signature_read self.now.reader) (visible_in visible.now) }
        ensures read { Answers (λ offers. map offer_of offers.items) result (OffersAre
            (signature_read self.now.reader) (visible_in visible.now) first
            (map written_offer texts.now.items)) }
        ensures profiles { IfOk result (λ offers. AreTermsOf (signature_read self.now.reader)
            (joined (map offer_profiles offers.items))) }
    {
        let double = first_double(alloc, texts)?;
        beside(double, self.following_offers(alloc, visible, first, texts))
    }

    // The same, where a variable may stand twice.
    fn following_offers(
        &self,
        alloc: Global,
        visible: &Visible,
        first: u64,
        texts: &Vec<OfferText>,
    ) -> Result<Vec<Offer>, ScopeFault>
        requires { IsScopeOver (signature_read self.now.reader) (visible_in visible.now) }
        ensures read { Answers (λ offers. map offer_of offers.items) result (OffersFollow
            (signature_read self.now.reader) (visible_in visible.now) first
            (map written_offer texts.now.items)) }
        ensures profiles { IfOk result (λ offers. AreTermsOf (signature_read self.now.reader)
            (joined (map offer_profiles offers.items))) }
    {
        let mut made = Vec::with_capacity(alloc, texts.len())?;
        let mut number = first;
        for text in texts {
            let offer = self.offer(alloc, visible, number, text)?;
            made.push(offer)?;
            number = behind_offer(text, number)?;
        }
        Ok(made)
    }

    // One of them.
    fn offer(
        &self,
        alloc: Global,
        visible: &Visible,
        number: u64,
        text: &OfferText,
    ) -> Result<Offer, ScopeFault>
        requires { IsScopeOver (signature_read self.now.reader) (visible_in visible.now) }
        ensures read { Answers offer_of result (OfferIs (signature_read self.now.reader)
            (visible_in visible.now) number (written_offer text.now)) }
        ensures profiles { IfOk result (λ offer. AreTermsOf (signature_read self.now.reader)
            (offer_profiles offer)) }
    {
        match text {
            OfferText::Give(term) => {
                let term = self.term(alloc, visible, term, None)?;
                Ok(Offer::Give(term))
            }
            OfferText::Ask(variable) => {
                let variable = variable_at(alloc, &self.reader, number, variable)?;
                Ok(Offer::Ask(variable))
            }
        }
    }
}

// The number of the next variable behind an offer.
fn behind_offer(text: &OfferText, number: u64) -> Result<u64, NoMemory>
    ensures { IfOk result (λ next. next ≡ past_offer (written_offer text.now) number) }
{
    match text {
        OfferText::Give(_) => Ok(number),
        OfferText::Ask(_) => next_number(number),
    }
}
