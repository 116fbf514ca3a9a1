//! Copies of drafts that are over signatures.

ghost use Rattle.event_offers.specs.OfferView.{plain_draft};
ghost use Rattle.draft_parts.specs.DraftTerms.{HasTermsOf};
ghost use Rattle.std.specs.Prelude.{◌≡◌, IfOk};
ghost use Rattle.lotos_base.specs.Signature.{Signature};

use event_offers::Draft;
use event_offers::copies::draft_copy;
use lotos_base::NoMemory;

/// The same draft, which is over each signature that the given one is over.
pub fn copied(draft: &Draft) -> Result<Draft, NoMemory>
    ensures same { IfOk result (λ made. plain_draft made ≡ plain_draft draft.now) }
    ensures over { IfOk result (λ made. (signature : Signature)
        → HasTermsOf signature draft.now → HasTermsOf signature made) }
{
    let made = draft_copy(draft)?;
    Ok(made)
}
