//! Drafts that are joined from right to left, where what a left one has is put behind what is
//! there.

ghost use Rattle.behaviour_semantics.specs.Join.{both_drafts};
ghost use Rattle.draft_parts.specs.DraftTerms.{HasTermsOf};
ghost use Rattle.draft_parts.specs.TurnedDrafts.{
  IsTurnedOf,
  put_behind,
  reversed_draft,
  turned_draft,
};
ghost use Rattle.event_offers.specs.OfferView.{plain_draft};
ghost use Rattle.lotos_base.specs.Signature.{Signature};
ghost use Rattle.std.specs.Prelude.{◌≡◌, IfOk};

use behaviour_tree::Shape;
use behaviour_tree::boxes::shared;
use event_offers::Draft;
use event_offers::labels::{equations, values};
use event_offers::lists::appended;
use lotos_base::NoMemory;
use sort_terms::Sorted;

/// A draft to which others are joined on the left, each in the time that the left one asks for.
#[derive(Debug, Drop)]
pub struct Turned {
    /// The draft but for its last conditions, its leaves and conditions from the last to the first.
    pub draft: Draft,
    /// The last conditions, in order.
    pub last: Vec<(Sorted, Sorted)>,
}

impl Turned {
    /// The draft alone.
    pub fn of(draft: Draft) -> Turned
        ensures same { turned_draft result ≡ plain_draft draft }
        ensures over { (signature : Signature) → HasTermsOf signature draft
            → IsTurnedOf signature result }
    {
        let alloc = *draft.leaves.allocator();
        Turned {
            draft: reversed(draft),
            last: Vec::new(alloc),
        }
    }

    /// What a left draft makes with this one.
    pub fn with_left(self, left: Draft) -> Result<Turned, NoMemory>
        ensures same { IfOk result (λ made. turned_draft made
            ≡ both_drafts (plain_draft left) (turned_draft self)) }
        ensures over { IfOk result (λ made. (signature : Signature)
            → HasTermsOf signature left → IsTurnedOf signature self
            → IsTurnedOf signature made) }
    {
        let alloc = *left.leaves.allocator();
        let met = equations(alloc, values(&left.label), values(&self.draft.label))?;
        let last = appended(self.last, met)?;
        let draft = behind(self.draft, reversed(left))?;
        Ok(Turned { draft, last })
    }

    /// The draft, turned back.
    pub fn whole(self) -> Result<Draft, NoMemory>
        ensures same { IfOk result (λ made. plain_draft made ≡ turned_draft self) }
        ensures over { IfOk result (λ made. (signature : Signature)
            → IsTurnedOf signature self → HasTermsOf signature made) }
    {
        let draft = reversed(self.draft);
        let conditions = appended(draft.conditions, self.last)?;
        Ok(Draft {
            shape: draft.shape,
            label: draft.label,
            leaves: draft.leaves,
            conditions,
        })
    }
}

// The draft with its leaves and conditions from the last to the first.
fn reversed(draft: Draft) -> Draft
    ensures same { plain_draft result ≡ reversed_draft (plain_draft draft) }
    ensures over { (signature : Signature) → HasTermsOf signature draft
        → HasTermsOf signature result }
{
    let mut leaves = draft.leaves;
    let mut conditions = draft.conditions;
    leaves.reverse();
    conditions.reverse();
    Draft {
        shape: draft.shape,
        label: draft.label,
        leaves,
        conditions,
    }
}

// The leaves and conditions of the right draft and then those of the left one, with the shape and
// the label of both.
fn behind(right: Draft, left: Draft) -> Result<Draft, NoMemory>
    ensures same { IfOk result (λ made. plain_draft made
        ≡ put_behind (plain_draft right) (plain_draft left)) }
    ensures over { IfOk result (λ made. (signature : Signature)
        → HasTermsOf signature right → HasTermsOf signature left
        → HasTermsOf signature made) }
{
    let alloc = *left.leaves.allocator();
    let leaves = appended(right.leaves, left.leaves)?;
    let conditions = appended(right.conditions, left.conditions)?;
    let first = shared(alloc, left.shape)?;
    let second = shared(alloc, right.shape)?;
    Ok(Draft {
        shape: Shape::Both(first, second),
        label: left.label,
        leaves,
        conditions,
    })
}
