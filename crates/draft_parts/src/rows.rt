//! Drafts side by side that all meet in one event. What they make together is made at once, so that
//! the variables of each are raised once.

ghost use Rattle.behaviour_semantics.specs.Draft.{draft_with};
ghost use Rattle.behaviour_semantics.specs.Join.{raised_from};
ghost use Rattle.behaviour_semantics.specs.WellFormed.{Every};
ghost use Rattle.behaviour_tree.specs.BehaviourView.{meet_of};
ghost use Rattle.draft_parts.specs.DraftTerms.{HasTermsOf};
ghost use Rattle.draft_parts.specs.HasDrafts.{beside_drafts};
ghost use Rattle.draft_parts.specs.Lists.{plain_drafts};
ghost use Rattle.draft_parts.specs.Made.{AreThese};
ghost use Rattle.draft_parts.specs.RowDrafts.{
  draft_of_row,
  IsOneMet,
  IsRowOf,
  IsRowSideOf,
  IsThisSide,
  number_of_row_leaves,
  leftmost_in_row,
  side_drafts,
};
ghost use Rattle.event_offers.specs.OfferView.{plain_draft};
ghost use Rattle.lotos_base.specs.Signature.{Signature};
ghost use Rattle.std.specs.Prelude.{◌≡◌, ◌∷◌, [], IfOk, IsTrue, ℕ};

use crate::meeting::may_meet;
use crate::parts::{beside, one};
use crate::turned::Turned;
use behaviour_tree::Meet;
use event_offers::Draft;
use event_offers::lists::appended;
use event_offers::renaming::Renaming;
use lotos_base::NoMemory;

/// Drafts that stand side by side, each of which meets what stands on its right.
#[derive(Debug, Drop)]
pub struct Row {
    /// The rightmost draft.
    pub right: Draft,
    /// The others, from right to left.
    pub lefts: Vec<Draft>,
}

/// The drafts of the right side of a parallel.
#[derive(Debug, Drop)]
pub enum Side {
    /// All of them.
    Drafts(Vec<Draft>),
    /// The one that a row of drafts makes.
    Met(Row),
}

impl Side {
    /// The side with the drafts.
    pub fn of(drafts: Vec<Draft>) -> Side
        ensures { (signature : Signature) → Every (HasTermsOf signature) drafts.items
            → (first : ℕ) → IsThisSide signature first (plain_drafts drafts.items) result }
    {
        let alloc = *drafts.allocator();
        let mut rest = drafts;
        if rest.len() != 1 {
            return Side::Drafts(rest);
        }
        match rest.pop() {
            Some(right) => Side::Met(Row {
                right,
                lefts: Vec::new(alloc),
            }),
            None => Side::Drafts(rest),
        }
    }

    /// The drafts, where the numbers of variables from `first` on are raised.
    pub fn drafts(self, first: u64) -> Result<Vec<Draft>, NoMemory>
        ensures { IfOk result (λ made. (signature : Signature) → IsRowSideOf signature self
            → AreThese signature (side_drafts first self) made.items) }
    {
        match self {
            Side::Drafts(drafts) => Ok(drafts),
            Side::Met(row) => row.drafts(first),
        }
    }

    /// The drafts of the left side with those of this one.
    pub fn beside(self, lefts: Vec<Draft>, meet: &Meet, first: u64) -> Result<Side, NoMemory>
        ensures { IfOk result (λ made. (signature : Signature)
            → Every (HasTermsOf signature) lefts.items → IsRowSideOf signature self
            → IsThisSide signature first (beside_drafts signature (meet_of meet.now) first
            (plain_drafts lefts.items) (side_drafts first self)) made) }
    {
        match self {
            Side::Drafts(rights) => {
                let made = beside(lefts, rights, meet, first)?;
                Ok(Side::of(made))
            }
            Side::Met(row) => row.beside(lefts, meet, first),
        }
    }
}

impl Row {
    // The drafts of the left side with the one of the row.
    fn beside(self, lefts: Vec<Draft>, meet: &Meet, first: u64) -> Result<Side, NoMemory>
        ensures { IfOk result (λ made. (signature : Signature)
            → Every (HasTermsOf signature) lefts.items → IsRowOf signature self
            → IsThisSide signature first (beside_drafts signature (meet_of meet.now) first
            (plain_drafts lefts.items) (draft_of_row first self ∷ [])) made) }
    {
        if self.is_met_by_one(&lefts, meet) {
            let lefts = appended(self.lefts, lefts)?;
            return Ok(Side::Met(Row {
                right: self.right,
                lefts,
            }));
        }
        let rights = self.drafts(first)?;
        let made = beside(lefts, rights, meet, first)?;
        Ok(Side::of(made))
    }

    // Whether there is one left draft, and it meets the row.
    fn is_met_by_one(&self, lefts: &Vec<Draft>, meet: &Meet) -> bool
        ensures { IsTrue result → IsOneMet (meet_of meet.now) self.now lefts.now.items }
    {
        if lefts.len() != 1 {
            return false;
        }
        may_meet(meet, &lefts[0].label, &self.leftmost().label)
    }

    // The leftmost draft.
    fn leftmost(&self) -> &Draft
        ensures { result.now ≡ leftmost_in_row self.now.right self.now.lefts.items }
    {
        match self.lefts.last() {
            Some(left) => left,
            None => &self.right,
        }
    }

    // The list of the one draft of the row.
    fn drafts(self, first: u64) -> Result<Vec<Draft>, NoMemory>
        ensures { IfOk result (λ made. (signature : Signature) → IsRowOf signature self
            → AreThese signature (draft_of_row first self ∷ []) made.items) }
    {
        let alloc = *self.lefts.allocator();
        let made = self.draft(first)?;
        one(alloc, made)
    }

    // The draft of the row. The variables of each draft are raised by the number of leaves on its
    // left.
    fn draft(self, first: u64) -> Result<Draft, NoMemory>
        ensures same { IfOk result (λ made. plain_draft made ≡ draft_of_row first self) }
        ensures over { IfOk result (λ made. (signature : Signature) → IsRowOf signature self
            → HasTermsOf signature made) }
    {
        let mut by = leaves_of(&self.lefts)?;
        let mut made = Turned::of(raised(self.right, first, by)?);
        for left in self.lefts {
            by = by.saturating_sub(left.leaves.len() as u64);
            let left = raised(left, first, by)?;
            made = made.with_left(left)?;
        }
        made.whole()
    }
}

// How many leaves the drafts have.
fn leaves_of(drafts: &Vec<Draft>) -> Result<u64, NoMemory>
    ensures { IfOk result (λ n. n ≡ number_of_row_leaves (plain_drafts drafts.now.items)) }
{
    let mut count: u64 = 0;
    for draft in drafts {
        match count.checked_add(draft.leaves.len() as u64) {
            Some(sum) => count = sum,
            None => return Err(NoMemory),
        }
    }
    Ok(count)
}

// The draft with the variables from the first one on raised.
fn raised(draft: Draft, first: u64, by: u64) -> Result<Draft, NoMemory>
    ensures same { IfOk result (λ made. plain_draft made
        ≡ draft_with (raised_from first by) (plain_draft draft)) }
    ensures over { IfOk result (λ made. (signature : Signature)
        → HasTermsOf signature draft → HasTermsOf signature made) }
{
    let renaming = Renaming::Raised { from: first, by };
    let label = renaming.label(&draft.label)?;
    let leaves = renaming.all_changed(draft.leaves)?;
    let conditions = renaming.changed_conditions(draft.conditions)?;
    Ok(Draft {
        shape: draft.shape,
        label,
        leaves,
        conditions,
    })
}
