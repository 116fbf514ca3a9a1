//! The drafts of a side of a parallel: those of moves alone, and those that may meet.

ghost use Rattle.behaviour_semantics.specs.WellFormed.{Every};
ghost use Rattle.behaviour_tree.specs.BehaviourView.{meet_of};
ghost use Rattle.draft_parts.specs.Parting.{alone_among, meeting_among};
ghost use Rattle.draft_parts.specs.DraftTerms.{HasTermsOf};
ghost use Rattle.std.specs.Prelude.{◌≡◌, [], IfOk, true};
ghost use Rattle.lotos_base.specs.Signature.{Signature};

use crate::rules::may_move_alone;
use behaviour_tree::Meet;
use event_offers::Draft;
use lotos_base::NoMemory;

/// The drafts of a side of a parallel.
#[derive(Debug, Drop)]
pub struct SideDrafts {
    /// Those of moves that the side makes alone, in order.
    pub alone: Vec<Draft>,
    /// The others, in order.
    pub meeting: Vec<Draft>,
}

/// The drafts of a side of a parallel, those of moves alone apart from the others.
pub fn parted(drafts: Vec<Draft>, meet: &Meet) -> Result<SideDrafts, NoMemory>
    ensures alone { IfOk result
        (λ made. made.alone.items ≡ alone_among (meet_of meet.now) drafts.items) }
    ensures meeting { IfOk result
        (λ made. made.meeting.items ≡ meeting_among (meet_of meet.now) drafts.items) }
{
    let alloc = *drafts.allocator();
    if all_alone(&drafts, meet) {
        return Ok(SideDrafts {
            alone: drafts,
            meeting: Vec::new(alloc),
        });
    }
    let mut alone = Vec::new(alloc);
    let mut meeting = Vec::new(alloc);
    for draft in drafts {
        if may_move_alone(meet, &draft.label) {
            alone.push(draft)?;
        } else {
            meeting.push(draft)?;
        }
    }
    Ok(SideDrafts { alone, meeting })
}

// Whether each of the drafts moves alone.
fn all_alone(drafts: &Vec<Draft>, meet: &Meet) -> bool
    ensures alone { result ≡ true
        → drafts.now.items ≡ alone_among (meet_of meet.now) drafts.now.items }
    ensures meeting { result ≡ true
        → [] ≡ meeting_among (meet_of meet.now) drafts.now.items }
{
    for draft in drafts {
        if !may_move_alone(meet, &draft.label) {
            return false;
        }
    }
    true
}
