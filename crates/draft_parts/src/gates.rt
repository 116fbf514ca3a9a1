//! Gate choices and gate `par`.

ghost use Rattle.behaviour_semantics.specs.WellFormed.{Every};
ghost use Rattle.behaviour_tree.specs.BehaviourView.{meet_of};
ghost use Rattle.draft_parts.specs.Lists.{plain_drafts};
ghost use Rattle.draft_parts.specs.HasDrafts.{beside_drafts, gate_drafts, row_drafts};
ghost use Rattle.draft_parts.specs.DraftTerms.{HasTermsOf};
ghost use Rattle.draft_parts.specs.Made.{AreThese};
ghost use Rattle.draft_parts.specs.RowDrafts.{IsRowSideOf, IsThisSide, side_drafts};
ghost use Rattle.draft_parts.specs.Rows.{call_pairs, calls_copied, copied};
ghost use Rattle.std.specs.Prelude.{◌≡◌, if◌then◌else◌, IfOk};
ghost use Rattle.lotos_base.specs.Signature.{Signature};

use crate::parts::draft_copies;
use crate::rows::Side;
use crate::rules::gate_under;
use crate::{Rule, Variant};
use behaviour_tree::Meet;
use event_offers::Draft;
use event_offers::lists::appended;
use lotos_base::NoMemory;
use std::alloc::Global;

/// The drafts of a gate choice: for each gate of the list those of the part, relabelled.
pub fn at_gates(
    alloc: Global,
    formal: u32,
    gates: &Vec<u32>,
    part: &Vec<Draft>,
) -> Result<Vec<Draft>, NoMemory>
    ensures { IfOk result (λ made. (signature : Signature)
        → Every (HasTermsOf signature) part.now.items
        → AreThese signature (gate_drafts formal 0 gates.now.items (plain_drafts part.now.items))
        made.items) }
{
    let mut made = Vec::new(alloc);
    let mut position = 0;
    for gate in gates {
        let pairs = [(formal, *gate)];
        let copies = draft_copies(alloc, part)?;
        let next = Rule::Relabelled(&pairs, Variant::Gate(position)).apply_to_all(copies)?;
        made = appended(made, next)?;
        match position.checked_add(1) {
            Some(later) => position = later,
            None => return Err(NoMemory),
        }
    }
    Ok(made)
}

/// The drafts of a gate `par` whose part is neither a call nor `stop`.
pub fn copies_beside(
    formal: u32,
    gates: &Vec<u32>,
    meet: &Meet,
    part: &Vec<Draft>,
    first: u64,
) -> Result<Vec<Draft>, NoMemory>
    ensures { IfOk result (λ made. (signature : Signature)
        → Every (HasTermsOf signature) part.now.items
        → AreThese signature (row_drafts signature (meet_of meet.now) first
        (copied formal gates.now.items (plain_drafts part.now.items))) made.items) }
{
    let alloc = *gates.allocator();
    let mut at = gates.len();
    let mut made = Side::Drafts(Vec::new(alloc));
    while at > 0 {
        at -= 1;
        let pairs = [(formal, gates[at])];
        let copies = draft_copies(alloc, part)?;
        let copy = Rule::Relabelled(&pairs, Variant::Relabelled).apply_to_all(copies)?;
        made = joined(copy, made, meet, first, at + 1 == gates.len())?;
    }
    made.drafts(first)
}

/// The drafts of a gate `par` of a call, from those of the body of its process.
pub fn calls_beside(
    formal: u32,
    gates: &Vec<u32>,
    meet: &Meet,
    call: &Call<'_>,
    part: &Vec<Draft>,
    first: u64,
) -> Result<Vec<Draft>, NoMemory>
    ensures { IfOk result (λ made. (signature : Signature)
        → Every (HasTermsOf signature) part.now.items
        → AreThese signature (row_drafts signature (meet_of meet.now) first
        (calls_copied formal gates.now.items call.now.formals.now.items
        call.now.actuals.now.items (plain_drafts part.now.items))) made.items) }
{
    let alloc = *gates.allocator();
    let mut at = gates.len();
    let mut made = Side::Drafts(Vec::new(alloc));
    while at > 0 {
        at -= 1;
        let pairs = call.relabelled(alloc, &[(formal, gates[at])])?;
        let copies = draft_copies(alloc, part)?;
        let copy = Rule::Relabelled(pairs.as_slice(), Variant::Called).apply_to_all(copies)?;
        made = joined(copy, made, meet, first, at + 1 == gates.len())?;
    }
    made.drafts(first)
}

// The drafts of the left one with those of the rest, or the left ones alone where they are the
// last.
fn joined(
    lefts: Vec<Draft>,
    rest: Side,
    meet: &Meet,
    first: u64,
    last: bool,
) -> Result<Side, NoMemory>
    ensures { IfOk result (λ made. (signature : Signature)
        → Every (HasTermsOf signature) lefts.items → IsRowSideOf signature rest
        → IsThisSide signature first (if last then plain_drafts lefts.items else beside_drafts
        signature (meet_of meet.now) first (plain_drafts lefts.items) (side_drafts first rest))
        made) }
{
    if last {
        return Ok(Side::of(lefts));
    }
    rest.beside(lefts, meet, first)
}

/// The gates of a call: the formal ones of its process, and the actual ones.
#[derive(Drop)]
pub struct Call<'a> {
    /// The formal gates.
    pub formals: &'a Vec<u32>,
    /// The actual gates.
    pub actuals: &'a Vec<u32>,
}

impl Call<'_> {
    /// The relabelling of the call, its actual gates relabelled.
    pub fn relabelled(
        &self,
        alloc: Global,
        pairs: &[(u32, u32)],
    ) -> Result<Vec<(u32, u32)>, NoMemory>
        ensures { IfOk result (λ made. made.items
            ≡ call_pairs self.now.formals.now.items self.now.actuals.now.items pairs.now) }
    {
        let mut made = Vec::with_capacity(alloc, self.formals.len())?;
        for i in 0..self.formals.len() {
            if i >= self.actuals.len() {
                return Ok(made);
            }
            made.push((self.formals[i], gate_under(pairs, self.actuals[i])))?;
        }
        Ok(made)
    }
}
