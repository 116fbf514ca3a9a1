//! The drafts of the forms that begin with one event.

ghost use Rattle.draft_parts.specs.Environments.{AreOffersReady, ArePairsOf, AreResultsReady, SuitsTest};
ghost use Rattle.draft_parts.specs.HandedOn.{KeepsData};
ghost use Rattle.draft_parts.specs.Made.{AreThese, draft_of_inner};
ghost use Rattle.draft_parts.specs.Offered.{asked_pairs};
ghost use Rattle.draft_parts.specs.OpenDrafts.{HasTests, acted, ended_with};
ghost use Rattle.lotos_base.specs.Signature.{Signature};
ghost use Rattle.std.specs.Prelude.{◌++◌, ◌∷◌, [], IfOk};
ghost use Rattle.term_match.specs.SubstView.{profiled_pairs};

use behaviour_tree::{ExitValue, Offer, Test};
use draft_parts::{Draft, action_draft, exit_draft, inner_draft, one};
use lotos_base::NoMemory;
use sort_terms::{Deciding, Sorted};
use std::alloc::Global;

/// The draft of an `exit` with these values under the environment, alone in a list.
#[inline(never)]
pub fn exit_moves<D: Deciding>(
    results: &Vec<ExitValue>,
    environment: &Vec<(u64, Sorted)>,
    first: u64,
    decider: &mut D,
) -> Result<Vec<Draft>, NoMemory>
    requires { AreResultsReady (D.known_data decider.old).signature
        (profiled_pairs environment.now.items) results.now.items }
    ensures these { IfOk result (λ made. AreThese (D.known_data decider.old).signature
        (ended_with (D.canon decider.old) results.now.items
        (profiled_pairs environment.now.items) first ∷ []) made.items) }
    ensures same_known { KeepsData D.known_data D.canon decider.old decider.new }
{
    let draft = exit_draft(results, environment, first, decider)?;
    one(*environment.allocator(), draft)
}

/// The draft of an action at a gate under the environment, alone in a list.
#[inline(never)]
pub fn action_moves<D: Deciding>(
    gate: u32,
    offers: &Vec<Offer>,
    test: &Option<Test>,
    environment: &Vec<(u64, Sorted)>,
    first: u64,
    decider: &mut D,
) -> Result<Vec<Draft>, NoMemory>
    requires offers { AreOffersReady (D.known_data decider.old).signature
        (profiled_pairs environment.now.items) offers.now.items }
    requires test { SuitsTest (asked_pairs first offers.now.items
        ++ profiled_pairs environment.now.items) test.now }
    ensures these { IfOk result (λ made.
        ArePairsOf (D.known_data decider.old).signature (asked_pairs first offers.now.items
        ++ profiled_pairs environment.now.items)
        → HasTests (D.known_data decider.old).signature test.now
        → AreThese (D.known_data decider.old).signature (acted (D.canon decider.old) gate
        offers.now.items test.now (profiled_pairs environment.now.items) first ∷ [])
        made.items) }
    ensures same_known { KeepsData D.known_data D.canon decider.old decider.new }
{
    let draft = action_draft(gate, offers, test, environment, first, decider)?;
    one(*environment.allocator(), draft)
}

/// The draft of `i`, alone in a list.
#[inline(never)]
pub fn inner_moves(alloc: Global) -> Result<Vec<Draft>, NoMemory>
    ensures { IfOk result (λ made. (signature : Signature)
        → AreThese signature (draft_of_inner ∷ []) made.items) }
{
    one(alloc, inner_draft(alloc))
}
