//! The listed pairs by digests of their states: a pair is found without looking through all pairs.

ghost use Rattle.behaviour_tree.specs.StateView.{state_of};
ghost use Rattle.bisim_check.specs.PairIndex.{bucket_of, AddsNumber, IsPairIndex};
ghost use Rattle.bisim_check.specs.Readings.{pair_among, listed_pairs_in, ArePlaced, IsPlacedPair};
ghost use Rattle.std.specs.Prelude.{◌≡◌, ℕ, IfOk, OnOk, length};

use crate::matching::state_at;
use crate::readings::{Listed, Reading};
use behaviour_tree::mixing::mix;
use behaviour_tree::{State, node_digest};
use lotos_base::NoMemory;
use path_order::head_index::HeadIndex;
use std::alloc::Global;

/// The numbers of the pairs, each in the bucket of its states.
pub fn pair_index(alloc: Global, reading: &Reading) -> Result<HeadIndex, NoMemory>
    requires { ArePlaced reading.now }
    ensures { IfOk result (IsPairIndex (listed_pairs_in reading.now)) }
{
    let mut made = HeadIndex::new(alloc, 65_536)?;
    for number in 0..reading.pairs.len() {
        file(&mut made, reading, &reading.pairs[number], number)?;
    }
    Ok(made)
}

// Adds the number of a pair to the bucket of its states.
fn file(
    index: &mut HeadIndex,
    reading: &Reading,
    listed: &Listed,
    number: usize,
) -> Result<(), NoMemory>
    requires room { length index.old.numbers.items ≡ 65536 }
    requires placed { IsPlacedPair reading.now listed.now }
    ensures filed { OnOk result (AddsNumber
        (pair_among reading.now.lefts.items reading.now.rights.items listed.now) number index.old
        index.new) }
    ensures room_after { length index.new.numbers.items ≡ 65536 }
{
    let left = state_at(&reading.lefts, listed.left);
    let right = state_at(&reading.rights, listed.right);
    index.add(bucket(&left.state, &right.state) as usize, number)
}

/// The bucket of pairs of these states: of 65,536 buckets one that is made of their digests.
#[tactic(auto, using(crate::proofs::IndexLemmas::bucket_told))]
pub fn bucket(left: &State, right: &State) -> u32
    ensures { result ≡ bucket_of (state_of left.now) (state_of right.now) }
{
    (mix(node_digest(left.node()), node_digest(right.node())) % 65_536) as u32
}
