//! The check of a certificate.

ghost use Rattle.behaviour_semantics.specs.Behaviour.{Behaviour};
ghost use Rattle.behaviour_tree.specs.StateView.{state_of};
ghost use Rattle.bisim_check.specs.Faults.{TellsPairs};
ghost use Rattle.bisim_check.specs.LineView.{line_of};
ghost use Rattle.bisim_check.specs.PairIndex.{IsPairIndex};
ghost use Rattle.bisim_check.specs.Readings.{
  comparison_of,
  pair_among,
  listed_pairs_in,
  reading_of,
  IsKeptReading,
  IsListedPair,
};
ghost use Rattle.bisim_check.specs.Surveys.{AreSurveyed, behaviours_in, IsSideOf, IsStateIn};
ghost use Rattle.certificate_theory.specs.Certificate.{
  accepted,
  first_reading,
  lists_pair,
  refused,
  ListsTheStarts,
};
ghost use Rattle.certificate_theory.specs.Checking.{CertificateComesTo};
ghost use Rattle.certificate_theory.specs.MatchedPairs.{
  AllPairsAreMatched,
  PairFails,
  PairIsMatched,
  PairsFail,
};
ghost use Rattle.certificate_theory.specs.NamedStates.{LinesAreRead, LinesFail};
ghost use Rattle.lotos_base.specs.Equation.{HasSortedSides};
ghost use Rattle.menu_builder.specs.HandedOn.{AreRanksOf, KeepsData};
ghost use Rattle.std.specs.Prelude.{
  ◌≡◌,
  ◌↔◌,
  ◌<◌,
  ◌^◌,
  ◌∷◌,
  [],
  IfOk,
  IsTrue,
  MatchResult,
  OnOk,
  length,
  map,
};

use crate::events::events;
use crate::faults::PairsFault;
use crate::lines::PairLine;
use crate::matching::{check_events, state_at};
use crate::named::{Side, push_state, read_line};
use crate::pair_index::pair_index;
use crate::readings::{Listed, Reading};
use crate::surveys::{Surveyed, survey};
use behaviour_tree::{Spec, State};
use certificate_theory::agreement::{
    closed_entries_are_events, closed_labels_agree_where_identical,
};
use lotos_base::NoMemory;
use menu_builder::Ranks;
use path_order::head_index::HeadIndex;
use sort_terms::Deciding;
use std::alloc::Global;

/// How many pairs the certificate lists, where they show the two start behaviours strongly
/// bisimilar, or else its first fault: line by line what a line names or lists, then the pair of
/// the two starts, then pair by pair the entries that are not matched, left ones before right
/// ones.
pub fn check_pairs<D: Deciding>(
    alloc: Global,
    left: &Spec,
    left_ranks: &Ranks,
    left_start: &State,
    right: &Spec,
    right_ranks: &Ranks,
    right_start: &State,
    lines: &[PairLine],
    data: &mut D,
) -> Result<u32, PairsFault>
    requires left { IsSideOf (D.known_data data.old).signature left.now }
    requires left_ranked { AreRanksOf left.now left_ranks.now }
    requires left_start { IsStateIn (D.known_data data.old).signature left.now left_start.now }
    requires right { IsSideOf (D.known_data data.old).signature right.now }
    requires right_ranked { AreRanksOf right.now right_ranks.now }
    requires right_start { IsStateIn (D.known_data data.old).signature right.now right_start.now }
    requires sides { HasSortedSides (D.known_data data.old) }
    requires few { length lines.now < 2 ^ 32 }
    ensures comes_to { MatchResult result
        (λ number. CertificateComesTo (comparison_of (D.known_data data.old) (D.canon data.old)
        left.now right.now (state_of left_start.now) (state_of right_start.now))
        (map line_of lines.now) (accepted number))
        (TellsPairs (λ fault. CertificateComesTo (comparison_of (D.known_data data.old)
        (D.canon data.old) left.now right.now (state_of left_start.now)
        (state_of right_start.now)) (map line_of lines.now) (refused fault))) }
    ensures same_known { KeepsData D.known_data D.canon data.old data.new }
{
    let one = Side {
        spec: left,
        ranks: left_ranks,
    };
    let other = Side {
        spec: right,
        ranks: right_ranks,
    };
    let mut reading = begin(alloc, &one, left_start, &other, right_start, data)?;
    follow(alloc, &one, &other, &mut reading, lines, data)
}

// What there is before the first line: the two starts.
fn begin<D: Deciding>(
    alloc: Global,
    left: &Side<'_>,
    left_start: &State,
    right: &Side<'_>,
    right_start: &State,
    data: &mut D,
) -> Result<Reading, NoMemory>
    requires left { IsSideOf (D.known_data data.old).signature left.now.spec.now }
    requires left_ranked { AreRanksOf left.now.spec.now left.now.ranks.now }
    requires left_start { IsStateIn (D.known_data data.old).signature left.now.spec.now
        left_start.now }
    requires right { IsSideOf (D.known_data data.old).signature right.now.spec.now }
    requires right_ranked { AreRanksOf right.now.spec.now right.now.ranks.now }
    requires right_start { IsStateIn (D.known_data data.old).signature right.now.spec.now
        right_start.now }
    ensures begins { IfOk result (λ reading. reading_of reading
        ≡ first_reading (comparison_of (D.known_data data.old) (D.canon data.old)
        left.now.spec.now right.now.spec.now (state_of left_start.now)
        (state_of right_start.now))) }
    ensures kept { IfOk result (IsKeptReading (D.known_data data.old) (D.canon data.old)
        left.now.spec.now right.now.spec.now) }
    ensures none { IfOk result (λ reading. reading.pairs.items ≡ []) }
    ensures same_known { KeepsData D.known_data D.canon data.old data.new }
{
    let lefts = start(alloc, left, left_start, data)?;
    let rights = start(alloc, right, right_start, data)?;
    Ok(Reading {
        lefts,
        rights,
        pairs: Vec::new(alloc),
    })
}

// The states of a side before the first line: its start.
fn start<D: Deciding>(
    alloc: Global,
    side: &Side<'_>,
    start: &State,
    data: &mut D,
) -> Result<Vec<Surveyed>, NoMemory>
    requires side { IsSideOf (D.known_data data.old).signature side.now.spec.now }
    requires ranked { AreRanksOf side.now.spec.now side.now.ranks.now }
    requires start { IsStateIn (D.known_data data.old).signature side.now.spec.now start.now }
    ensures one { IfOk result (λ states. behaviours_in states.items
        ≡ state_of start.now ∷ []) }
    ensures surveyed { IfOk result (λ states. AreSurveyed (D.known_data data.old)
        (D.canon data.old) side.now.spec.now states.items) }
    ensures same_known { KeepsData D.known_data D.canon data.old data.new }
{
    let state = start.copy(alloc)?;
    let surveyed = survey(alloc, side.spec, side.ranks, state, data)?;
    let mut states = Vec::new(alloc);
    push_state(&mut states, surveyed)?;
    Ok(states)
}

// Reads the lines, and checks what they list.
fn follow<D: Deciding>(
    alloc: Global,
    left: &Side<'_>,
    right: &Side<'_>,
    reading: &mut Reading,
    lines: &[PairLine],
    data: &mut D,
) -> Result<u32, PairsFault>
    requires left { IsSideOf (D.known_data data.old).signature left.now.spec.now }
    requires left_ranked { AreRanksOf left.now.spec.now left.now.ranks.now }
    requires right { IsSideOf (D.known_data data.old).signature right.now.spec.now }
    requires right_ranked { AreRanksOf right.now.spec.now right.now.ranks.now }
    requires kept { IsKeptReading (D.known_data data.old) (D.canon data.old) left.now.spec.now
        right.now.spec.now reading.old }
    requires none { reading.old.pairs.items ≡ [] }
    requires sides { HasSortedSides (D.known_data data.old) }
    requires few { length lines.now < 2 ^ 32 }
    ensures comes_to { (b c : Behaviour) → reading_of reading.old ≡ first_reading
        (comparison_of (D.known_data data.old) (D.canon data.old) left.now.spec.now
        right.now.spec.now b c) → MatchResult result
        (λ number. CertificateComesTo (comparison_of (D.known_data data.old) (D.canon data.old)
        left.now.spec.now right.now.spec.now b c) (map line_of lines.now) (accepted number))
        (TellsPairs (λ fault. CertificateComesTo (comparison_of (D.known_data data.old)
        (D.canon data.old) left.now.spec.now right.now.spec.now b c) (map line_of lines.now)
        (refused fault))) }
    ensures same_known { KeepsData D.known_data D.canon data.old data.new }
{
    read_lines(alloc, left, right, reading, lines, data)?;
    if !lists_the_starts(lines) {
        return Err(PairsFault::NoStartPair);
    }
    check_listed(alloc, left.spec, right.spec, reading, data)?;
    Ok(reading.pairs.len() as u32)
}

// Reads the lines one after another.
fn read_lines<D: Deciding>(
    alloc: Global,
    left: &Side<'_>,
    right: &Side<'_>,
    reading: &mut Reading,
    lines: &[PairLine],
    data: &mut D,
) -> Result<(), PairsFault>
    requires left { IsSideOf (D.known_data data.old).signature left.now.spec.now }
    requires left_ranked { AreRanksOf left.now.spec.now left.now.ranks.now }
    requires right { IsSideOf (D.known_data data.old).signature right.now.spec.now }
    requires right_ranked { AreRanksOf right.now.spec.now right.now.ranks.now }
    requires kept { IsKeptReading (D.known_data data.old) (D.canon data.old) left.now.spec.now
        right.now.spec.now reading.old }
    requires few { length lines.now < 2 ^ 32 }
    ensures read { (b c : Behaviour) → MatchResult result
        (λ _. LinesAreRead (comparison_of (D.known_data data.old) (D.canon data.old)
        left.now.spec.now right.now.spec.now b c) (reading_of reading.old) 1
        (map line_of lines.now) (reading_of reading.new))
        (TellsPairs (LinesFail (comparison_of (D.known_data data.old) (D.canon data.old)
        left.now.spec.now right.now.spec.now b c) (reading_of reading.old) 1
        (map line_of lines.now))) }
    ensures kept_after { OnOk result (IsKeptReading (D.known_data data.old) (D.canon data.old)
        left.now.spec.now right.now.spec.now reading.new) }
    ensures same_known { KeepsData D.known_data D.canon data.old data.new }
{
    let mut number = 0u32;
    for line in lines {
        number += 1;
        read_line(alloc, left, right, reading, line, number, data)?;
    }
    Ok(())
}

// Whether some line is `p 0 0`.
fn lists_the_starts(lines: &[PairLine]) -> bool
    ensures { IsTrue result ↔ ListsTheStarts (map line_of lines.now) }
{
    for line in lines {
        if is_start_pair(line) {
            return true;
        }
    }
    false
}

// Whether the line is `p 0 0`.
fn is_start_pair(line: &PairLine) -> bool
    ensures { IsTrue result ↔ (line_of line.now ≡ lists_pair 0 0) }
{
    match *line {
        PairLine::Left { .. } => false,
        PairLine::Right { .. } => false,
        PairLine::Pair { left, right } => {
            if left != 0 {
                return false;
            }
            right == 0
        }
    }
}

// Answers nothing where all pairs are matched.
fn check_listed<D: Deciding>(
    alloc: Global,
    left: &Spec,
    right: &Spec,
    reading: &Reading,
    data: &mut D,
) -> Result<(), PairsFault>
    requires left { IsSideOf (D.known_data data.old).signature left.now }
    requires right { IsSideOf (D.known_data data.old).signature right.now }
    requires kept { IsKeptReading (D.known_data data.old) (D.canon data.old) left.now right.now
        reading.now }
    requires sides { HasSortedSides (D.known_data data.old) }
    ensures matched { (b c : Behaviour) → MatchResult result
        (λ _. AllPairsAreMatched (comparison_of (D.known_data data.old) (D.canon data.old)
        left.now right.now b c) (listed_pairs_in reading.now))
        (TellsPairs (PairsFail (comparison_of (D.known_data data.old) (D.canon data.old)
        left.now right.now b c) (listed_pairs_in reading.now))) }
    ensures same_known { KeepsData D.known_data D.canon data.old data.new }
{
    let made = pair_index(alloc, reading)?;
    for number in 0..reading.pairs.len() {
        check_pair(
            alloc,
            left,
            right,
            reading,
            &made,
            &reading.pairs[number],
            data,
        )?;
    }
    Ok(())
}

// Answers nothing where the pair is matched.
fn check_pair<D: Deciding>(
    alloc: Global,
    left: &Spec,
    right: &Spec,
    reading: &Reading,
    index: &HeadIndex,
    listed: &Listed,
    data: &mut D,
) -> Result<(), PairsFault>
    requires left { IsSideOf (D.known_data data.old).signature left.now }
    requires right { IsSideOf (D.known_data data.old).signature right.now }
    requires kept { IsKeptReading (D.known_data data.old) (D.canon data.old) left.now right.now
        reading.now }
    requires indexed { IsPairIndex (listed_pairs_in reading.now) index.now }
    requires listed { IsListedPair reading.now.lefts.items reading.now.rights.items listed.now }
    requires sides { HasSortedSides (D.known_data data.old) }
    ensures matched { (b c : Behaviour) → MatchResult result
        (λ _. PairIsMatched (comparison_of (D.known_data data.old) (D.canon data.old) left.now
        right.now b c) (listed_pairs_in reading.now) (pair_among reading.now.lefts.items
        reading.now.rights.items listed.now))
        (TellsPairs (PairFails (comparison_of (D.known_data data.old) (D.canon data.old)
        left.now right.now b c) (listed_pairs_in reading.now) (pair_among reading.now.lefts.items
        reading.now.rights.items listed.now))) }
    ensures same_known { KeepsData D.known_data D.canon data.old data.new }
{
    closed_entries_are_events();
    closed_labels_agree_where_identical();
    let one = state_at(&reading.lefts, listed.left);
    let other = state_at(&reading.rights, listed.right);
    let moves = events(alloc, left, one, data)?;
    let answers = events(alloc, right, other, data)?;
    check_events(
        left,
        &moves,
        right,
        &answers,
        reading,
        index,
        false,
        listed.line,
    )?;
    check_events(
        right,
        &answers,
        left,
        &moves,
        reading,
        index,
        true,
        listed.line,
    )
}
