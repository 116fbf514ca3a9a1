//! The walk, step by step.

ghost use Rattle.demo_walks.specs.DemoWalk.{
  Goes,
  GoesThrough,
  cell_step,
  round_steps,
  rounds_steps,
  walk_steps,
};
ghost use Rattle.demo_walks.specs.WalkView.{AreGivenValues, IsOnWalk, walk_reached, walk_values_of};
ghost use Rattle.history_lines.specs.HandedOn.{
  AreGiven,
  KeepsData,
  StepRefusal as PlainRefusal,
  TellsStep,
  basis_over,
  terms_of,
};
ghost use Rattle.std.specs.Prelude.{◌≡◌, OnOk, Option, Some};

use crate::tallies::Tally;
use crate::values::CellValues;
use history_lines::{MenuMaker, Session, StepRefusal};
use lotos_base::NoMemory;
use sort_terms::{Deciding, Sorted};
use std::alloc::Global;

/// Walks through the session: four rounds in which each cell puts its value, and then the store
/// tells the length of its list. A step that the session refuses is left out.
pub fn walk<M: MenuMaker, D: Deciding>(
    alloc: Global,
    values: &CellValues,
    cells: u32,
    session: &mut Session<M>,
    tally: &mut Tally,
    data: &mut D,
) -> Result<(), NoMemory>
    requires on_walk { IsOnWalk M.suits (D.known_data data.old) (D.canon data.old) session.old
        tally.old }
    requires given { AreGivenValues (D.known_data data.old).signature values.now }
    ensures leads { OnOk result (GoesThrough
        (basis_over (D.known_data data.old) (D.canon data.old) session.old.spec)
        (walk_steps (walk_values_of values.now) cells) (walk_reached session.old)
        (walk_reached session.new)) }
    ensures on_walk_after { OnOk result (IsOnWalk M.suits (D.known_data data.old)
        (D.canon data.old) session.new tally.new) }
    ensures same_spec { session.new.spec ≡ session.old.spec }
    ensures same_known { KeepsData D.known_data D.canon data.old data.new }
{
    rounds(alloc, values, cells, session, tally, data)?;
    step(1, Vec::new(alloc), session, tally, data)
}

// Four rounds.
fn rounds<M: MenuMaker, D: Deciding>(
    alloc: Global,
    values: &CellValues,
    cells: u32,
    session: &mut Session<M>,
    tally: &mut Tally,
    data: &mut D,
) -> Result<(), NoMemory>
    requires on_walk { IsOnWalk M.suits (D.known_data data.old) (D.canon data.old) session.old
        tally.old }
    requires given { AreGivenValues (D.known_data data.old).signature values.now }
    ensures leads { OnOk result (GoesThrough
        (basis_over (D.known_data data.old) (D.canon data.old) session.old.spec)
        (rounds_steps (walk_values_of values.now) cells 4) (walk_reached session.old)
        (walk_reached session.new)) }
    ensures on_walk_after { OnOk result (IsOnWalk M.suits (D.known_data data.old)
        (D.canon data.old) session.new tally.new) }
    ensures same_spec { session.new.spec ≡ session.old.spec }
    ensures same_known { KeepsData D.known_data D.canon data.old data.new }
{
    for _ in 0..4u8 {
        round(alloc, values, cells, session, tally, data)?;
    }
    Ok(())
}

// A round: each cell puts its value.
fn round<M: MenuMaker, D: Deciding>(
    alloc: Global,
    values: &CellValues,
    cells: u32,
    session: &mut Session<M>,
    tally: &mut Tally,
    data: &mut D,
) -> Result<(), NoMemory>
    requires on_walk { IsOnWalk M.suits (D.known_data data.old) (D.canon data.old) session.old
        tally.old }
    requires given { AreGivenValues (D.known_data data.old).signature values.now }
    ensures leads { OnOk result (GoesThrough
        (basis_over (D.known_data data.old) (D.canon data.old) session.old.spec)
        (round_steps (walk_values_of values.now) cells) (walk_reached session.old)
        (walk_reached session.new)) }
    ensures on_walk_after { OnOk result (IsOnWalk M.suits (D.known_data data.old)
        (D.canon data.old) session.new tally.new) }
    ensures same_spec { session.new.spec ≡ session.old.spec }
    ensures same_known { KeepsData D.known_data D.canon data.old data.new }
{
    for cell in 0..cells {
        visit(alloc, values, cell, session, tally, data)?;
    }
    Ok(())
}

// The cell with this number puts its value.
fn visit<M: MenuMaker, D: Deciding>(
    alloc: Global,
    values: &CellValues,
    cell: u32,
    session: &mut Session<M>,
    tally: &mut Tally,
    data: &mut D,
) -> Result<(), NoMemory>
    requires on_walk { IsOnWalk M.suits (D.known_data data.old) (D.canon data.old) session.old
        tally.old }
    requires given { AreGivenValues (D.known_data data.old).signature values.now }
    ensures goes { OnOk result (Goes
        (basis_over (D.known_data data.old) (D.canon data.old) session.old.spec)
        (cell_step (walk_values_of values.now) cell) (walk_reached session.old)
        (walk_reached session.new)) }
    ensures on_walk_after { OnOk result (IsOnWalk M.suits (D.known_data data.old)
        (D.canon data.old) session.new tally.new) }
    ensures same_spec { session.new.spec ≡ session.old.spec }
    ensures same_known { KeepsData D.known_data D.canon data.old data.new }
{
    match values.put_by(alloc, cell)? {
        None => Ok(()),
        Some(given) => step(cell as u64 + 2, given, session, tally, data),
    }
}

// Takes the step by the entry with this number and these values, if it is not refused.
fn step<M: MenuMaker, D: Deciding>(
    number: u64,
    values: Vec<Sorted>,
    session: &mut Session<M>,
    tally: &mut Tally,
    data: &mut D,
) -> Result<(), NoMemory>
    requires on_walk { IsOnWalk M.suits (D.known_data data.old) (D.canon data.old) session.old
        tally.old }
    requires given { AreGiven (D.known_data data.old).signature values.items }
    ensures goes { OnOk result (Goes
        (basis_over (D.known_data data.old) (D.canon data.old) session.old.spec)
        (record { number = number; values = Some (terms_of values.items) })
        (walk_reached session.old)
        (walk_reached session.new)) }
    ensures on_walk_after { OnOk result (IsOnWalk M.suits (D.known_data data.old)
        (D.canon data.old) session.new tally.new) }
    ensures same_spec { session.new.spec ≡ session.old.spec }
    ensures same_known { KeepsData D.known_data D.canon data.old data.new }
{
    match session.step(number, values, data) {
        Ok(label) => {
            tally.note(session, label);
            Ok(())
        }
        Err(refusal) => left_out(refusal),
    }
}

// A step that is refused is left out, but for want of memory.
fn left_out(refusal: StepRefusal) -> Result<(), NoMemory>
    ensures { OnOk result ((expected : Option PlainRefusal) → TellsStep expected refusal
        → (why : PlainRefusal) × (expected ≡ Some why)) }
{
    match refusal {
        StepRefusal::NoEntry { .. } => Ok(()),
        StepRefusal::ValueCount { .. } => Ok(()),
        StepRefusal::ValueSort { .. } => Ok(()),
        StepRefusal::Unmet { .. } => Ok(()),
        StepRefusal::NoMemory => Err(NoMemory),
    }
}
