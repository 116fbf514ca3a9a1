//! The summary of the walk.

ghost use Rattle.demo_walks.specs.DemoSummary.{IsSummary, sizes_line, text_of_last};
ghost use Rattle.demo_walks.specs.WalkView.{written_summary};
ghost use Rattle.history_lines.specs.HandedOn.{
  IsLawfulSession,
  basis_over,
  book_canon,
  label_of,
  progress_of,
};
ghost use Rattle.lotos_base.specs.Name.{spelling};
ghost use Rattle.sort_terms.specs.EquationView.{data_of};
ghost use Rattle.sort_terms.specs.SignatureView.{signature_of};
ghost use Rattle.std.specs.Prelude.{◌≡◌, ◌++◌, ℕ, [], List, MatchResult, OnOk, map, option_map};

use crate::tallies::Tally;
use crate::values::CellValues;
use crate::walking::walk;
use history_lines::{Book, Label, MenuMaker, Session, Spec, label_text, push_number, push_text};
use lotos_base::NoMemory;
use sort_terms::{Flat, Signature};
use std::alloc::Global;

/// Walks through the session, which has taken no step, and appends the summary of the walk.
///
/// The walk has four rounds. In a round each cell, from 0 on, takes the step by the entry whose
/// number is its own and two, with one value: 0 for the first cell, and 1 for each other one.
/// Behind the rounds comes one step by the first entry, without values. A step that the session
/// refuses is left out.
///
/// The summary has five lines: `demo` and the number of cells, the sizes of the data, `steps` and
/// how many were taken, `entries` and the sum of the lengths of the menus at the start and behind
/// each step, `last` and the last label, or `none`.
///
/// Refused for want of memory alone, and then the text is as it was.
pub fn write_summary<M: MenuMaker>(
    alloc: Global,
    session: &mut Session<M>,
    book: &mut Book,
    cells: u32,
    into: &mut Vec<u8>,
) -> Result<(), NoMemory>
    requires lawful { IsLawfulSession M.suits (data_of book.old.flat) (book_canon book.old)
        session.old }
    requires at_start { session.old.course.history.items ≡ [] }
    ensures { MatchResult result
        (λ _. (text : List ℕ) × (into.new.items ≡ into.old.items ++ text)
        × IsSummary (basis_over (data_of book.old.flat) (book_canon book.old) session.old.spec)
        (progress_of session.old.course).situation cells text)
        (λ _. into.new.items ≡ into.old.items) }
{
    let values = CellValues::read(alloc, &book.flat().signature)?;
    let mut tally = Tally::begin(session);
    walk(alloc, &values, cells, session, &mut tally, book)?;
    let mut text = Vec::new(alloc);
    push_summary(session.spec(), &tally, book.flat(), cells, &mut text)?;
    Ok(into.extend_from_slice(text.as_slice())?)
}

// Appends the summary of a walk that is done.
fn push_summary(
    spec: &Spec,
    tally: &Tally,
    data: &Flat,
    cells: u32,
    into: &mut Vec<u8>,
) -> Result<(), NoMemory>
    ensures { OnOk result (into.new.items ≡ into.old.items
        ++ written_summary data.now spec.now cells tally.now) }
{
    push_text(into, b"demo ")?;
    push_number(into, cells as u128)?;
    push_text(into, b"\n")?;
    push_sizes(data, into)?;
    push_text(into, b"steps ")?;
    push_number(into, tally.steps as u128)?;
    push_text(into, b"\nentries ")?;
    push_number(into, tally.entries)?;
    push_text(into, b"\nlast ")?;
    push_last(&data.signature, spec, &tally.last, into)?;
    push_text(into, b"\n")
}

// Appends the line of the sizes of the data.
fn push_sizes(data: &Flat, into: &mut Vec<u8>) -> Result<(), NoMemory>
    ensures { OnOk result (into.new.items ≡ into.old.items ++ sizes_line (data_of data.now)) }
{
    push_text(into, b"data: ")?;
    push_number(into, data.signature.sorts().len() as u128)?;
    push_text(into, b" sorts, ")?;
    push_number(into, data.signature.ops().len() as u128)?;
    push_text(into, b" operations, ")?;
    push_number(into, data.equations.len() as u128)?;
    push_text(into, b" equations\n")
}

// Appends the label, or `none`.
fn push_last(
    signature: &Signature,
    spec: &Spec,
    label: &Option<Label>,
    into: &mut Vec<u8>,
) -> Result<(), NoMemory>
    ensures { OnOk result (into.new.items ≡ into.old.items
        ++ text_of_last (signature_of signature.now) (map spelling spec.now.gate_names.items)
        (option_map label_of label.now)) }
{
    match label {
        None => push_text(into, b"none"),
        Some(label) => label_text(signature, spec, label, into),
    }
}
