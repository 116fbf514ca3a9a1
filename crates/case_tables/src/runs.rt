//! Runs of cases over the objects in memory.

use crate::cases::{Case, File, Left, Outcome, text_named};
use crate::faults::Fault;
use crate::outside::{CutSource, SlowSink};
use lotos_base::{GetFault, MemShelf, MemSink, MemSource, Shelf};
use lotos_top::{Ended, run};
use std::alloc::Global;
use std::mem;

/// How many bytes an output has room for where the case does not say it.
const ROOM: u64 = 1_000_000;

/// The most bytes of a text at the end.
const TEXT_LIMIT: usize = 100_000_000;

/// Runs the case over its own texts and those of all cases, and answers what came of it. What the
/// run uses up is taken out of the case.
pub fn run_case(alloc: Global, case: &mut Case, shared: &[File]) -> Result<Outcome, Fault> {
    let mut shelf = shelf_of(alloc, case, shared)?;
    let mut input = input_of(alloc, case);
    let mut output = output_of(alloc, case)?;
    let words = case.words.take().unwrap_or(Vec::new(alloc));
    let ended = run(alloc, words.as_slice(), &mut shelf, &mut input, &mut output);
    let printed = Vec::from_slice(alloc, output.written())?;
    Ok(Outcome {
        prints: Some(printed),
        status: status_of(ended, &input, &output),
        leaves: left_on(alloc, &mut shelf, case)?,
    })
}

/// The status of the run, and none where it called an input or an output behind its end.
fn status_of(ended: Ended, input: &CutSource, output: &SlowSink) -> Option<u64> {
    if input.is_read_on() || output.is_written_on() {
        return None;
    }
    Some(u64::from(ended.status()))
}

/// The shelf of the case.
fn shelf_of(alloc: Global, case: &mut Case, shared: &[File]) -> Result<MemShelf, Fault> {
    for file in shared {
        if text_named(case.files.as_slice(), file.0.as_str()).is_none() {
            let name = String::from_str(alloc, file.0.as_str())?;
            let text = Vec::from_slice(alloc, file.1.as_slice())?;
            case.files.push((name, text))?;
        }
    }
    let failing = Vec::from_slice(alloc, case.fails.shelf.as_slice())?;
    let files = mem::replace(&mut case.files, Vec::new(alloc));
    Ok(MemShelf::new(files, failing))
}

/// The input of the case.
fn input_of(alloc: Global, case: &mut Case) -> CutSource {
    let bytes = case.input.take().unwrap_or(Vec::new(alloc));
    let failing = mem::replace(&mut case.fails.input, Vec::new(alloc));
    let cuts = mem::replace(&mut case.cuts, Vec::new(alloc));
    CutSource::new(MemSource::new(bytes, failing), cuts)
}

/// The output of the case.
fn output_of(alloc: Global, case: &mut Case) -> Result<SlowSink, Fault> {
    let room = case.room.unwrap_or(ROOM) as usize;
    let failing = mem::replace(&mut case.fails.output, Vec::new(alloc));
    let piece = case.takes.unwrap_or(u64::MAX) as usize;
    match MemSink::new(alloc, room, failing) {
        Ok(sink) => Ok(SlowSink::new(sink, piece)),
        Err(_) => Err(Fault::NoMemory),
    }
}

/// What the shelf has at the end under the names that the case asks for.
fn left_on(alloc: Global, shelf: &mut MemShelf, case: &Case) -> Result<Vec<Left>, Fault> {
    let mut leaves = Vec::new(alloc);
    for wanted in case.wanted.leaves.as_slice() {
        let text = text_under(alloc, shelf, wanted.name.as_str(), case.fails.shelf.len())?;
        let name = String::from_str(alloc, wanted.name.as_str())?;
        leaves.push(Left { name, text })?;
    }
    Ok(leaves)
}

/// What the shelf has under the name; no more than so many of its calls fail.
fn text_under(
    alloc: Global,
    shelf: &mut MemShelf,
    name: &str,
    failing: usize,
) -> Result<Option<Vec<u8>>, Fault> {
    let mut text = Vec::new(alloc);
    for _ in 0..=failing {
        match shelf.get(name, TEXT_LIMIT, &mut text) {
            Ok(()) => return Ok(Some(text)),
            Err(GetFault::Missing) => return Ok(None),
            Err(GetFault::Failed) => {}
            Err(GetFault::NoMemory) => return Err(Fault::NoMemory),
        }
    }
    Err(Fault::Outside)
}
