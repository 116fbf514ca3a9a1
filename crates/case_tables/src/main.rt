//! Runs the cases of the data files named in `index.txt` over the objects in memory, prints how
//! many cases each file has, and each difference between what was wanted and what came.
#![tactic(auto)]

mod agreement;
mod cases;
mod escapes;
mod faults;
mod outside;
mod reader;
mod report;
mod runs;
mod words;

use agreement::is_as_wanted;
use faults::Fault;
use reader::Reader;
use report::difference;
use runs::run_case;
use std::fs;
use std::rt::Files;

/// What begins a case.
const CASE: &str = "case ";

fn main(rt: HostRuntime) -> Result<(), Fault> {
    let index = fs::read_to_string(&rt, "index.txt")?;
    let mut total = 0u64;
    for name in index.as_str().lines() {
        let count = run_file(&rt, name)?;
        println!(rt; "{name}: {count} cases")?;
        total = total.saturating_add(count);
    }
    println!(rt; "{total} cases")?;
    Ok(())
}

/// Runs the cases of a data file up to the first malformed line, prints this line's number and each
/// difference, and answers how many cases were run.
fn run_file(rt: &(impl Files + Print + AllocGlobal), name: &str) -> Result<u64, Fault> {
    let text = fs::read_to_string(rt, name)?;
    let mut reader = Reader::new(rt.alloc());
    let mut number = 0u64;
    for line in text.as_str().split('\n') {
        number = number.saturating_add(1);
        match run_line(rt, &mut reader, line) {
            Err(Fault::Malformed(reason)) => {
                println!(rt; "{name}: line {number} is malformed: {reason}")?;
                return Ok(reader.count());
            }
            other => other?,
        }
    }
    if let Err(Fault::Malformed(reason)) = finish(rt, &mut reader) {
        println!(rt; "{name}: the end is malformed: {reason}")?;
    }
    Ok(reader.count())
}

/// Reads a line; at the first line of a case runs the case before it.
fn run_line(rt: &(impl Print + AllocGlobal), reader: &mut Reader, line: &str) -> Result<(), Fault> {
    match line.strip_prefix(CASE) {
        Some(name) => {
            finish(rt, reader)?;
            reader.begin(name)
        }
        None => reader.read(line),
    }
}

/// Runs the case that was read, if there is one, and prints where it is not as wanted.
fn finish(rt: &(impl Print + AllocGlobal), reader: &mut Reader) -> Result<(), Fault> {
    let alloc = rt.alloc();
    if !reader.end()? {
        return Ok(());
    }
    let (case, shared) = reader.ended_case();
    let came = run_case(alloc, case, shared)?;
    if !is_as_wanted(&case.wanted, &came) {
        rt.print(difference(alloc, case, &came)?)?;
    }
    Ok(())
}
