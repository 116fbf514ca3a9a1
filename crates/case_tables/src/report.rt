//! Differences, as a person reads them.

use crate::cases::{Case, Outcome};
use std::alloc::{AllocError, Global};
use std::fmt::Write;

/// The name of the case, and each part of it that is not as wanted. Lines that both have stand
/// behind blanks, those that were wanted behind `-`, and those that came behind `+`.
pub fn difference(alloc: Global, case: &Case, came: &Outcome) -> Result<String, AllocError> {
    let mut report = String::new(alloc);
    let name = case.name.as_str();
    writeln!(report, "case {name}")?;
    let (wanted, ended) = (case.wanted.status.unwrap_or(0), came.status.unwrap_or(0));
    if wanted != ended {
        writeln!(report, "- status {wanted}\n+ status {ended}")?;
    }
    put_texts(&mut report, &case.wanted.prints, &came.prints)?;
    for (wanted, left) in case.wanted.leaves.iter().zip(came.leaves.iter()) {
        let name = wanted.name.as_str();
        writeln!(report, "leaves {name}")?;
        put_texts(&mut report, &wanted.text, &left.text)?;
    }
    Ok(report)
}

/// Puts the lines of both texts behind the report.
fn put_texts(
    report: &mut String,
    wanted: &Option<Vec<u8>>,
    came: &Option<Vec<u8>>,
) -> Result<(), AllocError> {
    match (wanted, came) {
        (Some(wanted), Some(came)) => put_both(report, wanted.as_slice(), came.as_slice()),
        (Some(wanted), None) => {
            put_lines(report, "- ", wanted.as_slice())?;
            report.push_str("+ (nothing)\n")
        }
        (None, Some(came)) => {
            report.push_str("- (nothing)\n")?;
            put_lines(report, "+ ", came.as_slice())
        }
        (None, None) => Ok(()),
    }
}

/// Puts the lines with which both texts begin behind the report, and then the other lines of each,
/// where there are any.
fn put_both(report: &mut String, wanted: &[u8], came: &[u8]) -> Result<(), AllocError> {
    if wanted == came {
        return put_lines(report, "  ", wanted);
    }
    let start = first_difference(wanted, came);
    let (both, missing) = split(wanted, start);
    let (_, added) = split(came, start);
    put_lines(report, "  ", both)?;
    put_lines(report, "- ", missing)?;
    put_lines(report, "+ ", added)
}

/// The text before the place, and the text from there on.
fn split(text: &[u8], place: usize) -> (&[u8], &[u8]) {
    text.split_at(place.min(text.len()))
}

/// Where the first line begins that both texts do not have.
fn first_difference(wanted: &[u8], came: &[u8]) -> usize {
    let mut start = 0;
    for (index, (one, other)) in wanted.iter().zip(came).enumerate() {
        if one != other {
            return start;
        }
        if *one == b'\n' {
            start = index + 1;
        }
    }
    start
}

/// Puts the lines of the text behind the report, each behind the mark.
fn put_lines(report: &mut String, mark: &str, text: &[u8]) -> Result<(), AllocError> {
    let mut is_start = true;
    for byte in text {
        if is_start {
            report.push_str(mark)?;
        }
        is_start = *byte == b'\n';
        match *byte {
            b'\n' | b' '..=b'~' => report.push(char::from(*byte))?,
            _ => write!(report, "\\x{:02x}", *byte)?,
        }
    }
    if !is_start {
        report.push_str(" (no line feed)\n")?;
    }
    Ok(())
}
