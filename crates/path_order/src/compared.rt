//! Tables of what a term is to each subterm of another term.

ghost use Rattle.path_order.specs.ComparedView.{compared_table_of, tables_behind};
ghost use Rattle.path_order.specs.Comparison.{
  equal_in,
  equal_there,
  equals_in,
  exceeds_all_in,
  exceeds_from,
  exceeds_in,
  exceeds_last_in,
  greater_in,
  greater_there,
  part_in,
  parts_in,
  some_reaches_in,
};
ghost use Rattle.path_order.specs.ComparedView.{all_tables};
ghost use Rattle.path_order.specs.PrecedenceView.{status_of};
ghost use Rattle.std.specs.Option.{option_map};
ghost use Rattle.std.specs.Prelude.{◌≡◌, ◌&&◌, ◌||◌, IfOk, false};

use crate::status::Status;
use lotos_base::NoMemory;
use std::alloc::Global;

/// What a term is to a term and to each subterm of it, in the shape of that term.
#[derive(Debug, Drop)]
pub enum Compared {
    /// To a variable.
    Leaf {
        /// Whether it is this variable.
        equal: bool,
        /// Whether it is greater.
        greater: bool,
    },
    /// To an operation with its arguments.
    Node {
        /// Whether it is this term.
        equal: bool,
        /// Whether it is greater.
        greater: bool,
        /// The same of each argument.
        arguments: Vec<Compared>,
    },
}

impl Compared {
    /// Whether the term is the whole other term.
    pub fn equal(&self) -> bool
        ensures { result ≡ equal_in (compared_table_of self.now) }
    {
        match self {
            Compared::Leaf { equal, .. } => *equal,
            Compared::Node { equal, .. } => *equal,
        }
    }

    /// Whether the term is greater than the whole other term.
    pub fn greater(&self) -> bool
        ensures { result ≡ greater_in (compared_table_of self.now) }
    {
        match self {
            Compared::Leaf { greater, .. } => *greater,
            Compared::Node { greater, .. } => *greater,
        }
    }

    /// The table over the argument at the position, if there is one.
    pub fn part(&self, position: usize) -> Option<&Compared>
        ensures { option_map (λ c. compared_table_of c.now) result
            ≡ part_in position (compared_table_of self.now) }
    {
        match self {
            Compared::Leaf { .. } => None,
            Compared::Node { arguments, .. } => arguments.get(position),
        }
    }
}

/// The tables over the argument at the position.
pub fn parts<'a>(
    alloc: Global,
    rows: &[&'a Compared],
    position: usize,
) -> Result<Vec<&'a Compared>, NoMemory>
    ensures { IfOk result
        (λ found. tables_behind found.items ≡ parts_in position (tables_behind rows.now)) }
{
    let mut found = Vec::with_capacity(alloc, rows.len())?;
    for row in rows {
        if let Some(part) = row.part(position) {
            found.push(part)?;
        }
    }
    Ok(found)
}

/// Whether one of the terms is the other term or greater.
pub fn some_reaches(rows: &[&Compared]) -> bool
    ensures { result ≡ some_reaches_in (tables_behind rows.now) }
{
    for row in rows {
        if row.equal() {
            return true;
        }
        if row.greater() {
            return true;
        }
    }
    false
}

/// Whether the term is greater than each of the terms of a list.
pub fn exceeds_all(tables: &Vec<Compared>) -> bool
    ensures { result ≡ exceeds_all_in (all_tables tables.now.items) }
{
    for table in tables {
        if !table.greater() {
            return false;
        }
    }
    true
}

/// Whether each term is the argument at its own place.
pub fn equals(rows: &[&Compared]) -> bool
    ensures { result ≡ equals_in 0 (tables_behind rows.now) }
{
    for i in 0..rows.len() {
        if !equal_there(rows[i], i) {
            return false;
        }
    }
    true
}

/// Whether at the first place where they differ, counted from the side of the status, the term is
/// greater than the argument there.
pub fn exceeds(status: Status, rows: &[&Compared]) -> bool
    ensures { result ≡ exceeds_from (status_of status) (tables_behind rows.now) }
{
    match status {
        Status::Left => exceeds_from_left(rows),
        Status::Right => exceeds_from_right(rows),
    }
}

// The same from the left.
fn exceeds_from_left(rows: &[&Compared]) -> bool
    ensures { result ≡ exceeds_in 0 (tables_behind rows.now) }
{
    for i in 0..rows.len() {
        if greater_there(rows[i], i) {
            return true;
        }
        if !equal_there(rows[i], i) {
            return false;
        }
    }
    false
}

// The same from the right: the last place where they differ decides.
fn exceeds_from_right(rows: &[&Compared]) -> bool
    ensures { result ≡ exceeds_last_in false 0 (tables_behind rows.now) }
{
    let mut told = false;
    for i in 0..rows.len() {
        told = told_up_to(rows[i], i, told);
    }
    told
}

// Whether up to this place the last one where they differ has the greater term, where this is told
// of the places before.
fn told_up_to(row: &Compared, position: usize, told: bool) -> bool
    ensures { result ≡ (greater_there (part_in position (compared_table_of row.now))
        || (equal_there (part_in position (compared_table_of row.now)) && told)) }
{
    if greater_there(row, position) {
        return true;
    }
    if equal_there(row, position) {
        told
    } else {
        false
    }
}

// Whether the table has an equal term at the position.
fn equal_there(row: &Compared, position: usize) -> bool
    ensures { result ≡ equal_there (part_in position (compared_table_of row.now)) }
{
    match row.part(position) {
        Some(part) => part.equal(),
        None => false,
    }
}

// Whether the table has a greater term at the position.
fn greater_there(row: &Compared, position: usize) -> bool
    ensures { result ≡ greater_there (part_in position (compared_table_of row.now)) }
{
    match row.part(position) {
        Some(part) => part.greater(),
        None => false,
    }
}
