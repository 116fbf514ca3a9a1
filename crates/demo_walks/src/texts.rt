//! A specification of any number of cells that put numbers into one store.

ghost use Rattle.demo_walks.specs.DemoText.{cell_line, cell_lines, demo_text, numeral, repeated};
ghost use Rattle.std.specs.Prelude.{◌≡◌, ◌++◌, IfOk, OnOk};

use history_lines::push_text;
use lotos_base::NoMemory;
use std::alloc::Global;

/// The data, up to the bracket that opens before the cells.
pub const BEFORE_CELLS: &[u8] = b"specification Demo [put, out] : noexit
library Boolean, NaturalNumber endlib
type List is NaturalNumber
sorts List
opns nil : -> List
cons : Nat, List -> List
len : List -> Nat
eqns forall x : Nat, l : List ofsort Nat
len(nil) = 0;
len(cons(x, l)) = Succ(len(l));
endtype
behaviour (
";

/// The store that the cells share, and the processes.
pub const BEHIND_CELLS: &[u8] = b") |[put]| Store[put, out](nil)
where
process Cell[a](n : Nat) : noexit :=
a !n ?x:Nat [x lt Succ(n)]; Cell[a](n)
endproc
process Store[a, b](l : List) : noexit :=
a ?m:Nat ?x:Nat; Store[a, b](cons(x, l)) [] b !len(l); Store[a, b](l)
endproc
endspec
";

/// The text of the specification `Demo` with so many cells: each cell puts its own number and one
/// not above it, again and again, and the store tells how often.
///
/// Refused for want of memory alone. Without cells it is no specification.
pub fn demo_text(alloc: Global, cells: u32) -> Result<Vec<u8>, NoMemory>
    ensures { IfOk result (λ text. text.items ≡ demo_text cells) }
{
    let mut text = Vec::new(alloc);
    push_text(&mut text, BEFORE_CELLS)?;
    push_cells(&mut text, cells)?;
    push_text(&mut text, BEHIND_CELLS)?;
    Ok(text)
}

// Appends the lines of the cells.
fn push_cells(into: &mut Vec<u8>, cells: u32) -> Result<(), NoMemory>
    ensures { OnOk result (into.new.items ≡ into.old.items ++ cell_lines cells) }
{
    for cell in 0..cells {
        push_cell(into, cell)?;
    }
    Ok(())
}

// Appends the line of a cell.
fn push_cell(into: &mut Vec<u8>, cell: u32) -> Result<(), NoMemory>
    ensures { OnOk result (into.new.items ≡ into.old.items ++ cell_line cell) }
{
    if cell > 0 {
        push_text(into, b"||| ")?;
    }
    push_text(into, b"Cell[put](")?;
    push_numeral(into, cell)?;
    push_text(into, b")\n")
}

// Appends a number as a term.
fn push_numeral(into: &mut Vec<u8>, value: u32) -> Result<(), NoMemory>
    ensures { OnOk result (into.new.items ≡ into.old.items ++ numeral value) }
{
    push_repeated(into, b"Succ(", value)?;
    push_text(into, b"0")?;
    push_repeated(into, b")", value)
}

// Appends a text so many times.
fn push_repeated(into: &mut Vec<u8>, text: &[u8], times: u32) -> Result<(), NoMemory>
    ensures { OnOk result (into.new.items ≡ into.old.items ++ repeated times text.now) }
{
    for _ in 0..times {
        push_text(into, text)?;
    }
    Ok(())
}
