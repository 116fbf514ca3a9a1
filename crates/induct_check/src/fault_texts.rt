//! The line that is printed for the first fault of a certificate.

ghost use Rattle.induct_check.specs.FaultTexts.{IsTold, operation_name, differing_sides_text, with_line};
ghost use Rattle.induct_parts.specs.Shown.{shown_statement};
ghost use Rattle.induct_parts.specs.StatementView.{statement_of};
ghost use Rattle.sort_terms.specs.SignatureView.{signature_of};
ghost use Rattle.std.specs.Prelude.{◌≡◌, ◌++◌, IfOk, OnOk, codes, slice_get};

use induct_parts::at_line::AtLine;
use induct_parts::line_fault::LineFault;
use induct_parts::shown::shown;
use induct_parts::statements::Statement;
use lotos_base::NoMemory;
use printed_texts::brackets::{push_number, push_text};
use printed_texts::operations::operation_at;
use printed_texts::terms::push_phrase;
use sort_terms::Signature;
use std::alloc::Global;

/// The line of the refusal of a certificate with this fault.
pub fn fault_line(alloc: Global, signature: &Signature, at: &AtLine) -> Result<Vec<u8>, NoMemory>
    ensures { IfOk result (λ text. IsTold (signature_of signature.now) at.now.line at.now.fault
        text.items) }
{
    match &at.fault {
        LineFault::BadLine => line_text(alloc, b"911 BadLine", at.line, b""),
        LineFault::NoVariable => line_text(alloc, b"912 NoVariable", at.line, b""),
        LineFault::NoCover => line_text(alloc, b"913 NoCover", at.line, b""),
        LineFault::NoTree(operation) => tree_line(alloc, signature, at.line, *operation),
        LineFault::NotReducible => line_text(alloc, b"915 NotReducible", at.line, b""),
        LineFault::BadUse => line_text(alloc, b"916 BadUse", at.line, b""),
        LineFault::NotSame(statement) => sides_line(alloc, signature, at.line, statement),
        LineFault::NoMemory => Err(NoMemory),
    }
}

// A refusal with its line, and what stands behind that.
fn line_text(alloc: Global, refusal: &[u8], line: usize, behind: &[u8]) -> Result<Vec<u8>, NoMemory>
    ensures { IfOk result (λ text. text.items ≡ with_line refusal.now line behind.now) }
{
    let mut text = Vec::new(alloc);
    push_text(&mut text, b"refused ")?;
    push_text(&mut text, refusal)?;
    push_text(&mut text, b" line ")?;
    push_number(&mut text, line as u128)?;
    push_text(&mut text, behind)?;
    push_text(&mut text, b"\n")?;
    Ok(text)
}

// That of an operation without a tree.
fn tree_line(
    alloc: Global,
    signature: &Signature,
    line: usize,
    operation: u32,
) -> Result<Vec<u8>, NoMemory>
    ensures { IfOk result (λ text. text.items ≡ with_line (codes "914 NoTree") line
        (codes " " ++ operation_name (slice_get (signature_of signature.now).operations
        operation))) }
{
    let mut behind = Vec::new(alloc);
    push_text(&mut behind, b" ")?;
    push_operation(signature, operation, &mut behind)?;
    line_text(alloc, b"914 NoTree", line, behind.as_slice())
}

// Appends the name of the operation with the number, if there is one.
fn push_operation(signature: &Signature, number: u32, into: &mut Vec<u8>) -> Result<(), NoMemory>
    ensures { OnOk result (into.new.items ≡ into.old.items
        ++ operation_name (slice_get (signature_of signature.now).operations number)) }
{
    match operation_at(signature, number) {
        None => Ok(()),
        Some(operation) => push_text(into, operation.name.spelled()),
    }
}

// That of two sides that differ.
fn sides_line(
    alloc: Global,
    signature: &Signature,
    line: usize,
    statement: &Statement,
) -> Result<Vec<u8>, NoMemory>
    ensures { IfOk result (λ text. text.items ≡ with_line (codes "917 NotSame") line
        (differing_sides_text (signature_of signature.now) (shown_statement (statement_of
        statement.now)))) }
{
    let seen = shown(alloc, statement)?;
    let mut behind = Vec::new(alloc);
    push_sides(signature, &seen, &mut behind)?;
    line_text(alloc, b"917 NotSame", line, behind.as_slice())
}

// Appends the two sides.
fn push_sides(
    signature: &Signature,
    statement: &Statement,
    into: &mut Vec<u8>,
) -> Result<(), NoMemory>
    ensures { OnOk result (into.new.items ≡ into.old.items
        ++ differing_sides_text (signature_of signature.now) (statement_of statement.now)) }
{
    push_text(into, b" ")?;
    push_phrase(signature, &[], statement.left.term(), false, into)?;
    push_text(into, b" and ")?;
    push_phrase(signature, &[], statement.right.term(), false, into)
}
