//! The text of a term.

ghost use Rattle.lotos_base.specs.Twins.{has_twin};
ghost use Rattle.printed_texts.specs.Brackets.{listed};
ghost use Rattle.printed_texts.specs.KnownTwins.{AreKnownOf};
ghost use Rattle.printed_texts.specs.Parts.{part_weight, weight_of, part_weights, weights_of, with_part, written};
ghost use Rattle.printed_texts.specs.TermText.{
  numbered_text,
  operator_text,
  phrase_text,
  shown,
  variable_text,
};
ghost use Rattle.printed_texts.specs.TextView.{argument_text, infix_in, phrase_in, prefix_in};
ghost use Rattle.printed_texts.specs.TwinsView.{known_at};
ghost use Rattle.sort_terms.specs.EquationView.{variable_of};
ghost use Rattle.sort_terms.specs.Operations.{operation_of};
ghost use Rattle.sort_terms.specs.SignatureView.{signature_of};
ghost use Rattle.sort_terms.specs.declared.signatures.Signature.{Signature as KeptSignature};
ghost use Rattle.sort_terms.specs.declared.equations.Variable.{Variable};
ghost use Rattle.std.specs.Prelude.{◌≡◌, ◌+◌, ◌<◌, ◌++◌, ◌||◌, List, OnOk, drop, length, map};

use crate::brackets::{close, open_bracket, push_number, push_separator, push_text};
use crate::operations::{operation_at, push_of, stands_between};
use crate::twins::KnownTwins;
use lotos_base::NoMemory;
use sort_terms::{Op, Signature, Term, Variable};

/// Appends `$1` for the variable number 0, and so on.
pub fn push_numbered(number: u64, into: &mut Vec<u8>) -> Result<(), NoMemory>
    ensures { OnOk result (into.new.items ≡ into.old.items ++ numbered_text number) }
{
    push_text(into, b"$")?;
    push_number(into, number as u128 + 1)
}

/// What is still to be written of a term.
#[derive(Clone, Copy, Debug)]
pub enum Part<'a> {
    /// A term, which may be an operand.
    Phrase(&'a Term, bool),
    /// The arguments of a prefix operation from this number on, between commas.
    Arguments(&'a Vec<Term>, usize),
    /// The sign of an infix operation.
    Operator(&'a Op),
    /// A closing bracket, if there is an opening one: the text behind that begins at this position.
    Close(bool, usize),
    /// The sort of an operation, where it has a twin.
    Of(&'a Op, bool),
}

// Appends the name of a variable.
fn push_variable(names: &[Variable], number: u64, into: &mut Vec<u8>) -> Result<(), NoMemory>
    ensures { OnOk result (into.new.items
        ≡ into.old.items ++ variable_text (map variable_of names.now) number) }
{
    for variable in names {
        if variable.number == number {
            return push_text(into, variable.name.spelled());
        }
    }
    push_numbered(number, into)
}

// Appends the sign of an infix operation between blanks.
fn push_operator(operation: &Op, into: &mut Vec<u8>) -> Result<(), NoMemory>
    ensures { OnOk result (into.new.items
        ≡ into.old.items ++ operator_text (operation_of operation.now).name) }
{
    push_text(into, b" ")?;
    push_text(into, operation.name.spelled())?;
    push_text(into, b" ")
}

// Whether one of the two is true.
fn is_either(one: bool, other: bool) -> bool
    ensures { result ≡ one || other }
{
    if one { true } else { other }
}

/// Appends the text of a term. An operand that is infix stands in brackets.
pub fn push_phrase(
    signature: &Signature,
    names: &[Variable],
    term: &Term,
    is_operand: bool,
    into: &mut Vec<u8>,
) -> Result<(), NoMemory>
    ensures { OnOk result (into.new.items
        ≡ into.old.items ++ shown is_operand (phrase_in signature.now names.now term.now)) }
{
    let mut twins = KnownTwins::new(*into.allocator());
    let mut left = Vec::new(*into.allocator());
    left.push(Part::Phrase(term, is_operand))?;
    while let Some(part) = left.pop() {
        push_part(signature, names, &mut twins, part, &mut left, into)?;
    }
    Ok(())
}

// Appends a part, or what of it comes first, and puts what comes behind that on the list.
fn push_part<'a>(
    signature: &'a Signature,
    names: &[Variable],
    twins: &mut KnownTwins,
    part: Part<'a>,
    left: &mut Vec<Part<'a>>,
    into: &mut Vec<u8>,
) -> Result<(), NoMemory>
    requires { AreKnownOf (signature_of signature.now) (known_at twins.old) }
    ensures known { OnOk result (AreKnownOf (signature_of signature.now) (known_at twins.new)) }
    ensures same { OnOk result (written signature.now names.now left.new.items into.new.items
        ≡ written signature.now names.now left.old.items
        (with_part signature.now names.now part.entry into.old.items)) }
    ensures less { OnOk result (part_weights left.new.items < part_weight part.entry
        + part_weights left.old.items) }
{
    match part {
        Part::Phrase(term, is_operand) => {
            push_head(signature, names, twins, term, is_operand, left, into)
        }
        Part::Arguments(terms, index) => push_argument(terms, index, left, into),
        Part::Operator(operation) => push_operator(operation, into),
        Part::Close(is_needed, position) => close(into, is_needed, position),
        Part::Of(operation, with_sort) => push_of(signature, operation, with_sort, into),
    }
}

// Appends what comes first of a term.
fn push_head<'a>(
    signature: &'a Signature,
    names: &[Variable],
    twins: &mut KnownTwins,
    term: &'a Term,
    is_operand: bool,
    left: &mut Vec<Part<'a>>,
    into: &mut Vec<u8>,
) -> Result<(), NoMemory>
    requires { AreKnownOf (signature_of signature.now) (known_at twins.old) }
    ensures known { OnOk result (AreKnownOf (signature_of signature.now) (known_at twins.new)) }
    ensures same { OnOk result (written signature.now names.now left.new.items into.new.items
        ≡ written signature.now names.now left.old.items
        (into.old.items ++ shown is_operand (phrase_in signature.now names.now term.now))) }
    ensures less { OnOk result (part_weights left.new.items
        < weight_of term.now + part_weights left.old.items) }
{
    match term {
        Term::Var { number, .. } => push_variable(names, *number, into),
        Term::Node { op, arguments, .. } => match operation_at(signature, *op) {
            None => Ok(()),
            Some(operation) => {
                let arguments = arguments.items();
                let with_sort = twins.has_twin(signature, *op, operation)?;
                if stands_between(operation.form, arguments.len()) {
                    push_infix(operation, with_sort, arguments, is_operand, left, into)
                } else {
                    push_prefix(operation, with_sort, arguments, left, into)
                }
            }
        },
    }
}

// Appends what comes first of an infix operation on two operands. Its sort is written where it has
// a twin.
fn push_infix<'a>(
    operation: &'a Op,
    with_sort: bool,
    arguments: &'a Vec<Term>,
    is_operand: bool,
    left: &mut Vec<Part<'a>>,
    into: &mut Vec<u8>,
) -> Result<(), NoMemory>
    requires { length arguments.now.items ≡ 2 }
    ensures same { OnOk result ((signature : KeptSignature) (names : List Variable)
        → with_sort ≡ has_twin (signature_of signature) (operation_of operation.now)
        → written signature names left.new.items into.new.items
        ≡ written signature names left.old.items (into.old.items ++ shown is_operand
        (infix_in signature names operation.now arguments.now.items))) }
    ensures less { OnOk result (part_weights left.new.items
        < 5 + weights_of arguments.now.items + part_weights left.old.items) }
{
    let is_needed = is_either(is_operand, with_sort);
    let position = open_bracket(into, is_needed)?;
    left.push(Part::Of(operation, with_sort))?;
    left.push(Part::Close(is_needed, position))?;
    left.push(Part::Phrase(&arguments[1], true))?;
    left.push(Part::Operator(operation))?;
    left.push(Part::Phrase(&arguments[0], true))?;
    Ok(())
}

// Appends what comes first of a constant or a prefix operation. Its sort is written where it has a
// twin.
fn push_prefix<'a>(
    operation: &'a Op,
    with_sort: bool,
    arguments: &'a Vec<Term>,
    left: &mut Vec<Part<'a>>,
    into: &mut Vec<u8>,
) -> Result<(), NoMemory>
    ensures same { OnOk result ((signature : KeptSignature) (names : List Variable)
        → with_sort ≡ has_twin (signature_of signature) (operation_of operation.now)
        → written signature names left.new.items into.new.items
        ≡ written signature names left.old.items (into.old.items
        ++ phrase_text (prefix_in signature names operation.now arguments.now.items))) }
    ensures less { OnOk result (part_weights left.new.items
        < 5 + weights_of arguments.now.items + part_weights left.old.items) }
{
    push_text(into, operation.name.spelled())?;
    let is_needed = !arguments.is_empty();
    let position = open_bracket(into, is_needed)?;
    left.push(Part::Of(operation, with_sort))?;
    left.push(Part::Close(is_needed, position))?;
    left.push(Part::Arguments(arguments, 0))?;
    Ok(())
}

// Appends what comes before the argument with this number, if there is one, and puts it on the list
// with those behind it.
fn push_argument<'a>(
    arguments: &'a Vec<Term>,
    index: usize,
    left: &mut Vec<Part<'a>>,
    into: &mut Vec<u8>,
) -> Result<(), NoMemory>
    ensures same { OnOk result ((signature : KeptSignature) (names : List Variable)
        → written signature names left.new.items into.new.items
        ≡ written signature names left.old.items (into.old.items ++ listed index
        (map (argument_text signature names) (drop index arguments.now.items)))) }
    ensures less { OnOk result (part_weights left.new.items
        < 1 + weights_of (drop index arguments.now.items) + part_weights left.old.items) }
{
    if index >= arguments.len() {
        return Ok(());
    }
    push_separator(into, index)?;
    left.push(Part::Arguments(arguments, index + 1))?;
    left.push(Part::Phrase(&arguments[index], false))?;
    Ok(())
}
