//! The text of a label.

ghost use Rattle.lotos_base.specs.Name.{spelling};
ghost use Rattle.printed_texts.specs.MenuText.{exit_values_text, name_text, values_text};
ghost use Rattle.printed_texts.specs.TextView.{written_label, written_value};
ghost use Rattle.event_offers.specs.HandedOn.{terms_of};
ghost use Rattle.sort_terms.specs.SignatureView.{signature_of};
ghost use Rattle.std.specs.Prelude.{◌≡◌, ◌++◌, OnOk, map, slice_get};

use crate::brackets::{close_bracket, open_bracket, push_separator, push_text};
use crate::terms::push_phrase;
use event_offers::Label;
use lotos_base::{Name, NoMemory};
use sort_terms::{Signature, Sorted};

/// Appends the name with this number.
pub fn push_name(names: &[Name], number: u32, into: &mut Vec<u8>) -> Result<(), NoMemory>
    ensures { OnOk result (into.new.items
        ≡ into.old.items ++ name_text (slice_get (map spelling names.now) number)) }
{
    match names.get(number as usize) {
        None => Ok(()),
        Some(name) => push_text(into, name.spelled()),
    }
}

/// Appends a term of a label or an entry, whose variables have no names.
pub fn push_value(signature: &Signature, value: &Sorted, into: &mut Vec<u8>) -> Result<(), NoMemory>
    ensures { OnOk result (into.new.items
        ≡ into.old.items ++ written_value signature.now value.now) }
{
    push_phrase(signature, &[], value.term(), false, into)
}

// Appends the values of an event, each behind a `!`.
fn push_values(
    signature: &Signature,
    values: &Vec<Sorted>,
    into: &mut Vec<u8>,
) -> Result<(), NoMemory>
    ensures { OnOk result (into.new.items ≡ into.old.items
        ++ values_text (signature_of signature.now) (terms_of values.now.items)) }
{
    for value in values {
        push_text(into, b" !")?;
        push_value(signature, value, into)?;
    }
    Ok(())
}

// Appends the values of `exit` in brackets, if there are some.
fn push_exit_values(
    signature: &Signature,
    values: &Vec<Sorted>,
    into: &mut Vec<u8>,
) -> Result<(), NoMemory>
    ensures { OnOk result (into.new.items ≡ into.old.items
        ++ exit_values_text (signature_of signature.now) (terms_of values.now.items)) }
{
    let is_needed = !values.is_empty();
    let position = open_bracket(into, is_needed)?;
    for (index, value) in values.iter().enumerate() {
        push_separator(into, index)?;
        push_value(signature, value, into)?;
    }
    close_bracket(into, is_needed, position)
}

/// Appends the text of a label.
pub fn push_label(
    signature: &Signature,
    gates: &[Name],
    label: &Label,
    into: &mut Vec<u8>,
) -> Result<(), NoMemory>
    ensures { OnOk result (into.new.items
        ≡ into.old.items ++ written_label signature.now gates.now label.now) }
{
    match label {
        Label::Inner => push_text(into, b"i"),
        Label::Gate(gate, values) => {
            push_name(gates, *gate, into)?;
            push_values(signature, values, into)
        }
        Label::Exit(values) => {
            push_text(into, b"exit")?;
            push_exit_values(signature, values, into)
        }
    }
}
