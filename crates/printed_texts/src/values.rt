//! The values of a step.

ghost use Rattle.event_offers.specs.HandedOn.{terms_of};
ghost use Rattle.printed_texts.specs.Brackets.{commas};
ghost use Rattle.printed_texts.specs.MenuText.{given_text};
ghost use Rattle.printed_texts.specs.TextView.{written_value};
ghost use Rattle.sort_terms.specs.SignatureView.{signature_of};
ghost use Rattle.std.specs.Prelude.{◌≡◌, ◌++◌, OnOk, map};

use crate::brackets::{push_separator, push_text};
use crate::labels::push_value;
use lotos_base::NoMemory;
use sort_terms::{Signature, Sorted};

/// Appends the values of a step behind a blank, if there are some, with commas between them.
pub fn push_given(
    signature: &Signature,
    values: &Vec<Sorted>,
    into: &mut Vec<u8>,
) -> Result<(), NoMemory>
    ensures { OnOk result (into.new.items ≡ into.old.items
        ++ given_text (signature_of signature.now) (terms_of values.now.items)) }
{
    if values.is_empty() {
        return Ok(());
    }
    push_text(into, b" ")?;
    push_listed(signature, values, into)
}

// Appends values between commas.
fn push_listed(
    signature: &Signature,
    values: &Vec<Sorted>,
    into: &mut Vec<u8>,
) -> Result<(), NoMemory>
    ensures { OnOk result (into.new.items ≡ into.old.items
        ++ commas (map (written_value signature.now) values.now.items)) }
{
    for (index, value) in values.iter().enumerate() {
        push_separator(into, index)?;
        push_value(signature, value, into)?;
    }
    Ok(())
}
