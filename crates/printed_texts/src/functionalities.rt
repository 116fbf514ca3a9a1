//! The text of a functionality.

ghost use Rattle.printed_texts.specs.FunctionalityText.{functionality_text, sorts_text};
ghost use Rattle.sort_terms.specs.SignatureView.{signature_of};
ghost use Rattle.std.specs.Prelude.{◌≡◌, ◌++◌, OnOk, option_map, vec_items};

use crate::brackets::{close_bracket, open_bracket, push_separator, push_text};
use crate::operations::push_sort;
use lotos_base::NoMemory;
use sort_terms::Signature;

/// Appends a functionality: `noexit`, or `exit` with its sorts in brackets, if there are some.
pub fn push_functionality(
    signature: &Signature,
    sorts: &Option<Vec<u32>>,
    into: &mut Vec<u8>,
) -> Result<(), NoMemory>
    ensures { OnOk result (into.new.items ≡ into.old.items
        ++ functionality_text (signature_of signature.now) (option_map vec_items sorts.now)) }
{
    match sorts {
        None => push_text(into, b"noexit"),
        Some(sorts) => {
            push_text(into, b"exit")?;
            push_sorts(signature, sorts, into)
        }
    }
}

// Appends sorts in brackets, if there are some.
fn push_sorts(signature: &Signature, sorts: &Vec<u32>, into: &mut Vec<u8>) -> Result<(), NoMemory>
    ensures { OnOk result (into.new.items
        ≡ into.old.items ++ sorts_text (signature_of signature.now) sorts.now.items) }
{
    let is_needed = !sorts.is_empty();
    let position = open_bracket(into, is_needed)?;
    for (index, sort) in sorts.iter().enumerate() {
        push_separator(into, index)?;
        push_sort(signature, *sort, into)?;
    }
    close_bracket(into, is_needed, position)
}
