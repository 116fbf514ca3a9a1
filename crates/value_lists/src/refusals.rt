//! The lines of refusals.

ghost use Rattle.value_lists.specs.ListOutcome.{no_entry, no_sort};
ghost use Rattle.value_lists.specs.ListText.{list_refusal_text};
ghost use Rattle.std.specs.Prelude.{◌≡◌, ◌++◌, OnOk};

use lotos_base::NoMemory;
use session_histories::{push_number, push_text};

/// Appends the line for an entry that is not there: its number, and how many entries there are.
pub fn push_no_entry(number: u64, length: usize, into: &mut Vec<u8>) -> Result<(), NoMemory>
    ensures { OnOk result (into.new.items
        ≡ into.old.items ++ list_refusal_text (no_entry number length)) }
{
    push_text(into, b"refused 802 NoEntry ")?;
    push_number(into, number as u128)?;
    push_text(into, b" of ")?;
    push_number(into, length as u128)?;
    push_text(into, b"\n")
}

/// Appends the line for a sort that is not there, by the name that was given.
pub fn push_no_sort(name: &[u8], into: &mut Vec<u8>) -> Result<(), NoMemory>
    ensures { OnOk result (into.new.items
        ≡ into.old.items ++ list_refusal_text (no_sort name.now)) }
{
    push_text(into, b"refused 817 NoSort ")?;
    push_text(into, name)?;
    push_text(into, b"\n")
}
