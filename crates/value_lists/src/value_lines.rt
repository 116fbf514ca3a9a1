//! The values of a sort, in answer to a line.

ghost use Rattle.value_lists.specs.ListOutcome.{ValuesComeTo};
ghost use Rattle.value_lists.specs.ListText.{value_lines, value_list_text, listed_values_text};
ghost use Rattle.value_lists.specs.ListView.{AddsList, HasRules};
ghost use Rattle.session_histories.specs.HandedOn.{written_value};
ghost use Rattle.session_histories.specs.Session.{SessionBasis};
ghost use Rattle.session_histories.specs.TraceText.{ended};
ghost use Rattle.sort_terms.specs.ReaderView.{signature_read};
ghost use Rattle.sort_terms.specs.Reading.{IsSortNamed};
ghost use Rattle.sort_terms.specs.SignatureView.{signature_of};
ghost use Rattle.std.specs.Prelude.{◌≡◌, ◌++◌, ℕ, List, OnOk};
ghost use Rattle.path_order.specs.RulesView.{plain_rules_in};
ghost use Rattle.behaviour_tree.specs.BehaviourView.{terms_of};

use crate::list_fault::ListFault;
use crate::refusals::push_no_sort;
use crate::values::values_of;
use lotos_base::{Name, NoMemory};
use path_order::Rules;
use session_histories::{push_number, push_text, push_value};
use sort_terms::{Reader, Signature, Sorted};

/// Appends the values of the sort with the name that have at most `size` operations, behind how
/// many they are. The line is refused as `NoSort` where no sort has the name, and then as
/// `TooManyValues` where over all sorts there are more than 2,000 values of that size.
pub fn push_value_list(
    signature: &Signature,
    reader: &Reader<'_>,
    rules: &Rules,
    name: &[u8],
    size: u32,
    into: &mut Vec<u8>,
) -> Result<(), NoMemory>
    requires read { signature_read reader.now ≡ signature_of signature.now }
    ensures { (basis : SessionBasis) → HasRules basis (signature_of signature.now)
        (plain_rules_in rules.now) → OnOk result (AddsList (ValuesComeTo basis name.now size)
        (listed_values_text basis) into.old.items into.new.items) }
{
    let alloc = *into.allocator();
    let called = Name::of(Vec::from_slice(alloc, name)?);
    let found = reader.sort_named(&called)?;
    match found {
        None => push_no_sort(name, into),
        Some(sort) => push_values_of(signature, rules, sort, size, into),
    }
}

// Appends the values of the sort, or that there are too many values; for each name that it has.
fn push_values_of(
    signature: &Signature,
    rules: &Rules,
    sort: u32,
    size: u32,
    into: &mut Vec<u8>,
) -> Result<(), NoMemory>
    ensures { (basis : SessionBasis) (name : List ℕ) → HasRules basis (signature_of signature.now)
        (plain_rules_in rules.now) → IsSortNamed (signature_of signature.now) sort name
        → OnOk result (AddsList (ValuesComeTo basis name size) (listed_values_text basis)
        into.old.items into.new.items) }
{
    match values_of(*into.allocator(), signature, rules, sort, size) {
        Ok(values) => push_values(signature, values.as_slice(), into),
        Err(ListFault::TooManyValues) => push_text(into, b"refused 815 TooManyValues\n"),
        Err(ListFault::TooManyInstances) => unreachable!(),
        Err(ListFault::NoMemory) => Err(NoMemory),
    }
}

// Appends how many values there are, and a line for each.
#[tactic(auto, using(crate::proofs::TextLemmas::four_pieces))]
fn push_values(signature: &Signature, values: &[Sorted], into: &mut Vec<u8>) -> Result<(), NoMemory>
    ensures { OnOk result (into.new.items ≡ into.old.items
        ++ value_list_text (signature_of signature.now) (terms_of values.now)) }
{
    push_text(into, b"values ")?;
    push_number(into, values.len() as u128)?;
    push_text(into, b"\n")?;
    push_value_lines(signature, values, into)
}

// Appends a line for each value.
#[tactic(auto, using(crate::proofs::TextLemmas::one_value_more))]
fn push_value_lines(
    signature: &Signature,
    values: &[Sorted],
    into: &mut Vec<u8>,
) -> Result<(), NoMemory>
    ensures { OnOk result (into.new.items ≡ into.old.items
        ++ value_lines (signature_of signature.now) (terms_of values.now)) }
{
    for value in values {
        push_value_line(signature, value, into)?;
    }
    Ok(())
}

// Appends the line of a value.
#[tactic(auto, using(lotos_base::proofs::Pieces::two_pieces))]
fn push_value_line(
    signature: &Signature,
    value: &Sorted,
    into: &mut Vec<u8>,
) -> Result<(), NoMemory>
    ensures { OnOk result (into.new.items
        ≡ into.old.items ++ ended (written_value signature.now value.now)) }
{
    push_value(signature, value, into)?;
    push_text(into, b"\n")
}
