//! The instances of an entry, in answer to a line.

ghost use Rattle.behaviour_semantics.specs.Solving as solving;
ghost use Rattle.value_lists.specs.ListOutcome.{InstancesComeTo};
ghost use Rattle.value_lists.specs.ListText.{
  instance_line,
  instance_lines,
  instance_list_text,
  instances_text,
};
ghost use Rattle.value_lists.specs.ListView.{
  AddsList,
  HasChoices,
  IsPrintedFor,
  printing_with,
};
ghost use Rattle.lotos_base.specs.Equation.{HasSortedSides};
ghost use Rattle.session_histories.specs.Refusal.{entry_numbered};
ghost use Rattle.session_histories.specs.Session.{SessionBasis};
ghost use Rattle.sort_terms.specs.SignatureView.{signature_of};
ghost use Rattle.std.specs.Prelude.{◌≡◌, ◌++◌, ℕ, List, OnOk, Some};
ghost use Rattle.event_offers.specs.Instances.{AreValuesOver};
ghost use Rattle.event_offers.specs.Offers.{IsEntryOf};
ghost use Rattle.event_offers.specs.Keeping.{KeepsData};
ghost use Rattle.event_offers.specs.OfferView.{plain_entry};
ghost use Rattle.behaviour_tree.specs.BehaviourView.{terms_of};
ghost use Rattle.value_lists.specs.InstanceList.{
  AreChoices,
  AreTuplesOver,
  term_lists_of,
  profiled_lists_in,
};

use crate::instances::instances_of;
use crate::labels::instance_label;
use crate::list_fault::ListFault;
use event_offers::Entry;
use lotos_base::{Name, NoMemory};
use session_histories::{push_given, push_label, push_number, push_text};
use sort_terms::{Deciding, Signature, Sorted};

/// Appends the instances of the entry by the values in these lists, of which there is one for each
/// of its variables, each in the form of the line of a step, behind how many they are. The line is
/// refused as `TooManyInstances` where there are more than 100,000 ways to choose a value for each
/// variable.
pub fn push_instance_list<D: Deciding>(
    signature: &Signature,
    gates: &[Name],
    entry: &Entry,
    number: u64,
    choices: &[Vec<Sorted>],
    decider: &mut D,
    into: &mut Vec<u8>,
) -> Result<(), NoMemory>
    requires shown { signature_of signature.now ≡ (D.known_data decider.old).signature }
    requires sides { HasSortedSides (D.known_data decider.old) }
    requires over { IsEntryOf (D.known_data decider.old).signature entry.now }
    requires choices { AreChoices (D.known_data decider.old).signature entry.now.vars.items
        (profiled_lists_in choices.now) }
    ensures added { (basis : SessionBasis) (menu : List solving.Entry) (size : ℕ)
        → IsPrintedFor basis (D.known_data decider.old) (D.canon decider.old) gates.now
        → entry_numbered menu number ≡ Some (plain_entry entry.now)
        → HasChoices basis (plain_entry entry.now) size (term_lists_of choices.now)
        → OnOk result (AddsList (InstancesComeTo basis menu number size)
        (instances_text basis number) into.old.items into.new.items) }
    ensures same_known { KeepsData D.known_data D.canon decider.old decider.new }
{
    match instances_of(entry, choices, decider) {
        Ok(tuples) => push_instances(
            signature,
            gates,
            entry,
            number,
            tuples.as_slice(),
            decider,
            into,
        ),
        Err(ListFault::TooManyInstances) => push_text(into, b"refused 816 TooManyInstances\n"),
        Err(ListFault::TooManyValues) => unreachable!(),
        Err(ListFault::NoMemory) => Err(NoMemory),
    }
}

// Appends how many instances there are, and a line for each.
fn push_instances<D: Deciding>(
    signature: &Signature,
    gates: &[Name],
    entry: &Entry,
    number: u64,
    tuples: &[Vec<Sorted>],
    decider: &mut D,
    into: &mut Vec<u8>,
) -> Result<(), NoMemory>
    requires over { IsEntryOf (D.known_data decider.old).signature entry.now }
    requires values { AreTuplesOver (D.known_data decider.old).signature entry.now.vars.items
        tuples.now }
    ensures added { OnOk result (into.new.items ≡ into.old.items ++ instance_list_text
        (printing_with signature.now gates.now (D.canon decider.old)) number (plain_entry entry.now)
        (term_lists_of tuples.now)) }
    ensures same_known { KeepsData D.known_data D.canon decider.old decider.new }
{
    push_text(into, b"instances ")?;
    push_number(into, tuples.len() as u128)?;
    push_text(into, b"\n")?;
    push_instance_lines(signature, gates, entry, number, tuples, decider, into)
}

// Appends a line for each instance.
fn push_instance_lines<D: Deciding>(
    signature: &Signature,
    gates: &[Name],
    entry: &Entry,
    number: u64,
    tuples: &[Vec<Sorted>],
    decider: &mut D,
    into: &mut Vec<u8>,
) -> Result<(), NoMemory>
    requires over { IsEntryOf (D.known_data decider.old).signature entry.now }
    requires values { AreTuplesOver (D.known_data decider.old).signature entry.now.vars.items
        tuples.now }
    ensures added { OnOk result (into.new.items ≡ into.old.items ++ instance_lines
        (printing_with signature.now gates.now (D.canon decider.old)) number (plain_entry entry.now)
        (term_lists_of tuples.now)) }
    ensures same_known { KeepsData D.known_data D.canon decider.old decider.new }
{
    for values in tuples {
        push_instance(signature, gates, entry, number, values, decider, into)?;
    }
    Ok(())
}

// Appends the line of an instance.
#[tactic(auto, using(session_histories::proofs::StepLineLemmas::line_written))]
fn push_instance<D: Deciding>(
    signature: &Signature,
    gates: &[Name],
    entry: &Entry,
    number: u64,
    values: &Vec<Sorted>,
    decider: &mut D,
    into: &mut Vec<u8>,
) -> Result<(), NoMemory>
    requires over { IsEntryOf (D.known_data decider.old).signature entry.now }
    requires values { AreValuesOver (D.known_data decider.old).signature entry.now.vars.items
        values.now.items }
    ensures added { OnOk result (into.new.items ≡ into.old.items ++ instance_line
        (printing_with signature.now gates.now (D.canon decider.old)) number (plain_entry entry.now)
        (terms_of values.now.items)) }
    ensures same_known { KeepsData D.known_data D.canon decider.old decider.new }
{
    let label = instance_label(entry, values.as_slice(), decider)?;
    push_number(into, number as u128)?;
    push_given(signature, values, into)?;
    push_text(into, b" => ")?;
    push_label(signature, gates, &label, into)?;
    push_text(into, b"\n")
}
