//! The values of a sort up to a size.

ghost use Rattle.behaviour_semantics.specs.WellFormed.{Every};
ghost use Rattle.path_order.specs.RulesView.{plain_rules_in};
ghost use Rattle.rewriting_theory.specs.Rewriting.{IsNormal};
ghost use Rattle.sort_terms.specs.Operations.{operation_of};
ghost use Rattle.sort_terms.specs.ProfiledTerm.{FitsProfiles, head_sort};
ghost use Rattle.sort_terms.specs.SignatureView.{signature_of};
ghost use Rattle.sort_terms.specs.SortedView.{profiled_in, term_in};
ghost use Rattle.std.specs.List.{filter};
ghost use Rattle.std.specs.Prelude.{◌≡◌, ◌<◌, ◌≤◌, ◌^◌, ◌+◌, ◌++◌, IfErr, IfOk, OnOk, length, map, nat_eq};
ghost use Rattle.value_lists.specs.FaultMeaning.{FaultMeans};
ghost use Rattle.value_lists.specs.FoundView.{found_for_each, kept_by, shared_operations_in, with_more};
ghost use Rattle.value_lists.specs.InstanceList.{IsGroundChoice};
ghost use Rattle.value_lists.specs.TrialView.{values_in};
ghost use Rattle.value_lists.specs.ValueList.{HasMoreValues, HasUpToValues, IsValueList};

use crate::limits::MAX_VALUES;
use crate::list_fault::ListFault;
use crate::trials::Trial;
use crate::value::Value;
use lotos_base::NoMemory;
use path_order::Rules;
use sort_terms::{Op, Signature, Sorted};
use std::alloc::Global;
use std::rc::Rc;

/// The values of the sort, which is given by its number, with at most `size` operations: the ground
/// terms of the signature that no rule reduces, by size, then by the place of the operation at the
/// head, then by the arguments from the left in this same order. Where the rules are confluent and
/// end, they are the normal forms of that size, one for each class of equal ground terms.
///
/// `TooManyValues` comes exactly where there are more than 2,000 values of that size, over all
/// sorts; it comes as soon as the next one is found. Until then each operation is tried once on
/// each list of values that it can have for its arguments and whose sizes are together less than
/// `size`: where there are `v` values, one with `n` arguments at most `v` to the power `n` times.
/// At size 64 the operations of the shipped numbers are tried 18,000 times, and one with three
/// numbers as its arguments 40,000 times besides, which takes a third of a second. Tries do not
/// count as values: 2,000 constants and such an operation, which rules always reduce, are
/// 8,000,000,000 tries, and so hours.
pub fn values_of(
    alloc: Global,
    signature: &Signature,
    rules: &Rules,
    sort: u32,
    size: u32,
) -> Result<Vec<Sorted>, ListFault>
    ensures list { IfOk result (λ values. IsValueList (signature_of signature.now)
        (IsNormal (plain_rules_in rules.now)) size sort (map term_in values.items)) }
    ensures choices { IfOk result
        (λ values. Every (IsGroundChoice (signature_of signature.now) sort)
        (map profiled_in values.items)) }
    ensures few { IfOk result (λ values. HasUpToValues (signature_of signature.now)
        (IsNormal (plain_rules_in rules.now)) size MAX_VALUES) }
    ensures fault { IfErr result (λ fault. FaultMeans (HasMoreValues (signature_of signature.now)
        (IsNormal (plain_rules_in rules.now)) size MAX_VALUES) ⊥ fault) }
{
    let profiles = shared_profiles(alloc, signature.ops())?;
    let mut values = Vec::new(alloc);
    for smaller in 0..size {
        extend(alloc, rules, profiles.as_slice(), smaller, &mut values)?;
    }
    let made = of_sort(alloc, &values, sort)?;
    Ok(made)
}

// The operations, to be shared by terms.
fn shared_profiles(alloc: Global, ops: &[Op]) -> Result<Vec<Rc<Op>>, NoMemory>
    ensures { IfOk result (λ made. shared_operations_in made.items ≡ map operation_of ops.now) }
{
    let mut made = Vec::with_capacity(alloc, ops.len())?;
    for op in ops {
        made.push(Rc::new(alloc, op.copy()?)?)?;
    }
    Ok(made)
}

// Adds to the values with at most so many operations those with one more.
fn extend(
    alloc: Global,
    rules: &Rules,
    profiles: &[Rc<Op>],
    size: u32,
    values: &mut Vec<Value>,
) -> Result<(), ListFault>
    requires size { size + 1 < 2 ^ 32 }
    requires count { length profiles.now < 2 ^ 32 }
    requires room { length values.old.items ≤ MAX_VALUES }
    ensures values { OnOk result (values_in values.new.items ≡ with_more rules.now
        (shared_operations_in profiles.now) size (values_in values.old.items)) }
    ensures room { OnOk result (length values.new.items ≤ MAX_VALUES) }
    ensures fault { IfErr result (λ fault. FaultMeans (MAX_VALUES < length (with_more rules.now
        (shared_operations_in profiles.now) size (values_in values.old.items))) ⊥ fault) }
{
    let mut found = next_values(alloc, rules, profiles, size, values)?;
    values.append(&mut found)?;
    Ok(())
}

// The values with one operation more than these.
fn next_values(
    alloc: Global,
    rules: &Rules,
    profiles: &[Rc<Op>],
    size: u32,
    smaller: &Vec<Value>,
) -> Result<Vec<Value>, ListFault>
    requires size { size + 1 < 2 ^ 32 }
    requires count { length profiles.now < 2 ^ 32 }
    requires room { length smaller.now.items ≤ MAX_VALUES }
    ensures found { IfOk result (λ found. values_in found.items ≡ found_for_each rules.now
        (values_in smaller.now.items) size 0 (shared_operations_in profiles.now)) }
    ensures room { IfOk result
        (λ found. length smaller.now.items + length found.items ≤ MAX_VALUES) }
    ensures fault { IfErr result (λ fault. FaultMeans (MAX_VALUES < length smaller.now.items
        + length (found_for_each rules.now (values_in smaller.now.items) size 0
        (shared_operations_in profiles.now))) ⊥ fault) }
{
    let room = MAX_VALUES - smaller.len();
    let mut found = Vec::new(alloc);
    for number in 0..profiles.len() {
        let trial = Trial {
            rules,
            smaller: smaller.as_slice(),
            op: number as u32,
            profile: &profiles[number],
            size: size + 1,
            room,
        };
        trial.search(alloc, size, &mut found)?;
    }
    Ok(found)
}

// Those of the values that have the sort.
fn of_sort(alloc: Global, values: &Vec<Value>, sort: u32) -> Result<Vec<Sorted>, NoMemory>
    requires { Every FitsProfiles (values_in values.now.items) }
    ensures { IfOk result (λ made. map profiled_in made.items
        ≡ filter (λ t. nat_eq (head_sort t) sort) (values_in values.now.items)) }
{
    let mut made = Vec::new(alloc);
    for value in values {
        if value.term.sort() == sort {
            made.push(Sorted::of(value.term.copy()?))?;
        }
    }
    Ok(made)
}
