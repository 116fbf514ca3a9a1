//! Whether lists of sorts and operations make a signature. The lists are compared member by member,
//! so this is for short lists.

ghost use Rattle.sort_terms.specs.Operations.{operation_of, signature_listing, sort_of};
ghost use Rattle.sort_terms.specs.WellFormedTest.{
  all_below,
  all_differ,
  are_one_operation,
  are_one_sort,
  has_known_sorts,
  is_well_formed_signature,
};
ghost use Rattle.std.specs.List.{list_all, list_any};
ghost use Rattle.std.specs.Prelude.{◌≡◌, ◌<◌, ◌≤◌, drop, length, map};

use crate::operations::{Op, Sort};

/// Whether the lists make a well-formed signature.
pub(crate) fn make_a_signature(sorts: &[Sort], ops: &[Op]) -> bool
    ensures { result ≡ is_well_formed_signature (signature_listing sorts.now ops.now) }
{
    if !have_known_sorts(ops, sorts.len()) {
        return false;
    }
    if !sorts_differ(sorts) {
        return false;
    }
    ops_differ(ops)
}

// Whether the profiles name sorts that are there.
fn have_known_sorts(ops: &[Op], sorts: usize) -> bool
    ensures { result ≡ list_all (has_known_sorts sorts) (map operation_of ops.now) }
{
    for op in ops {
        if !has_sorts_below(op, sorts) {
            return false;
        }
    }
    true
}

// Whether the profile names sorts below the bound.
fn has_sorts_below(op: &Op, bound: usize) -> bool
    ensures { result ≡ has_known_sorts bound (operation_of op.now) }
{
    if op.result as usize >= bound {
        return false;
    }
    are_below(&op.arguments, bound)
}

// Whether the numbers are below the bound.
fn are_below(numbers: &Vec<u32>, bound: usize) -> bool
    ensures { result ≡ all_below bound numbers.now.items }
{
    for number in numbers {
        if *number as usize >= bound {
            return false;
        }
    }
    true
}

// Whether no two sorts have one name.
fn sorts_differ(sorts: &[Sort]) -> bool
    ensures { result ≡ all_differ are_one_sort (map sort_of sorts.now) }
{
    for i in 0..sorts.len() {
        if is_sort_behind(&sorts[i], sorts, i + 1) {
            return false;
        }
    }
    true
}

// Whether the sort's name stands in the list from a position on.
fn is_sort_behind(sort: &Sort, sorts: &[Sort], from: usize) -> bool
    requires { from ≤ length sorts.now }
    ensures { result ≡ list_any (are_one_sort (sort_of sort.now))
        (map sort_of (drop from sorts.now)) }
{
    for i in from..sorts.len() {
        if is_same_sort(sort, &sorts[i]) {
            return true;
        }
    }
    false
}

// Whether the two sorts have one name.
fn is_same_sort(one: &Sort, other: &Sort) -> bool
    ensures { result ≡ are_one_sort (sort_of one.now) (sort_of other.now) }
{
    one.name.same(&other.name)
}

// Whether no two operations have one name, form and profile.
fn ops_differ(ops: &[Op]) -> bool
    ensures { result ≡ all_differ are_one_operation (map operation_of ops.now) }
{
    for i in 0..ops.len() {
        if is_op_behind(&ops[i], ops, i + 1) {
            return false;
        }
    }
    true
}

// Whether the operation stands in the list from a position on.
fn is_op_behind(op: &Op, ops: &[Op], from: usize) -> bool
    requires { from ≤ length ops.now }
    ensures { result ≡ list_any (are_one_operation (operation_of op.now))
        (map operation_of (drop from ops.now)) }
{
    for i in from..ops.len() {
        if is_same_op(op, &ops[i]) {
            return true;
        }
    }
    false
}

// Whether the two operations have one name, form and profile.
fn is_same_op(one: &Op, other: &Op) -> bool
    ensures { result ≡ are_one_operation (operation_of one.now) (operation_of other.now) }
{
    if !one.name.same(&other.name) {
        return false;
    }
    if one.form != other.form {
        return false;
    }
    if one.arguments.as_slice() != other.arguments.as_slice() {
        return false;
    }
    one.result == other.result
}
