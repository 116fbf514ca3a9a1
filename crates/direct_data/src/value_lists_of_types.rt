//! Lists of the values of sorts up to a size, by the types of whole texts.

ghost use Rattle.sort_terms.specs.EquationView.{IsSortedFlat};

use crate::rules::rules_of;
use direct_terms::{data, push_shown};
use lotos_library::boolean::BOOLEAN;
use lotos_library::natural_number::NATURAL_NUMBER;
use sort_terms::{Flat, Sorted};
use std::alloc::Global;
use std::test::Fail;
use value_lists::{ListFault, values_of};

// The values of the sort with this number, or none where there are too many up to the size.
fn values(alloc: Global, types: &[u8], sort: u32, size: u32) -> Result<Option<Vec<Sorted>>, Fail> {
    let flat = data(alloc, types)?;
    values_over(alloc, &flat, sort, size)
}

// The same over the data.
fn values_over(
    alloc: Global,
    flat: &Flat,
    sort: u32,
    size: u32,
) -> Result<Option<Vec<Sorted>>, Fail>
    requires { IsSortedFlat flat.now }
{
    let rules = rules_of(flat)?;
    match values_of(alloc, &flat.signature, &rules, sort, size) {
        Ok(values) => Ok(Some(values)),
        Err(ListFault::TooManyValues) => Ok(None),
        Err(_) => Err(Fail::from("memory was wanted")),
    }
}

// How many there are.
fn count(alloc: Global, types: &[u8], sort: u32, size: u32) -> Result<Option<usize>, Fail> {
    match values(alloc, types, sort, size)? {
        Some(values) => Ok(Some(values.len())),
        None => Ok(None),
    }
}

// Their texts, or that there are too many.
fn texts(alloc: Global, types: &[u8], sort: u32, size: u32) -> Result<String, Fail> {
    match values(alloc, types, sort, size)? {
        Some(values) => all_shown(alloc, values.as_slice()),
        None => Ok(String::from_str(alloc, "too many")?),
    }
}

// The texts of the values, with ` / ` between.
fn all_shown(alloc: Global, values: &[Sorted]) -> Result<String, Fail> {
    let mut text = String::new(alloc);
    for value in values {
        if !text.is_empty() {
            text.push_str(" / ")?;
        }
        push_shown(alloc, value, &mut text)?;
    }
    Ok(text)
}

const SUMS: &[u8] = b"type T is sorts N opns 0, a : -> N _+_ : N, N -> N \
      eqns forall x, y, z : N ofsort N (x + y) + z = x + (y + z); x + 0 = x; 0 + x = x; endtype";

const TREES: &[u8] = b"type T is sorts N opns a, b : -> N f : N, N -> N endtype";

const ALL_EQUAL: &[u8] = b"type T is sorts N, E opns a, b : -> N f : N -> N g : E -> N \
      eqns forall x : N ofsort N f(x) = x; b = a; endtype";

const ORDERED: &[u8] = b"type T is sorts N, M opns p : N, M -> M c : -> M b, a : -> N endtype";

#[test]
fn values_are_listed_by_size(rt: HostRuntime) -> Result<(), Fail> {
    let alloc = rt.alloc();
    assert_eq!(rt; texts(alloc, SUMS, 0, 1)?.as_str(), "0 / a");
    assert_eq!(rt; texts(alloc, SUMS, 0, 3)?.as_str(), "0 / a / (a + a)");
    assert_eq!(rt;
        texts(alloc, SUMS, 0, 5)?.as_str(),
        "0 / a / (a + a) / (a + (a + a))"
    );
    assert_eq!(rt; texts(alloc, SUMS, 0, 0)?.as_str(), "");
    assert_eq!(rt;
        texts(alloc, ORDERED, 1, 3)?.as_str(),
        "c / p(b, c) / p(a, c)"
    );
    assert_eq!(rt; texts(alloc, ORDERED, 0, 64)?.as_str(), "too many");
    Ok(())
}

#[test]
fn values_are_counted_over_all_sorts(rt: HostRuntime) -> Result<(), Fail> {
    let alloc = rt.alloc();
    assert_eq!(rt; count(alloc, TREES, 0, 10)?, Some(550));
    assert_eq!(rt; count(alloc, TREES, 0, 11)?, None);
    assert_eq!(rt; texts(alloc, ALL_EQUAL, 0, 64)?.as_str(), "a");
    assert_eq!(rt; texts(alloc, ALL_EQUAL, 1, 64)?.as_str(), "");
    Ok(())
}

#[test]
fn numbers_and_truth_values(rt: HostRuntime) -> Result<(), Fail> {
    let alloc = rt.alloc();
    let mut numbers = Vec::from_slice(alloc, BOOLEAN)?;
    numbers.extend_from_slice(NATURAL_NUMBER)?;
    assert_eq!(rt; count(alloc, numbers.as_slice(), 0, 24)?, Some(2));
    assert_eq!(rt; count(alloc, numbers.as_slice(), 1, 24)?, Some(24));
    Ok(())
}
