//! Data that are given back with a refusal.

use direct_terms::{data, read_order};
use equation_book::Book;
use std::alloc::Global;
use std::test::Fail;

// How many equations are given back with a refusal.
fn given_back(alloc: Global, types: &str, order: &str) -> Result<usize, Fail> {
    let items = read_order(alloc, order.as_bytes(), 1)?;
    let flat = data(alloc, types.as_bytes())?;
    match Book::open(flat, items.as_slice()) {
        Ok(_) => Ok(0),
        Err(refused) => Ok(refused.flat.equations.len()),
    }
}

const SUMS: &str =
    "type T is sorts N opns 0, a : -> N _+_ : N, N -> N eqns forall x, y, z : N ofsort N (x + y) + z = x + (y + z); x + 0 = x; 0 + x = x endtype";

const FAULTS: &str =
    "type T is sorts N opns a, b, c : -> N f : N -> N _+_ : N, N -> N eqns forall x, y : N ofsort N f(a) = b; f(x) = c; x + y = y + x endtype";

const GROUPS: &str =
    "type T is sorts G opns e, a, b : -> G _*_ : G, G -> G inv : G -> G eqns forall x, y, z : G ofsort G e * x = x; x * e = x; inv(x) * x = e; x * inv(x) = e; (x * y) * z = x * (y * z); inv(x) * (x * y) = y; x * (inv(x) * y) = y; inv(e) = e; inv(inv(x)) = x; inv(x * y) = inv(y) * inv(x) endtype";

#[test]
fn data_are_given_back(rt: HostRuntime) -> Result<(), Fail> {
    let alloc = rt.alloc();
    assert_eq!(rt; given_back(alloc, SUMS, "h;")?, 3);
    assert_eq!(rt; given_back(alloc, FAULTS, "h;")?, 3);
    assert_eq!(rt; given_back(alloc, GROUPS, "_*_; inv;")?, 10);
    Ok(())
}
