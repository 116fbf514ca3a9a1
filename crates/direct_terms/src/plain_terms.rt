//! Terms of the plain, slow program, whose answers are worked out by hand.

use lotos_base::plain::PlainTerm;
use std::alloc::{AllocError, Global};
use std::test::Fail;

// The variable with the number 0 and the sort 0.
fn x() -> PlainTerm {
    PlainTerm::Variable { number: 0, sort: 0 }
}

// a, which has the number 0.
fn a(alloc: Global) -> PlainTerm {
    PlainTerm::Node {
        operation: 0,
        arguments: Vec::new(alloc),
    }
}

// f(term), where f has the number 2.
fn f(alloc: Global, term: PlainTerm) -> Result<PlainTerm, AllocError> {
    let mut arguments = Vec::new(alloc);
    arguments.push(term)?;
    Ok(PlainTerm::Node {
        operation: 2,
        arguments,
    })
}

// f(f(term))
fn f_f(alloc: Global, term: PlainTerm) -> Result<PlainTerm, AllocError> {
    f(alloc, f(alloc, term)?)
}

// Whether the term has this part at the path.
fn has_part(term: &PlainTerm, path: &[usize], part: &PlainTerm) -> bool {
    match term.subterm(path) {
        None => false,
        Some(found) => found.same(part),
    }
}

// Whether f(f(a)) comes of f(f(x)) where a is put at the path.
fn is_replaced(alloc: Global, path: &[usize]) -> Result<bool, AllocError> {
    match f_f(alloc, x())?.with_part(path, &a(alloc))? {
        None => Ok(false),
        Some(replaced) => Ok(replaced.same(&f_f(alloc, a(alloc))?)),
    }
}

// Whether f(f(a)) comes of f(f(x)) with these values.
fn is_instance(alloc: Global, values: &[(u64, PlainTerm)]) -> Result<bool, AllocError> {
    let instance = f_f(alloc, x())?.instance(values)?;
    Ok(instance.same(&f_f(alloc, a(alloc))?))
}

#[test]
fn variables_and_parts_are_found(rt: HostRuntime) -> Result<(), Fail> {
    let alloc = rt.alloc();
    let term = f_f(alloc, x())?;
    assert!(rt; term.has_variable(0, 0));
    assert!(rt; !term.has_variable(0, 1));
    assert!(rt; !term.is_ground());
    assert!(rt; has_part(&term, &[0, 0], &x()));
    assert!(rt; term.subterm(&[1]).is_none());
    Ok(())
}

#[test]
fn terms_without_variables_are_told(rt: HostRuntime) -> Result<(), Fail> {
    let alloc = rt.alloc();
    let term = f_f(alloc, a(alloc))?;
    assert!(rt; term.is_ground());
    assert!(rt; !has_part(&term, &[0, 0], &x()));
    Ok(())
}

#[test]
fn a_part_is_replaced(rt: HostRuntime) -> Result<(), Fail> {
    let alloc = rt.alloc();
    assert!(rt; is_replaced(alloc, &[0, 0])?);
    assert!(rt; !is_replaced(alloc, &[0])?);
    assert!(rt; !is_replaced(alloc, &[1])?);
    Ok(())
}

#[test]
fn the_first_value_of_a_variable_is_put(rt: HostRuntime) -> Result<(), Fail> {
    let alloc = rt.alloc();
    assert!(rt; is_instance(alloc, &[(1, x()), (0, a(alloc)), (0, x())])?);
    assert!(rt; !is_instance(alloc, &[(1, a(alloc)), (0, x()), (0, a(alloc))])?);
    Ok(())
}
