//! First positions of names, and want of memory among the faults of types.

use lotos_base::Name;
use sort_terms::SortFault;
use std::alloc::Global;
use std::test::Fail;
use type_definitions::type_faults::TypeFault;
use type_presentations::names::NamePositions;

// Adds the name of this spelling, which has the number.
fn add(alloc: Global, names: &mut NamePositions, spelled: &str, number: usize) -> Result<(), Fail> {
    let name = Name::of(Vec::from_slice(alloc, spelled.as_bytes())?);
    names.add(alloc, &name, number)?;
    Ok(())
}

// Adds four names, two of which are the same but for case.
fn add_all(alloc: Global, names: &mut NamePositions) -> Result<(), Fail> {
    add(alloc, names, "a", 0)?;
    add(alloc, names, "b", 1)?;
    add(alloc, names, "A", 2)?;
    add(alloc, names, "c", 3)
}

// The first position of the name of this spelling.
fn first(alloc: Global, names: &NamePositions, spelled: &str) -> Result<Option<usize>, Fail> {
    let name = Name::of(Vec::from_slice(alloc, spelled.as_bytes())?);
    Ok(names.first(alloc, &name)?)
}

// The same among the four names.
fn first_of_all(alloc: Global, spelled: &str) -> Result<Option<usize>, Fail> {
    let mut names = NamePositions::new(alloc);
    add_all(alloc, &mut names)?;
    first(alloc, &names, spelled)
}

#[test]
fn the_first_position_counts(rt: HostRuntime) -> Result<(), Fail> {
    let alloc = rt.alloc();
    assert_eq!(rt; first_of_all(alloc, "A")?, Some(0));
    assert_eq!(rt; first_of_all(alloc, "b")?, Some(1));
    assert_eq!(rt; first_of_all(alloc, "C")?, Some(3));
    assert_eq!(rt; first_of_all(alloc, "d")?, None);
    Ok(())
}

#[test]
fn want_of_memory_stays_what_it_is(rt: HostRuntime) -> Result<(), Fail> {
    let wanting = TypeFault::from(SortFault::NoMemory);
    assert!(rt; matches!(&wanting, TypeFault::NoMemory));
    Ok(())
}
