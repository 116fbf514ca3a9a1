//! The objects in memory by direct calls: what no clause says is that ample memory suffices.

use lotos_base::{Failed, GetFault, MemShelf, MemSink, MemSource, PutFault, Shelf, Sink, Source};
use std::alloc::Global;
use std::test::Fail;

// A source of three bytes, whose second call fails.
fn source(alloc: Global) -> Result<MemSource, Fail> {
    let failing = vec![in alloc; 2]?;
    let bytes = vec![in alloc; 1, 2, 3]?;
    Ok(MemSource::new(bytes, failing))
}

// A sink with room for four bytes, whose second call fails.
fn sink(alloc: Global) -> Result<MemSink, Fail> {
    let failing = vec![in alloc; 2]?;
    Ok(MemSink::new(alloc, 4, failing)?)
}

// Adds a file.
fn push_file(
    alloc: Global,
    files: &mut Vec<(String, Vec<u8>)>,
    name: &str,
    text: &[u8],
) -> Result<(), Fail> {
    let name = String::from_str(alloc, name)?;
    let text = Vec::from_slice(alloc, text)?;
    files.push((name, text))?;
    Ok(())
}

// Two files of one name.
fn files(alloc: Global) -> Result<Vec<(String, Vec<u8>)>, Fail> {
    let mut files = Vec::new(alloc);
    push_file(alloc, &mut files, "a", &[1, 2, 3])?;
    push_file(alloc, &mut files, "a", &[9])?;
    Ok(files)
}

// A shelf with these, whose third and fifth calls fail.
fn shelf(alloc: Global) -> Result<MemShelf, Fail> {
    let failing = vec![in alloc; 3, 5]?;
    Ok(MemShelf::new(files(alloc)?, failing))
}

#[test]
fn a_source_gives_its_bytes_once(rt: HostRuntime) -> Result<(), Fail> {
    let alloc = rt.alloc();
    let mut source = source(alloc)?;
    let mut buffer = [0u8; 2];
    assert_eq!(rt; source.read(&mut buffer), Ok(2));
    assert_eq!(rt; buffer, [1, 2]);
    assert_eq!(rt; source.read(&mut buffer), Err(Failed));
    assert_eq!(rt; source.read(&mut buffer), Ok(1));
    assert_eq!(rt; buffer, [3, 2]);
    assert_eq!(rt; source.read(&mut buffer), Ok(0));
    Ok(())
}

#[test]
fn a_sink_takes_what_fits(rt: HostRuntime) -> Result<(), Fail> {
    let alloc = rt.alloc();
    let mut sink = sink(alloc)?;
    assert_eq!(rt; sink.write(b"abc"), Ok(3));
    assert_eq!(rt; sink.write(b"d"), Err(Failed));
    assert_eq!(rt; sink.write(b"de"), Ok(1));
    assert_eq!(rt; sink.write(b"e"), Err(Failed));
    assert_eq!(rt; sink.written(), b"abcd".as_slice());
    Ok(())
}

#[test]
fn a_shelf_counts_the_first_of_two_files(rt: HostRuntime) -> Result<(), Fail> {
    let alloc = rt.alloc();
    let mut text = vec![in alloc; 7]?;
    let mut shelf = shelf(alloc)?;
    assert_eq!(rt; shelf.get("a", 2, &mut text), Ok(()));
    assert_eq!(rt; text.as_slice(), [1, 2].as_slice());
    assert_eq!(rt; shelf.get("b", 2, &mut text), Err(GetFault::Missing));
    assert_eq!(rt; text.len(), 0);
    assert_eq!(rt; shelf.get("a", 2, &mut text), Err(GetFault::Failed));
    assert_eq!(rt; shelf.put("b", b"new"), Ok(()));
    assert_eq!(rt; shelf.put("b", b"lost"), Err(PutFault::Failed));
    assert_eq!(rt; shelf.get("b", 9, &mut text), Ok(()));
    assert_eq!(rt; text.as_slice(), b"new".as_slice());
    assert_eq!(rt; shelf.put("a", b"x"), Ok(()));
    assert_eq!(rt; shelf.get("a", 9, &mut text), Ok(()));
    assert_eq!(rt; text.as_slice(), b"x".as_slice());
    Ok(())
}
