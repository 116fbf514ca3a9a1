//! The real objects, each used once, and their loops over a slow reader and a slow writer.

use crate::file_shelf::FileShelf;
use crate::in_source::InSource;
use crate::loops::{read_up_to, write_all_of};
use crate::out_sink::OutSink;
use lotos_base::{Failed, GetFault, PutFault, Shelf, Sink, Source};
use std::io::{Read, Write};
use std::test::Fail;
use std::{fs, io};

/// A reader that gives three bytes at a time at most, and fails once they are gone.
#[derive(Drop)]
struct SlowReader<'a> {
    left: &'a [u8],
}

impl Read for SlowReader<'_> {
    fn read(&mut self, buf: &mut [u8]) -> io::Result<usize> {
        if self.left.is_empty() {
            return Err(io::Error::from(io::ErrorKind::TimedOut));
        }
        let count = buf.len().min(self.left.len()).min(3);
        buf[..count].copy_from_slice(&self.left[..count]);
        self.left = &self.left[count..];
        Ok(count)
    }
}

/// A writer that takes one byte at a time, until it is full.
#[derive(Drop)]
struct SlowWriter {
    taken: [u8; 8],
    count: usize,
}

impl Write for SlowWriter {
    fn write(&mut self, buf: &[u8]) -> io::Result<usize> {
        match (buf.first(), self.taken.get_mut(self.count)) {
            (Some(byte), Some(room)) => {
                *room = *byte;
                self.count += 1;
                Ok(1)
            }
            _ => Ok(0),
        }
    }

    fn flush(&mut self) -> io::Result<()> {
        Ok(())
    }
}

#[test]
fn short_reads_are_no_end_and_late_errors_are_no_end(rt: HostRuntime) -> Result<(), Fail> {
    let mut text = Vec::new(rt.alloc());
    let mut reader = SlowReader {
        left: b"stop endspec".as_slice(),
    };
    assert_eq!(rt; read_up_to(&mut reader, 11, &mut text), Ok(()));
    assert_eq!(rt; text.as_slice(), b"stop endspe".as_slice());
    text.clear();
    assert_eq!(rt;
        read_up_to(&mut reader, 11, &mut text),
        Err(GetFault::Failed)
    );
    Ok(())
}

#[test]
fn single_bytes_are_written_until_all_are(rt: HostRuntime) {
    let mut writer = SlowWriter {
        taken: [0; 8],
        count: 0,
    };
    assert_eq!(rt; write_all_of(&mut writer, b"stop"), Ok(()));
    assert_eq!(rt; write_all_of(&mut writer, b""), Ok(()));
    assert_eq!(rt; writer.count, 4);
    assert_eq!(rt;
        write_all_of(&mut writer, b" endspec"),
        Err(PutFault::Failed)
    );
    assert_eq!(rt; writer.taken, *b"stop end");
}

#[test]
fn a_long_file_is_got_whole(rt: HostRuntime) -> Result<(), Fail> {
    let alloc = rt.alloc();
    let mut shelf = FileShelf::new(&rt);
    let mut text = Vec::new(alloc);
    let name = "/tmp/lotos_long_file_test";
    let mut bytes = vec![in alloc; 7; 9000]?;
    bytes.push(8)?;
    assert_eq!(rt; shelf.put(name, bytes.as_slice()), Ok(()));
    assert_eq!(rt; shelf.get(name, 20_000, &mut text), Ok(()));
    assert_eq!(rt; text, bytes);
    assert_eq!(rt; shelf.get(name, 8193, &mut text), Ok(()));
    assert_eq!(rt; text.len(), 8193);
    assert!(rt; bytes.as_slice().starts_with(text.as_slice()));
    assert_eq!(rt; shelf.put(name, b""), Ok(()));
    assert_eq!(rt; shelf.get(name, 20_000, &mut text), Ok(()));
    assert_eq!(rt; text.len(), 0);
    fs::remove_file(&rt, name)?;
    Ok(())
}

#[test]
fn files_are_got_and_put(rt: HostRuntime) -> Result<(), Fail> {
    let mut shelf = FileShelf::new(&rt);
    let mut text = Vec::new(rt.alloc());
    let name = "/tmp/lotos_file_shelf_test";
    assert_eq!(rt; shelf.put(name, b"stop endspec"), Ok(()));
    assert_eq!(rt; shelf.get(name, 12, &mut text), Ok(()));
    assert_eq!(rt; text.as_slice(), b"stop endspec".as_slice());
    assert_eq!(rt; shelf.get(name, 13, &mut text), Ok(()));
    assert_eq!(rt; text.as_slice(), b"stop endspec".as_slice());
    assert_eq!(rt; shelf.get(name, 4, &mut text), Ok(()));
    assert_eq!(rt; text.as_slice(), b"stop".as_slice());
    assert_eq!(rt; shelf.get(name, 0, &mut text), Ok(()));
    assert_eq!(rt; text.len(), 0);
    fs::remove_file(&rt, name)?;
    Ok(())
}

#[test]
fn what_is_no_readable_file_is_a_fault(rt: HostRuntime) {
    let mut shelf = FileShelf::new(&rt);
    let mut text = Vec::new(rt.alloc());
    // A missing file, a folder, and a file whose first byte cannot be read.
    for name in ["/tmp/lotos_no_such_file", "/tmp", "/proc/self/mem"] {
        assert_eq!(rt; shelf.get(name, 10, &mut text), Err(GetFault::Failed));
        assert_eq!(rt; text.len(), 0);
    }
    assert_eq!(rt;
        shelf.put("/tmp/lotos_no_such_folder/f", b"x"),
        Err(PutFault::Failed)
    );
    assert_eq!(rt; shelf.put("/dev/full", b"x"), Err(PutFault::Failed));
}

#[test]
fn bytes_come_in_and_go_out(rt: HostRuntime) -> Result<(), Fail> {
    let mut buffer = [0u8; 8];
    let mut source = InSource::new(b"stop".as_slice());
    assert_eq!(rt; source.read(&mut buffer), Ok(4));
    assert_eq!(rt; &buffer[..4], b"stop".as_slice());
    assert_eq!(rt; source.read(&mut buffer), Ok(0));
    let mut unreadable = InSource::new(fs::open(&rt, "/proc/self/mem")?);
    assert_eq!(rt; unreadable.read(&mut buffer), Err(Failed));
    let mut standard = InSource::new(rt.reader());
    assert!(rt; standard.read(&mut buffer).is_ok());
    let mut sink = OutSink::new(io::writer(&rt));
    assert_eq!(rt; sink.write(b"\n"), Ok(1));
    let mut full = OutSink::new(fs::create(&rt, "/dev/full")?);
    assert_eq!(rt; full.write(b"x"), Err(Failed));
    Ok(())
}
