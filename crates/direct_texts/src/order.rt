//! The order in which a session reads its input and writes its answers, by one record of both.

use line_server::{Answer, Lines, SessionEnd, serve_session};
use lotos_base::{Failed, MemShelf, NoMemory, Shelf, Sink, Source, Tally};
use std::alloc::Global;
use std::cell::RefCell;
use std::test::Fail;

/// What was done, in order: `<` for each read, and each byte that was written.
#[derive(Drop)]
struct Record {
    kept: RefCell<Vec<u8>>,
}

impl Record {
    /// Keeps the bytes. Where memory is wanted they are missing in what is compared.
    fn add(&self, bytes: &[u8]) {
        if let Ok(mut kept) = self.kept.try_borrow_mut() {
            let _ = kept.extend_from_slice(bytes);
        }
    }

    /// Whether these were kept, and nothing else.
    fn is(&self, bytes: &[u8]) -> bool {
        match self.kept.try_borrow() {
            Ok(kept) => kept.as_slice() == bytes,
            Err(_) => false,
        }
    }
}

/// An input that comes in these pieces.
#[derive(Drop)]
struct Pieces<'a> {
    record: &'a Record,
    rest: &'a [&'a [u8]],
    tally: Tally,
}

impl Source for Pieces<'_> {
    ghost use Rattle.lotos_base.specs.Tally.{stream_of};
    ghost use Rattle.std.specs.Prelude.{None};

    ghost state = { λ source. stream_of None source.tally };

    fn read(&mut self, buf: &mut [u8]) -> Result<usize, Failed> {
        self.record.add(b"<");
        let [piece, rest @ ..] = self.rest else {
            self.tally.moved_by(0);
            return Ok(0);
        };
        self.rest = rest;
        let count = piece.len().min(buf.len());
        buf[..count].copy_from_slice(&piece[..count]);
        self.tally.moved_by(count);
        Ok(count)
    }
}

/// An output that takes one byte a call.
#[derive(Drop)]
struct Bytes<'a> {
    record: &'a Record,
    tally: Tally,
}

impl Sink for Bytes<'_> {
    ghost use Rattle.lotos_base.specs.Tally.{stream_of};
    ghost use Rattle.std.specs.Prelude.{None};

    ghost state = { λ sink. stream_of None sink.tally };

    fn write(&mut self, piece: &[u8]) -> Result<usize, Failed> {
        self.record.add(&piece[..1]);
        self.tally.moved_by(1);
        Ok(1)
    }
}

/// Answers each line by itself, and ends at `quit`.
#[derive(Drop)]
struct Echo;

impl Lines for Echo {
    ghost State = { Unit {0} };

    ghost state = { λ lines shelf. tt };

    ghost machine = { record {
      comes = λ state line reply. Unit {0};
      leaves = λ state line after. Unit {0};
    } };

    ghost is_ready = { λ lines. Unit {0} };

    fn serve<F: Shelf>(
        &mut self,
        alloc: Global,
        line: &[u8],
        _shelf: &mut F,
    ) -> Result<Answer, NoMemory> {
        let mut text = Vec::from_slice(alloc, line)?;
        text.push(b'\n')?;
        let quits = line == b"quit".as_slice();
        Ok(Answer { text, quits })
    }
}

/// Whether a session of these pieces does this, in this order, and comes to its end.
fn is_served(alloc: Global, pieces: &[&[u8]], done: &[u8]) -> bool {
    let record = Record {
        kept: RefCell::new(Vec::new(alloc)),
    };
    let mut shelf = MemShelf::new(Vec::new(alloc), Vec::new(alloc));
    let mut input = Pieces {
        record: &record,
        rest: pieces,
        tally: Tally::new(),
    };
    let mut output = Bytes {
        record: &record,
        tally: Tally::new(),
    };
    match serve_session(alloc, &mut Echo, &mut shelf, &mut input, &mut output) {
        SessionEnd::Finished => record.is(done),
        _ => false,
    }
}

#[test]
fn answers_are_written_before_the_next_read(rt: HostRuntime) -> Result<(), Fail> {
    let alloc = rt.alloc();
    let cut: [&[u8]; 3] = [b"a\nb\nc", b"d\n", b"e"];
    assert!(rt; is_served(alloc, &cut, b"<a\nb\n<cd\n<<e\n"));
    let short: [&[u8]; 4] = [b"a", b"\n", b"b\n", b"\nc\n"];
    assert!(rt; is_served(alloc, &short, b"<<a\n<b\n<\nc\n<"));
    let long: [&[u8]; 2] = [b"a\nquit\nb\n", b"c\n"];
    assert!(rt; is_served(alloc, &long, b"<a\nquit\n"));
    Ok(())
}
