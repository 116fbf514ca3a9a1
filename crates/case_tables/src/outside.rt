//! An input and an output that go piece by piece.

use lotos_base::{Failed, MemSink, MemSource, Sink, Source};

/// An input over bytes in memory whose first calls give no more than so many bytes each.
#[derive(Drop)]
pub struct CutSource {
    bytes: MemSource,
    cuts: Vec<u64>,
    calls: usize,
    is_over: bool,
    is_read_on: bool,
}

impl CutSource {
    /// An input over the bytes; 0 counts as 1.
    pub fn new(bytes: MemSource, cuts: Vec<u64>) -> CutSource {
        CutSource {
            bytes,
            cuts,
            calls: 0,
            is_over: false,
            is_read_on: false,
        }
    }

    /// Whether it was read behind its end, or behind a read that failed.
    pub fn is_read_on(&self) -> bool {
        self.is_read_on
    }
}

impl Source for CutSource {
    ghost use Rattle.lotos_base.specs.MemSource.{source_state};

    ghost state = { λ source. source_state source.bytes };

    fn read(&mut self, buf: &mut [u8]) -> Result<usize, Failed> {
        let cut = self.cuts.get(self.calls).copied().unwrap_or(u64::MAX);
        let count = (cut as usize).max(1).min(buf.len());
        self.calls = self.calls.saturating_add(1);
        self.is_read_on = self.is_read_on || self.is_over;
        let came = self.bytes.read(&mut buf[..count]);
        self.is_over = match came {
            Ok(count) => count == 0,
            Err(_) => true,
        };
        came
    }
}

/// An output to memory that takes no more than so many bytes at a call.
#[derive(Drop)]
pub struct SlowSink {
    sink: MemSink,
    piece: usize,
    has_failed: bool,
    is_written_on: bool,
}

impl SlowSink {
    /// The same output, which takes so many bytes at a call; 0 counts as 1.
    pub fn new(sink: MemSink, piece: usize) -> SlowSink {
        SlowSink {
            sink,
            piece,
            has_failed: false,
            is_written_on: false,
        }
    }

    /// Whether it was written behind a write that failed.
    pub fn is_written_on(&self) -> bool {
        self.is_written_on
    }

    /// The bytes written.
    pub fn written(&self) -> &[u8] {
        self.sink.written()
    }
}

impl Sink for SlowSink {
    ghost use Rattle.lotos_base.specs.MemSink.{sink_state};

    ghost state = { λ slow. sink_state slow.sink };

    fn write(&mut self, piece: &[u8]) -> Result<usize, Failed> {
        let count = self.piece.max(1).min(piece.len());
        self.is_written_on = self.is_written_on || self.has_failed;
        let came = self.sink.write(&piece[..count]);
        self.has_failed = came.is_err();
        came
    }
}
