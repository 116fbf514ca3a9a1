//! The real output.

ghost use Rattle.std.specs.Prelude.{◌≡◌};
ghost use Rattle.lotos_base.specs.Tally.{stream_of};

use lotos_base::{Failed, Sink, Tally};
use std::io::Write;

/// A sink over a writer. It tells what the writer tells of the bytes that it holds. A writer that
/// takes no byte has failed.
#[derive(Drop)]
pub struct OutSink<W: Write> {
    writer: W,
    tally: Tally,
}

impl<W: Write> OutSink<W> {
    /// A sink over this writer, with no call made and no fault counted.
    pub fn new(writer: W) -> OutSink<W>
        ensures written { W.contents result.writer ≡ W.contents writer }
        ensures calls { result.tally.calls ≡ 0 }
        ensures faults { result.tally.faults ≡ 0 }
    {
        OutSink {
            writer,
            tally: Tally::new(),
        }
    }
}

impl<W: Write> Sink for OutSink<W> {
    ghost state = { λ sink. stream_of (W.contents sink.writer) sink.tally };

    fn write(&mut self, piece: &[u8]) -> Result<usize, Failed> {
        match self.writer.write(piece) {
            Ok(count) if count > 0 => {
                self.tally.moved_by(count);
                Ok(count)
            }
            _ => {
                self.tally.failed();
                Err(Failed)
            }
        }
    }
}
