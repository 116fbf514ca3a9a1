//! The real input.

ghost use Rattle.std.specs.Prelude.{◌≡◌};
ghost use Rattle.lotos_base.specs.Tally.{stream_of};

use lotos_base::{Failed, Source, Tally};
use std::io::Read;

/// A source over a reader. It tells what the reader tells of the bytes that are left.
#[derive(Drop)]
pub struct InSource<R: Read> {
    reader: R,
    tally: Tally,
}

impl<R: Read> InSource<R> {
    /// A source over this reader, with no call made and no fault counted.
    pub fn new(reader: R) -> InSource<R>
        ensures left { R.remaining result.reader ≡ R.remaining reader }
        ensures calls { result.tally.calls ≡ 0 }
        ensures faults { result.tally.faults ≡ 0 }
    {
        InSource {
            reader,
            tally: Tally::new(),
        }
    }
}

impl<R: Read> Source for InSource<R> {
    ghost state = { λ source. stream_of (R.remaining source.reader) source.tally };

    fn read(&mut self, buf: &mut [u8]) -> Result<usize, Failed> {
        match self.reader.read(buf) {
            Ok(count) => {
                self.tally.moved_by(count);
                Ok(count)
            }
            Err(_) => {
                self.tally.failed();
                Err(Failed)
            }
        }
    }
}
