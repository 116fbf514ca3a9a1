//! A source over bytes in memory.

ghost use Rattle.std.specs.Prelude.{◌≡◌, ℕ, ◌<◌, ◌≤◌, ◌↔◌, Some, drop, length, min, IfOk, OnOk, OnErr, IfSome, IsErr, MatchResult};
ghost use Rattle.lotos_base.specs.Counts.{IsListedCall, next_count};
ghost use Rattle.lotos_base.specs.Outside.{FailsInCall, MovesInCall, MovesInto};

use crate::faults::Failed;
use crate::outside::Source;
use crate::schedule::is_listed;
use crate::tally::Tally;

/// Bytes to be read, and the numbers (from 1) of the calls that fail.
#[derive(Debug, Drop)]
pub struct MemSource {
    bytes: Vec<u8>,
    start: usize,
    failing: Vec<u64>,
    tally: Tally,
}

impl MemSource {
    ghost use Rattle.lotos_base.specs.MemSource.{left_of, faults_of, calls_of, failing_of};

    /// A source with these bytes left and no fault counted. The calls whose number, from 1, is in
    /// `failing` fail, and no others. Takes no memory.
    pub fn new(bytes: Vec<u8>, failing: Vec<u64>) -> MemSource
        ensures left { left_of result ≡ bytes.items }
        ensures faults { faults_of result ≡ 0 }
        ensures calls { calls_of result ≡ 0 }
        ensures failing { failing_of result ≡ failing.items }
    {
        MemSource {
            bytes,
            start: 0,
            failing,
            tally: Tally::new(),
        }
    }
}

impl Source for MemSource {
    ghost use Rattle.lotos_base.specs.MemSource.{
      left_of,
      faults_of,
      calls_of,
      failing_of,
      source_state,
    };

    ghost state = { source_state };

    fn read(&mut self, buf: &mut [u8]) -> Result<usize, Failed>
        requires { 0 < length buf.old }
        ensures within { IfOk result (λ count. count ≤ length buf.old) }
        ensures moved { IfOk result (λ count.
            MovesInto (left_of self.old) (Some (left_of self.new)) buf.new count) }
        ensures kept { OnErr result (left_of self.new ≡ left_of self.old) }
        ensures counted { MatchResult result
            (MovesInCall (source_state self.old) (source_state self.new))
            (λ _. FailsInCall (source_state self.old) (source_state self.new)) }

        // It takes as much as fits, and leaves the rest of the buffer, all of it after a fault.
        ensures fits { IfOk result (λ count. count
            ≡ min (length buf.old) (length (left_of self.old))) }
        ensures behind { IfOk result (λ count. drop count buf.new ≡ drop count buf.old) }
        ensures untouched { OnErr result (buf.new ≡ buf.old) }

        // The calls fail whose number is listed, and no others.
        ensures fails { IsErr result ↔ IsListedCall (failing_of self.old) (calls_of self.old) }
        ensures calls { calls_of self.new ≡ next_count (calls_of self.old) }
        ensures failing { failing_of self.new ≡ failing_of self.old }
    {
        if is_listed(self.failing.as_slice(), self.tally.calls) {
            self.tally.failed();
            return Err(Failed);
        }
        let rest = self.bytes.as_slice().get(self.start..).unwrap_or(&[]);
        let count = rest.len().min(buf.len());
        buf[..count].copy_from_slice(&rest[..count]);
        self.start += count;
        self.tally.moved_by(count);
        Ok(count)
    }
}
