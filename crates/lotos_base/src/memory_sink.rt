//! A sink over memory that was taken beforehand.

ghost use Rattle.std.specs.Prelude.{◌≡◌, ℕ, ◌<◌, ◌≤◌, ◌-◌, ◌↔◌, ◌⊎◌, ◌++◌, [], Some, take, length, min, IfOk, OnErr, IsErr, MatchResult, vec_capacity, vec_len};
ghost use Rattle.lotos_base.specs.Counts.{IsListedCall, next_count};
ghost use Rattle.lotos_base.specs.Outside.{FailsInCall, MovesInCall};

use crate::faults::{Failed, NoMemory};
use crate::outside::Sink;
use crate::schedule::is_listed;
use crate::tally::Tally;
use std::alloc::Global;

/// Bytes that were written, the room for them, and the numbers (from 1) of the calls that fail.
#[derive(Debug, Drop)]
pub struct MemSink {
    bytes: Vec<u8>,
    room: usize,
    failing: Vec<u64>,
    tally: Tally,
    ghost has_room: { room ≤ vec_capacity bytes },
}

impl MemSink {
    ghost use Rattle.lotos_base.specs.MemSink.{
      written_of,
      room_of,
      faults_of,
      calls_of,
      failing_of,
    };

    /// A sink that takes `room` bytes, with nothing written and no fault counted. A write fails
    /// exactly where it finds no room or where its number, from 1, is in `failing`.
    pub fn new(alloc: Global, room: usize, failing: Vec<u64>) -> Result<MemSink, NoMemory>
        ensures written { IfOk result (λ sink. written_of sink ≡ []) }
        ensures room { IfOk result (λ sink. room_of sink ≡ room) }
        ensures faults { IfOk result (λ sink. faults_of sink ≡ 0) }
        ensures calls { IfOk result (λ sink. calls_of sink ≡ 0) }
        ensures failing { IfOk result (λ sink. failing_of sink ≡ failing.items) }
    {
        let bytes = match Vec::with_capacity(alloc, room) {
            Ok(bytes) => bytes,
            Err(_) => return Err(NoMemory),
        };
        Ok(MemSink {
            bytes,
            room,
            failing,
            tally: Tally::new(),
        })
    }

    /// The bytes written. Takes no memory.
    pub fn written(&self) -> &[u8]
        ensures { result.now ≡ written_of self.now }
    {
        self.bytes.as_slice()
    }
}

impl Sink for MemSink {
    ghost use Rattle.lotos_base.specs.MemSink.{
      written_of,
      room_of,
      faults_of,
      calls_of,
      failing_of,
      sink_state,
    };

    ghost state = { sink_state };

    fn write(&mut self, piece: &[u8]) -> Result<usize, Failed>
        requires { 0 < length piece.now }
        ensures moves { IfOk result (λ count. 0 < count) }
        ensures within { IfOk result (λ count. count ≤ length piece.now) }
        ensures appended { IfOk result (λ count. written_of self.new ≡ written_of self.old
            ++ take count piece.now) }
        ensures kept { OnErr result (written_of self.new ≡ written_of self.old) }
        ensures counted { MatchResult result
            (MovesInCall (sink_state self.old) (sink_state self.new))
            (λ _. FailsInCall (sink_state self.old) (sink_state self.new)) }

        // It takes what fits, and fails exactly where nothing does or where the call is listed.
        ensures fits { IfOk result (λ count. count
            ≡ min (length piece.now) (room_of self.old - length (written_of self.old))) }
        ensures fails { IsErr result ↔ (IsListedCall (failing_of self.old) (calls_of self.old) ⊎
            (room_of self.old ≤ length (written_of self.old))) }
        ensures calls { calls_of self.new ≡ next_count (calls_of self.old) }
        ensures room { room_of self.new ≡ room_of self.old }
        ensures failing { failing_of self.new ≡ failing_of self.old }
    {
        let listed = is_listed(self.failing.as_slice(), self.tally.calls);
        let room = self.room.saturating_sub(self.bytes.len());
        let count = piece.len().min(room);
        if listed || count == 0 {
            self.tally.failed();
            return Err(Failed);
        }
        match self.bytes.extend_from_slice(&piece[..count]) {
            Ok(()) => {
                self.tally.moved_by(count);
                Ok(count)
            }
            Err(_) => unreachable!(),
        }
    }
}
