//! What an input or an output counts of its calls.

ghost use Rattle.std.specs.Prelude.{◌≡◌, ℕ, List, Option};
ghost use Rattle.lotos_base.specs.Counts.{next_count};
ghost use Rattle.lotos_base.specs.Outside.{FailsInCall, MovesInCall};
ghost use Rattle.lotos_base.specs.Tally.{stream_of};

use crate::counts::counted;

/// How many bytes were moved, how many faults were counted, how many calls were made, how many of
/// these moved no byte, and which was the last of these (0 where there was none). Each count stops
/// at the last value of a `u64`.
#[derive(Clone, Copy, Debug, Drop)]
pub struct Tally {
    pub moved: u64,
    pub faults: u64,
    pub calls: u64,
    pub vain: u64,
    pub last_vain: u64,
}

impl Tally {
    /// No call was made.
    pub fn new() -> Tally
        ensures moved { result.moved ≡ 0 }
        ensures faults { result.faults ≡ 0 }
        ensures calls { result.calls ≡ 0 }
        ensures vain { result.vain ≡ 0 }
    {
        Tally {
            moved: 0,
            faults: 0,
            calls: 0,
            vain: 0,
            last_vain: 0,
        }
    }

    /// Counts a call that moved so many bytes.
    pub fn moved_by(&mut self, count: usize)
        ensures counted { (before after : Option (List ℕ)) → MovesInCall
            (stream_of before self.old) (stream_of after self.new) count }
    {
        self.calls = counted(self.calls);
        self.moved = self.moved.saturating_add(count as u64);
        if count == 0 {
            self.count_vain();
        }
    }

    /// Counts a call that failed.
    pub fn failed(&mut self)
        ensures counted { (before after : Option (List ℕ)) → FailsInCall
            (stream_of before self.old) (stream_of after self.new) }
        ensures faults { self.new.faults ≡ next_count self.old.faults }
    {
        self.calls = counted(self.calls);
        self.faults = counted(self.faults);
        self.count_vain();
    }

    // The call that was counted last moved no byte.
    fn count_vain(&mut self)
        ensures { self.new ≡ record {
          moved = self.old.moved;
          faults = self.old.faults;
          calls = self.old.calls;
          vain = next_count self.old.vain;
          last_vain = self.old.calls;
        } }
    {
        self.vain = counted(self.vain);
        self.last_vain = self.calls;
    }
}
