//! The outside: where bytes come from, where they go, and the texts that stand on a shelf.
//!
//! What an object has left, has written or holds is optional (`None` where it does not tell), and
//! the clauses on content hold where it is told. Each object counts its faults: `Failed` comes only
//! where the count rose in that call, or where it stands at the last value of a `u64`, and a call
//! with another answer leaves the count. Each counts its calls too; an input and an output also
//! count the bytes that these moved, how many moved none, and which was the last of these.

ghost use Rattle.std.specs.Prelude.{◌≡◌, ◌<◌, ◌≤◌, ◌++◌, [], Some, take, length, IfOk, OnErr, IfSome, IsSomeAnd, MatchResult};
ghost use Rattle.lotos_base.specs.Counts.{next_count};
ghost use Rattle.lotos_base.specs.Outside.{
  FailsInCall,
  GetAnswers,
  GetCounts,
  MovesInCall,
  MovesInto,
  PutCounts,
  PutLeaves,
  ShelfState,
  Stream,
};

use crate::faults::{Failed, GetFault, PutFault};

/// Where bytes come from.
pub trait Source {
    // The bytes that are left, where the source tells them, and its counts.
    ghost state: { Self → Stream };

    /// Moves the next bytes into `buf` and answers how many; 0 exactly where none are left.
    fn read(&mut self, buf: &mut [u8]) -> Result<usize, Failed>
        requires { 0 < length buf.old }
        ensures within { IfOk result (λ count. count ≤ length buf.old) }
        ensures moved { IfOk result (λ count. IfSome (state self.old).bytes
            (λ bytes. MovesInto bytes (state self.new).bytes buf.new count)) }
        ensures kept { OnErr result (IfSome (state self.old).bytes
            (λ bytes. (state self.new).bytes ≡ Some bytes)) }
        ensures counted { MatchResult result (MovesInCall (state self.old) (state self.new))
            (λ _. FailsInCall (state self.old) (state self.new)) };
}

/// Where bytes go.
pub trait Sink {
    // The bytes that were written, where the sink tells them, and its counts.
    ghost state: { Self → Stream };

    /// Appends the first bytes of `piece` and answers how many, at least one.
    fn write(&mut self, piece: &[u8]) -> Result<usize, Failed>
        requires { 0 < length piece.now }
        ensures moves { IfOk result (λ count. 0 < count) }
        ensures within { IfOk result (λ count. count ≤ length piece.now) }
        ensures appended { IfOk result (λ count. IfSome (state self.old).bytes
            (λ bytes. (state self.new).bytes ≡ Some (bytes ++ take count piece.now))) }
        ensures kept { OnErr result (IfSome (state self.old).bytes
            (λ bytes. (state self.new).bytes ≡ Some bytes)) }
        ensures counted { MatchResult result (MovesInCall (state self.old) (state self.new))
            (λ _. FailsInCall (state self.old) (state self.new)) };
}

/// Texts by name.
pub trait Shelf {
    // The texts by name, where the shelf tells them, and its counts of faults and of calls (of
    // `get` and `put`), which stop at the last value of a `u64`.
    ghost state: { Self → ShelfState };

    /// Puts the first `limit` bytes of the text under `name` into `into`, in place of what it has.
    ///
    /// `Missing` comes only where the shelf tells its texts and has none under the name. After an
    /// error `into` is empty. It never has more than `limit` bytes.
    fn get(&mut self, name: &str, limit: usize, into: &mut Vec<u8>) -> Result<(), GetFault>
        ensures answers { GetAnswers result (state self.old).texts name.now limit into.new.items }
        ensures emptied { OnErr result (into.new.items ≡ []) }
        ensures within { length into.new.items ≤ limit }
        ensures texts { (state self.new).texts ≡ (state self.old).texts }
        ensures calls { (state self.new).calls ≡ next_count (state self.old).calls }
        ensures counts { GetCounts result (state self.old).faults (state self.new).faults };

    /// Makes `bytes` the text under `name`.
    ///
    /// After `Failed` the name may have any bytes or none, and after `NoMemory` the shelf is as
    /// before.
    fn put(&mut self, name: &str, bytes: &[u8]) -> Result<(), PutFault>
        ensures leaves { IfSome (state self.old).texts
            (λ told. IsSomeAnd (state self.new).texts
            (λ told_after. PutLeaves result told told_after name.now bytes.now)) }
        ensures calls { (state self.new).calls ≡ next_count (state self.old).calls }
        ensures counts { PutCounts result (state self.old).faults (state self.new).faults };
}
