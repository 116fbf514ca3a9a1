//! The input of a session, read in pieces.

ghost use Rattle.std.specs.Prelude.{◌≡◌, ◌+◌, ◌<◌, ◌≤◌, length, IfOk, OnErr, IfSome, MatchResult, Some};
ghost use Rattle.lotos_base.specs.Outside.{FailsInCall, MovesInCall, MovesInto};
ghost use Rattle.line_server.specs.Limits.{input_limit, piece_limit};

use lotos_base::{Failed, Source};

/// How many bytes a session may have.
pub const INPUT_LIMIT: usize = 16_777_216;

/// How many bytes are read at once, at most.
pub const PIECE_LIMIT: usize = 4_096;

/// How many bytes to ask for where this many were read: what the limit leaves, up to a whole
/// piece, and one where nothing is left, since the byte past the limit is asked for by itself.
pub fn room_at(total: usize) -> usize
    requires { total ≤ input_limit }
    ensures some { 0 < result }
    ensures fits { result ≤ piece_limit }
    ensures within { total < input_limit → total + result ≤ input_limit }
    ensures alone { total ≡ input_limit → result ≡ 1 }
{
    (INPUT_LIMIT - total).min(PIECE_LIMIT).max(1)
}

/// Reads the next bytes into the first `room` bytes of the piece, by one call.
pub fn read_piece<S: Source>(input: &mut S, piece: &mut [u8], room: usize) -> Result<usize, Failed>
    requires some { 0 < room }
    requires fits { room ≤ length piece.old }
    ensures within { IfOk result (λ count. count ≤ room) }
    ensures length { length piece.new ≡ length piece.old }
    ensures moved { IfOk result (λ count. IfSome (S.state input.old).bytes
        (λ bytes. MovesInto bytes (S.state input.new).bytes piece.new count)) }
    ensures kept { OnErr result (IfSome (S.state input.old).bytes
        (λ bytes. (S.state input.new).bytes ≡ Some bytes)) }
    ensures counted { MatchResult result (MovesInCall (S.state input.old) (S.state input.new))
        (λ _. FailsInCall (S.state input.old) (S.state input.new)) }
{
    input.read(&mut piece[..room])
}
