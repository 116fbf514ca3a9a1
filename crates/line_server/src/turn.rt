//! One turn of a session: one read of the input, and the answers to the lines that it completes.

ghost use Rattle.std.specs.Prelude.{◌≡◌, ◌≢◌, ◌+◌, ◌≤◌, length, IfOk, MatchResult, OnOk};
ghost use Rattle.std.specs.List.{All};
ghost use Rattle.line_server.specs.Limits.{input_limit, piece_limit};
ghost use Rattle.line_server.specs.Turn.{EndsIn, TurnGoesOn, around, turning};

use crate::closing::{close, finish};
use crate::ends::{SessionEnd, Stop};
use crate::input::{INPUT_LIMIT, read_piece, room_at};
use crate::lines::Lines;
use crate::piece::serve_piece;
use lotos_base::{Failed, Shelf, Sink, Source};
use std::alloc::Global;

/// Reads the next piece of the input, serves the lines that it completes, and writes each answer
/// before it returns. `total` bytes were read before, and `line` has begun with the last of them.
///
/// It answers how many bytes the piece has, or how the session ended in this turn.
pub fn serve_turn<L: Lines, F: Shelf, S: Source, K: Sink>(
    alloc: Global,
    lines: &mut L,
    shelf: &mut F,
    input: &mut S,
    piece: &mut [u8],
    line: &mut Vec<u8>,
    total: usize,
    output: &mut K,
) -> Result<usize, SessionEnd>
    requires ready { L.is_ready lines.old }
    requires piece { length piece.old ≡ piece_limit }
    requires plain { All (λ byte. byte ≢ 10) line.old.items }
    requires short { length line.old.items ≤ total }
    requires within { total ≤ input_limit }
    ensures turned { MatchResult result
        (λ count. TurnGoesOn L.machine
        (turning (around (L.state lines.old (F.state shelf.old)) (S.state input.old)
        (K.state output.old))
        line.old.items total)
        (turning (around (L.state lines.new (F.state shelf.new)) (S.state input.new)
        (K.state output.new))
        line.new.items (total + count)))
        (EndsIn L.machine
        (turning (around (L.state lines.old (F.state shelf.old)) (S.state input.old)
        (K.state output.old))
        line.old.items total)
        (around (L.state lines.new (F.state shelf.new)) (S.state input.new) (K.state output.new))) }
    ensures plain { OnOk result (All (λ byte. byte ≢ 10) line.new.items) }
    ensures short { IfOk result (λ count. length line.new.items ≤ total + count) }
    ensures within { IfOk result (λ count. total + count ≤ input_limit) }
    ensures piece { length piece.new ≡ length piece.old }
    ensures ready { L.is_ready lines.new }
{
    let room = room_at(total);
    match read_piece(input, piece, room) {
        Err(Failed) => Err(close(output, b"input failed\n", SessionEnd::InputFailed)),
        Ok(0) => Err(finish(alloc, lines, shelf, line.as_slice(), output)),
        Ok(count) => {
            if total == INPUT_LIMIT {
                return Err(close(output, b"input too long\n", SessionEnd::InputTooLong));
            }
            match serve_piece(alloc, lines, shelf, line, &piece[..count], output) {
                Ok(false) => Ok(count),
                Ok(true) => Err(SessionEnd::Finished),
                Err(Stop::OutputFailed) => Err(SessionEnd::OutputFailed),
                Err(Stop::NoMemory) => Err(SessionEnd::NoMemory),
            }
        }
    }
}
