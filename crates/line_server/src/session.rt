//! The session: turn after turn, up to its end.

ghost use Rattle.std.specs.Prelude.{◌≡◌, length};
ghost use Rattle.line_server.specs.Limits.{piece_limit};
ghost use Rattle.line_server.specs.Session.{IsServedInTurns, IsSessionServed};
ghost use Rattle.line_server.specs.Turn.{around};

use crate::ends::SessionEnd;
use crate::input::PIECE_LIMIT;
use crate::lines::Lines;
use crate::turn::serve_turn;
use lotos_base::{Shelf, Sink, Source};
use std::alloc::Global;

/// Reads the input to its end in pieces, serves its lines in order, and writes each answer before
/// the next read.
///
/// A line is served once its line feed is read, or where the input has ended and the line has a
/// byte. The answer is `Finished` where the input has ended or a line ended the session,
/// `InputFailed` exactly where the input's count of faults rose, `InputTooLong` exactly where
/// byte 16,777,217 was read, `OutputFailed` exactly where the output's count of faults rose; the
/// last three of these drop the unfinished line, and the first two of them write a closing line.
pub fn serve_session<L: Lines, F: Shelf, S: Source, K: Sink>(
    alloc: Global,
    lines: &mut L,
    shelf: &mut F,
    input: &mut S,
    output: &mut K,
) -> SessionEnd
    requires ready { L.is_ready lines.old }
    ensures turns { IsServedInTurns L.machine
        (around (L.state lines.old (F.state shelf.old)) (S.state input.old) (K.state output.old))
        (around (L.state lines.new (F.state shelf.new)) (S.state input.new)
        (K.state output.new)) result }
    ensures served { IsSessionServed L.machine
        (around (L.state lines.old (F.state shelf.old)) (S.state input.old) (K.state output.old))
        (around (L.state lines.new (F.state shelf.new)) (S.state input.new)
        (K.state output.new)) result }
    ensures ready { L.is_ready lines.new }
{
    let mut piece = [0u8; PIECE_LIMIT];
    serve_turns(alloc, lines, shelf, input, &mut piece, output)
}

/// Serves the whole input, turn by turn.
fn serve_turns<L: Lines, F: Shelf, S: Source, K: Sink>(
    alloc: Global,
    lines: &mut L,
    shelf: &mut F,
    input: &mut S,
    piece: &mut [u8],
    output: &mut K,
) -> SessionEnd
    requires ready { L.is_ready lines.old }
    requires piece { length piece.old ≡ piece_limit }
    ensures turns { IsServedInTurns L.machine
        (around (L.state lines.old (F.state shelf.old)) (S.state input.old) (K.state output.old))
        (around (L.state lines.new (F.state shelf.new)) (S.state input.new)
        (K.state output.new)) result }
    ensures ready { L.is_ready lines.new }
{
    let mut line = Vec::new(alloc);
    let mut total = 0;
    loop {
        match serve_turn(alloc, lines, shelf, input, piece, &mut line, total, output) {
            Ok(count) => total += count,
            Err(end) => return end,
        }
    }
}
