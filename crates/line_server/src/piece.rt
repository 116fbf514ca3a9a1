//! A piece of an input: its lines are served in order.

ghost use Rattle.std.specs.Prelude.{◌≡◌, ◌≢◌, ◌+◌, ◌≤◌, [], ◌∷◌, length, IfOk, MatchResult, OnOk};
ghost use Rattle.std.specs.List.{All};
ghost use Rattle.line_server.specs.Cutting.{complete};
ghost use Rattle.line_server.specs.Limits.{input_limit};
ghost use Rattle.line_server.specs.Serving.{
  Begins,
  HasServed,
  IsLine,
  StopsAt,
  moment,
};

use crate::ends::Stop;
use crate::line::serve_line;
use crate::lines::Lines;
use lotos_base::{Shelf, Sink};
use std::alloc::Global;

/// Serves the lines that the piece completes, the first one with the line that has begun, and
/// keeps in `line` what stands behind the last line feed. It tells whether a line ended the
/// session; then the rest of the piece is not looked at.
pub fn serve_piece<L: Lines, F: Shelf, K: Sink>(
    alloc: Global,
    lines: &mut L,
    shelf: &mut F,
    line: &mut Vec<u8>,
    piece: &[u8],
    output: &mut K,
) -> Result<bool, Stop>
    requires ready { L.is_ready lines.old }
    requires plain { All (λ byte. byte ≢ 10) line.old.items }
    requires short { length line.old.items + length piece.now ≤ input_limit }
    ensures served { MatchResult result
        (HasServed L.machine line.old.items
        (moment (L.state lines.old (F.state shelf.old)) (K.state output.old))
        piece.now
        (moment (L.state lines.new (F.state shelf.new)) (K.state output.new)))
        (λ stop. StopsAt stop L.machine (complete line.old.items piece.now)
        (moment (L.state lines.old (F.state shelf.old)) (K.state output.old))
        (moment (L.state lines.new (F.state shelf.new)) (K.state output.new))) }
    ensures begins { IfOk result (λ quits. Begins quits line.old.items piece.now line.new.items) }
    ensures plain { OnOk result (All (λ byte. byte ≢ 10) line.new.items) }
    ensures short { OnOk result (length line.new.items ≤ length line.old.items + length piece.now) }
    ensures ready { L.is_ready lines.new }
{
    for byte in piece {
        match serve_byte(alloc, lines, shelf, line, *byte, output) {
            Ok(false) => {}
            Ok(true) => return Ok(true),
            Err(stop) => return Err(stop),
        }
    }
    Ok(false)
}

/// Serves the line that has begun where the byte is a line feed, and adds the byte to it else.
fn serve_byte<L: Lines, F: Shelf, K: Sink>(
    alloc: Global,
    lines: &mut L,
    shelf: &mut F,
    line: &mut Vec<u8>,
    byte: u8,
    output: &mut K,
) -> Result<bool, Stop>
    requires ready { L.is_ready lines.old }
    requires line { IsLine line.old.items }
    ensures served { MatchResult result
        (HasServed L.machine line.old.items
        (moment (L.state lines.old (F.state shelf.old)) (K.state output.old))
        (byte ∷ [])
        (moment (L.state lines.new (F.state shelf.new)) (K.state output.new)))
        (λ stop. StopsAt stop L.machine (complete line.old.items (byte ∷ []))
        (moment (L.state lines.old (F.state shelf.old)) (K.state output.old))
        (moment (L.state lines.new (F.state shelf.new)) (K.state output.new))) }
    ensures begins { IfOk result (λ quits. Begins quits line.old.items (byte ∷ []) line.new.items) }
    ensures plain { OnOk result (All (λ it. it ≢ 10) line.new.items) }
    ensures short { OnOk result (length line.new.items ≤ length line.old.items + 1) }
    ensures ready { L.is_ready lines.new }
{
    if byte == b'\n' {
        return serve_line(alloc, lines, shelf, line, output);
    }
    match line.push(byte) {
        Ok(()) => Ok(false),
        Err(_) => Err(Stop::NoMemory),
    }
}
