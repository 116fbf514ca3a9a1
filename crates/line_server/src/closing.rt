//! The end of a session that no line ends.

ghost use Rattle.line_server.specs.Cutting.{last_line};
ghost use Rattle.line_server.specs.Serving.{IsLine, moment};
ghost use Rattle.line_server.specs.Turn.{SessionCloses, LinesEndWith};

use crate::ends::SessionEnd;
use crate::lines::Lines;
use crate::writing::write_whole;
use lotos_base::{Failed, NoMemory, Shelf, Sink};
use std::alloc::Global;

/// Writes the closing line, and answers how the session ends.
pub fn close<K: Sink>(output: &mut K, text: &[u8], end: SessionEnd) -> SessionEnd
    ensures { SessionCloses text.now end (K.state output.old) (K.state output.new) result }
{
    match write_whole(output, text) {
        Ok(()) => end,
        Err(Failed) => SessionEnd::OutputFailed,
    }
}

/// Serves the last line, where one has begun, after which the session ends.
pub fn finish<L: Lines, F: Shelf, K: Sink>(
    alloc: Global,
    lines: &mut L,
    shelf: &mut F,
    line: &[u8],
    output: &mut K,
) -> SessionEnd
    requires ready { L.is_ready lines.old }
    requires line { IsLine line.now }
    ensures served { LinesEndWith L.machine (last_line line.now)
        (moment (L.state lines.old (F.state shelf.old)) (K.state output.old))
        (moment (L.state lines.new (F.state shelf.new)) (K.state output.new)) result }
    ensures ready { L.is_ready lines.new }
{
    if line.is_empty() {
        return SessionEnd::Finished;
    }
    match lines.serve(alloc, line, shelf) {
        Err(NoMemory) => SessionEnd::NoMemory,
        Ok(answer) => match write_whole(output, answer.text.as_slice()) {
            Ok(()) => SessionEnd::Finished,
            Err(Failed) => SessionEnd::OutputFailed,
        },
    }
}
