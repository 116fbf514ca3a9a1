//! One line of a session: it is answered, and the answer is written.

ghost use Rattle.std.specs.Prelude.{◌≡◌, [], ◌∷◌, MatchResult, OnOk};
ghost use Rattle.line_server.specs.Serving.{moment, IsLine, HasServed, StopsAt};

use crate::ends::Stop;
use crate::lines::Lines;
use crate::writing::write_whole;
use lotos_base::{Failed, NoMemory, Shelf, Sink};
use std::alloc::Global;

/// Answers the line, of which the line feed was read, writes the answer and clears the line. It
/// tells whether the line ends the session.
pub fn serve_line<L: Lines, F: Shelf, K: Sink>(
    alloc: Global,
    lines: &mut L,
    shelf: &mut F,
    line: &mut Vec<u8>,
    output: &mut K,
) -> Result<bool, Stop>
    requires ready { L.is_ready lines.old }
    requires plain { IsLine line.old.items }
    ensures served { MatchResult result
        (HasServed L.machine line.old.items
        (moment (L.state lines.old (F.state shelf.old)) (K.state output.old))
        (10 ∷ [])
        (moment (L.state lines.new (F.state shelf.new)) (K.state output.new)))
        (λ stop. StopsAt stop L.machine (line.old.items ∷ [])
        (moment (L.state lines.old (F.state shelf.old)) (K.state output.old))
        (moment (L.state lines.new (F.state shelf.new)) (K.state output.new))) }
    ensures cleared { OnOk result (line.new.items ≡ []) }
    ensures ready { L.is_ready lines.new }
{
    match lines.serve(alloc, line.as_slice(), shelf) {
        Err(NoMemory) => Err(Stop::NoMemory),
        Ok(answer) => match write_whole(output, answer.text.as_slice()) {
            Err(Failed) => Err(Stop::OutputFailed),
            Ok(()) => {
                line.clear();
                Ok(answer.quits)
            }
        },
    }
}
