//! The session of an input.

ghost use Rattle.history_lines.specs.LinesView.{IsServing, point_of};
ghost use Rattle.history_lines.specs.SessionMachine.{history_machine};
ghost use Rattle.line_server.specs.Session.{IsSessionServed};
ghost use Rattle.line_server.specs.Turn.{around};

use crate::lines::HistoryLines;
use line_server::{SessionEnd, serve_session};
use lotos_base::{Shelf, Sink, Source};
use session_log::MenuMaker;
use std::alloc::Global;

/// Serves the lines of the input, each by [`crate::serve`], and answers how the session ended, as
/// [`serve_session`] does for all that answers lines.
pub fn serve_input<M: MenuMaker, F: Shelf, S: Source, K: Sink>(
    alloc: Global,
    lines: &mut HistoryLines<'_, M>,
    shelf: &mut F,
    input: &mut S,
    output: &mut K,
) -> SessionEnd
    requires serving { IsServing M.suits lines.old }
    ensures served { IsSessionServed history_machine
        (around (point_of lines.old (F.state shelf.old))
        (S.state input.old) (K.state output.old))
        (around (point_of lines.new (F.state shelf.new))
        (S.state input.new) (K.state output.new)) result }
    ensures serving_after { IsServing M.suits lines.new }
{
    serve_session(alloc, lines, shelf, input, output)
}
