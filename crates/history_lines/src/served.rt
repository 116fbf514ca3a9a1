//! One line of a session, served.

ghost use Rattle.history_lines.specs.LinesView.{IsServing, point_of};
ghost use Rattle.history_lines.specs.Served.{AppendsNothing, AppendsReply, ends_behind};
ghost use Rattle.history_lines.specs.Serving.{ends_session};
ghost use Rattle.line_server.specs.Request.{request_of};
ghost use Rattle.line_server.specs.RequestView.{wants};
ghost use Rattle.std.specs.Prelude.{
  ◌≡◌,
  ◌++◌,
  ◌<◌,
  ◌^◌,
  IfOk,
  MatchResult,
  OnErr,
  OnOk,
  length,
};

use crate::lines::HistoryLines;
use line_server::{Request, read_request};
use lotos_base::{NoMemory, Shelf};
use session_log::MenuMaker;
use std::alloc::Global;

/// How a line leaves the session.
#[derive(Clone, Copy, Debug)]
pub enum Served {
    /// The next line may be served.
    Next,
    /// The line asked for the end of the session.
    Quit,
}

/// Serves one line, which has fewer than 2^32 bytes and no line feed: appends its answer, and says
/// `Quit` exactly where the line asks for the end of the session.
///
/// A `step`, `undo` or `replay` that is not refused changes the session, and no other line does.
/// `replay` makes one call of the shelf, `save` one at most, and no other line any. Where memory
/// is wanted, what was in `into` stays, and session and shelf are those before the line or those
/// behind it.
pub fn serve<F: Shelf, M: MenuMaker>(
    alloc: Global,
    line: &[u8],
    lines: &mut HistoryLines<'_, M>,
    shelf: &mut F,
    into: &mut Vec<u8>,
) -> Result<Served, NoMemory>
    requires serving { IsServing M.suits lines.old }
    requires short { length line.now < 2 ^ 32 }
    ensures answered { MatchResult result
        (AppendsReply
        (point_of lines.old (F.state shelf.old)) line.now
        (point_of lines.new (F.state shelf.new))
        into.old.items into.new.items)
        (λ _. AppendsNothing
        (point_of lines.old (F.state shelf.old)) line.now
        (point_of lines.new (F.state shelf.new))
        into.old.items into.new.items) }
    ensures quits { IfOk result
        (λ served. ends_behind served ≡ ends_session (request_of line.now)) }
    ensures serving_after { IsServing M.suits lines.new }
{
    let request = read_request(line);
    let served = served_by(&request);
    let text = lines.answer(alloc, request, shelf)?;
    append(into, text.as_slice())?;
    Ok(served)
}

// How a request leaves the session.
fn served_by(request: &Request<'_>) -> Served
    ensures { ends_behind result ≡ ends_session (wants request.now) }
{
    match request {
        Request::Quit => Served::Quit,
        _ => Served::Next,
    }
}

// Appends the text. Where memory is wanted, what was there stays.
fn append(into: &mut Vec<u8>, text: &[u8]) -> Result<(), NoMemory>
    ensures appended { OnOk result (into.new.items ≡ into.old.items ++ text.now) }
    ensures kept { OnErr result (into.new.items ≡ into.old.items) }
{
    into.extend_from_slice(text)?;
    Ok(())
}

impl Served {
    /// Whether the session ends.
    pub fn ends(self) -> bool
        ensures { result ≡ ends_behind self }
    {
        match self {
            Served::Quit => true,
            Served::Next => false,
        }
    }
}
