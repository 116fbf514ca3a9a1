//! Worked cases. Each function carries what the definitions say of some lines as its contract and
//! does nothing.

ghost use Rattle.line_server.specs.RequestCases.{LinesAsk, LinesAskNothing};

/// Lines that have a form.
pub fn lines_ask()
    ensures { LinesAsk }
{}

/// Lines that have none.
pub fn lines_ask_nothing()
    ensures { LinesAskNothing }
{}
