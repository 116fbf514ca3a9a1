//! Laws of lines. Each function carries a law as its contract and does nothing.

ghost use Rattle.line_server.specs.RequestLaws.{RequestsAreWithin};

/// The texts of a request are shorter than its line.
pub fn requests_are_within()
    ensures { RequestsAreWithin }
{}
