//! What each line of a session asks for.

ghost use Rattle.line_server.specs.Request.{
  asked_with,
  instances_in,
  instances_up_to,
  name_of,
  request_named,
  only,
  replay,
  request_of,
  requested_by,
  save,
  step_in,
  values_request_by,
  values_request,
};
ghost use Rattle.line_server.specs.RequestView.{wants};
ghost use Rattle.std.specs.Prelude.{◌≡◌, option_map};

use crate::numbers::{number_in, size_in};
use crate::words::{first_word_length, without_blanks, without_spaces};

/// What a line asks for.
#[derive(Clone, Copy, Debug)]
pub enum Request<'a> {
    /// Nothing: the line has blanks alone.
    Skip,
    /// The menu.
    Menu,
    /// The behaviour that the session has come to.
    Behaviour,
    /// The trace.
    Trace,
    /// To undo the last step.
    Undo,
    /// The end of the session.
    Quit,
    /// The line has none of these forms.
    Unknown,
    /// To take a step.
    Step {
        /// The number of the entry.
        number: u64,
        /// The values for its variables as they are written.
        terms: &'a [u8],
    },
    /// To save the trace.
    Save {
        /// The name of the text.
        name: &'a str,
    },
    /// To replay a text.
    Replay {
        /// Its name.
        name: &'a str,
    },
    /// The normal form of a term.
    Normal {
        /// The term as it is written.
        terms: &'a [u8],
    },
    /// Whether two terms are equal.
    Equal {
        /// The terms as they are written.
        terms: &'a [u8],
    },
    /// The values of a sort.
    Values {
        /// The name of the sort as it is written.
        name: &'a [u8],
        /// How many operations a value has at most, from 1 to 64.
        size: u32,
    },
    /// The instances of an entry.
    Instances {
        /// The number of the entry.
        number: u64,
        /// How many operations each of the values for its variables has at most, from 1 to 64.
        size: u32,
    },
}

/// What the line asks for. Blanks at both ends, a carriage return among them, are no part of it.
/// Its first word, up to the first space, is the command word, in lower case. Behind `menu`,
/// `show`, `trace`, `undo` and `quit` nothing may stand; behind `step` stands a number of one to
/// ten digits without a leading zero, or `0`, and behind it the terms; behind `save` and `replay` a
/// name, which is UTF-8 and goes to the end of the line; behind `normal` and `equal` terms; behind
/// `values` a word, and behind `instances` a number as behind `step`, and then a size, which is a
/// number from 1 to 64 without a leading zero.
pub fn read_request(line: &[u8]) -> Request<'_>
    ensures { wants result ≡ request_of line.now }
{
    let line = without_blanks(line);
    if line.is_empty() {
        return Request::Skip;
    }
    let count = first_word_length(line);
    let rest = without_spaces(&line[count..]);
    requested(&line[..count], rest)
}

// What a command word asks for with what stands behind it.
fn requested<'a>(word: &[u8], rest: &'a [u8]) -> Request<'a>
    ensures { wants result ≡ requested_by word.now rest.now }
{
    if word == b"menu".as_slice() {
        alone(Request::Menu, rest)
    } else if word == b"show".as_slice() {
        alone(Request::Behaviour, rest)
    } else if word == b"trace".as_slice() {
        alone(Request::Trace, rest)
    } else if word == b"undo".as_slice() {
        alone(Request::Undo, rest)
    } else if word == b"quit".as_slice() {
        alone(Request::Quit, rest)
    } else {
        requested_with(word, rest)
    }
}

// A request behind whose word nothing may stand.
fn alone<'a>(request: Request<'a>, rest: &[u8]) -> Request<'a>
    ensures { wants result ≡ only (wants request.entry) rest.now }
{
    match rest {
        [] => request,
        _ => Request::Unknown,
    }
}

// What a word asks for behind which something stands.
fn requested_with<'a>(word: &[u8], rest: &'a [u8]) -> Request<'a>
    ensures { wants result ≡ asked_with word.now rest.now }
{
    if word == b"step".as_slice() {
        step(rest)
    } else if word == b"save".as_slice() {
        saved(rest)
    } else if word == b"replay".as_slice() {
        replayed(rest)
    } else if word == b"normal".as_slice() {
        Request::Normal { terms: rest }
    } else if word == b"equal".as_slice() {
        Request::Equal { terms: rest }
    } else if word == b"values".as_slice() {
        values(rest)
    } else if word == b"instances".as_slice() {
        instances(rest)
    } else {
        Request::Unknown
    }
}

// The step that a number and terms name.
fn step(rest: &[u8]) -> Request<'_>
    ensures { wants result ≡ step_in rest.now }
{
    let count = first_word_length(rest);
    match number_in(&rest[..count]) {
        None => Request::Unknown,
        Some(number) => Request::Step {
            number,
            terms: without_spaces(&rest[count..]),
        },
    }
}

// The values of the sort that a word names, up to a size.
fn values(rest: &[u8]) -> Request<'_>
    ensures { wants result ≡ values_request rest.now }
{
    let count = first_word_length(rest);
    let size = size_in(without_spaces(&rest[count..]));
    values_up_to(&rest[..count], size)
}

// The values of the sort with this name, if there is a size.
fn values_up_to(name: &[u8], size: Option<u32>) -> Request<'_>
    ensures { wants result ≡ values_request_by name.now size }
{
    match size {
        None => Request::Unknown,
        Some(size) => Request::Values { name, size },
    }
}

// The instances of the entry that a number names, up to a size.
fn instances(rest: &[u8]) -> Request<'_>
    ensures { wants result ≡ instances_in rest.now }
{
    let count = first_word_length(rest);
    match number_in(&rest[..count]) {
        None => Request::Unknown,
        Some(number) => instances_of(number, size_in(without_spaces(&rest[count..]))),
    }
}

// The instances of the entry with this number, if there is a size.
fn instances_of<'a>(number: u64, size: Option<u32>) -> Request<'a>
    ensures { wants result ≡ instances_up_to number size }
{
    match size {
        None => Request::Unknown,
        Some(size) => Request::Instances { number, size },
    }
}

// The text to save under a name.
fn saved(name: &[u8]) -> Request<'_>
    ensures { wants result ≡ request_named save name.now }
{
    match name_in(name) {
        None => Request::Unknown,
        Some(name) => Request::Save { name },
    }
}

// The text to replay under a name.
fn replayed(name: &[u8]) -> Request<'_>
    ensures { wants result ≡ request_named replay name.now }
{
    match name_in(name) {
        None => Request::Unknown,
        Some(name) => Request::Replay { name },
    }
}

// The bytes as a name, if there are some and they are UTF-8.
fn name_in(bytes: &[u8]) -> Option<&str>
    ensures { option_map (λ name. name.now) result ≡ name_of bytes.now }
{
    if bytes.is_empty() {
        return None;
    }
    match std::str::from_utf8(bytes) {
        Ok(name) => Some(name),
        Err(_) => None,
    }
}
