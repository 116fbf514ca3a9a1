//! The words of a line, and the blanks between them.

ghost use Rattle.line_server.specs.Line.{
  before_blanks,
  behind_blanks,
  behind_spaces,
  stripped,
  length_to_space,
};
ghost use Rattle.std.specs.Prelude.{◌≡◌, ◌≤◌, length};
ghost use Rattle.lotos_lexer.specs.Bytes.{is_blank};

// The line without the blanks at both ends.
pub(crate) fn without_blanks(line: &[u8]) -> &[u8]
    ensures { result.now ≡ stripped line.now }
{
    without_last_blanks(without_first_blanks(line))
}

// The line without the blanks before it.
fn without_first_blanks(line: &[u8]) -> &[u8]
    ensures { result.now ≡ behind_blanks line.now }
{
    let mut rest = line;
    while let [first, more @ ..] = rest
        && blank(*first)
    {
        rest = more;
    }
    rest
}

// The line without the blanks at its end.
fn without_last_blanks(line: &[u8]) -> &[u8]
    ensures { result.now ≡ before_blanks line.now }
{
    let mut rest = line;
    while let [more @ .., last] = rest
        && blank(*last)
    {
        rest = more;
    }
    rest
}

// Whether the byte is a blank.
fn blank(byte: u8) -> bool
    ensures { result ≡ is_blank byte }
{
    byte == b' ' || byte == b'\t' || byte == b'\n' || byte == b'\r'
}

// How many bytes stand before the first space.
pub(crate) fn first_word_length(line: &[u8]) -> usize
    ensures counted { result ≡ length_to_space line.now }
    ensures within { result ≤ length line.now }
{
    let mut count = 0;
    let mut rest = line;
    while let [first, more @ ..] = rest
        && *first != b' '
    {
        count += 1;
        rest = more;
    }
    count
}

// The bytes without the spaces before them.
pub(crate) fn without_spaces(bytes: &[u8]) -> &[u8]
    ensures { result.now ≡ behind_spaces bytes.now }
{
    let mut rest = bytes;
    while let [first, more @ ..] = rest
        && *first == b' '
    {
        rest = more;
    }
    rest
}
