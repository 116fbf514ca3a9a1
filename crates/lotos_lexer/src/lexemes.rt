//! The token that begins at a place, by its kind and its length.

ghost use Rattle.std.specs.Prelude.{◌≡◌, ◌<◌, ◌≤◌, length, IfSome};
ghost use Rattle.std.specs.List.{prefix_len};
ghost use Rattle.lotos_lexer.specs.Bytes.{is_sign, IsSpan};
ghost use Rattle.lotos_lexer.specs.Spellings.{rows_of, reserved_words, reserved_runs, operators, single_signs};
ghost use Rattle.lotos_lexer.specs.Lexemes.{word_length, kind_in, word_kind_in, spelling_at, word, digit_name, operator, closing, run_of_signs, single_sign, lexeme_at};

use crate::kinds;
use crate::spellings::{OPERATORS, RESERVED_RUNS, RESERVED_WORDS, SINGLE_SIGNS, Spelling};

/// The kind of a token and how many bytes it has.
#[derive(Clone, Copy, Debug, PartialEq, Eq)]
pub struct Lexeme {
    pub kind: u16,
    pub length: usize,
}

/// Whether a byte may stand in a run of signs.
fn is_sign_byte(byte: u8) -> bool
    ensures { result ≡ is_sign byte }
{
    b"#%&*+-./<=>@\\^~{}".contains(&byte)
}

/// How many bytes make the word or the digit name that begins here.
fn length_of_word(bytes: &[u8]) -> usize
    ensures exact { result ≡ word_length bytes.now }
    ensures within { result ≤ length bytes.now }
{
    let mut end = 0;
    for (index, byte) in bytes.iter().enumerate() {
        if byte.is_ascii_alphanumeric() {
            end = index + 1;
        } else if *byte != b'_' {
            break;
        }
    }
    end
}

/// How many bytes make the run of signs that begins here.
fn length_of_run(bytes: &[u8]) -> usize
    ensures exact { result ≡ prefix_len is_sign bytes.now }
    ensures within { result ≤ length bytes.now }
{
    for (index, byte) in bytes.iter().enumerate() {
        if !is_sign_byte(*byte) {
            return index;
        }
    }
    bytes.len()
}

/// The kind of a spelling in a table.
fn kind_of(table: &[Spelling], spelled: &[u8]) -> Option<u16>
    ensures { result ≡ kind_in (rows_of table.now) spelled.now }
{
    for row in table {
        if row.text == spelled {
            return Some(row.kind);
        }
    }
    None
}

/// The first spelling of a table that the bytes begin with.
fn find_spelling(table: &[Spelling], bytes: &[u8]) -> Option<Lexeme>
    ensures { result ≡ spelling_at (rows_of table.now) bytes.now }
{
    for row in table {
        if bytes.starts_with(row.text) {
            return Some(Lexeme {
                kind: row.kind,
                length: row.text.len(),
            });
        }
    }
    None
}

/// The kind of a word in a table, in any letter case.
fn kind_of_word(table: &[Spelling], spelled: &[u8]) -> Option<u16>
    ensures { result ≡ word_kind_in (rows_of table.now) spelled.now }
{
    for row in table {
        if row.text.eq_ignore_ascii_case(spelled) {
            return Some(row.kind);
        }
    }
    None
}

/// The word that begins here.
fn find_word(bytes: &[u8]) -> Option<Lexeme>
    ensures { result ≡ word bytes.now }
{
    if !bytes.first()?.is_ascii_alphabetic() {
        return None;
    }
    let length = length_of_word(bytes);
    let kind = kind_of_word(&RESERVED_WORDS, &bytes[..length]).unwrap_or(kinds::NAME);
    Some(Lexeme { kind, length })
}

/// The digit name that begins here.
fn find_digit_name(bytes: &[u8]) -> Option<Lexeme>
    ensures { result ≡ digit_name bytes.now }
{
    if !bytes.first()?.is_ascii_digit() {
        return None;
    }
    Some(Lexeme {
        kind: kinds::DIGIT_NAME,
        length: length_of_word(bytes),
    })
}

/// The `]|` that begins here, where a gate list is open.
fn find_closing(open_list: bool, bytes: &[u8]) -> Option<Lexeme>
    ensures { result ≡ closing open_list bytes.now }
{
    if open_list && bytes.starts_with(b"]|") {
        Some(Lexeme {
            kind: kinds::GATES_CLOSE,
            length: 2,
        })
    } else {
        None
    }
}

/// The run of signs that begins here.
fn find_run(bytes: &[u8]) -> Option<Lexeme>
    ensures { result ≡ run_of_signs bytes.now }
{
    if !is_sign_byte(*bytes.first()?) {
        return None;
    }
    let length = length_of_run(bytes);
    let kind = kind_of(&RESERVED_RUNS, &bytes[..length]).unwrap_or(kinds::SIGN_NAME);
    Some(Lexeme { kind, length })
}

/// The token that begins here, if any. `open_list` tells whether a gate list is open, so that `]|`
/// closes it.
pub fn find_lexeme(open_list: bool, bytes: &[u8]) -> Option<Lexeme>
    ensures exact { result ≡ lexeme_at open_list bytes.now }
    ensures spans { IfSome result (λ lexeme. IsSpan lexeme.length bytes.now) }
{
    find_word(bytes)
        .or(find_digit_name(bytes))
        .or(find_spelling(&OPERATORS, bytes))
        .or(find_closing(open_list, bytes))
        .or(find_run(bytes))
        .or(find_spelling(&SINGLE_SIGNS, bytes))
}
