//! The forms of lines.

ghost use Rattle.induct_check.specs.CertificateLines as plain;
ghost use Rattle.induct_check.specs.FormView.{form_in};
ghost use Rattle.induct_parts.specs.CertificateView.{direction_of, use_side_of, use_source_of, use_of};
ghost use Rattle.std.specs.Option.{option_map};
ghost use Rattle.std.specs.Prelude.{◌≡◌, IfOk, map};

use crate::numbers::{from_nought_on, number_of, path_of};
use crate::parts::{cut, parts_at};
use induct_parts::certificates::{Direction, Side, Source, Use};
use lotos_base::NoMemory;
use std::alloc::Global;

/// The form of a line.
#[derive(Debug, Drop)]
pub enum Form<'a> {
    /// `cover S` and what stands behind it.
    Cover(&'a [u8], &'a [u8]),
    /// `tree` and an item.
    Tree(&'a [u8]),
    /// `split` and a word.
    Split(&'a [u8]),
    /// `lemma`, alone or with variables.
    Lemma(Option<&'a [u8]>),
    /// `left` and a term.
    Left(&'a [u8]),
    /// `right` and a term.
    Right(&'a [u8]),
    /// A use.
    Use(Use),
    /// `leaf`.
    Leaf,
    /// `same`.
    Same,
    /// None of these.
    Nothing,
}

/// The form of the line.
pub fn form_of(alloc: Global, line: &[u8]) -> Result<Form<'_>, NoMemory>
    ensures { IfOk result (λ form. form_in form ≡ plain.line_form_of line.now) }
{
    match cut(line) {
        (word, None) => Ok(form_alone(word)),
        (word, Some(rest)) => form_with(alloc, word, rest),
    }
}

// The form of a line of one word.
fn form_alone<'a>(word: &[u8]) -> Form<'a>
    ensures { form_in result ≡ plain.form_alone word.now }
{
    if word == b"leaf".as_slice() {
        Form::Leaf
    } else if word == b"same".as_slice() {
        Form::Same
    } else if word == b"lemma".as_slice() {
        Form::Lemma(None)
    } else {
        Form::Nothing
    }
}

// The form of a line with this first word and this behind it and a blank.
fn form_with<'a>(alloc: Global, word: &[u8], rest: &'a [u8]) -> Result<Form<'a>, NoMemory>
    ensures { IfOk result (λ form. form_in form ≡ plain.form_with word.now rest.now) }
{
    if word == b"cover".as_slice() {
        Ok(cover_form(cut(rest)))
    } else if word == b"tree".as_slice() {
        Ok(Form::Tree(rest))
    } else if word == b"split".as_slice() {
        Ok(split_form(cut(rest)))
    } else if word == b"lemma".as_slice() {
        Ok(Form::Lemma(Some(rest)))
    } else if word == b"left".as_slice() {
        Ok(Form::Left(rest))
    } else if word == b"right".as_slice() {
        Ok(Form::Right(rest))
    } else if word == b"use".as_slice() {
        use_form(alloc, rest)
    } else {
        Ok(Form::Nothing)
    }
}

// A cover with the sort and the items.
fn cover_form<'a>(cut: (&'a [u8], Option<&'a [u8]>)) -> Form<'a>
    ensures { form_in result
        ≡ plain.cover_by cut.entry.0.now (option_map (λ t. t.now) cut.entry.1) }
{
    match cut {
        (sort, None) => Form::Cover(sort, b"".as_slice()),
        (sort, Some(items)) => Form::Cover(sort, items),
    }
}

// A split of one word that is not empty.
fn split_form<'a>(cut: (&'a [u8], Option<&'a [u8]>)) -> Form<'a>
    ensures { form_in result
        ≡ plain.split_by cut.entry.0.now (option_map (λ t. t.now) cut.entry.1) }
{
    match cut {
        ([], _) => Form::Nothing,
        (word, None) => Form::Split(word),
        (_, Some(_)) => Form::Nothing,
    }
}

// The use that stands behind its word.
fn use_form<'a>(alloc: Global, rest: &'a [u8]) -> Result<Form<'a>, NoMemory>
    ensures { IfOk result (λ form. form_in form
        ≡ plain.use_or_none (plain.use_by (plain.parts_at 32 rest.now))) }
{
    let words = parts_at(alloc, rest, b' ')?;
    match use_by(alloc, words.as_slice())? {
        None => Ok(Form::Nothing),
        Some(use_) => Ok(Form::Use(use_)),
    }
}

// The use that the words are, if they are one.
fn use_by(alloc: Global, words: &[&[u8]]) -> Result<Option<Use>, NoMemory>
    ensures { IfOk result (λ found. option_map use_of found
        ≡ plain.use_by (map (λ word. word.now) words.now)) }
{
    if words.len() != 5 {
        return Ok(None);
    }
    let path = path_of(alloc, words[3])?;
    Ok(use_from(
        source_named(words[0], words[1]),
        side_named(words[2]),
        path,
        direction_named(words[4]),
    ))
}

// A use, if all of it is there.
fn use_from(
    source: Option<Source>,
    side: Option<Side>,
    path: Option<Vec<u32>>,
    direction: Option<Direction>,
) -> Option<Use>
    ensures { option_map use_of result ≡ plain.use_from (option_map use_source_of source)
        (option_map use_side_of side) (option_map (λ p. p.items) path)
        (option_map direction_of direction) }
{
    let source = source?;
    let side = side?;
    let path = path?;
    let direction = direction?;
    Some(Use {
        source,
        side,
        path,
        direction,
    })
}

// The lemma or the hypothesis with a number.
fn source_named(kind: &[u8], number: &[u8]) -> Option<Source>
    ensures { option_map use_source_of result ≡ plain.source_of_words kind.now number.now }
{
    if kind == b"lemma".as_slice() {
        let number = number_of(number)?;
        Some(Source::Lemma(from_nought_on(number)))
    } else if kind == b"hyp".as_slice() {
        let number = number_of(number)?;
        Some(Source::Hypothesis(from_nought_on(number)))
    } else {
        None
    }
}

// The side with the name.
fn side_named(word: &[u8]) -> Option<Side>
    ensures { option_map use_side_of result ≡ plain.side_of_word word.now }
{
    if word == b"left".as_slice() {
        Some(Side::Left)
    } else if word == b"right".as_slice() {
        Some(Side::Right)
    } else {
        None
    }
}

// The direction with the name.
fn direction_named(word: &[u8]) -> Option<Direction>
    ensures { option_map direction_of result ≡ plain.direction_of_word word.now }
{
    if word == b"forward".as_slice() {
        Some(Direction::Forward)
    } else if word == b"backward".as_slice() {
        Some(Direction::Backward)
    } else {
        None
    }
}
