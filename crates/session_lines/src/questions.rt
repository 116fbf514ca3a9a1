//! Questions on terms: the normal form of one, and whether two are equal.

ghost use Rattle.equation_book.specs.BookCanon.{book_canon};
ghost use Rattle.lotos_base.specs.WrittenView.{written_term_of};
ghost use Rattle.session_lines.specs.Answer.{
  IsComparison,
  IsNormalAnswer,
  comparison_text,
  gives,
  normal_text,
  verdict_text,
};
ghost use Rattle.session_lines.specs.Refusal.{AreTermsOfLine};
ghost use Rattle.session_lines.specs.View.{AddsOutcome, RefusesWith};
ghost use Rattle.sort_terms.specs.EquationView.{data_of};
ghost use Rattle.sort_terms.specs.ReaderView.{signature_read};
ghost use Rattle.sort_terms.specs.SignatureView.{signature_of};
ghost use Rattle.sort_terms.specs.SortedView.{term_in};
ghost use Rattle.std.specs.Prelude.{
  ◌≡◌,
  ◌+◌,
  ◌<◌,
  ◌^◌,
  ◌++◌,
  ◌∷◌,
  [],
  ℕ,
  List,
  MatchResult,
  OnOk,
  length,
};

use crate::refusals::{Refusal, push_refusal};
use equation_book::Book;
use lotos_base::{NoMemory, Written};
use lotos_grammar::read_terms;
use printed_texts::brackets::push_text;
use printed_texts::term_text;
use sort_terms::{Reader, Scope, Signature, Sorted};
use std::alloc::Global;

/// Appends the normal form of the one term in the text, or the line of its refusal.
pub fn push_normal(
    alloc: Global,
    signature: &Signature,
    reader: &Reader<'_>,
    book: &mut Book,
    text: &[u8],
    into: &mut Vec<u8>,
) -> Result<(), NoMemory>
    requires shown { signature_of signature.now ≡ (data_of book.old.flat).signature }
    requires read { signature_read reader.now ≡ (data_of book.old.flat).signature }
    requires short { length text.now + 1 < 2 ^ 32 }
    ensures added { OnOk result (AddsOutcome
        (IsNormalAnswer (data_of book.old.flat).signature (book_canon book.old) text.now)
        (normal_text (data_of book.old.flat).signature) into.old.items into.new.items) }
    ensures same_data { data_of book.new.flat ≡ data_of book.old.flat }
    ensures same_canon { book_canon book.new ≡ book_canon book.old }
{
    match normal_form(alloc, reader, book, text) {
        Ok(form) => push_form(signature, &form, into),
        Err(refusal) => push_refusal(refusal, into),
    }
}

// Appends a normal form.
fn push_form(signature: &Signature, form: &Sorted, into: &mut Vec<u8>) -> Result<(), NoMemory>
    ensures { OnOk result (into.new.items ≡ into.old.items
        ++ normal_text (signature_of signature.now) (gives (term_in form.now))) }
{
    term_text(signature, &[], form, into)?;
    push_text(into, b"\n")
}

/// The normal form of the one term in the text. `BadTerm` comes for a fault of the text's tokens,
/// of the grammar of terms or of depth; then `BadCommand` where there are fewer terms or more; then
/// `BadTerm` where the term has not one reading.
pub fn normal_form(
    alloc: Global,
    reader: &Reader<'_>,
    book: &mut Book,
    text: &[u8],
) -> Result<Sorted, Refusal>
    requires read { signature_read reader.now ≡ (data_of book.old.flat).signature }
    requires short { length text.now + 1 < 2 ^ 32 }
    ensures answered { MatchResult result
        (λ form. IsNormalAnswer (data_of book.old.flat).signature (book_canon book.old) text.now
        (gives (term_in form)))
        (RefusesWith (IsNormalAnswer (data_of book.old.flat).signature (book_canon book.old)
        text.now)) }
    ensures same_data { data_of book.new.flat ≡ data_of book.old.flat }
    ensures same_canon { book_canon book.new ≡ book_canon book.old }
{
    let terms = read_terms(alloc, text, 0)?;
    let [term] = terms.as_slice() else {
        return Err(Refusal::BadCommand);
    };
    normal_of(alloc, reader, book, term)
}

// The normal form of the term, which is the answer for each text in which it is the one term.
fn normal_of(
    alloc: Global,
    reader: &Reader<'_>,
    book: &mut Book,
    term: &Written,
) -> Result<Sorted, Refusal>
    requires read { signature_read reader.now ≡ (data_of book.old.flat).signature }
    ensures answered { (text : List ℕ) → AreTermsOfLine text (written_term_of term.now ∷ [])
        → MatchResult result
        (λ form. IsNormalAnswer (data_of book.old.flat).signature (book_canon book.old) text
        (gives (term_in form)))
        (RefusesWith (IsNormalAnswer (data_of book.old.flat).signature (book_canon book.old) text)) }
    ensures same_data { data_of book.new.flat ≡ data_of book.old.flat }
    ensures same_canon { book_canon book.new ≡ book_canon book.old }
{
    let scope = Scope::new(alloc);
    let read = reader.read_in(&scope, term, None)?;
    Ok(book.normal_form(&read)?)
}

/// Appends whether the two terms in the text are equal, or the line of their refusal.
pub fn push_comparison(
    alloc: Global,
    reader: &Reader<'_>,
    book: &mut Book,
    text: &[u8],
    into: &mut Vec<u8>,
) -> Result<(), NoMemory>
    requires read { signature_read reader.now ≡ (data_of book.old.flat).signature }
    requires short { length text.now + 1 < 2 ^ 32 }
    ensures added { OnOk result (AddsOutcome (IsComparison (data_of book.old.flat) text.now)
        comparison_text into.old.items into.new.items) }
    ensures same_data { data_of book.new.flat ≡ data_of book.old.flat }
    ensures same_canon { book_canon book.new ≡ book_canon book.old }
{
    match are_equal(alloc, reader, book, text) {
        Ok(equal) => push_verdict(equal, into),
        Err(refusal) => push_refusal(refusal, into),
    }
}

// Appends a verdict.
fn push_verdict(equal: bool, into: &mut Vec<u8>) -> Result<(), NoMemory>
    ensures { OnOk result (into.new.items ≡ into.old.items ++ verdict_text equal) }
{
    if equal {
        push_text(into, b"equal\n")
    } else {
        push_text(into, b"different\n")
    }
}

/// Whether the equations derive the equality of the two terms in the text, with the refusals of
/// [`normal_form`] over two terms, which are read at one sort.
pub fn are_equal(
    alloc: Global,
    reader: &Reader<'_>,
    book: &mut Book,
    text: &[u8],
) -> Result<bool, Refusal>
    requires read { signature_read reader.now ≡ (data_of book.old.flat).signature }
    requires short { length text.now + 1 < 2 ^ 32 }
    ensures answered { MatchResult result
        (λ equal. IsComparison (data_of book.old.flat) text.now (gives equal))
        (RefusesWith (IsComparison (data_of book.old.flat) text.now)) }
    ensures same_data { data_of book.new.flat ≡ data_of book.old.flat }
    ensures same_canon { book_canon book.new ≡ book_canon book.old }
{
    let terms = read_terms(alloc, text, 0)?;
    let [left, right] = terms.as_slice() else {
        return Err(Refusal::BadCommand);
    };
    are_equal_terms(alloc, reader, book, (left, right))
}

// Whether the two terms are equal, which is the answer for each text that has these two.
fn are_equal_terms(
    alloc: Global,
    reader: &Reader<'_>,
    book: &mut Book,
    terms: (&Written, &Written),
) -> Result<bool, Refusal>
    requires read { signature_read reader.now ≡ (data_of book.old.flat).signature }
    ensures answered { (text : List ℕ)
        → AreTermsOfLine text (written_term_of terms.entry.0.now
        ∷ written_term_of terms.entry.1.now ∷ [])
        → MatchResult result
        (λ equal. IsComparison (data_of book.old.flat) text (gives equal))
        (RefusesWith (IsComparison (data_of book.old.flat) text)) }
    ensures same_data { data_of book.new.flat ≡ data_of book.old.flat }
    ensures same_canon { book_canon book.new ≡ book_canon book.old }
{
    let scope = Scope::new(alloc);
    let (left, right) = reader.read_pair(&scope, terms.0, terms.1)?;
    Ok(book.equal(&left, &right)?)
}
