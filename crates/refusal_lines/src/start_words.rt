//! The terms of the words behind `with`.

ghost use Rattle.lotos_base.specs.WrittenTerm.{WrittenTerm};
ghost use Rattle.lotos_base.specs.WrittenView.{text_place_of, written_term_of};
ghost use Rattle.lotos_grammar.specs.HandedOn.{IsTermsReading};
ghost use Rattle.refusal_lines.specs.StartValues.{
  HaveTerms,
  HaveWordFault,
  IsWordFault,
  in_word as placed_in,
  of_word,
};
ghost use Rattle.refusal_lines.specs.StartView.{FailsAs, TellsWord, word_term_of};
ghost use Rattle.refusal_lines.specs.WordLimits.{are_within, words_of};
ghost use Rattle.refusal_lines.specs.declared.faults.StartFault.TheVariants.{Refused as refused};
ghost use Rattle.refusal_lines.specs.declared.spec_fault.SpecFault.TheVariants.{Read as read_fault};
ghost use Rattle.refusal_lines.specs.declared.start_words.TheConstants.{WORDS_TEXT as words_text};
ghost use Rattle.std.specs.Prelude.{
  ◌≡◌,
  ◌++◌,
  ◌<◌,
  ◌^◌,
  ◌+◌,
  IsTrue,
  List,
  MatchResult,
  OnOk,
  length,
  map,
};

use crate::SpecFault;
use crate::faults::StartFault;
use lotos_base::{NoMemory, Place, Written};
use lotos_grammar::{ReadFault, read_terms};
use std::alloc::Global;

/// The number of the text that the words behind `with` are, in the places of their faults.
pub const WORDS_TEXT: u32 = 66;

/// A term among the words.
#[derive(Drop)]
pub struct WordTerm {
    /// The number of its word, from 1.
    pub word: u32,
    /// The term.
    pub term: Written,
}

/// The terms of the words, which are read one after another.
///
/// Refused for the first fault of the first word that has one: a byte or a comment with which no
/// token begins or which is not closed, a token that is to blame, or a node that is too deep.
pub fn word_terms(alloc: Global, words: &[String]) -> Result<Vec<WordTerm>, StartFault>
    requires { IsTrue (are_within (words_of words.now)) }
    ensures { MatchResult result
        (λ terms. HaveTerms 1 (words_of words.now) (map word_term_of terms.items))
        (FailsAs (HaveWordFault 1 (words_of words.now))) }
{
    let mut terms = Vec::new(alloc);
    for index in 0..words.len() {
        add_word(alloc, index as u32 + 1, words[index].as_str(), &mut terms)?;
    }
    Ok(terms)
}

// Adds the terms of the word with the number.
fn add_word(
    alloc: Global,
    number: u32,
    word: &str,
    terms: &mut Vec<WordTerm>,
) -> Result<(), StartFault>
    requires { length word.now + 1 < 2 ^ 32 }
    ensures { MatchResult result
        (λ _. (own : List WrittenTerm) × IsTermsReading words_text word.now own
        × (map word_term_of terms.new.items
        ≡ map word_term_of terms.old.items ++ map (of_word number) own))
        (FailsAs (IsWordFault number word.now)) }
{
    let own = word_trees(alloc, number, word)?;
    Ok(add_terms(number, own, terms)?)
}

// The terms of the word with the number.
fn word_trees(alloc: Global, number: u32, word: &str) -> Result<Vec<Written>, StartFault>
    requires { length word.now + 1 < 2 ^ 32 }
    ensures { MatchResult result
        (λ own. IsTermsReading words_text word.now (map written_term_of own.items))
        (FailsAs (IsWordFault number word.now)) }
{
    match read_terms(alloc, word.as_bytes(), WORDS_TEXT) {
        Ok(own) => Ok(own),
        Err(fault) => Err(word_fault(number, fault)),
    }
}

// The fault of the word with the number: its line is this number.
fn word_fault(number: u32, fault: ReadFault) -> StartFault
    ensures { TellsWord number fault result }
{
    match fault {
        ReadFault::TooLong => misread(ReadFault::TooLong),
        ReadFault::BadByte { place } => misread(ReadFault::BadByte {
            place: in_word(number, place),
        }),
        ReadFault::OpenComment { place } => misread(ReadFault::OpenComment {
            place: in_word(number, place),
        }),
        ReadFault::Syntax { place } => misread(ReadFault::Syntax {
            place: in_word(number, place),
        }),
        ReadFault::TooDeep { place } => misread(ReadFault::TooDeep {
            place: in_word(number, place),
        }),
        ReadFault::NoMemory => StartFault::NoMemory,
    }
}

// The refusal of words with the fault.
fn misread(fault: ReadFault) -> StartFault
    ensures { result ≡ refused (read_fault words_text fault) }
{
    StartFault::Refused(SpecFault::Read {
        text: WORDS_TEXT,
        fault,
    })
}

/// The place, in the word with the number.
pub fn in_word(number: u32, place: Place) -> Place
    ensures { text_place_of result ≡ placed_in number (text_place_of place) }
{
    Place {
        text: place.text,
        line: number,
        col: place.col,
    }
}

// Adds the terms, which are those of the word with the number.
fn add_terms(number: u32, own: Vec<Written>, terms: &mut Vec<WordTerm>) -> Result<(), NoMemory>
    ensures { OnOk result (map word_term_of terms.new.items
        ≡ map word_term_of terms.old.items
        ++ map (of_word number) (map written_term_of own.items)) }
{
    for term in own {
        terms.push(WordTerm { word: number, term })?;
    }
    Ok(())
}
