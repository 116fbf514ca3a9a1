//! The number and the name of each refusal.

ghost use Rattle.refusal_lines.specs.LineView.{words_told};
ghost use Rattle.scope_parts.specs.FaultView.{term_told, told_by};
ghost use Rattle.refusal_lines.specs.RefusalView.{
  refusal_of,
  told_of_book,
  told_of_exits,
  told_of_ranks,
  told_of_scopes,
  told_of_start,
  told_of_text,
  told_of_type_term,
  told_of_types,
};
ghost use Rattle.std.specs.Prelude.{◌≡◌, ℕ};

use crate::spec_fault::SpecFault;
use equation_book::BookFault;
use lotos_grammar::ReadFault;
use process_checks::{ExitFault, RankFault};
use scope_parts::ScopeFault;
use sort_terms::SortFault;
use type_definitions::TypeFault;

/// The number and the name of a refusal.
pub fn words(fault: &SpecFault) -> &'static [u8]
    ensures { result.now ≡ words_told (refusal_of fault.now) }
{
    match fault {
        SpecFault::Read { fault, .. } => text_words(fault),
        SpecFault::Libraries { .. } => b"106 Libraries",
        SpecFault::Types(fault) => type_words(fault),
        SpecFault::Scope(fault) => scope_words(fault),
        SpecFault::Exit(fault) => exit_words(fault),
        SpecFault::Rank(fault) => rank_words(fault),
        SpecFault::Book(fault) => book_words(fault),
        SpecFault::StartValues { .. } => b"701 StartValues",
        SpecFault::StartTerm(fault) => term_words(fault),
    }
}

// Those of a text that is not read.
fn text_words(fault: &ReadFault) -> &'static [u8]
    ensures { (text : ℕ) → result.now ≡ words_told (told_of_text text fault.now) }
{
    match fault {
        ReadFault::TooLong => b"103 TooLong",
        ReadFault::BadByte { .. } => b"101 BadByte",
        ReadFault::OpenComment { .. } => b"102 OpenComment",
        ReadFault::Syntax { .. } => b"104 Syntax",
        ReadFault::TooDeep { .. } => b"105 TooDeep",
        ReadFault::NoMemory => b"",
    }
}

// Those of types.
fn type_words(fault: &TypeFault) -> &'static [u8]
    ensures { result.now ≡ words_told (told_of_types fault.now) }
{
    match fault {
        TypeFault::DoubleType { .. } => b"201 DoubleType",
        TypeFault::UnknownType { .. } => b"202 UnknownType",
        TypeFault::TypeCycle { .. } => b"203 TypeCycle",
        TypeFault::DoubleSort { .. } => b"204 DoubleSort",
        TypeFault::UnknownSort { .. } => b"205 UnknownSort",
        TypeFault::DoubleOperation { .. } => b"206 DoubleOperation",
        TypeFault::UnknownOperation { .. } => b"207 UnknownOperation",
        TypeFault::NotFormal { .. } => b"208 NotFormal",
        TypeFault::MissingActual { .. } => b"209 MissingActual",
        TypeFault::TooLarge { .. } => b"214 TooLarge",
        TypeFault::Premised { .. } => b"210 Premised",
        TypeFault::Term(term) => term_words(term),
        TypeFault::NoMemory => b"",
    }
}

// Those of a term.
fn term_words(fault: &SortFault) -> &'static [u8]
    ensures in_types { result.now ≡ words_told (told_of_type_term fault.now) }
    ensures in_scopes { result.now ≡ words_told (told_of_scopes (term_told fault.now)) }
    ensures at_start { result.now ≡ words_told (told_of_start fault.now) }
{
    match fault {
        SortFault::UnknownName { .. } => b"211 UnknownName",
        SortFault::UnknownSort { .. } => b"205 UnknownSort",
        SortFault::NoReading { .. } => b"212 NoReading",
        SortFault::TwoReadings { .. } => b"213 TwoReadings",
        SortFault::NoMemory => b"",
    }
}

// Those of definitions and behaviours.
fn scope_words(fault: &ScopeFault) -> &'static [u8]
    ensures { result.now ≡ words_told (told_of_scopes (told_by fault.now)) }
{
    match fault {
        ScopeFault::UnknownGate { .. } => b"301 UnknownGate",
        ScopeFault::UnknownProcess { .. } => b"302 UnknownProcess",
        ScopeFault::UnknownSort { .. } => b"205 UnknownSort",
        ScopeFault::DoubleName { .. } => b"303 DoubleName",
        ScopeFault::GateCount { .. } => b"304 GateCount",
        ScopeFault::ValueCount { .. } => b"305 ValueCount",
        ScopeFault::NoBool { .. } => b"306 NoBool",
        ScopeFault::Term(term) => term_words(term),
        ScopeFault::NoMemory => b"",
    }
}

// Those of functionalities.
fn exit_words(fault: &ExitFault) -> &'static [u8]
    ensures { result.now ≡ words_told (told_of_exits fault.now) }
{
    match fault {
        ExitFault::Mismatch { .. } => b"401 Mismatch",
        ExitFault::NoMemory => b"",
    }
}

// Those of recursion.
fn rank_words(fault: &RankFault) -> &'static [u8]
    ensures { result.now ≡ words_told (told_of_ranks fault.now) }
{
    match fault {
        RankFault::Unguarded { .. } => b"402 Unguarded",
        RankFault::NoMemory => b"",
    }
}

// Those of an order and of equations.
fn book_words(fault: &BookFault) -> &'static [u8]
    ensures { result.now ≡ words_told (told_of_book fault.now) }
{
    match fault {
        BookFault::UnknownOperation { .. } => b"501 OrderOperation",
        BookFault::TwiceListed { .. } => b"502 TwiceListed",
        BookFault::BadStatus { .. } => b"503 BadStatus",
        BookFault::Unorientable { .. } => b"601 Unorientable",
        BookFault::Unjoined { .. } => b"602 Unjoined",
        BookFault::NoMemory => b"",
    }
}
