//! Where each refusal stands.

ghost use Rattle.lotos_base.specs.Equation.{Data};
ghost use Rattle.lotos_base.specs.WrittenView.{text_place_of};
ghost use Rattle.refusal_lines.specs.LineView.{data_in, place_told};
ghost use Rattle.refusal_lines.specs.RefusalPlace.{place_of_equation};
ghost use Rattle.sort_terms.specs.EquationView.{data_of};
ghost use Rattle.scope_parts.specs.FaultView.{term_told, told_by};
ghost use Rattle.refusal_lines.specs.RefusalView.{
  refusal_of,
  told_of_book,
  told_of_exits,
  told_of_ranks,
  told_of_scopes,
  told_of_start,
  told_of_text,
  told_of_type_term,
  told_of_types,
};
ghost use Rattle.std.specs.Option.{option_map};
ghost use Rattle.std.specs.Prelude.{◌≡◌, Option, Some};

use crate::spec_fault::SpecFault;
use equation_book::BookFault;
use lotos_base::Place;
use lotos_grammar::ReadFault;
use process_checks::{ExitFault, RankFault};
use scope_parts::ScopeFault;
use sort_terms::{Flat, SortFault};
use type_definitions::TypeFault;

/// Where a refusal stands, if it stands anywhere.
pub fn place(fault: &SpecFault, flat: &Option<Flat>) -> Option<Place>
    ensures { option_map text_place_of result
        ≡ place_told (data_in flat.now) (refusal_of fault.now) }
{
    match fault {
        SpecFault::Read { text, fault } => text_place(*text, fault),
        SpecFault::Libraries { place, .. } => Some(*place),
        SpecFault::Types(fault) => type_place(fault),
        SpecFault::Scope(fault) => scope_place(fault),
        SpecFault::Exit(fault) => exit_place(fault),
        SpecFault::Rank(fault) => rank_place(fault),
        SpecFault::Book(fault) => book_place(fault, flat),
        SpecFault::StartValues { .. } => None,
        SpecFault::StartTerm(fault) => term_place(fault),
    }
}

// That of the text with the number, which is not read.
fn text_place(text: u32, fault: &ReadFault) -> Option<Place>
    ensures { (data_ : Option Data) → option_map text_place_of result
        ≡ place_told data_ (told_of_text text fault.now) }
{
    match fault {
        ReadFault::TooLong => Some(Place {
            text,
            line: 1,
            col: 1,
        }),
        ReadFault::BadByte { place } => Some(*place),
        ReadFault::OpenComment { place } => Some(*place),
        ReadFault::Syntax { place } => Some(*place),
        ReadFault::TooDeep { place } => Some(*place),
        ReadFault::NoMemory => None,
    }
}

// That of types.
fn type_place(fault: &TypeFault) -> Option<Place>
    ensures { (data_ : Option Data) → option_map text_place_of result
        ≡ place_told data_ (told_of_types fault.now) }
{
    match fault {
        TypeFault::DoubleType { place, .. } => Some(*place),
        TypeFault::UnknownType { place, .. } => Some(*place),
        TypeFault::TypeCycle { place, .. } => Some(*place),
        TypeFault::DoubleSort { place, .. } => Some(*place),
        TypeFault::UnknownSort { place, .. } => Some(*place),
        TypeFault::DoubleOperation { place, .. } => Some(*place),
        TypeFault::UnknownOperation { place, .. } => Some(*place),
        TypeFault::NotFormal { place, .. } => Some(*place),
        TypeFault::MissingActual { place, .. } => Some(*place),
        TypeFault::TooLarge { place, .. } => Some(*place),
        TypeFault::Premised { place } => Some(*place),
        TypeFault::Term(term) => term_place(term),
        TypeFault::NoMemory => None,
    }
}

// That of a term.
fn term_place(fault: &SortFault) -> Option<Place>
    ensures in_types { (data_ : Option Data) → option_map text_place_of result
        ≡ place_told data_ (told_of_type_term fault.now) }
    ensures in_scopes { (data_ : Option Data) → option_map text_place_of result
        ≡ place_told data_ (told_of_scopes (term_told fault.now)) }
    ensures at_start { (data_ : Option Data) → option_map text_place_of result
        ≡ place_told data_ (told_of_start fault.now) }
{
    match fault {
        SortFault::UnknownName { place } => Some(*place),
        SortFault::UnknownSort { place } => Some(*place),
        SortFault::NoReading { place } => Some(*place),
        SortFault::TwoReadings { place } => Some(*place),
        SortFault::NoMemory => None,
    }
}

// That of definitions and behaviours.
fn scope_place(fault: &ScopeFault) -> Option<Place>
    ensures { (data_ : Option Data) → option_map text_place_of result
        ≡ place_told data_ (told_of_scopes (told_by fault.now)) }
{
    match fault {
        ScopeFault::UnknownGate { place, .. } => Some(*place),
        ScopeFault::UnknownProcess { place, .. } => Some(*place),
        ScopeFault::UnknownSort { place, .. } => Some(*place),
        ScopeFault::DoubleName { place, .. } => Some(*place),
        ScopeFault::GateCount { place, .. } => Some(*place),
        ScopeFault::ValueCount { place, .. } => Some(*place),
        ScopeFault::NoBool { place } => Some(*place),
        ScopeFault::Term(term) => term_place(term),
        ScopeFault::NoMemory => None,
    }
}

// That of functionalities.
fn exit_place(fault: &ExitFault) -> Option<Place>
    ensures { (data_ : Option Data) → option_map text_place_of result
        ≡ place_told data_ (told_of_exits fault.now) }
{
    match fault {
        ExitFault::Mismatch { place, .. } => Some(*place),
        ExitFault::NoMemory => None,
    }
}

// That of recursion.
fn rank_place(fault: &RankFault) -> Option<Place>
    ensures { (data_ : Option Data) → option_map text_place_of result
        ≡ place_told data_ (told_of_ranks fault.now) }
{
    match fault {
        RankFault::Unguarded { place, .. } => Some(*place),
        RankFault::NoMemory => None,
    }
}

// That of an order and of equations.
fn book_place(fault: &BookFault, flat: &Option<Flat>) -> Option<Place>
    ensures { option_map text_place_of result
        ≡ place_told (data_in flat.now) (told_of_book fault.now) }
{
    match fault {
        BookFault::UnknownOperation { place, .. } => Some(*place),
        BookFault::TwiceListed { place, .. } => Some(*place),
        BookFault::BadStatus { place, .. } => Some(*place),
        BookFault::Unorientable { equation } => equation_place(flat, *equation),
        BookFault::Unjoined { first, .. } => equation_place(flat, *first),
        BookFault::NoMemory => None,
    }
}

/// Where the equation with the number stands, if there is one.
pub fn equation_place(flat: &Option<Flat>, number: u32) -> Option<Place>
    ensures { option_map text_place_of result ≡ place_of_equation (data_in flat.now) number }
{
    match flat {
        None => None,
        Some(flat) => place_at(flat, number),
    }
}

/// Where the equation with the number stands in data, if there is one.
pub fn place_at(flat: &Flat, number: u32) -> Option<Place>
    ensures { option_map text_place_of result ≡ place_of_equation (Some (data_of flat.now)) number }
{
    match flat.equations.get(number as usize) {
        None => None,
        Some(equation) => Some(equation.place),
    }
}
