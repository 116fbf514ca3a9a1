//! What stands behind the place of a refusal.

ghost use Rattle.behaviour_semantics.specs.Behaviour.{Specification};
ghost use Rattle.lotos_base.specs.Equation.{Data};
ghost use Rattle.lotos_base.specs.Name.{spelling};
ghost use Rattle.refusal_lines.specs.LineView.{data_in, detail_told, names_of, spec_in};
ghost use Rattle.refusal_lines.specs.RefusalDetail.{behind_blank, counts_text};
ghost use Rattle.refusal_lines.specs.TextNames as plain;
ghost use Rattle.scope_parts.specs.FaultView.{told_by};
ghost use Rattle.refusal_lines.specs.RefusalView.{
  refusal_of,
  told_of_book,
  told_of_exits,
  told_of_ranks,
  told_of_scopes,
  told_of_types,
};
ghost use Rattle.std.specs.Prelude.{◌≡◌, ◌++◌, OnOk, Option};

use crate::evidence::{Forms, push_cycle, push_equation, push_mismatch, push_pair};
use crate::refused::Refused;
use crate::spec_fault::SpecFault;
use crate::text_names::TextNames;
use behaviour_tree::Spec;
use equation_book::BookFault;
use lotos_base::{Name, NoMemory};
use printed_texts::brackets::{push_number, push_text};
use process_checks::{ExitFault, RankFault};
use scope_parts::ScopeFault;
use sort_terms::Flat;
use type_definitions::TypeFault;

/// Appends the detail of a refusal, behind a blank, if it has one.
#[tactic(auto, using(crate::proofs::DetailLemmas::no_text_detail, crate::proofs::DetailLemmas::no_start_detail))]
pub fn push_detail(names: &TextNames, refused: &Refused, into: &mut Vec<u8>) -> Result<(), NoMemory>
    ensures { OnOk result (into.new.items ≡ into.old.items ++ detail_told (names_of names.now)
        (data_in refused.now.flat) (spec_in refused.now.spec) (refusal_of refused.now.fault)) }
{
    match &refused.fault {
        SpecFault::Read { .. } => Ok(()),
        SpecFault::Libraries { name, .. } => push_name(name, into),
        SpecFault::Types(fault) => push_type_detail(fault, into),
        SpecFault::Scope(fault) => push_scope_detail(fault, into),
        SpecFault::Exit(fault) => push_exit_detail(&refused.flat, fault, into),
        SpecFault::Rank(fault) => push_rank_detail(&refused.spec, fault, into),
        SpecFault::Book(fault) => push_book_detail(names, &refused.flat, fault, into),
        SpecFault::StartValues { wanted, given } => push_counts(*wanted, *given, into),
        SpecFault::StartTerm(_) => Ok(()),
    }
}

// Appends a name behind a blank.
fn push_name(name: &Name, into: &mut Vec<u8>) -> Result<(), NoMemory>
    ensures { OnOk result (into.new.items ≡ into.old.items ++ behind_blank (spelling name.now)) }
{
    push_text(into, b" ")?;
    push_text(into, name.spelled())
}

// Appends two counts.
fn push_counts(wanted: u32, given: u32, into: &mut Vec<u8>) -> Result<(), NoMemory>
    ensures { OnOk result (into.new.items ≡ into.old.items ++ counts_text wanted given) }
{
    push_text(into, b" wanted ")?;
    push_number(into, wanted as u128)?;
    push_text(into, b" given ")?;
    push_number(into, given as u128)
}

// Appends the detail of a refusal of types.
#[tactic(auto, using(crate::proofs::DetailLemmas::no_type_term_detail))]
fn push_type_detail(fault: &TypeFault, into: &mut Vec<u8>) -> Result<(), NoMemory>
    ensures { OnOk result ((names : plain.TextNames) (data_ : Option Data)
        (spec : Option Specification) → into.new.items
        ≡ into.old.items ++ detail_told names data_ spec (told_of_types fault.now)) }
{
    match fault {
        TypeFault::DoubleType { name, .. } => push_name(name, into),
        TypeFault::UnknownType { name, .. } => push_name(name, into),
        TypeFault::TypeCycle { name, .. } => push_name(name, into),
        TypeFault::DoubleSort { name, .. } => push_name(name, into),
        TypeFault::UnknownSort { name, .. } => push_name(name, into),
        TypeFault::DoubleOperation { name, .. } => push_name(name, into),
        TypeFault::UnknownOperation { name, .. } => push_name(name, into),
        TypeFault::NotFormal { name, .. } => push_name(name, into),
        TypeFault::MissingActual { name, .. } => push_name(name, into),
        TypeFault::TooLarge { name, .. } => push_name(name, into),
        TypeFault::Premised { .. } => Ok(()),
        TypeFault::Term(_) => Ok(()),
        TypeFault::NoMemory => Ok(()),
    }
}

// Appends the detail of a refusal of definitions and behaviours.
#[tactic(auto, using(crate::proofs::DetailLemmas::no_scope_term_detail))]
fn push_scope_detail(fault: &ScopeFault, into: &mut Vec<u8>) -> Result<(), NoMemory>
    ensures { OnOk result ((names : plain.TextNames) (data_ : Option Data)
        (spec : Option Specification) → into.new.items
        ≡ into.old.items ++ detail_told names data_ spec (told_of_scopes (told_by fault.now))) }
{
    match fault {
        ScopeFault::UnknownGate { name, .. } => push_name(name, into),
        ScopeFault::UnknownProcess { name, .. } => push_name(name, into),
        ScopeFault::UnknownSort { name, .. } => push_name(name, into),
        ScopeFault::DoubleName { name, .. } => push_name(name, into),
        ScopeFault::GateCount { wanted, given, .. } => push_counts(*wanted, *given, into),
        ScopeFault::ValueCount { wanted, given, .. } => push_counts(*wanted, *given, into),
        ScopeFault::NoBool { .. } => Ok(()),
        ScopeFault::Term(_) => Ok(()),
        ScopeFault::NoMemory => Ok(()),
    }
}

// Appends the detail of a refusal of functionalities.
fn push_exit_detail(
    flat: &Option<Flat>,
    fault: &ExitFault,
    into: &mut Vec<u8>,
) -> Result<(), NoMemory>
    ensures { OnOk result ((names : plain.TextNames) (spec : Option Specification) → into.new.items
        ≡ into.old.items ++ detail_told names (data_in flat.now) spec (told_of_exits fault.now)) }
{
    match fault {
        ExitFault::Mismatch { left, right, .. } => push_mismatch(flat, left, right, into),
        ExitFault::NoMemory => Ok(()),
    }
}

// Appends the detail of a refusal of recursion.
fn push_rank_detail(
    spec: &Option<Spec>,
    fault: &RankFault,
    into: &mut Vec<u8>,
) -> Result<(), NoMemory>
    ensures { OnOk result ((names : plain.TextNames) (data_ : Option Data) → into.new.items
        ≡ into.old.items ++ detail_told names data_ (spec_in spec.now) (told_of_ranks fault.now)) }
{
    match fault {
        RankFault::Unguarded { cycle, .. } => push_cycle(spec, cycle, into),
        RankFault::NoMemory => Ok(()),
    }
}

// Appends the detail of a refusal of an order or of equations.
fn push_book_detail(
    names: &TextNames,
    flat: &Option<Flat>,
    fault: &BookFault,
    into: &mut Vec<u8>,
) -> Result<(), NoMemory>
    ensures { OnOk result ((spec : Option Specification) → into.new.items ≡ into.old.items
        ++ detail_told (names_of names.now) (data_in flat.now) spec (told_of_book fault.now)) }
{
    match fault {
        BookFault::UnknownOperation { name, .. } => push_name(name, into),
        BookFault::TwiceListed { name, .. } => push_name(name, into),
        BookFault::BadStatus { name, .. } => push_name(name, into),
        BookFault::Unorientable { equation } => push_equation(flat, *equation, into),
        BookFault::Unjoined {
            second,
            peak,
            left,
            right,
            ..
        } => {
            let forms = Forms {
                second: *second,
                peak,
                left,
                right,
            };
            push_pair(names, flat, &forms, into)
        }
        BookFault::NoMemory => Ok(()),
    }
}
