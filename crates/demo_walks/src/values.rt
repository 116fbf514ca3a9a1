//! The values that the cells put.

ghost use Rattle.demo_walks.specs.DemoWalk.{
  AreWalkValues,
  IsValueOf,
  single_value,
  before_arguments,
  value_of_cell,
  written_nought,
  written_one,
};
ghost use Rattle.demo_walks.specs.WalkView.{
  AreGivenValues,
  IsGivenIfAny,
  IsGivenValue,
  walk_values_of,
};
ghost use Rattle.history_lines.specs.HandedOn.{AreGiven, terms_of};
ghost use Rattle.lotos_base.specs.Signature.{Signature as PlainSignature};
ghost use Rattle.lotos_base.specs.WrittenTerm.{written_terms};
ghost use Rattle.lotos_base.specs.WrittenView.{written_term_of, written_terms_of};
ghost use Rattle.sort_terms.specs.SignatureView.{signature_of};
ghost use Rattle.sort_terms.specs.SortedView.{term_in};
ghost use Rattle.std.specs.Prelude.{◌≡◌, ◌∷◌, [], IfOk, IfSome, option_map};

use lotos_base::{Form, Name, NoMemory, Place, Written};
use sort_terms::{Signature, SortFault, Sorted, read_in};
use std::alloc::Global;

/// The values that the cells put. A term that has not one reading gives none.
#[derive(Debug, Drop)]
pub struct CellValues {
    /// That of the first cell.
    pub of_first: Option<Sorted>,
    /// That of each other one.
    pub of_others: Option<Sorted>,
}

impl CellValues {
    /// The values over the signature: 0 for the first cell, and 1 for each other one.
    pub fn read(alloc: Global, signature: &Signature) -> Result<CellValues, NoMemory>
        ensures read { IfOk result
            (λ values. AreWalkValues (signature_of signature.now) (walk_values_of values)) }
        ensures given { IfOk result (AreGivenValues (signature_of signature.now)) }
    {
        let of_first = value_of(alloc, signature, &nought(alloc)?)?;
        let of_others = value_of(alloc, signature, &one(alloc)?)?;
        Ok(CellValues {
            of_first,
            of_others,
        })
    }

    /// The value of the cell with this number, from 0, alone in a list.
    pub fn put_by(&self, alloc: Global, cell: u32) -> Result<Option<Vec<Sorted>>, NoMemory>
        ensures put { IfOk result (λ made. option_map (λ list. terms_of list.items) made
            ≡ option_map single_value (value_of_cell (walk_values_of self.now) cell)) }
        ensures given { (signature : PlainSignature) → AreGivenValues signature self.now
            → IfOk result (λ made. IfSome made (λ list. AreGiven signature list.items)) }
    {
        listed(alloc, self.of(cell))
    }

    // The value of the cell with this number.
    fn of(&self, cell: u32) -> &Option<Sorted>
        ensures value { option_map term_in result.now
            ≡ value_of_cell (walk_values_of self.now) cell }
        ensures given { (signature : PlainSignature) → AreGivenValues signature self.now
            → IsGivenIfAny signature result.now }
    {
        if cell == 0 {
            &self.of_first
        } else {
            &self.of_others
        }
    }
}

// The value alone in a list.
fn listed(alloc: Global, value: &Option<Sorted>) -> Result<Option<Vec<Sorted>>, NoMemory>
    ensures listed { IfOk result (λ made. option_map (λ list. terms_of list.items) made
        ≡ option_map single_value (option_map term_in value.now)) }
    ensures given { (signature : PlainSignature) → IsGivenIfAny signature value.now
        → IfOk result (λ made. IfSome made (λ list. AreGiven signature list.items)) }
{
    match value {
        None => Ok(None),
        Some(value) => Ok(Some(list_of(alloc, value)?)),
    }
}

// A list of the value.
fn list_of(alloc: Global, value: &Sorted) -> Result<Vec<Sorted>, NoMemory>
    ensures listed { IfOk result (λ list. terms_of list.items ≡ single_value (term_in value.now)) }
    ensures given { (signature : PlainSignature) → IsGivenValue signature value.now
        → IfOk result (λ list. AreGiven signature list.items) }
{
    let mut list = Vec::new(alloc);
    list.push(value.copy()?)?;
    Ok(list)
}

// The value that the written term stands for over the signature.
fn value_of(
    alloc: Global,
    signature: &Signature,
    term: &Written,
) -> Result<Option<Sorted>, NoMemory>
    ensures value { IfOk result (λ value. IsValueOf (signature_of signature.now)
        (written_term_of term.now) (option_map term_in value)) }
    ensures given { IfOk result (IsGivenIfAny (signature_of signature.now)) }
{
    match read_in(alloc, signature, &[], term, None) {
        Ok(value) => Ok(Some(value)),
        Err(SortFault::UnknownName { .. }) => Ok(None),
        Err(SortFault::UnknownSort { .. }) => Ok(None),
        Err(SortFault::NoReading { .. }) => Ok(None),
        Err(SortFault::TwoReadings { .. }) => Ok(None),
        Err(SortFault::NoMemory) => Err(NoMemory),
    }
}

// The number 0 as it is written.
fn nought(alloc: Global) -> Result<Written, NoMemory>
    ensures { IfOk result (λ term. written_term_of term ≡ written_nought) }
{
    applied(alloc, b"0", Vec::new(alloc))
}

// The number 1 as it is written.
fn one(alloc: Global) -> Result<Written, NoMemory>
    ensures { IfOk result (λ term. written_term_of term ≡ written_one) }
{
    let mut args = Vec::new(alloc);
    args.push(nought(alloc)?)?;
    applied(alloc, b"Succ", args)
}

// A name before its arguments.
fn applied(alloc: Global, name: &[u8], args: Vec<Written>) -> Result<Written, NoMemory>
    ensures { IfOk result (λ term. written_term_of term
        ≡ before_arguments name.now (written_terms (written_terms_of args.items))) }
{
    Ok(Written {
        place: Place {
            text: 0,
            line: 1,
            col: 1,
        },
        name: Name::of(Vec::from_slice(alloc, name)?),
        form: Form::Prefix,
        args,
        sorts: Vec::new(alloc),
    })
}
