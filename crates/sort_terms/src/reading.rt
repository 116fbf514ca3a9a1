//! Reads written terms over a signature.

ghost use Rattle.lotos_base.specs.WrittenView.{written_term_of};
ghost use Rattle.sort_terms.specs.FoundAt.{IsFoundAt};
ghost use Rattle.sort_terms.specs.ProfiledTerm.{IsOf};
ghost use Rattle.sort_terms.specs.ReaderView.{signature_read};
ghost use Rattle.sort_terms.specs.Reading.{IsScopeOver};
ghost use Rattle.sort_terms.specs.ReadingOutcome.{PairReadingIs, ReadingIs, answered, refused};
ghost use Rattle.sort_terms.specs.RefusalView.{UnlessNoMemory};
ghost use Rattle.sort_terms.specs.ScopeView.{variables_in};
ghost use Rattle.sort_terms.specs.SortedView.{profiled_in, term_in};
ghost use Rattle.sort_terms.specs.Tables.{choice_at_sort};
ghost use Rattle.sort_terms.specs.TableView.{table_of};
ghost use Rattle.std.specs.Prelude.{◌≡◌, IfErr, IfOk};

use crate::choices::Found;
use crate::counted::Counted;
use crate::reader::Reader;
use crate::scope::Scope;
use crate::sort_faults::SortFault;
use crate::sorted::Sorted;
use lotos_base::Written;

impl Reader<'_> {
    /// The one reading of the written term, of the expected sort where one is given.
    ///
    /// First, in text order, a name that stands for nothing is refused as `UnknownName`, and the
    /// name of no sort behind an `of` as `UnknownSort`. Then, at the term's place, `NoReading` and
    /// `TwoReadings` come where there is no reading, or more than one.
    pub fn read_in(
        &self,
        scope: &Scope,
        written: &Written,
        expected: Option<u32>,
    ) -> Result<Sorted, SortFault>
        requires { IsScopeOver (signature_read self.now) (variables_in scope.now) }
        ensures read { IfOk result (λ t. IsOf (signature_read self.now) (profiled_in t)
            × ReadingIs (signature_read self.now) (variables_in scope.now)
            (written_term_of written.now) expected
            (answered (record { term = term_in t; sort = t.sort }))) }
        ensures refused { IfErr result (λ fault. UnlessNoMemory fault (λ r.
            ReadingIs (signature_read self.now) (variables_in scope.now)
            (written_term_of written.now) expected (refused r))) }
    {
        if let Some(fault) = self.first_unknown(scope, written)? {
            return Err(fault);
        }
        let counted = self.counted(scope, written)?;
        match found_at(&counted, expected) {
            Found::Nothing => Err(SortFault::NoReading {
                place: written.place,
            }),
            Found::Several => Err(SortFault::TwoReadings {
                place: written.place,
            }),
            Found::One(sort) => Ok(self.only_reading(&counted, sort)?),
        }
    }
}

impl Reader<'_> {
    /// The one pair of readings of the two written terms that have one sort.
    ///
    /// Names are refused as in `read_in`, over the left term and then the right one; `NoReading`
    /// and `TwoReadings` come at the left term's place.
    pub fn read_pair(
        &self,
        scope: &Scope,
        left: &Written,
        right: &Written,
    ) -> Result<(Sorted, Sorted), SortFault>
        requires { IsScopeOver (signature_read self.now) (variables_in scope.now) }
        ensures read { IfOk result (λ pair. IsOf (signature_read self.now) (profiled_in pair.0)
            × IsOf (signature_read self.now) (profiled_in pair.1) × (pair.1.sort ≡ pair.0.sort)
            × PairReadingIs (signature_read self.now) (variables_in scope.now)
            (written_term_of left.now) (written_term_of right.now)
            (answered
            (record { left = term_in pair.0; right = term_in pair.1; sort = pair.0.sort }))) }
        ensures refused { IfErr result (λ fault. UnlessNoMemory fault (λ r.
            PairReadingIs (signature_read self.now) (variables_in scope.now)
            (written_term_of left.now) (written_term_of right.now) (refused r))) }
    {
        if let Some(fault) = self.first_unknown(scope, left)? {
            return Err(fault);
        }
        if let Some(behind) = self.first_unknown(scope, right)? {
            return Err(behind);
        }
        let one = self.counted(scope, left)?;
        let other = self.counted(scope, right)?;
        let common = one.choices.common(self.alloc, &other.choices)?;
        match common.found() {
            Found::Nothing => Err(SortFault::NoReading { place: left.place }),
            Found::Several => Err(SortFault::TwoReadings { place: left.place }),
            Found::One(sort) => {
                let first = self.only_reading(&one, sort)?;
                let second = self.only_reading(&other, sort)?;
                Ok((first, second))
            }
        }
    }
}

// How many readings there are of the expected sort, or over all sorts.
fn found_at(counted: &Counted, expected: Option<u32>) -> Found
    ensures { IsFoundAt (choice_at_sort (table_of counted.now)) expected result }
{
    let Some(sort) = expected else {
        return counted.choices.found();
    };
    match counted.choices.at(sort) {
        None => Found::Nothing,
        Some(choice) => {
            if choice.several {
                Found::Several
            } else {
                Found::One(sort)
            }
        }
    }
}
