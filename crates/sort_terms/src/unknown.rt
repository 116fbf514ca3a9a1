//! The first name in a written term that stands for nothing.

ghost use Rattle.lotos_base.specs.Name.{spelling};
ghost use Rattle.lotos_base.specs.WrittenLaws.{head_of};
ghost use Rattle.lotos_base.specs.WrittenView.{form_of, placed_name_of, written_term_of};
ghost use Rattle.sort_terms.specs.Positions.{positions_of};
ghost use Rattle.sort_terms.specs.ReaderView.{signature_read};
ghost use Rattle.sort_terms.specs.ReadingOutcome.{
  is_known,
  is_operation_name,
  refusals_together,
  unknown_in,
  unknown_sorts,
};
ghost use Rattle.sort_terms.specs.RefusalView.{IsFirstRefusal};
ghost use Rattle.sort_terms.specs.ScopeView.{variables_in};
ghost use Rattle.sort_terms.specs.Searching.{between, early_count, form_is};
ghost use Rattle.std.specs.Prelude.{◌≡◌, ◌≤◌, ◌<◌, IfOk, length, map, slice_get};

use crate::reader::Reader;
use crate::scope::Scope;
use crate::sort_faults::SortFault;
use lotos_base::{Form, Name, NoMemory, Place, Written};

impl Reader<'_> {
    /// The first name in text order that stands for nothing: an infix operation stands behind its
    /// first argument, and each `of` behind what it is put on.
    #[cycle(unknown)]
    pub(crate) fn first_unknown(
        &self,
        scope: &Scope,
        written: &Written,
    ) -> Result<Option<SortFault>, NoMemory>
        ensures { IfOk result (IsFirstRefusal (unknown_in (signature_read self.now)
            (variables_in scope.now) (written_term_of written.now))) }
    {
        let early = early_arguments(written.form, written.args.len());
        if let Some(before) = self.first_among(scope, &written.args, 0, early)? {
            return Ok(Some(before));
        }
        if !self.is_known(scope, written)? {
            return Ok(Some(SortFault::UnknownName {
                place: written.place,
            }));
        }
        if let Some(behind) = self.first_among(scope, &written.args, early, written.args.len())? {
            return Ok(Some(behind));
        }
        self.first_unknown_sort(&written.sorts)
    }

    // The first one in the arguments from a position on and before another one.
    #[cycle(unknown)]
    fn first_among(
        &self,
        scope: &Scope,
        written: &Vec<Written>,
        from: usize,
        to: usize,
    ) -> Result<Option<SortFault>, NoMemory>
        requires order { from ≤ to }
        requires end { to ≤ length written.now.items }
        ensures { IfOk result (IsFirstRefusal (refusals_together (map
            (λ w. unknown_in (signature_read self.now) (variables_in scope.now) (written_term_of w))
            (between from to written.now.items)))) }
    {
        for i in from..to {
            if let Some(fault) = self.first_unknown(scope, &written[i])? {
                return Ok(Some(fault));
            }
        }
        Ok(None)
    }

    // The first `of` that names no sort.
    fn first_unknown_sort(&self, sorts: &Vec<(Place, Name)>) -> Result<Option<SortFault>, NoMemory>
        ensures { IfOk result (IsFirstRefusal (unknown_sorts (signature_read self.now)
            (map placed_name_of sorts.now.items))) }
    {
        for (place, name) in sorts {
            let None = self.sort_named(name)? else {
                continue;
            };
            return Ok(Some(SortFault::UnknownSort { place: *place }));
        }
        Ok(None)
    }

    // Whether a variable in scope or an operation has the name and form.
    fn is_known(&self, scope: &Scope, written: &Written) -> Result<bool, NoMemory>
        ensures { IfOk result (λ known. known ≡ is_known (signature_read self.now)
            (variables_in scope.now) (head_of written.now)) }
    {
        match written.form {
            Form::Infix => self.is_operation(&written.name, Form::Infix),
            Form::Prefix => match scope.last_named(self.alloc, &written.name)? {
                Some(_) => Ok(true),
                None => self.is_operation(&written.name, Form::Prefix),
            },
        }
    }

    // Whether an operation has the name and form.
    fn is_operation(&self, name: &Name, form: Form) -> Result<bool, NoMemory>
        ensures { IfOk result (λ known. known ≡ is_operation_name (signature_read self.now)
            (spelling name.now) (form_of form)) }
    {
        for number in self.operations.numbers(self.alloc, name)? {
            if self.has_form(*number, form) {
                return Ok(true);
            }
        }
        Ok(false)
    }

    // Whether the operation with this number has the form.
    fn has_form(&self, number: usize, form: Form) -> bool
        requires { number < length self.now.signature.now.ops.items }
        ensures { result ≡ form_is (form_of form)
            (slice_get (signature_read self.now).operations number) }
    {
        self.signature.ops()[number].form == form
    }
}

// How many of the arguments stand before the name.
fn early_arguments(form: Form, arguments: usize) -> usize
    ensures { result ≡ early_count (form_of form) arguments }
{
    match form {
        Form::Infix => { if arguments == 0 { 0 } else { 1 } }
        Form::Prefix => 0,
    }
}
