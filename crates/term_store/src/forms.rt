//! Terms that are kept once, some with their chosen forms.

ghost use Rattle.std.specs.Prelude.{◌≡◌, ◌⊎◌, [], IfOk};
ghost use Rattle.term_store.specs.Kept.{KeepsAtMost, KeepsFor, form_or_same, kept_at};
ghost use Rattle.term_store.specs.SharedView.{keys_in};

use crate::shared::SharedTerms;
use lotos_base::NoMemory;
use std::alloc::Global;

/// Terms that are kept once, some with the numbers of their chosen forms.
#[derive(Drop)]
pub struct Forms {
    /// The terms.
    pub shared: SharedTerms,
    kept: Vec<Option<u32>>,
}

impl Forms {
    /// No terms.
    pub fn new(alloc: Global) -> Forms
        ensures terms { keys_in result.shared ≡ [] }
        ensures kept { result.kept.items ≡ [] }
    {
        Forms {
            shared: SharedTerms::new(alloc),
            kept: Vec::new(alloc),
        }
    }

    /// The number of the form that is kept for the term with this number, if one is.
    pub fn form(&self, number: u32) -> Option<u32>
        ensures { result ≡ kept_at self.now.kept.items number }
    {
        if (number as usize) < self.kept.len() {
            self.kept[number as usize]
        } else {
            None
        }
    }

    /// The number of the form that is kept for the term with this number, or that number itself.
    pub fn form_or_same(&self, number: u32) -> u32
        ensures { result ≡ form_or_same self.now.kept.items number }
    {
        match self.form(number) {
            Some(form) => form,
            None => number,
        }
    }

    /// Keeps the form of the term with this number.
    pub fn keep(&mut self, number: u32, form: u32) -> Result<(), NoMemory>
        ensures terms { self.new.shared ≡ self.old.shared }
        ensures at_most { KeepsAtMost self.old.kept.items (λ n. n ≡ number) form
            self.new.kept.items }
        ensures kept { IfOk result (λ done. KeepsFor self.old.kept.items (λ n. n ≡ number)
            self.new.kept.items) }
    {
        while self.kept.len() <= number as usize {
            self.kept.push(None)?;
        }
        self.kept[number as usize] = Some(form);
        Ok(())
    }

    /// Keeps the form of both terms.
    pub fn keep_both(&mut self, term: u32, whole: u32, form: u32) -> Result<(), NoMemory>
        ensures terms { self.new.shared ≡ self.old.shared }
        ensures at_most { KeepsAtMost self.old.kept.items (λ n. (n ≡ term) ⊎ (n ≡ whole)) form
            self.new.kept.items }
        ensures kept { IfOk result (λ done. KeepsFor self.old.kept.items
            (λ n. (n ≡ term) ⊎ (n ≡ whole)) self.new.kept.items) }
    {
        self.keep(term, form)?;
        self.keep(whole, form)
    }
}
