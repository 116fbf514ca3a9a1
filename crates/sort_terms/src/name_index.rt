//! Numbers under names: what has a name is found without looking through a list.

ghost use Rattle.lotos_base.specs.Name.{folded, spelling};
ghost use Rattle.std.specs.Prelude.{◌≡◌, ◌∷◌, ◌++◌, [], ℕ, List, IfOk, OnErr, OnOk, if◌then◌else◌};
ghost use Rattle.std.specs.Str.{bytes_eq};

use lotos_base::{Name, NoMemory};
use std::alloc::Global;
use std::collections::HashMap;

/// Lists of numbers, each under a name. Letter case is not distinguished.
#[derive(Drop)]
pub struct NameIndex {
    numbers: HashMap<Vec<u8>, Vec<usize>>,
    nothing: Vec<usize>,
    pub ghost nothing_is_empty: { nothing.items ≡ [] },
}

impl NameIndex {
    ghost use Rattle.sort_terms.specs.NameIndex.{numbers_under};

    /// Nothing under any name.
    pub fn new(alloc: Global) -> NameIndex
        ensures { (key : List ℕ) → numbers_under result key ≡ [] }
    {
        NameIndex {
            numbers: HashMap::new(alloc),
            nothing: Vec::new(alloc),
        }
    }

    /// Adds a number at the end of those under the name.
    pub fn add(&mut self, alloc: Global, name: &Name, number: usize) -> Result<(), NoMemory>
        ensures added { OnOk result ((key : List ℕ) → numbers_under self.new key
            ≡ numbers_under self.old key ++ (if bytes_eq key
            (folded (spelling name.now)) then number ∷ [] else [])) }
        ensures unchanged { OnErr result ((key : List ℕ) → numbers_under self.new key
            ≡ numbers_under self.old key) }
    {
        let key = fold_case(alloc, name)?;
        if let Some(numbers) = self.numbers.get_mut(key.as_slice()) {
            numbers.push(number)?;
            return Ok(());
        }
        let mut numbers = Vec::new(alloc);
        numbers.push(number)?;
        self.numbers.insert(key, numbers)?;
        Ok(())
    }

    /// The numbers under the name, in the order in which they were added.
    pub fn numbers(&self, alloc: Global, name: &Name) -> Result<&[usize], NoMemory>
        ensures { IfOk result (λ numbers. numbers.now ≡ numbers_under self.now
            (folded (spelling name.now))) }
    {
        let key = fold_case(alloc, name)?;
        match self.numbers.get(key.as_slice()) {
            Some(numbers) => Ok(numbers.as_slice()),
            None => Ok(self.nothing.as_slice()),
        }
    }
}

// The spelling of a name in ASCII lower case.
fn fold_case(alloc: Global, name: &Name) -> Result<Vec<u8>, NoMemory>
    ensures { IfOk result (λ key. key.items ≡ folded (spelling name.now)) }
{
    let mut key = Vec::from_slice(alloc, name.spelled())?;
    key.as_mut_slice().make_ascii_lowercase();
    Ok(key)
}
