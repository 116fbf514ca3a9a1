//! Terms that are kept once.

ghost use Rattle.std.proofs.Common.{get_or};
ghost use Rattle.std.specs.Option.{option_map};
ghost use Rattle.std.specs.Prelude.{◌≡◌, ◌<◌, [], IfOk, length};
ghost use Rattle.term_store.specs.Cells.{
  HasOneMore,
  KeyStandsAt,
  numbered_operation_key,
  operation_in,
  variable_key,
};
ghost use Rattle.term_store.specs.KeyView.{words_of};

use crate::key::Key;
use indexmap::IndexSet;
use lotos_base::NoMemory;
use std::alloc::Global;

/// Terms, each kept once, numbered from 0 in the order in which they came. A term is kept as a key,
/// which has the numbers of the arguments, which came before it.
#[derive(Drop)]
pub struct SharedTerms {
    keys: IndexSet<Key>,
}

impl SharedTerms {
    ghost use Rattle.term_store.specs.SharedView.{keys_in};

    /// No terms.
    pub fn new(alloc: Global) -> SharedTerms
        ensures { keys_in result ≡ [] }
    {
        SharedTerms {
            keys: IndexSet::new(alloc),
        }
    }

    /// The key of the term with this number.
    pub fn key(&self, number: usize) -> &Key
        requires { number < length (keys_in self.now) }
        ensures { words_of result.now ≡ get_or (keys_in self.now) number [] }
    {
        &self.keys.as_slice()[number]
    }

    /// The operation at the head of the term with this number, and the numbers of its arguments, or
    /// none where the term is a variable.
    pub fn operation(&self, number: usize) -> Option<(u32, &[u32])>
        requires { number < length (keys_in self.now) }
        ensures { option_map (λ found. (found.0, found.1.now)) result
            ≡ operation_in (get_or (keys_in self.now) number []) }
    {
        self.key(number).operation()
    }

    /// The number of the operation on the terms with these numbers, which is kept if it was not
    /// before.
    pub fn number_on(&mut self, op: u32, numbers: &[u32]) -> Result<u32, NoMemory>
        ensures more { HasOneMore (keys_in self.old) (numbered_operation_key op numbers.now)
            (keys_in self.new) }
        ensures stands { IfOk result (λ number. KeyStandsAt (keys_in self.new)
            (numbered_operation_key op numbers.now) number) }
    {
        let alloc = *self.keys.allocator();
        let key = Key::of(alloc, op, numbers)?;
        self.number(key)
    }

    /// The number of the variable, which is kept if it was not before.
    pub fn variable(&mut self, number: u64, sort: u32) -> Result<u32, NoMemory>
        ensures more { HasOneMore (keys_in self.old) (variable_key number sort)
            (keys_in self.new) }
        ensures stands { IfOk result
            (λ n. KeyStandsAt (keys_in self.new) (variable_key number sort) n) }
    {
        self.number(Key::Variable(sort, number))
    }

    // The number of the term with this key, which is kept if it was not before. There is no memory
    // for more terms than have numbers.
    fn number(&mut self, key: Key) -> Result<u32, NoMemory>
        ensures more { HasOneMore (keys_in self.old) (words_of key) (keys_in self.new) }
        ensures stands { IfOk result
            (λ number. KeyStandsAt (keys_in self.new) (words_of key) number) }
    {
        let (number, _) = self.keys.insert_full(key)?;
        if number > u32::MAX as usize {
            return Err(NoMemory);
        }
        Ok(number as u32)
    }
}
