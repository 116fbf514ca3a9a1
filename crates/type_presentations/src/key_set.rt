//! Keys, each once.

ghost use Rattle.std.specs.Prelude.{
  ◌≡◌,
  ◌∷◌,
  [],
  not,
  IfOk,
  OnOk,
};
ghost use Rattle.std.specs.List.{list_any};
ghost use Rattle.std.specs.Str.{bytes_eq};
ghost use Rattle.type_definitions.specs.Presentation.{first_position, with_new};

use indexmap::IndexSet;
use lotos_base::NoMemory;
use std::alloc::Global;

/// Keys, each once, numbered from 0 in the order in which they were added.
#[derive(Drop)]
pub struct KeySet {
    keys: IndexSet<Vec<usize>>,
}

/// Where a key stands, and whether it has just come.
#[derive(Drop)]
pub struct Placed {
    /// Its number.
    pub number: usize,
    /// Whether it was not there before.
    pub is_new: bool,
}

impl KeySet {
    ghost use Rattle.type_presentations.specs.KeyView.{keys_in_set};

    /// No keys.
    pub fn new(alloc: Global) -> KeySet
        ensures { keys_in_set result ≡ [] }
    {
        KeySet {
            keys: IndexSet::new(alloc),
        }
    }

    /// Adds a key at the end. A key that is there stays alone.
    pub fn add(&mut self, key: Vec<usize>) -> Result<Placed, NoMemory>
        ensures keys { OnOk result (keys_in_set self.new
            ≡ with_new bytes_eq (keys_in_set self.old) (key.items ∷ [])) }
        ensures number { IfOk result (λ placed. placed.number
            ≡ first_position (bytes_eq key.items) (keys_in_set self.new)) }
        ensures is_new { IfOk result (λ placed. placed.is_new
            ≡ not (list_any (bytes_eq key.items) (keys_in_set self.old))) }
    {
        let (number, is_new) = self.keys.insert_full(key)?;
        Ok(Placed { number, is_new })
    }
}
