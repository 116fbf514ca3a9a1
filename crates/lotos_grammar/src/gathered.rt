//! The types that were gathered so far.

ghost use Rattle.std.specs.Prelude.{◌≡◌, ℕ, ◌<◌, length};

use lotos_base::Name;
use std::alloc::Global;
use syntax_trees::ItemText;

/// The types of a text and of the libraries that were read, and the names of these libraries.
#[derive(Debug, Drop)]
pub struct Gathered {
    /// The libraries in the order of reading, each as it was spelled where it was mentioned first.
    /// Their texts are
    /// numbered from 2 on.
    pub libraries: Vec<Name>,
    /// The types, those of a library in place of its first mention.
    pub types: Vec<ItemText>,
}

impl Gathered {
    ghost use Rattle.lotos_grammar.specs.GatheredView.{gathered_of};
    ghost use Rattle.lotos_grammar.specs.Gathering.{nothing_yet, is_read};
    ghost use Rattle.lotos_base.specs.Name.{spelling};

    /// Nothing yet.
    pub fn new(alloc: Global) -> Gathered
        ensures { gathered_of result ≡ nothing_yet }
    {
        Gathered {
            libraries: Vec::new(alloc),
            types: Vec::new(alloc),
        }
    }

    /// Whether a library of the name was read.
    pub fn has(&self, name: &Name) -> bool
        ensures { result ≡ is_read (gathered_of self.now).read (spelling name.now) }
    {
        for library in &self.libraries {
            if name.same(library) {
                return true;
            }
        }
        false
    }
}
