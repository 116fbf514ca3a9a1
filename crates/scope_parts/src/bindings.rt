//! Names bound to numbers. An inner binding hides the outer ones of its name, until it is taken off
//! again.

ghost use Rattle.lotos_base.specs.Name.{folded, spelling};
ghost use Rattle.scope_parts.specs.Bindings.{bindings_of, hidden_by, hidden_in, kept_under};
ghost use Rattle.scope_parts.specs.Scope.{bind, bound_to};
ghost use Rattle.std.proofs.Props.{props};
ghost use Rattle.std.specs.Prelude.{
  ◌≡◌,
  ◌-◌,
  ◌<◌,
  ◌≤◌,
  [],
  ℕ,
  List,
  IfOk,
  OnErr,
  OnOk,
  drop,
  length,
};

use crate::bound::Bound;
use lotos_base::{Name, NoMemory};
use std::alloc::Global;
use std::collections::HashMap;

/// Bindings of names, each found without looking through a list. Letter case is not distinguished.
#[derive(Drop)]
pub struct Bindings {
    numbers: HashMap<Vec<u8>, usize>,
    bound: Vec<Bound>,
    pub ghost indexed: { (key : List ℕ) → kept_under numbers.entries key
        ≡ bound_to (bindings_of bound.items) key } by { Prim.hlevel props },
    pub ghost hiding: { hidden_in bound.items
        ≡ hidden_by (bindings_of bound.items) } by { Prim.hlevel props },
}

impl Bindings {
    ghost use Rattle.scope_parts.specs.BindingsView.{bindings_in};

    /// No bindings.
    pub fn new(alloc: Global) -> Bindings
        ensures { bindings_in result ≡ [] }
    {
        Bindings {
            numbers: HashMap::new(alloc),
            bound: Vec::new(alloc),
        }
    }

    /// How many bindings there are, the hidden ones among them.
    pub fn size(&self) -> usize
        ensures { result ≡ length (bindings_in self.now) }
    {
        self.bound.len()
    }

    /// The number that the name is bound to, if it is.
    pub fn find(&self, alloc: Global, name: &Name) -> Result<Option<usize>, NoMemory>
        ensures { IfOk result (λ found. found
            ≡ bound_to (bindings_in self.now) (folded (spelling name.now))) }
    {
        let key = fold_case(alloc, name)?;
        Ok(self.numbers.get(key.as_slice()).copied())
    }

    /// Binds the name to the number.
    pub fn bind(&mut self, alloc: Global, name: &Name, number: usize) -> Result<(), NoMemory>
        ensures bound { OnOk result (bindings_in self.new
            ≡ bind (spelling name.now) number (bindings_in self.old)) }
        ensures unchanged { OnErr result (bindings_in self.new ≡ bindings_in self.old) }
    {
        let key = fold_case(alloc, name)?;
        let kept = Vec::from_slice(alloc, key.as_slice())?;
        let hidden = self.numbers.get(key.as_slice()).copied();
        self.bound.reserve(1)?;
        self.numbers.insert(key, number)?;
        self.bound.push(Bound {
            key: kept,
            number,
            hidden,
        })?;
        Ok(())
    }

    /// Takes off the innermost bindings until so many are left.
    pub fn cut_to(&mut self, size: usize)
        requires { size ≤ length (bindings_in self.old) }
        ensures { bindings_in self.new
            ≡ drop (length (bindings_in self.old) - size) (bindings_in self.old) }
    {
        while self.size() > size {
            self.unbind();
        }
    }

    // Takes off the innermost binding, so that what it hid is seen again.
    fn unbind(&mut self)
        requires { 0 < length (bindings_in self.old) }
        ensures { bindings_in self.new ≡ drop 1 (bindings_in self.old) }
    {
        let Some(last) = self.bound.pop() else {
            unreachable!()
        };
        match last.hidden {
            None => {
                let _number = self.numbers.remove(last.key.as_slice());
            }
            Some(number) => {
                let Ok(_number) = self.numbers.insert(last.key, number) else {
                    unreachable!()
                };
            }
        }
    }
}

// The spelling of a name in ASCII lower case.
fn fold_case(alloc: Global, name: &Name) -> Result<Vec<u8>, NoMemory>
    ensures { IfOk result (λ key. key.items ≡ folded (spelling name.now)) }
{
    let mut key = Vec::from_slice(alloc, name.spelled())?;
    key.as_mut_slice().make_ascii_lowercase();
    Ok(key)
}
