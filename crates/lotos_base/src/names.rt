//! Names as they were spelled. Names that differ in ASCII letter case alone are one name.

ghost use Rattle.std.specs.Prelude.{◌≡◌, ◌↔◌, IsTrue, IfOk};

use std::alloc::{AllocError, Global};

/// A name, kept as it was spelled.
#[derive(Debug, Drop)]
pub struct Name {
    spelled: Vec<u8>,
}

impl Name {
    ghost use Rattle.lotos_base.specs.Name.{spelling, AreSame};

    /// The name with this spelling.
    pub fn of(spelled: Vec<u8>) -> Name
        ensures { spelling result ≡ spelled.items }
    {
        Name { spelled }
    }

    /// The spelling.
    pub fn spelled(&self) -> &[u8]
        ensures { result.now ≡ spelling self.now }
    {
        self.spelled.as_slice()
    }

    /// The same name, spelled the same.
    pub fn copy(&self, alloc: Global) -> Result<Name, AllocError>
        ensures { IfOk result (λ copy. spelling copy ≡ spelling self.now) }
    {
        Ok(Name::of(Vec::from_slice(alloc, self.spelled())?))
    }

    /// Whether the two names are the same without regard to ASCII letter case.
    pub fn same(&self, other: &Name) -> bool
        ensures { IsTrue result ↔ AreSame self.now other.now }
    {
        self.spelled().eq_ignore_ascii_case(other.spelled())
    }
}
